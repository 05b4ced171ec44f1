//! Literals that follow by a law: a clause of it, of whose other literals the steps give the negations.
//! `specs/Steps.antt` says what is asked.

ghost use Rattle.std.specs.Prelude.{◌≡◌, ◌<◌, length};
ghost use Rattle.law_clauses.specs.Signed.{signed_of, all_signed};
ghost use Rattle.proof_steps.specs.Cited.{cited};
ghost use Rattle.proof_steps.specs.Steps.{without, all_negated, by_law};

use crate::cited_lists::are_denied;
use law_clauses::{is_clause, same_signed};
use refutations::Step;
use rule_terms::{Literal, Obligation};

// Whether the steps give the negations of the literals but that at `p`.
#[tactic(auto, using(crate::proofs::LeftOut::front_fails, crate::proofs::LeftOut::front_denied, crate::proofs::LeftOut::other_count))]
fn are_others_denied(earlier: &[Step], from: &[u32], clause: &[Literal], p: usize) -> bool
    requires { p < length clause.now }
    ensures { result ≡ cited earlier.now from.now (all_negated (without p (all_signed clause.now))) }
{
    if from.len() != clause.len() - 1 {
        return false;
    }
    if !are_denied(earlier, &from[..p], &clause[..p]) {
        return false;
    }
    are_denied(earlier, &from[p..], &clause[p + 1..])
}

/// Whether the literal is the one at `p` of a clause of the law `k`, and the steps give the negations of the others in order.
#[tactic(auto, using(crate::proofs::LeftOut::by_law_at, crate::proofs::LeftOut::by_law_other, crate::proofs::LeftOut::by_law_past))]
pub fn follows_by_law(
    ob: &Obligation,
    earlier: &[Step],
    k: u32,
    clause: &[Literal],
    p: u32,
    from: &[u32],
    x: &Literal,
) -> bool
    ensures { result ≡ by_law ob.now earlier.now k (all_signed clause.now) p from.now (signed_of x.now) }
{
    let at = p as usize;
    if at >= clause.len() {
        return false;
    }
    if !same_signed(&clause[at], x) {
        return false;
    }
    is_clause(ob, k, clause) && are_others_denied(earlier, from, clause, at)
}
