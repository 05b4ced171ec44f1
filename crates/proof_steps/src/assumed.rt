//! What is assumed on the way to a part of a refutation: it is looked up from part to part, without memory.
//! `specs/Ways.antt` says what is assumed where.

ghost use Rattle.std.specs.Prelude.{◌≡◌, get_or, []};
ghost use Rattle.std.specs.List.{list_any};
ghost use Rattle.law_clauses.specs.Signed.{signed_of, signed_same};
ghost use Rattle.proof_steps.specs.Ways.{all_listed, assumed_list, ways, is_turned};

use law_clauses::{is_negation, same_signed};
use refutations::{Part, Refutation};
use rule_terms::Literal;

/// A part of a refutation, by its number, and what is assumed at the beginning.
#[derive(Clone, Copy)]
pub struct Assumed<'a> {
    pub proof: &'a Refutation,
    pub at: usize,
    pub first: &'a [&'a Literal],
}

fn is_listed(xs: &[&Literal], x: &Literal) -> bool
    ensures { result ≡ list_any (signed_same (signed_of x.now)) (all_listed xs.now) }
{
    for y in xs {
        if same_signed(x, *y) {
            return true;
        }
    }
    false
}

// Whether a branch of the split at a part assumes the literal: the first branch what the split says, the second its negation.
fn is_turned(part: &Part, back: usize, x: &Literal) -> bool
    ensures { result ≡ is_turned part.now back (signed_of x.now) }
{
    match part {
        Part::Split(y) => {
            if back == 1 {
                same_signed(x, y)
            } else {
                is_negation(x, y)
            }
        }
        Part::Leaf(_) => false,
    }
}

// Whether the literal is assumed on the way to the part of this number.
#[tactic(auto, using(crate::proofs::Walking::back_assumes, crate::proofs::Walking::back_none, crate::proofs::Walking::none_beyond, crate::proofs::Walking::back_within, crate::proofs::Refuting::as_many_distances))]
fn is_on_way(proof: &Refutation, n: usize, first: &[&Literal], x: &Literal) -> bool
    ensures { result ≡ list_any (signed_same (signed_of x.now)) (get_or (ways (all_listed first.now) proof.now) n []) }
{
    let parts = proof.parts();
    let distances = proof.distances();
    if n >= parts.len() {
        return false;
    }
    let mut at = n;
    while distances[at] > 0 {
        let back = distances[at];
        at -= back;
        if is_turned(&parts[at], back, x) {
            return true;
        }
    }
    is_listed(first, x)
}

// Whether the literal is assumed on the way.
pub fn is_assumed(assumed: &Assumed<'_>, x: &Literal) -> bool
    ensures { result ≡ list_any (signed_same (signed_of x.now)) (assumed_list assumed.now) }
{
    is_on_way(assumed.proof, assumed.at, assumed.first, x)
}
