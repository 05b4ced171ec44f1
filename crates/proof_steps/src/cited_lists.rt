//! Lists of steps that give lists of literals, one for one.
//! `specs/Cited.antt` says what is cited.

ghost use Rattle.std.specs.Prelude.{◌≡◌, Some, None, slice_get};
ghost use Rattle.std.specs.List.{list_any};
ghost use Rattle.law_clauses.specs.Signed.{signed_of, all_signed, negated, signed_same};
ghost use Rattle.proof_steps.specs.Cited.{fact, is_that, cited};
ghost use Rattle.proof_steps.specs.Steps.{given_by, by_known, all_negated};

use crate::cites::says;
use law_clauses::{is_negation, is_num, same_signed};
use refutations::Step;
use rule_terms::{Atom, Conjunct, Literal};

// Whether the steps give the literals.
#[tactic(auto, using(crate::proofs::Lists::cited_count), unfolding(crate::specs::Cited::cited))]
pub fn are_cited(earlier: &[Step], ks: &[u32], xs: &[Literal]) -> bool
    ensures { result ≡ cited earlier.now ks.now (all_signed xs.now) }
{
    if ks.len() != xs.len() {
        return false;
    }
    for (i, x) in xs.iter().enumerate() {
        if !says(earlier, ks[i], x) {
            return false;
        }
    }
    true
}

// Whether the literal is one of these.
pub fn is_among(xs: &[Literal], x: &Literal) -> bool
    ensures { result ≡ list_any (signed_same (signed_of x.now)) (all_signed xs.now) }
{
    for y in xs {
        if same_signed(x, y) {
            return true;
        }
    }
    false
}

fn says_negation(earlier: &[Step], k: u32, x: &Literal) -> bool
    ensures { result ≡ is_that (fact earlier.now k) (negated (signed_of x.now)) }
{
    match earlier.get(k as usize) {
        Some(step) => is_negation(&step.gives, x),
        None => false,
    }
}

// Whether the steps give the negations of the literals.
#[tactic(auto, using(crate::proofs::Lists::denied_count), unfolding(crate::specs::Cited::cited, crate::specs::Steps::all_negated))]
pub fn are_denied(earlier: &[Step], ks: &[u32], xs: &[Literal]) -> bool
    ensures { result ≡ cited earlier.now ks.now (all_negated (all_signed xs.now)) }
{
    if ks.len() != xs.len() {
        return false;
    }
    for (i, x) in xs.iter().enumerate() {
        if !says_negation(earlier, ks[i], x) {
            return false;
        }
    }
    true
}

// What a conjunct that gives nothing gives.
#[tactic(auto, unfolding(law_clauses::specs::Signed::signed_same, law_clauses::specs::Signed::atom_same), using(law_clauses::proofs::Same::num_same))]
fn is_false(x: &Literal) -> bool
    ensures { result ≡ signed_same (signed_of x.now) (given_by None) }
{
    match (x.sign, &x.atom) {
        (true, Atom::AtMost(a, b, c)) => *c == -1 && is_num(a, 0) && is_num(b, 0),
        _ => false,
    }
}

#[tactic(auto)]
fn is_given_by(x: &Literal, gives: &Option<Literal>) -> bool
    ensures { result ≡ signed_same (signed_of x.now) (given_by gives.now) }
{
    match gives {
        None => is_false(x),
        Some(y) => same_signed(x, y),
    }
}

#[tactic(auto, unfolding(crate::specs::Steps::by_known))]
fn conjunct_gives(earlier: &[Step], c: &Conjunct, from: &[u32], x: &Literal) -> bool
    ensures { result ≡ by_known earlier.now (Some c.now) from.now (signed_of x.now) }
{
    are_cited(earlier, from, c.when.as_slice()) && is_given_by(x, &c.gives)
}

#[tactic(auto, unfolding(crate::specs::Steps::by_known))]
pub fn is_known(earlier: &[Step], known: &[Conjunct], k: u32, from: &[u32], x: &Literal) -> bool
    ensures { result ≡ by_known earlier.now (slice_get known.now k) from.now (signed_of x.now) }
{
    match known.get(k as usize) {
        Some(c) => conjunct_gives(earlier, c, from, x),
        None => false,
    }
}
