//! What steps before give, and what is cited of them.
//! `specs/Cited.antt` says what is compared.

ghost use Rattle.std.specs.Prelude.{◌≡◌};
ghost use Rattle.std.specs.Option.{option_map};
ghost use Rattle.rule_terms.specs.declared.obligation.Atom.TheVariants.{SameName, SameStore, SameValue};
ghost use Rattle.law_clauses.specs.Signed.{plus, signed_of, signed_same};
ghost use Rattle.proof_steps.specs.Cited.{fact, is_that};

use law_clauses::same_signed;
use refutations::Step;
use rule_terms::{Atom, Literal, StoreTerm, ValueTerm};

// The literal of the step of this number.
pub fn fact(earlier: &[Step], k: u32) -> Option<&Literal>
    ensures { option_map (λ x. signed_of x.now) result ≡ fact earlier.now k }
{
    match earlier.get(k as usize) {
        Some(step) => Some(&step.gives),
        None => None,
    }
}

pub fn says(earlier: &[Step], k: u32, x: &Literal) -> bool
    ensures { result ≡ is_that (fact earlier.now k) (signed_of x.now) }
{
    match earlier.get(k as usize) {
        Some(step) => same_signed(&step.gives, x),
        None => false,
    }
}

#[tactic(auto, unfolding(law_clauses::specs::Signed::signed_same, law_clauses::specs::Signed::atom_same))]
fn is_same_names(x: &Literal, n: u32, m: u32) -> bool
    ensures { result ≡ signed_same (signed_of x.now) (plus (SameName n m)) }
{
    match (x.sign, &x.atom) {
        (true, Atom::SameName(a, b)) => *a == n && *b == m,
        _ => false,
    }
}

#[tactic(auto, unfolding(law_clauses::specs::Signed::signed_same, law_clauses::specs::Signed::atom_same))]
fn is_same_stores(x: &Literal, s: &StoreTerm, t: &StoreTerm) -> bool
    ensures { result ≡ signed_same (signed_of x.now) (plus (SameStore s.now t.now)) }
{
    match (x.sign, &x.atom) {
        (true, Atom::SameStore(a, b)) => a.same(s) && b.same(t),
        _ => false,
    }
}

#[tactic(auto, unfolding(law_clauses::specs::Signed::signed_same, law_clauses::specs::Signed::atom_same))]
fn is_same_values(x: &Literal, v: &ValueTerm, w: &ValueTerm) -> bool
    ensures { result ≡ signed_same (signed_of x.now) (plus (SameValue v.now w.now)) }
{
    match (x.sign, &x.atom) {
        (true, Atom::SameValue(a, b)) => a.same(v) && b.same(w),
        _ => false,
    }
}

pub fn says_names(earlier: &[Step], k: u32, n: u32, m: u32) -> bool
    ensures { result ≡ is_that (fact earlier.now k) (plus (SameName n m)) }
{
    match earlier.get(k as usize) {
        Some(step) => is_same_names(&step.gives, n, m),
        None => false,
    }
}

pub fn says_stores(earlier: &[Step], k: u32, s: &StoreTerm, t: &StoreTerm) -> bool
    ensures { result ≡ is_that (fact earlier.now k) (plus (SameStore s.now t.now)) }
{
    match earlier.get(k as usize) {
        Some(step) => is_same_stores(&step.gives, s, t),
        None => false,
    }
}

pub fn says_values(earlier: &[Step], k: u32, v: &ValueTerm, w: &ValueTerm) -> bool
    ensures { result ≡ is_that (fact earlier.now k) (plus (SameValue v.now w.now)) }
{
    match earlier.get(k as usize) {
        Some(step) => is_same_values(&step.gives, v, w),
        None => false,
    }
}
