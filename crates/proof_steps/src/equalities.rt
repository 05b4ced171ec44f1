//! Steps that give an equality: of a term with itself, with its sides exchanged, by a chain, and by two bounds.
//! `specs/Steps.antt` has a definition of each.

ghost use Rattle.std.specs.Prelude.{◌≡◌, Some};
ghost use Rattle.law_clauses.specs.Signed.{signed_of};
ghost use Rattle.proof_steps.specs.Cited.{fact};
ghost use Rattle.proof_steps.specs.Steps.{by_itself, is_flipped, flipped, is_chain, chained, met};

use refutations::Step;
use rule_terms::{Atom, Literal};

#[tactic(auto, unfolding(crate::specs::Steps::by_itself))]
pub fn is_by_itself(x: &Literal) -> bool
    ensures { result ≡ by_itself (signed_of x.now) }
{
    match (x.sign, &x.atom) {
        (true, Atom::SameName(n, m)) => *n == *m,
        (true, Atom::SameStore(a, b)) => a.same(b),
        (true, Atom::SameValue(a, b)) => a.same(b),
        _ => false,
    }
}

fn is_flipped(a: &Atom, b: &Atom) -> bool
    ensures { result ≡ is_flipped a.now b.now }
{
    match (a, b) {
        (Atom::SameName(x, y), Atom::SameName(z, w)) => *z == *y && *w == *x,
        (Atom::SameStore(a, b), Atom::SameStore(c, d)) => c.same(b) && d.same(a),
        (Atom::SameValue(a, b), Atom::SameValue(c, d)) => c.same(b) && d.same(a),
        _ => false,
    }
}

#[tactic(auto, unfolding(crate::specs::Steps::flipped))]
fn flips(y: &Literal, x: &Literal) -> bool
    ensures { result ≡ flipped (Some (signed_of y.now)) (signed_of x.now) }
{
    match (y.sign, x.sign) {
        (true, true) => is_flipped(&y.atom, &x.atom),
        (false, false) => is_flipped(&y.atom, &x.atom),
        _ => false,
    }
}

#[tactic(auto, unfolding(crate::specs::Steps::flipped))]
pub fn is_flip(earlier: &[Step], k: u32, x: &Literal) -> bool
    ensures { result ≡ flipped (fact earlier.now k) (signed_of x.now) }
{
    match earlier.get(k as usize) {
        Some(step) => flips(&step.gives, x),
        None => false,
    }
}

fn is_chain_of(a: &Atom, b: &Atom, c: &Atom) -> bool
    ensures { result ≡ is_chain a.now b.now c.now }
{
    match (a, b, c) {
        (Atom::SameName(a, b), Atom::SameName(c, d), Atom::SameName(e, f)) => {
            *b == *c && *e == *a && *f == *d
        }
        (Atom::SameStore(a, b), Atom::SameStore(c, d), Atom::SameStore(e, f)) => {
            b.same(c) && e.same(a) && f.same(d)
        }
        (Atom::SameValue(a, b), Atom::SameValue(c, d), Atom::SameValue(e, f)) => {
            b.same(c) && e.same(a) && f.same(d)
        }
        _ => false,
    }
}

#[tactic(auto, unfolding(crate::specs::Steps::chained))]
fn chains(y: &Literal, z: &Literal, x: &Literal) -> bool
    ensures { result ≡ chained (Some (signed_of y.now)) (Some (signed_of z.now)) (signed_of x.now) }
{
    match (y.sign, z.sign, x.sign) {
        (true, true, true) => is_chain_of(&y.atom, &z.atom, &x.atom),
        _ => false,
    }
}

#[tactic(auto, unfolding(crate::specs::Steps::chained))]
pub fn is_chain(earlier: &[Step], j: u32, k: u32, x: &Literal) -> bool
    ensures { result ≡ chained (fact earlier.now j) (fact earlier.now k) (signed_of x.now) }
{
    match (earlier.get(j as usize), earlier.get(k as usize)) {
        (Some(first), Some(second)) => chains(&first.gives, &second.gives, x),
        _ => false,
    }
}

#[tactic(auto, unfolding(crate::specs::Steps::met))]
fn meets(y: &Literal, z: &Literal, x: &Literal) -> bool
    ensures { result ≡ met (Some (signed_of y.now)) (Some (signed_of z.now)) (signed_of x.now) }
{
    match (y.sign, &y.atom, z.sign, &z.atom, x.sign, &x.atom) {
        (true, Atom::AtMost(a, b, c), true, Atom::AtMost(d, e, f), true, Atom::SameValue(p, q)) => {
            *c == 0 && *f == 0 && d.same(b) && e.same(a) && p.same(a) && q.same(b)
        }
        _ => false,
    }
}

#[tactic(auto, unfolding(crate::specs::Steps::met))]
pub fn is_meeting(earlier: &[Step], j: u32, k: u32, x: &Literal) -> bool
    ensures { result ≡ met (fact earlier.now j) (fact earlier.now k) (signed_of x.now) }
{
    match (earlier.get(j as usize), earlier.get(k as usize)) {
        (Some(first), Some(second)) => meets(&first.gives, &second.gives, x),
        _ => false,
    }
}
