//! Whether two literals are the same, and whether one is the negation of the other.
//! `specs/Signed.antt` says what is compared.

ghost use Rattle.std.specs.Prelude.{◌≡◌};
ghost use Rattle.law_clauses.specs.Signed.{signed_of, negated, atom_same, signed_same};

use rule_terms::{Atom, Literal};

#[tactic(auto, unfolding(crate::specs::Signed::atom_same))]
fn same_atom(a: &Atom, b: &Atom) -> bool
    ensures { result ≡ atom_same a.now b.now }
{
    match (a, b) {
        (Atom::SameName(x, y), Atom::SameName(z, w)) => *x == *z && *y == *w,
        (Atom::SameStore(a, b), Atom::SameStore(c, d)) => a.same(c) && b.same(d),
        (Atom::SameValue(a, b), Atom::SameValue(c, d)) => a.same(c) && b.same(d),
        (Atom::AtMost(a, b, x), Atom::AtMost(c, d, y)) => *x == *y && a.same(c) && b.same(d),
        (Atom::Ends(s), Atom::Ends(t)) => s.same(t),
        (Atom::Holds(j, s), Atom::Holds(k, t)) => *j == *k && s.same(t),
        _ => false,
    }
}

/// Whether two literals are the same: their signs, and their atoms as they are written.
#[tactic(auto, unfolding(crate::specs::Signed::signed_same))]
pub fn same_signed(x: &Literal, y: &Literal) -> bool
    ensures { result ≡ signed_same (signed_of x.now) (signed_of y.now) }
{
    match (x.sign, y.sign) {
        (true, true) => same_atom(&x.atom, &y.atom),
        (false, false) => same_atom(&x.atom, &y.atom),
        _ => false,
    }
}

/// Whether the first literal is the negation of the second.
#[tactic(auto, unfolding(crate::specs::Signed::signed_same))]
pub fn is_negation(x: &Literal, y: &Literal) -> bool
    ensures { result ≡ signed_same (signed_of x.now) (negated (signed_of y.now)) }
{
    match (x.sign, y.sign) {
        (true, false) => same_atom(&x.atom, &y.atom),
        (false, true) => same_atom(&x.atom, &y.atom),
        _ => false,
    }
}
