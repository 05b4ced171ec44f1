//! Which literals are a clause of one of the laws of sums, products and differences.
//! The clauses are those of `specs/NumberLaws.antt`.

ghost use Rattle.std.specs.Prelude.{◌≡◌};
ghost use Rattle.law_clauses.specs.Signed.{two_signed, three_signed};
ghost use Rattle.law_clauses.specs.NumberLaws.{law_22, adds_nothing, multiplies_by_unit, law_23};
ghost use Rattle.law_clauses.specs.NumberLaws.{law_24};

use crate::shapes::{is_add, is_mul, is_num};
use rule_terms::{Atom, Literal, ValueNode, ValueTerm};

// Operands exchanged.
#[tactic(auto, unfolding(crate::specs::NumberLaws::law_22))]
pub fn exchanges_operands(x: &Literal, y: &Literal, z: &Literal) -> bool
    ensures { result ≡ law_22 (three_signed x.now y.now z.now) }
{
    match (x.sign, &x.atom, y.sign, &y.atom, z.sign, &z.atom) {
        (false, Atom::SameValue(a, d), false, Atom::SameValue(b, c), true, Atom::SameValue(v, w)) =>
            {
                match &v.node {
                    ValueNode::Add(p, q) => p.get().same(a) && q.get().same(b) && is_add(w, c, d),
                    ValueNode::Mul(p, q) => p.get().same(a) && q.get().same(b) && is_mul(w, c, d),
                    _ => false,
                }
            }
        _ => false,
    }
}

fn adds_nothing(u: &ValueTerm, z: &ValueTerm, a: &ValueTerm, b: &ValueTerm, w: &ValueTerm) -> bool
    ensures { result ≡ adds_nothing u.now z.now a.now b.now w.now }
{
    is_num(z, 0) && ((u.same(b) && w.same(a)) || (u.same(a) && w.same(b)))
}

fn multiplies_by_unit(
    u: &ValueTerm,
    z: &ValueTerm,
    a: &ValueTerm,
    b: &ValueTerm,
    w: &ValueTerm,
) -> bool
    ensures { result ≡ multiplies_by_unit u.now z.now a.now b.now w.now }
{
    (is_num(z, 0) && (u.same(a) || u.same(b)) && is_num(w, 0))
        || (is_num(z, 1) && ((u.same(a) && w.same(b)) || (u.same(b) && w.same(a))))
}

// An operand that is 0, or a factor that is 1.
#[tactic(auto, unfolding(crate::specs::NumberLaws::law_23))]
pub fn has_unit(x: &Literal, y: &Literal) -> bool
    ensures { result ≡ law_23 (two_signed x.now y.now) }
{
    match (x.sign, &x.atom, y.sign, &y.atom) {
        (false, Atom::SameValue(u, z), true, Atom::SameValue(v, w)) => match &v.node {
            ValueNode::Add(a, b) => adds_nothing(u, z, a.get(), b.get(), w),
            ValueNode::Mul(a, b) => multiplies_by_unit(u, z, a.get(), b.get(), w),
            _ => false,
        },
        _ => false,
    }
}

// The difference of equals.
#[tactic(auto, unfolding(crate::specs::NumberLaws::law_24))]
pub fn takes_itself(x: &Literal, y: &Literal) -> bool
    ensures { result ≡ law_24 (two_signed x.now y.now) }
{
    match (x.sign, &x.atom, y.sign, &y.atom) {
        (false, Atom::SameValue(a, b), true, Atom::SameValue(v, w)) => match &v.node {
            ValueNode::Sub(c, d) => c.get().same(a) && d.get().same(b) && is_num(w, 0),
            _ => false,
        },
        _ => false,
    }
}
