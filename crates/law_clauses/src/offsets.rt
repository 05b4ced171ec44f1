//! Offset terms: a value term plus or minus a constant.
//! `specs/Offsets.antt` says which term and which constant.

ghost use Rattle.std.specs.Prelude.{◌≡◌, ◌≤◌, ◌^◌, neg_ℤ, unsigned_abs, IfSome};
ghost use Rattle.std.specs.Option.{option_map};
ghost use Rattle.rule_terms.specs.Term.{add, sub};
ghost use Rattle.law_clauses.specs.Offsets.{offset, offset_by};

use rule_terms::{ValueNode, ValueTerm};

/// A term that a constant is added to, and the constant.
#[derive(Clone, Copy)]
pub struct Offset<'a> {
    pub base: &'a ValueTerm,
    pub by: i128,
}

fn opposite(c: i64) -> i128
    ensures value { result ≡ neg_ℤ c }
    ensures small { unsigned_abs result ≤ 2 ^ 64 }
{
    -i128::from(c)
}

#[tactic(auto, unfolding(crate::specs::Offsets::offset))]
fn sum_offset<'a>(a: &'a ValueTerm, b: &'a ValueTerm) -> Option<Offset<'a>>
    ensures value { option_map offset_by result ≡ offset (add a.now b.now) }
    ensures small { IfSome result (λ o. unsigned_abs o.by ≤ 2 ^ 64) }
{
    match (&a.node, &b.node) {
        (_, ValueNode::Num(c)) => Some(Offset {
            base: a,
            by: i128::from(*c),
        }),
        (ValueNode::Num(c), _) => Some(Offset {
            base: b,
            by: i128::from(*c),
        }),
        _ => None,
    }
}

#[tactic(auto, unfolding(crate::specs::Offsets::offset))]
fn less_offset<'a>(a: &'a ValueTerm, b: &'a ValueTerm) -> Option<Offset<'a>>
    ensures value { option_map offset_by result ≡ offset (sub a.now b.now) }
    ensures small { IfSome result (λ o. unsigned_abs o.by ≤ 2 ^ 64) }
{
    match &b.node {
        ValueNode::Num(c) => Some(Offset {
            base: a,
            by: opposite(*c),
        }),
        _ => None,
    }
}

/// The term that a constant is added to, and the constant: of a sum with a constant on either side,
/// the right one first, and of a difference with a constant on the right.
#[tactic(auto, unfolding(crate::specs::Offsets::offset))]
pub fn split_offset(v: &ValueTerm) -> Option<Offset<'_>>
    ensures value { option_map offset_by result ≡ offset v.now }
    ensures small { IfSome result (λ o. unsigned_abs o.by ≤ 2 ^ 64) }
{
    match &v.node {
        ValueNode::Add(a, b) => sum_offset(a.get(), b.get()),
        ValueNode::Sub(a, b) => less_offset(a.get(), b.get()),
        _ => None,
    }
}
