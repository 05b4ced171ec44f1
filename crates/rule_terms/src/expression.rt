//! The value terms of a rule's expressions at a store term.
//! `specs/ValueAt.antt` says which term stands for which expression.

ghost use Rattle.std.specs.Prelude.{◌≡◌, IfOk, true};
ghost use Rattle.toy_imp.specs.ExprView.{exprs_of};
ghost use Rattle.rule_terms.specs.Term.{get};
ghost use Rattle.rule_terms.specs.TermView.{terms_of};
ghost use Rattle.rule_terms.specs.ValueAt.{names_are_open, all_names_are_open, value_at, values_at, is_open, number_of};

use crate::term::{Place, StoreTerm, ValueTerm};
use sqlite_items::Items;
use std::alloc::Global;
use toy_imp::{Expr, ExprNode, Name, NoMemory};

/// The value term of an expression at a store term. Each name of the expression is a parameter.
#[cycle(value_at)]
#[tactic(auto, unfolding(crate::specs::ValueAt::value_at))]
pub fn value_at(alloc: Global, e: &Expr, s: &StoreTerm) -> Result<ValueTerm, NoMemory>
    requires { names_are_open e.now ≡ true }
    ensures { IfOk result (λ v. v ≡ value_at e.now s.now) }
{
    match &e.node {
        ExprNode::Num(z) => Ok(ValueTerm::num(*z)),
        ExprNode::At(x, indices) => {
            let indices = values_at(alloc, indices.as_slice(), s)?;
            reading_at(alloc, number_of(x), indices, s)
        }
        ExprNode::Add(a, b) => {
            let a = value_at(alloc, a.get(), s)?;
            let b = value_at(alloc, b.get(), s)?;
            ValueTerm::add(alloc, a, b)
        }
        ExprNode::Sub(a, b) => {
            let a = value_at(alloc, a.get(), s)?;
            let b = value_at(alloc, b.get(), s)?;
            ValueTerm::sub(alloc, a, b)
        }
        ExprNode::Mul(a, b) => {
            let a = value_at(alloc, a.get(), s)?;
            let b = value_at(alloc, b.get(), s)?;
            ValueTerm::mul(alloc, a, b)
        }
        ExprNode::Par(k) => {
            let s = s.copy(alloc)?;
            ValueTerm::ev(alloc, *k, s)
        }
    }
}

/// The value terms of expressions at a store term, in the same order.
#[cycle(value_at)]
#[tactic(auto, using(toy_imp::specs::ExprFalls::expr_item, crate::proofs::Opens::terms_map))]
pub fn values_at(alloc: Global, items: &[Expr], s: &StoreTerm) -> Result<Items<ValueTerm>, NoMemory>
    requires { all_names_are_open (exprs_of items.now) ≡ true }
    ensures { IfOk result (λ vs. terms_of vs ≡ values_at (exprs_of items.now) s.now) }
{
    let mut all = Items::new(alloc);
    for e in items {
        let v = value_at(alloc, e, s)?;
        all.push(v)?;
    }
    Ok(all)
}

// The reading of a place, with a copy of the store.
fn reading_at(
    alloc: Global,
    name: u32,
    indices: Items<ValueTerm>,
    s: &StoreTerm,
) -> Result<ValueTerm, NoMemory>
    ensures { IfOk result (λ v. v ≡ get name (terms_of indices) s.now) }
{
    let s = s.copy(alloc)?;
    ValueTerm::get(alloc, Place { name, indices }, s)
}

/// The number of a name that is a parameter.
pub fn number_of(x: &Name) -> u32
    requires { is_open x.now ≡ true }
    ensures { result ≡ number_of x.now }
{
    match x {
        Name::Own(_) => unreachable!(),
        Name::Par(k) => *k,
    }
}
