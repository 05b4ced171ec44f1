//! Values of expressions and the truth of tests, where all their parts are narrow.
//! `specs/Narrow.antt` says where they are; values and truth are those of the meaning of programs.

ghost use Rattle.std.specs.Prelude.{◌≡◌, IfOk, IfSome, OnOk};
ghost use Rattle.std.specs.Option.{SomeIff};
ghost use Rattle.toy_imp.specs.Cell.{spelled, variable};
ghost use Rattle.toy_imp.specs.Expr.{add, sub, mul};
ghost use Rattle.toy_imp.specs.ExprView.{exprs_of};
ghost use Rattle.toy_imp.specs.Store.{read, write};
ghost use Rattle.toy_imp.specs.Test.{less, less_eq, equal};
ghost use Rattle.toy_imp.specs.Truth.{truth};
ghost use Rattle.toy_imp.specs.Value.{value, values};
ghost use Rattle.toy_run.specs.Narrow.{NarrowExpr, NarrowExprs, NarrowTest};
ghost use Rattle.toy_run.specs.Place.{cell_of};
ghost use Rattle.toy_run.specs.Memory.{store_in};

use crate::memory::Memory;
use crate::place::Place;
use sqlite_items::Items;
use std::alloc::Global;
use toy_imp::{Expr, ExprNode, Name, NoMemory, Test, TestNode};

/// The bytes of a name; a parameter that stands for no name has none.
fn spelling(name: &Name) -> &[u8]
    ensures { result.now ≡ spelled name.now }
{
    match name {
        Name::Own(bytes) => bytes.as_slice(),
        Name::Par(_) => &[],
    }
}

/// The place of a name at indices.
pub fn place<'a>(name: &'a Name, indices: Items<i128>) -> Place<'a>
    ensures { cell_of result ≡ (spelled name.now, indices) }
{
    let name = spelling(name);
    Place { name, indices }
}

/// What a variable holds.
pub fn read_variable<'a>(x: &'a Name, memory: &Memory<'a>) -> i128
    ensures { result ≡ read (store_in memory.now) (variable x.now) }
{
    memory.variable(spelling(x))
}

/// Lets a variable hold a value.
pub fn write_variable<'a>(x: &'a Name, value: i128, memory: &mut Memory<'a>) -> Result<(), NoMemory>
    ensures { OnOk result (store_in memory.new ≡ write (store_in memory.old) (variable x.now) value) }
{
    memory.set_variable(spelling(x), value)
}

/// The value of an expression, where all its parts are narrow.
#[cycle(evaluate)]
#[tactic(auto, unfolding(toy_imp::specs::Value::value, crate::specs::Narrow::NarrowExpr))]
pub fn evaluate<'a>(
    alloc: Global,
    e: &'a Expr,
    memory: &Memory<'a>,
) -> Result<Option<i128>, NoMemory>
    ensures { IfOk result (λ o. SomeIff o (NarrowExpr e.now (store_in memory.now)) (value e.now (store_in memory.now))) }
{
    match &e.node {
        ExprNode::Num(z) => Ok(Some(i128::from(*z))),
        ExprNode::At(name, indices) => {
            if indices.is_empty() {
                return Ok(Some(read_variable(name, memory)));
            }
            let Some(indices) = evaluate_all(alloc, indices.as_slice(), memory)? else {
                return Ok(None);
            };
            let place = place(name, indices);
            Ok(Some(memory.read(&place)))
        }
        ExprNode::Add(a, b) => evaluate_sum(alloc, a.get(), b.get(), memory),
        ExprNode::Sub(a, b) => evaluate_difference(alloc, a.get(), b.get(), memory),
        ExprNode::Mul(a, b) => evaluate_product(alloc, a.get(), b.get(), memory),
        ExprNode::Par(_) => Ok(Some(0)),
    }
}

// The value of a constant or a variable, which needs no memory.
#[tactic(auto, unfolding(toy_imp::specs::Value::value, crate::specs::Narrow::NarrowExpr))]
fn evaluate_leaf<'a>(e: &'a Expr, memory: &Memory<'a>) -> Option<i128>
    ensures { IfSome result (λ v. NarrowExpr e.now (store_in memory.now) × (v ≡ value e.now (store_in memory.now))) }
{
    match &e.node {
        ExprNode::Num(z) => Some(i128::from(*z)),
        ExprNode::At(name, indices) => {
            if indices.is_empty() {
                Some(read_variable(name, memory))
            } else {
                None
            }
        }
        _ => None,
    }
}

// The value of an expression, where all its parts are narrow; constants and variables come first.
#[cycle(evaluate)]
fn evaluate_part<'a>(
    alloc: Global,
    e: &'a Expr,
    memory: &Memory<'a>,
) -> Result<Option<i128>, NoMemory>
    ensures { IfOk result (λ o. SomeIff o (NarrowExpr e.now (store_in memory.now)) (value e.now (store_in memory.now))) }
{
    match evaluate_leaf(e, memory) {
        Some(value) => Ok(Some(value)),
        None => evaluate(alloc, e, memory),
    }
}

// The sum of two expressions, where it and all its parts are narrow.
#[cycle(evaluate)]
#[tactic(auto, unfolding(toy_imp::specs::Value::value, crate::specs::Narrow::NarrowExpr))]
fn evaluate_sum<'a>(
    alloc: Global,
    a: &'a Expr,
    b: &'a Expr,
    memory: &Memory<'a>,
) -> Result<Option<i128>, NoMemory>
    ensures { IfOk result (λ o. SomeIff o (NarrowExpr (add a.now b.now) (store_in memory.now)) (value (add a.now b.now) (store_in memory.now))) }
{
    let Some(a) = evaluate_part(alloc, a, memory)? else {
        return Ok(None);
    };
    let Some(b) = evaluate_part(alloc, b, memory)? else {
        return Ok(None);
    };
    Ok(a.checked_add(b))
}

// The difference of two expressions, where it and all its parts are narrow.
#[cycle(evaluate)]
#[tactic(auto, unfolding(toy_imp::specs::Value::value, crate::specs::Narrow::NarrowExpr))]
fn evaluate_difference<'a>(
    alloc: Global,
    a: &'a Expr,
    b: &'a Expr,
    memory: &Memory<'a>,
) -> Result<Option<i128>, NoMemory>
    ensures { IfOk result (λ o. SomeIff o (NarrowExpr (sub a.now b.now) (store_in memory.now)) (value (sub a.now b.now) (store_in memory.now))) }
{
    let Some(a) = evaluate_part(alloc, a, memory)? else {
        return Ok(None);
    };
    let Some(b) = evaluate_part(alloc, b, memory)? else {
        return Ok(None);
    };
    Ok(a.checked_sub(b))
}

// The product of two expressions, where it and all its parts are narrow.
#[cycle(evaluate)]
#[tactic(auto, unfolding(toy_imp::specs::Value::value, crate::specs::Narrow::NarrowExpr))]
fn evaluate_product<'a>(
    alloc: Global,
    a: &'a Expr,
    b: &'a Expr,
    memory: &Memory<'a>,
) -> Result<Option<i128>, NoMemory>
    ensures { IfOk result (λ o. SomeIff o (NarrowExpr (mul a.now b.now) (store_in memory.now)) (value (mul a.now b.now) (store_in memory.now))) }
{
    let Some(a) = evaluate_part(alloc, a, memory)? else {
        return Ok(None);
    };
    let Some(b) = evaluate_part(alloc, b, memory)? else {
        return Ok(None);
    };
    Ok(a.checked_mul(b))
}

/// The values of expressions, in their order, where all their parts are narrow.
#[cycle(evaluate)]
#[tactic(auto, using(toy_imp::specs::ExprFalls::expr_item, crate::proofs::Values::narrow_at, crate::proofs::Values::values_none, crate::proofs::Values::narrow_none))]
pub fn evaluate_all<'a>(
    alloc: Global,
    es: &'a [Expr],
    memory: &Memory<'a>,
) -> Result<Option<Items<i128>>, NoMemory>
    ensures { IfOk result (λ o. SomeIff o (NarrowExprs (exprs_of es.now) (store_in memory.now)) (values (exprs_of es.now) (store_in memory.now))) }
{
    let mut all = Vec::with_capacity(alloc, es.len())?;
    for e in es {
        let Some(v) = evaluate_part(alloc, e, memory)? else {
            return Ok(None);
        };
        all.push(v)?;
    }
    Ok(Some(Items::from_vec(all)))
}

/// The values of two expressions, where all their parts are narrow.
pub fn evaluate_both<'a>(
    alloc: Global,
    a: &'a Expr,
    b: &'a Expr,
    memory: &Memory<'a>,
) -> Result<Option<(i128, i128)>, NoMemory>
    ensures { IfOk result (λ o. SomeIff o (NarrowExpr a.now (store_in memory.now) × NarrowExpr b.now (store_in memory.now)) (value a.now (store_in memory.now), value b.now (store_in memory.now))) }
{
    let Some(a) = evaluate(alloc, a, memory)? else {
        return Ok(None);
    };
    let Some(b) = evaluate(alloc, b, memory)? else {
        return Ok(None);
    };
    Ok(Some((a, b)))
}

/// The truth of a test, where all its parts are narrow.
#[cycle(is_true)]
#[tactic(auto, unfolding(toy_imp::specs::Truth::truth, crate::specs::Narrow::NarrowTest))]
pub fn is_true<'a>(
    alloc: Global,
    t: &'a Test,
    memory: &Memory<'a>,
) -> Result<Option<bool>, NoMemory>
    ensures { IfOk result (λ o. SomeIff o (NarrowTest t.now (store_in memory.now)) (truth t.now (store_in memory.now))) }
{
    match &t.node {
        TestNode::Less(a, b) => is_less(alloc, a, b, memory),
        TestNode::LessEq(a, b) => is_at_most(alloc, a, b, memory),
        TestNode::Equal(a, b) => are_equal(alloc, a, b, memory),
        TestNode::Not(t) => {
            let Some(t) = is_true(alloc, t.get(), memory)? else {
                return Ok(None);
            };
            Ok(Some(!t))
        }
        TestNode::And(t, u) => {
            let Some((t, u)) = are_true(alloc, t.get(), u.get(), memory)? else {
                return Ok(None);
            };
            Ok(Some(t && u))
        }
        TestNode::Or(t, u) => {
            let Some((t, u)) = are_true(alloc, t.get(), u.get(), memory)? else {
                return Ok(None);
            };
            Ok(Some(t || u))
        }
        TestNode::Par(_) => Ok(Some(false)),
    }
}

/// The truth of two tests, where all their parts are narrow.
#[cycle(is_true)]
fn are_true<'a>(
    alloc: Global,
    t: &'a Test,
    u: &'a Test,
    memory: &Memory<'a>,
) -> Result<Option<(bool, bool)>, NoMemory>
    ensures { IfOk result (λ o. SomeIff o (NarrowTest t.now (store_in memory.now) × NarrowTest u.now (store_in memory.now)) (truth t.now (store_in memory.now), truth u.now (store_in memory.now))) }
{
    let Some(t) = is_true(alloc, t, memory)? else {
        return Ok(None);
    };
    let Some(u) = is_true(alloc, u, memory)? else {
        return Ok(None);
    };
    Ok(Some((t, u)))
}

// Whether one expression is less than another, where all their parts are narrow.
#[tactic(auto, unfolding(toy_imp::specs::Truth::truth, crate::specs::Narrow::NarrowTest))]
fn is_less<'a>(
    alloc: Global,
    a: &'a Expr,
    b: &'a Expr,
    memory: &Memory<'a>,
) -> Result<Option<bool>, NoMemory>
    ensures { IfOk result (λ o. SomeIff o (NarrowTest (less a.now b.now) (store_in memory.now)) (truth (less a.now b.now) (store_in memory.now))) }
{
    let Some(a) = evaluate_part(alloc, a, memory)? else {
        return Ok(None);
    };
    let Some(b) = evaluate_part(alloc, b, memory)? else {
        return Ok(None);
    };
    Ok(Some(a < b))
}

// Whether one expression is at most another, where all their parts are narrow.
#[tactic(auto, unfolding(toy_imp::specs::Truth::truth, crate::specs::Narrow::NarrowTest))]
fn is_at_most<'a>(
    alloc: Global,
    a: &'a Expr,
    b: &'a Expr,
    memory: &Memory<'a>,
) -> Result<Option<bool>, NoMemory>
    ensures { IfOk result (λ o. SomeIff o (NarrowTest (less_eq a.now b.now) (store_in memory.now)) (truth (less_eq a.now b.now) (store_in memory.now))) }
{
    let Some(a) = evaluate_part(alloc, a, memory)? else {
        return Ok(None);
    };
    let Some(b) = evaluate_part(alloc, b, memory)? else {
        return Ok(None);
    };
    Ok(Some(a <= b))
}

// Whether two expressions are equal, where all their parts are narrow.
#[tactic(auto, unfolding(toy_imp::specs::Truth::truth, crate::specs::Narrow::NarrowTest))]
fn are_equal<'a>(
    alloc: Global,
    a: &'a Expr,
    b: &'a Expr,
    memory: &Memory<'a>,
) -> Result<Option<bool>, NoMemory>
    ensures { IfOk result (λ o. SomeIff o (NarrowTest (equal a.now b.now) (store_in memory.now)) (truth (equal a.now b.now) (store_in memory.now))) }
{
    let Some(a) = evaluate_part(alloc, a, memory)? else {
        return Ok(None);
    };
    let Some(b) = evaluate_part(alloc, b, memory)? else {
        return Ok(None);
    };
    Ok(Some(a == b))
}
