//! Values of expressions in a store, where all their parts are narrow.
//! The runner's definition of narrow parts says where they are.

ghost use Rattle.std.specs.Prelude.{◌≡◌, IfOk};
ghost use Rattle.std.specs.Option.{SomeIff};
ghost use Rattle.toy_imp.specs.Cell.{spelled};
ghost use Rattle.toy_imp.specs.ExprView.{exprs_of};
ghost use Rattle.toy_imp.specs.Value.{value, values};
ghost use Rattle.toy_run.specs.Narrow.{NarrowExpr, NarrowExprs};
ghost use Rattle.term_run.specs.Cells.{store_by};

use crate::cells::read;
use sqlite_items::Items;
use std::alloc::Global;
use toy_imp::{Expr, ExprNode, Name, NoMemory};
use toy_run::Cell;

fn bytes_of(alloc: Global, name: &Name) -> Result<Items<u8>, NoMemory>
    ensures { IfOk result (λ bytes. bytes ≡ spelled name.now) }
{
    match name {
        Name::Own(bytes) => Ok(Items::from_slice(alloc, bytes.as_slice())?),
        Name::Par(_) => Ok(Items::new(alloc)),
    }
}

/// The value of an expression, where all its parts are narrow.
#[cycle(evaluate)]
#[tactic(auto, unfolding(toy_imp::specs::Value::value, toy_run::specs::Narrow::NarrowExpr))]
pub fn evaluate(alloc: Global, e: &Expr, cells: &[Cell]) -> Result<Option<i128>, NoMemory>
    ensures { IfOk result (λ o. SomeIff o (NarrowExpr e.now (store_by cells.now)) (value e.now (store_by cells.now))) }
{
    match &e.node {
        ExprNode::Num(z) => Ok(Some(i128::from(*z))),
        ExprNode::At(name, indices) => {
            let Some(indices) = evaluate_all(alloc, indices.as_slice(), cells)? else {
                return Ok(None);
            };
            let bytes = bytes_of(alloc, name)?;
            Ok(Some(read(cells, bytes.as_slice(), indices.as_slice())))
        }
        ExprNode::Add(a, b) => {
            let Some((a, b)) = evaluate_both(alloc, a.get(), b.get(), cells)? else {
                return Ok(None);
            };
            Ok(a.checked_add(b))
        }
        ExprNode::Sub(a, b) => {
            let Some((a, b)) = evaluate_both(alloc, a.get(), b.get(), cells)? else {
                return Ok(None);
            };
            Ok(a.checked_sub(b))
        }
        ExprNode::Mul(a, b) => {
            let Some((a, b)) = evaluate_both(alloc, a.get(), b.get(), cells)? else {
                return Ok(None);
            };
            Ok(a.checked_mul(b))
        }
        ExprNode::Par(_) => Ok(Some(0)),
    }
}

// The values of two expressions.
#[cycle(evaluate)]
fn evaluate_both(
    alloc: Global,
    a: &Expr,
    b: &Expr,
    cells: &[Cell],
) -> Result<Option<(i128, i128)>, NoMemory>
    ensures { IfOk result (λ o. SomeIff o (NarrowExpr a.now (store_by cells.now) × NarrowExpr b.now (store_by cells.now)) (value a.now (store_by cells.now), value b.now (store_by cells.now))) }
{
    let Some(a) = evaluate(alloc, a, cells)? else {
        return Ok(None);
    };
    let Some(b) = evaluate(alloc, b, cells)? else {
        return Ok(None);
    };
    Ok(Some((a, b)))
}

// The values of expressions, in their order.
#[cycle(evaluate)]
#[tactic(auto, using(toy_imp::specs::ExprFalls::expr_item, toy_run::proofs::Values::narrow_at, toy_run::proofs::Values::values_none, toy_run::proofs::Values::narrow_none))]
fn evaluate_all(alloc: Global, es: &[Expr], cells: &[Cell]) -> Result<Option<Items<i128>>, NoMemory>
    ensures { IfOk result (λ o. SomeIff o (NarrowExprs (exprs_of es.now) (store_by cells.now)) (values (exprs_of es.now) (store_by cells.now))) }
{
    let mut all = Items::new(alloc);
    for e in es {
        let Some(v) = evaluate(alloc, e, cells)? else {
            return Ok(None);
        };
        all.push(v)?;
    }
    Ok(Some(all))
}
