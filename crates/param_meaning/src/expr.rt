//! Expressions filled by an instance.
//! The answer is `fill_expr` of `toy_imp`'s `specs/Fill.antt`.

ghost use Rattle.std.specs.Prelude.{◌≡◌, IfOk};
ghost use Rattle.toy_imp.specs.ExprView.{exprs_of};
ghost use Rattle.toy_imp.specs.Fill.{fill_expr, fill_exprs};

use crate::standing::{expr_at, fill_name};
use sqlite_items::Items;
use std::alloc::Global;
use toy_imp::{Expr, ExprNode, Instance, NoMemory};

/// The expression with each parameter, also those for names, replaced by what stands for it.
#[cycle(fill_expr)]
#[tactic(auto, unfolding(toy_imp::specs::Fill::fill_expr))]
pub fn fill_expr(alloc: Global, e: &Expr, by: &Instance) -> Result<Expr, NoMemory>
    ensures { IfOk result (λ filled. filled ≡ fill_expr by.now e.now) }
{
    match &e.node {
        ExprNode::Num(z) => Ok(Expr::num(*z)),
        ExprNode::At(x, indices) => {
            let indices = fill_exprs(alloc, indices.as_slice(), by)?;
            let x = fill_name(alloc, x, by)?;
            Ok(Expr::at(x, indices))
        }
        ExprNode::Add(a, b) => {
            let a = fill_expr(alloc, a.get(), by)?;
            let b = fill_expr(alloc, b.get(), by)?;
            Expr::add(alloc, a, b)
        }
        ExprNode::Sub(a, b) => {
            let a = fill_expr(alloc, a.get(), by)?;
            let b = fill_expr(alloc, b.get(), by)?;
            Expr::sub(alloc, a, b)
        }
        ExprNode::Mul(a, b) => {
            let a = fill_expr(alloc, a.get(), by)?;
            let b = fill_expr(alloc, b.get(), by)?;
            Expr::mul(alloc, a, b)
        }
        ExprNode::Par(k) => expr_at(alloc, *k, by),
    }
}

/// The expressions filled, in the same order.
#[cycle(fill_expr)]
#[tactic(auto, using(toy_imp::specs::ExprFalls::expr_item, crate::proofs::Lists::exprs_filled))]
pub fn fill_exprs(alloc: Global, es: &[Expr], by: &Instance) -> Result<Items<Expr>, NoMemory>
    ensures { IfOk result (λ filled. exprs_of filled ≡ fill_exprs by.now (exprs_of es.now)) }
{
    let mut all = Items::new(alloc);
    for e in es {
        let filled = fill_expr(alloc, e, by)?;
        all.push(filled)?;
    }
    Ok(all)
}
