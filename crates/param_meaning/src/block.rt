//! Blocks filled by an instance: what stands for a statement parameter is spliced into the list.
//! The answer is `fill` of `toy_imp`'s `specs/Fill.antt`.

ghost use Rattle.std.specs.Prelude.{◌≡◌, IfOk, OnOk};
ghost use Rattle.toy_imp.specs.Block.{put, assert_that, if_then, while_do, for_to, let_in, empty, stmt, append};
ghost use Rattle.toy_imp.specs.ExprView.{exprs_of};
ghost use Rattle.toy_imp.specs.Fill.{fill_name, fill_expr, fill_exprs, fill_test, fill_stmt, fill};

use crate::expr::{fill_expr, fill_exprs};
use crate::standing::{block_at, fill_name, just};
use crate::test::fill_test;
use std::alloc::Global;
use toy_imp::{Block, Expr, Instance, Name, NoMemory, Stmt, StmtNode, Test};

/// The block with each parameter, of any kind and at any depth, replaced by what stands for it. The
/// statements of a statement parameter's filling stand in its place in the list. A parameter without
/// a filling of its kind stays.
#[cycle(fill)]
#[tactic(auto, using(toy_imp::specs::BlockFalls::stmt_item, crate::proofs::Lists::one_more_filled))]
pub fn fill(alloc: Global, block: &Block, by: &Instance) -> Result<Block, NoMemory>
    ensures { IfOk result (λ filled. filled ≡ fill by.now block.now) }
{
    let mut filled = Block::new(alloc);
    for s in block.stmts.as_slice() {
        let more = fill_stmt(alloc, s, by)?;
        splice(&mut filled, more)?;
    }
    Ok(filled)
}

// The statements that stand for a statement: those of a parameter's filling, or itself, filled.
#[cycle(fill)]
#[tactic(auto, unfolding(toy_imp::specs::Fill::fill_stmt))]
fn fill_stmt(alloc: Global, s: &Stmt, by: &Instance) -> Result<Block, NoMemory>
    ensures { IfOk result (λ filled. filled ≡ fill_stmt by.now s.now empty) }
{
    match &s.node {
        StmtNode::Skip => just(alloc, Stmt::skip()),
        StmtNode::Put(x, indices, e) => fill_put(alloc, x, indices.as_slice(), e, by),
        StmtNode::Assert(t) => fill_assert(alloc, t, by),
        StmtNode::If(t, b, c) => {
            let b = fill(alloc, b, by)?;
            let c = fill(alloc, c, by)?;
            fill_if(alloc, t, b, c, by)
        }
        StmtNode::While(t, b) => {
            let b = fill(alloc, b, by)?;
            fill_while(alloc, t, b, by)
        }
        StmtNode::For(x, low, high, b) => {
            let b = fill(alloc, b, by)?;
            fill_for(alloc, x, low, high, b, by)
        }
        StmtNode::Let(x, e, b) => {
            let b = fill(alloc, b, by)?;
            fill_let(alloc, x, e, b, by)
        }
        StmtNode::Par(k) => block_at(alloc, *k, by),
    }
}

// Puts the statements of a block at the end of another.
fn splice(all: &mut Block, more: Block) -> Result<(), NoMemory>
    ensures { OnOk result (all.new ≡ append all.old more) }
{
    all.stmts.append(more.stmts)?;
    Ok(())
}

// The statements that `fill_stmt` builds round blocks that are filled already.

fn fill_put(
    alloc: Global,
    x: &Name,
    indices: &[Expr],
    e: &Expr,
    by: &Instance,
) -> Result<Block, NoMemory>
    ensures { IfOk result (λ b. b ≡ stmt (put (fill_name by.now x.now) (fill_exprs by.now (exprs_of indices.now)) (fill_expr by.now e.now)) empty) }
{
    let x = fill_name(alloc, x, by)?;
    let indices = fill_exprs(alloc, indices, by)?;
    let e = fill_expr(alloc, e, by)?;
    just(alloc, Stmt::put(x, indices, e))
}

fn fill_assert(alloc: Global, t: &Test, by: &Instance) -> Result<Block, NoMemory>
    ensures { IfOk result (λ s. s ≡ stmt (assert_that (fill_test by.now t.now)) empty) }
{
    let t = fill_test(alloc, t, by)?;
    just(alloc, Stmt::assert_that(t))
}

fn fill_if(alloc: Global, t: &Test, b: Block, c: Block, by: &Instance) -> Result<Block, NoMemory>
    ensures { IfOk result (λ s. s ≡ stmt (if_then (fill_test by.now t.now) b c) empty) }
{
    let t = fill_test(alloc, t, by)?;
    just(alloc, Stmt::if_then(t, b, c))
}

fn fill_while(alloc: Global, t: &Test, b: Block, by: &Instance) -> Result<Block, NoMemory>
    ensures { IfOk result (λ s. s ≡ stmt (while_do (fill_test by.now t.now) b) empty) }
{
    let t = fill_test(alloc, t, by)?;
    just(alloc, Stmt::while_do(t, b))
}

fn fill_for(
    alloc: Global,
    x: &Name,
    low: &Expr,
    high: &Expr,
    b: Block,
    by: &Instance,
) -> Result<Block, NoMemory>
    ensures { IfOk result (λ s. s ≡ stmt (for_to (fill_name by.now x.now) (fill_expr by.now low.now) (fill_expr by.now high.now) b) empty) }
{
    let x = fill_name(alloc, x, by)?;
    let low = fill_expr(alloc, low, by)?;
    let high = fill_expr(alloc, high, by)?;
    just(alloc, Stmt::for_to(x, low, high, b))
}

fn fill_let(alloc: Global, x: &Name, e: &Expr, b: Block, by: &Instance) -> Result<Block, NoMemory>
    ensures { IfOk result (λ s. s ≡ stmt (let_in (fill_name by.now x.now) (fill_expr by.now e.now) b) empty) }
{
    let x = fill_name(alloc, x, by)?;
    let e = fill_expr(alloc, e, by)?;
    just(alloc, Stmt::let_in(x, e, b))
}
