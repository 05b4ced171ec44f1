//! The steps of statements and of the turns of a `for`.
//! Each is the step of the meaning of programs where it is narrow, by `specs/Does.antt`.

ghost use Rattle.std.specs.Prelude.{◌≡◌, IfOk, ◌∷◌, ◌<ℤ◌};
ghost use Rattle.toy_imp.specs.Block.{put, assert_that, if_then, while_do, for_to, let_in};
ghost use Rattle.toy_imp.specs.BlockView.{block_of};
ghost use Rattle.toy_imp.specs.Expr.{no_exprs};
ghost use Rattle.toy_imp.specs.ExprView.{exprs_of};
ghost use Rattle.toy_imp.specs.Run.{act, turns, before};
ghost use Rattle.toy_run.specs.Does.{Does};
ghost use Rattle.toy_run.specs.Memory.{store_in};
ghost use Rattle.toy_run.specs.Work.{work_of};

use crate::evaluate::{
    evaluate, evaluate_all, evaluate_both, is_true, place, read_variable, write_variable,
};
use crate::memory::Memory;
use crate::work::{Item, push_block, push_item};
use std::alloc::Global;
use toy_imp::{Block, Expr, Name, NoMemory, Stmt, Test};

/// Whether all that a step evaluates is narrow; where it is not, the step is not done.
#[derive(Clone, Copy)]
pub enum Width {
    Narrow,
    Wide,
}

/// Writes the value of `e` into a cell.
#[tactic(auto, unfolding(toy_imp::specs::Run::step, crate::specs::Narrow::NarrowItem))]
pub fn do_put<'a>(
    alloc: Global,
    x: &'a Name,
    indices: &'a [Expr],
    e: &'a Expr,
    work: &mut Vec<Item<'a>>,
    memory: &mut Memory<'a>,
) -> Result<Width, NoMemory>
    ensures { IfOk result (λ w. Does (act (put x.now (exprs_of indices.now) e.now)) (store_in memory.old) (work_of work.old.items) w (store_in memory.new) (work_of work.new.items)) }
{
    if indices.is_empty() {
        return do_set(alloc, x, e, work, memory);
    }
    let Some(indices) = evaluate_all(alloc, indices, memory)? else {
        return Ok(Width::Wide);
    };
    let Some(value) = evaluate(alloc, e, memory)? else {
        return Ok(Width::Wide);
    };
    memory.write(alloc, place(x, indices), value)?;
    Ok(Width::Narrow)
}

// Writes the value of `e` into a variable.
#[tactic(auto, unfolding(toy_imp::specs::Run::step, toy_imp::specs::Value::value, crate::specs::Narrow::NarrowItem, crate::specs::Narrow::NarrowExpr))]
fn do_set<'a>(
    alloc: Global,
    x: &'a Name,
    e: &'a Expr,
    work: &mut Vec<Item<'a>>,
    memory: &mut Memory<'a>,
) -> Result<Width, NoMemory>
    ensures { IfOk result (λ w. Does (act (put x.now no_exprs e.now)) (store_in memory.old) (work_of work.old.items) w (store_in memory.new) (work_of work.new.items)) }
{
    let Some(value) = evaluate(alloc, e, memory)? else {
        return Ok(Width::Wide);
    };
    write_variable(x, value, memory)?;
    Ok(Width::Narrow)
}

/// Goes on, or halts where the test is false.
#[tactic(auto, unfolding(toy_imp::specs::Run::step, crate::specs::Narrow::NarrowItem))]
pub fn do_assert<'a>(
    alloc: Global,
    t: &'a Test,
    work: &mut Vec<Item<'a>>,
    memory: &Memory<'a>,
) -> Result<Width, NoMemory>
    ensures { IfOk result (λ w. Does (act (assert_that t.now)) (store_in memory.now) (work_of work.old.items) w (store_in memory.now) (work_of work.new.items)) }
{
    let Some(yes) = is_true(alloc, t, memory)? else {
        return Ok(Width::Wide);
    };
    if !yes {
        push_item(work, Item::Halt)?;
    }
    Ok(Width::Narrow)
}

/// Chooses one of two blocks.
#[tactic(auto, unfolding(toy_imp::specs::Run::step, crate::specs::Narrow::NarrowItem))]
pub fn do_if<'a>(
    alloc: Global,
    t: &'a Test,
    b: &'a Block,
    c: &'a Block,
    work: &mut Vec<Item<'a>>,
    memory: &Memory<'a>,
) -> Result<Width, NoMemory>
    ensures { IfOk result (λ w. Does (act (if_then t.now b.now c.now)) (store_in memory.now) (work_of work.old.items) w (store_in memory.now) (work_of work.new.items)) }
{
    let Some(yes) = is_true(alloc, t, memory)? else {
        return Ok(Width::Wide);
    };
    if yes {
        push_block(work, b.stmts.as_slice())?;
    } else {
        push_block(work, c.stmts.as_slice())?;
    }
    Ok(Width::Narrow)
}

/// Does the body `b` of the `while` that is `s`, and the `while` again after it, or goes on behind it.
#[tactic(auto, unfolding(toy_imp::specs::Run::step, crate::specs::Narrow::NarrowItem))]
pub fn do_while<'a>(
    alloc: Global,
    s: &'a Stmt,
    rest: &'a [Stmt],
    t: &'a Test,
    b: &'a Block,
    work: &mut Vec<Item<'a>>,
    memory: &Memory<'a>,
) -> Result<Width, NoMemory>
    requires { s.now ≡ while_do t.now b.now }
    ensures { IfOk result (λ w. Does (act (while_do t.now b.now)) (store_in memory.now) (before (block_of rest.now) (work_of work.old.items)) w (store_in memory.now) (work_of work.new.items)) }
{
    let Some(yes) = is_true(alloc, t, memory)? else {
        return Ok(Width::Wide);
    };
    if yes {
        push_item(work, Item::Acts(s, rest))?;
        push_block(work, b.stmts.as_slice())?;
    } else {
        push_block(work, rest)?;
    }
    Ok(Width::Narrow)
}

/// Evaluates both bounds, and leaves the turns and then the counter's old value to be done.
#[tactic(auto, unfolding(toy_imp::specs::Run::step, crate::specs::Narrow::NarrowItem))]
pub fn do_for<'a>(
    alloc: Global,
    x: &'a Name,
    low: &'a Expr,
    high: &'a Expr,
    b: &'a Block,
    work: &mut Vec<Item<'a>>,
    memory: &Memory<'a>,
) -> Result<Width, NoMemory>
    ensures { IfOk result (λ w. Does (act (for_to x.now low.now high.now b.now)) (store_in memory.now) (work_of work.old.items) w (store_in memory.now) (work_of work.new.items)) }
{
    let Some((low, high)) = evaluate_both(alloc, low, high, memory)? else {
        return Ok(Width::Wide);
    };
    let old = read_variable(x, memory);
    push_item(work, Item::Restore(x, old))?;
    push_item(work, Item::Turns(x, low, high, b))?;
    Ok(Width::Narrow)
}

/// Sets a variable, and leaves the block and then its old value to be done.
#[tactic(auto, unfolding(toy_imp::specs::Run::step, crate::specs::Narrow::NarrowItem))]
pub fn do_let<'a>(
    alloc: Global,
    x: &'a Name,
    e: &'a Expr,
    b: &'a Block,
    work: &mut Vec<Item<'a>>,
    memory: &mut Memory<'a>,
) -> Result<Width, NoMemory>
    ensures { IfOk result (λ w. Does (act (let_in x.now e.now b.now)) (store_in memory.old) (work_of work.old.items) w (store_in memory.new) (work_of work.new.items)) }
{
    let Some(value) = evaluate(alloc, e, memory)? else {
        return Ok(Width::Wide);
    };
    let old = read_variable(x, memory);
    push_item(work, Item::Restore(x, old))?;
    push_block(work, b.stmts.as_slice())?;
    write_variable(x, value, memory)?;
    Ok(Width::Narrow)
}

/// Does the turn at `next`, where that is below `high`, and leaves the turns from the next number on.
#[tactic(auto, unfolding(toy_imp::specs::Run::step, crate::specs::Narrow::NarrowItem))]
pub fn do_turn<'a>(
    x: &'a Name,
    next: i128,
    high: i128,
    b: &'a Block,
    work: &mut Vec<Item<'a>>,
    memory: &mut Memory<'a>,
) -> Result<Width, NoMemory>
    ensures { IfOk result (λ w. Does (turns x.now next high b.now) (store_in memory.old) (work_of work.old.items) w (store_in memory.new) (work_of work.new.items)) }
{
    if next < high {
        push_item(work, Item::Turns(x, next + 1, high, b))?;
        push_block(work, b.stmts.as_slice())?;
        write_variable(x, next, memory)?;
    }
    Ok(Width::Narrow)
}
