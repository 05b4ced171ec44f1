//! Runs a program: one item of work after another, until none is left, the steps are used up or a
//! number is too wide. Each step is the one of the meaning of programs, by `specs/Does.antt`, and the
//! answer is exact by `specs/Ran.antt`.

ghost use Rattle.std.specs.Prelude.{◌≡◌, IfOk};
ghost use Rattle.toy_imp.specs.Run.{act, before};
ghost use Rattle.toy_imp.specs.BlockView.{block_of};
ghost use Rattle.toy_run.specs.Does.{Does};
ghost use Rattle.toy_run.specs.Ran.{ComesTo};
ghost use Rattle.toy_run.specs.Memory.{store_in};
ghost use Rattle.toy_run.specs.Work.{work_of, first_of, rest_of};

use crate::evaluate::write_variable;
use crate::memory::Memory;
use crate::ran::Ran;
use crate::step::{Width, do_assert, do_for, do_if, do_let, do_put, do_turn, do_while};
use crate::work::{Item, pop_item, push_block, push_item};
use std::alloc::Global;
use toy_imp::{Block, NoMemory, Stmt, StmtNode};

/// Runs a block from the store in which every cell holds 0, for at most `steps` steps.
///
/// A number that is evaluated, be it a part of an expression, has to lie between -2^127 and 2^127 - 1.
/// A parameter of a rule among the statements is never done, one among the expressions is 0, one among
/// the tests is false.
pub fn run_program(alloc: Global, block: &Block, steps: u64) -> Result<Ran, NoMemory>
    ensures { IfOk result (λ r. ComesTo block.now steps r) }
{
    let mut work = Vec::new(alloc);
    push_block(&mut work, block.stmts.as_slice())?;
    let mut memory = Memory::new(alloc);
    let mut done = 0;
    while let Some(item) = pop_item(&mut work) {
        if let Item::Halt = item {
            let cells = memory.into_cells(alloc)?;
            return Ok(Ran::Halted(cells, done));
        }
        if done == steps {
            return Ok(Ran::Spent);
        }
        if let Width::Wide = do_item(alloc, item, &mut work, &mut memory)? {
            return Ok(Ran::Wide(done + 1));
        }
        done += 1;
    }
    let cells = memory.into_cells(alloc)?;
    Ok(Ran::Ended(cells, done))
}

// Does one item, in front of the other work.
#[tactic(auto, unfolding(toy_imp::specs::Run::step, crate::specs::Narrow::NarrowItem))]
fn do_item<'a>(
    alloc: Global,
    item: Item<'a>,
    work: &mut Vec<Item<'a>>,
    memory: &mut Memory<'a>,
) -> Result<Width, NoMemory>
    ensures { IfOk result (λ w. Does (first_of item.entry) (store_in memory.old) (rest_of item.entry (work_of work.old.items)) w (store_in memory.new) (work_of work.new.items)) }
{
    match item {
        Item::Acts(s, rest) => do_stmt(alloc, s, rest, work, memory),
        Item::Turns(x, next, high, body) => do_turn(x, next, high, body, work, memory),
        Item::Restore(x, value) => {
            write_variable(x, value, memory)?;
            Ok(Width::Narrow)
        }
        Item::Halt => {
            push_item(work, item)?;
            Ok(Width::Narrow)
        }
    }
}

// Does a statement, in front of the rest of its block and the other work.
#[tactic(auto, unfolding(toy_imp::specs::Run::step, crate::specs::Narrow::NarrowItem))]
fn do_stmt<'a>(
    alloc: Global,
    s: &'a Stmt,
    rest: &'a [Stmt],
    work: &mut Vec<Item<'a>>,
    memory: &mut Memory<'a>,
) -> Result<Width, NoMemory>
    ensures { IfOk result (λ w. Does (act s.now) (store_in memory.old) (before (block_of rest.now) (work_of work.old.items)) w (store_in memory.new) (work_of work.new.items)) }
{
    match &s.node {
        StmtNode::Skip => {
            push_block(work, rest)?;
            Ok(Width::Narrow)
        }
        StmtNode::Put(x, indices, e) => {
            push_block(work, rest)?;
            do_put(alloc, x, indices.as_slice(), e, work, memory)
        }
        StmtNode::Assert(t) => {
            push_block(work, rest)?;
            do_assert(alloc, t, work, memory)
        }
        StmtNode::If(t, b, c) => {
            push_block(work, rest)?;
            do_if(alloc, t, b, c, work, memory)
        }
        StmtNode::While(t, b) => do_while(alloc, s, rest, t, b, work, memory),
        StmtNode::For(x, low, high, b) => {
            push_block(work, rest)?;
            do_for(alloc, x, low, high, b, work, memory)
        }
        StmtNode::Let(x, e, b) => {
            push_block(work, rest)?;
            do_let(alloc, x, e, b, work, memory)
        }
        StmtNode::Par(_) => {
            push_item(work, Item::Acts(s, rest))?;
            Ok(Width::Narrow)
        }
    }
}
