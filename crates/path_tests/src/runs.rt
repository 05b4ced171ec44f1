//! Runs of programs that are given as texts, in stores that are given as the assignments that make them.

use program_examples::{assignments, program};
use sqlite_items::Items;
use std::alloc::Global;
use toy_imp::{Block, NoMemory};
use toy_run::{Cell, Ran, run_program};

/// The steps after which a program is taken to go on for ever.
const STEPS: u64 = 10_000;

/// The run of a program.
pub fn run_of(alloc: Global, block: Option<Block>) -> Option<Ran> {
    let block = block?;
    run_program(alloc, &block, STEPS).ok()
}

/// The run of a program that a text spells.
pub fn run_text(alloc: Global, text: &str) -> Option<Ran> {
    run_of(alloc, program(alloc, text))
}

/// The store in which a run ends; the inner answer is none where it does not end.
pub fn end_of(ran: Option<Ran>) -> Option<Option<Items<Cell>>> {
    match ran? {
        Ran::Ended(cells, _) => Some(Some(cells)),
        Ran::Halted(_, _) | Ran::Spent => Some(None),
        Ran::Wide(_) => None,
    }
}

fn halted(alloc: Global, store: Option<String>) -> Option<String> {
    let store = store?;
    format!(in alloc; "{store}halts").ok()
}

fn described(alloc: Global, ran: &Ran) -> Option<String> {
    match ran {
        Ran::Ended(cells, _) => assignments(alloc, cells.as_slice()),
        Ran::Halted(cells, _) => halted(alloc, assignments(alloc, cells.as_slice())),
        Ran::Spent => String::from_str(alloc, "goes on").ok(),
        Ran::Wide(_) => None,
    }
}

/// How a run comes out: the assignments that make its last store, with `halts` behind them where it halts.
pub fn outcome(alloc: Global, ran: Option<Ran>) -> Option<String> {
    let ran = ran?;
    described(alloc, &ran)
}

// A program behind another.
fn behind(first: Option<Block>, second: Result<Block, NoMemory>) -> Option<Block> {
    let mut whole = first?;
    let second = second.ok()?;
    whole.stmts.append(second.stmts).ok()?;
    Some(whole)
}

/// How the run of statements comes out behind the assignments of a store.
pub fn outcome_behind(
    alloc: Global,
    store: &str,
    block: Result<Block, NoMemory>,
) -> Option<String> {
    outcome(alloc, run_of(alloc, behind(program(alloc, store), block)))
}
