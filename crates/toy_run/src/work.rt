//! What a run has yet to do.
//! `specs/Work.antt` says what work a list of items stands for.

ghost use Rattle.std.specs.Prelude.{◌≡◌, OnOk, MatchOption, [], ◌∷◌};
ghost use Rattle.toy_imp.specs.Run.{before};
ghost use Rattle.toy_imp.specs.BlockView.{block_of};
ghost use Rattle.toy_run.specs.Work.{work_of, first_of, rest_of};

use toy_imp::{Block, Name, NoMemory, Stmt};

/// Something that is yet to be done.
#[derive(Clone, Copy)]
pub enum Item<'a> {
    /// A statement, and then those behind it in its block.
    Acts(&'a Stmt, &'a [Stmt]),
    /// The turns of a `for`: the counter, its next value, the bound that it stays below, and the body.
    Turns(&'a Name, i128, i128, &'a Block),
    /// The variable to be given this value back.
    Restore(&'a Name, i128),
    /// The run has halted, before all other work.
    Halt,
}

/// Puts the statements of a block in front of the work.
#[tactic(auto, using(crate::specs::Work::onto_push))]
pub fn push_block<'a>(work: &mut Vec<Item<'a>>, stmts: &'a [Stmt]) -> Result<(), NoMemory>
    ensures { OnOk result (work_of work.new.items ≡ before (block_of stmts.now) (work_of work.old.items)) }
{
    if let Some((first, rest)) = stmts.split_first() {
        work.push(Item::Acts(first, rest))?;
    }
    Ok(())
}

/// Puts an item in front of the work.
#[tactic(auto, using(crate::specs::Work::onto_push))]
pub fn push_item<'a>(work: &mut Vec<Item<'a>>, item: Item<'a>) -> Result<(), NoMemory>
    ensures { OnOk result (work_of work.new.items ≡ first_of item.entry ∷ rest_of item.entry (work_of work.old.items)) }
{
    work.push(item)?;
    Ok(())
}

/// Takes the first item of the work, if there is any.
#[tactic(auto, using(crate::specs::Work::onto_push))]
pub fn pop_item<'a>(work: &mut Vec<Item<'a>>) -> Option<Item<'a>>
    ensures { MatchOption result (work_of work.old.items ≡ []) (λ i. work_of work.old.items ≡ first_of i ∷ rest_of i (work_of work.new.items)) }
{
    work.pop()
}
