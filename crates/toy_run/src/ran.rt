//! What a run comes to.
//! `specs/Ran.antt` says which of these it is.

use crate::cell::Cell;
use sqlite_items::Items;

/// What a run of a program from the empty store comes to.
#[derive(Drop)]
pub enum Ran {
    /// The program ended: the cells that are not 0, in order of name bytes, then number of indices,
    /// then indices; and the least number of steps by which it ends.
    Ended(Items<Cell>, u64),
    /// The program halted at an `assert` that is false: the cells that are not 0, in the same order, and the least number of
    /// steps by which it halts.
    Halted(Items<Cell>, u64),
    /// The steps were used up before the program ended or halted.
    Spent,
    /// The number, counted from 1, of the first step at which some number that is evaluated is below
    /// -2^127 or above 2^127 - 1.
    Wide(u64),
}
