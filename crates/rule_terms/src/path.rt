//! Paths: what a walk of one side from a cut point meets, and where it stops.

ghost use Rattle.std.specs.Prelude.{◌≡◌, IfOk};

use crate::obligation::{Literal, copy_literals};
use crate::term::StoreTerm;
use sqlite_items::Items;
use std::alloc::Global;
use toy_imp::NoMemory;

/// Where a walk stops.
#[derive(Clone, Copy, Debug, PartialEq, Eq)]
pub enum Stop {
    /// At the point of this number.
    At(u32),
    /// At an `assert` that is false.
    Halted,
    /// Before the statement parameter of this number, which does not end from there.
    Stuck(u32),
}

/// A walk up to its stop.
#[derive(Drop)]
pub struct Path {
    /// What is true of the store from which the walk sets out where it goes this way, in order.
    pub literals: Items<Literal>,
    /// The store at the stop.
    pub store: StoreTerm,
    pub stop: Stop,
}

impl Path {
    /// An equal path.
    pub fn copy(&self, alloc: Global) -> Result<Path, NoMemory>
        ensures { IfOk result (λ p. p ≡ self.now) }
    {
        let literals = copy_literals(alloc, self.literals.as_slice())?;
        let store = self.store.copy(alloc)?;
        Ok(Path {
            literals,
            store,
            stop: self.stop,
        })
    }
}
