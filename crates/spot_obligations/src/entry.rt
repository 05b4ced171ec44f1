//! A relation between the two sides of a rule, as entries, and the spots at which something has to be shown
//! of it.
//! `specs/Spots.antt` says which spots a relation has.

ghost use Rattle.std.specs.Prelude.{◌≡◌, IfOk};

use rule_terms::{Conjunct, copy_conjuncts};
use sqlite_items::Items;
use std::alloc::Global;
use toy_imp::NoMemory;

/// What is true of the stores where both sides stand at a pair of points.
#[derive(Drop)]
pub struct Entry {
    /// A point of the left side.
    pub left: u32,
    /// A point of the right side.
    pub right: u32,
    /// What is true there.
    pub conjuncts: Items<Conjunct>,
}

impl Entry {
    /// An equal entry.
    pub fn copy(&self, alloc: Global) -> Result<Entry, NoMemory>
        ensures { IfOk result (λ e. e ≡ self.now) }
    {
        let conjuncts = copy_conjuncts(alloc, self.conjuncts.as_slice())?;
        Ok(Entry {
            left: self.left,
            right: self.right,
            conjuncts,
        })
    }
}

/// A place where something has to be shown: a path of each side from an entry, and what they owe where
/// they stop.
#[derive(Clone, Copy, Debug, PartialEq, Eq)]
pub struct Spot {
    /// The number of the entry.
    pub entry: u32,
    /// The number of the path of the left side.
    pub left: u32,
    /// The number of the path of the right side.
    pub right: u32,
    /// The number of the conjunct of the entry where the paths arrive; none where they arrive at none.
    pub conjunct: Option<u32>,
}
