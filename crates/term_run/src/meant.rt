//! What is given to find out what a term means, and the answer.
//! A store is the list of cells that make it, by `specs/Cells.antt`.

use sqlite_items::Items;
use toy_imp::Instance;
use toy_run::Cell;

/// What is said of a run of a statement parameter.
#[derive(Drop)]
pub struct Run {
    /// The number of the parameter.
    pub statement: u32,
    /// The store from which it runs.
    pub from: Items<Cell>,
    /// The store in which it ends; `None` says that it does not end.
    pub to: Option<Items<Cell>>,
}

/// What the meaning of a term depends on.
#[derive(Drop)]
pub struct Setting {
    pub instance: Instance,
    /// Of two entries for one run the later counts.
    pub table: Items<Run>,
    /// The store of the left side.
    pub left: Items<Cell>,
    /// The store of the right side.
    pub right: Items<Cell>,
}

/// What a store term means.
#[derive(Drop)]
pub enum Meant {
    Store(Items<Cell>),
    Nothing,
    /// A number that comes up has more than 128 bits.
    Wide,
}
