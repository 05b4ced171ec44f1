//! A cell that a run left, with its value.
//! Lists of cells are in order as `specs/Cells.antt` says.

use sqlite_items::Items;

/// A cell that holds a number other than 0.
#[derive(Drop)]
pub struct Cell {
    /// The bytes of the name.
    pub name: Items<u8>,
    /// The indices, outermost first; a variable has none.
    pub indices: Items<i128>,
    pub value: i128,
}
