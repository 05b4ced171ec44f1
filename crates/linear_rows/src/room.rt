//! Room for the numbers of a column.

use crate::no_memory::NoMemory;
use std::alloc::Global;

/// Room in which row steps are checked, so that the check takes no memory.
#[derive(Debug, Drop)]
pub struct RowRoom {
    /// How many variables there are.
    pub n: u32,
    /// A number for each step. One column is made at a time.
    pub numbers: Vec<i128>,
}

impl RowRoom {
    ghost use Rattle.std.specs.Prelude.{IfOk};
    ghost use Rattle.linear_rows.specs.Room.{IsRoomFor};

    /// Room for so many steps over `n` variables. `Err` comes only where memory runs out.
    pub fn new(alloc: Global, n: u32, steps: u32) -> Result<RowRoom, NoMemory>
        ensures { IfOk result (IsRoomFor n steps) }
    {
        let numbers = vec![in alloc; 0i128; steps as usize]?;
        Ok(RowRoom { n, numbers })
    }
}
