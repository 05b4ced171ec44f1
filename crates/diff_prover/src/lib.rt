//! Rows of differences: a point that meets them, or a cycle of rows with a negative sum.
//! `solve` always answers one of the two, and `check_cycle` says exactly which rows are such a cycle.
//! `specs/Row.antt`, `specs/Cycle.antt` and `specs/Answer.antt` say what that means.
#![tactic(auto)]

mod answer;
mod cycle;
mod lowering;
mod no_memory;
mod row;
mod search;
mod trail;

pub use answer::DiffAnswer;
pub use cycle::check_cycle;
pub use no_memory::NoMemory;
pub use row::DiffRow;
pub use search::solve;
