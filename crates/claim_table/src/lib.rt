//! Claims without a lock: a table of slots, which chairs take, finish and free by single steps on words.
//! No slot is held by two chairs, a finished slot stays finished, and none of the four calls waits or takes memory.
//! `specs/Rule.antt` is what holds between any two steps, `specs/Views.antt` what each step makes of a chair.
#![tactic(auto)]

mod calls;
mod chair;
pub mod laws;
mod no_memory;
mod rule;
mod steps;
mod table;
mod view;

pub use chair::Chair;
pub use no_memory::NoMemory;
pub use table::ClaimTable;
pub use view::View;
