//! Computes what a store term means under a table of runs, in no clever way.
//! `store_means` answers what the definition of the meaning says, as `specs/Meant.antt` has it, and
//! stops where a number leaves 128 bits.
#![tactic(auto)]

mod cells;
mod evaluate;
mod fillings;
mod means;
mod meant;
mod table;

pub use means::store_means;
pub use meant::{Meant, Run, Setting};
