//! Runs programs by their meaning, step by step and in no clever way.
//! `run_program` answers what the definition of runs does, as `specs/Ran.antt` says, and stops where a
//! number leaves 128 bits.
#![tactic(auto)]

mod ascending;
mod cell;
mod evaluate;
pub mod laws;
mod memory;
mod place;
mod ran;
mod run;
mod scattered;
mod step;
mod work;

pub use cell::Cell;
pub use ran::Ran;
pub use run::run_program;
