//! What is wrong with a rule whose sides have loops, as numbered items, in order with those of every rule.
//! `specs/LoopFaults.antt` defines each item. The form of rules of method tile is not asked here.
#![tactic(auto)]

mod first;
pub mod laws;
mod mapping;
mod swapping;

pub use first::{first_fault, first_fault_after, first_loop_fault};
