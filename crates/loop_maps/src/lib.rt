//! The map of a statement of a rule of loops: the counters round it on the right by those on the left, and its
//! inverse. `specs/Maps.antt` says what they are and when there are none.
#![tactic(auto)]

mod fitting;
pub mod laws;
mod maps;
mod solving;

pub use maps::{Maps, maps_between};
