//! The precondition of a conjunct before a pair of paths, one on each side: what has to be true at a pair of
//! stores so that the conjunct is true where both paths arrive (weakest preconditions, after Dijkstra, of two
//! runs at once). `specs/Precondition.antt` says what it is, `specs/PreconditionLaws.antt` what it means.
#![tactic(auto)]

pub mod laws;
mod precondition;
mod substitution;
mod weight;

pub use precondition::{before, goal_at, weigh};
