//! Refutations of obligations as data: proofs by cases and steps. A contract sees the tree, the code keeps its parts
//! in the order of the text, so that no call recurses by nesting. `specs/Refutation.antt` says what they are; which
//! of them are right is said in `proof_steps`.
#![tactic(auto)]

mod builder;
mod copy;
mod placed;
mod refutation;

pub use builder::Builder;
pub use copy::{copy_parts, copy_rows, copy_steps};
pub use refutation::{By, Part, Refutation, Step, SumRow};
