//! Walks over the sides of a rule between cut points: the paths along which a proof by simulation goes.
//! `specs/Paths.antt` says which paths there are, `specs/PathLaws.antt` along which of them a run goes.
#![tactic(auto)]

mod along;
mod counting;
mod cut_points;
pub mod laws;
mod limits;
mod locations;
mod met;
mod node_counts;
mod refusal;
mod side_paths;
mod stopped;
mod stretch;
mod test_outcome;
mod walking;

pub use along::block_points;
pub use counting::{OutcomeCounts, outcome_counts};
pub use cut_points::{CutPoints, Side};
pub use refusal::PathRefusal;
pub use side_paths::{path_count, paths};
pub use test_outcome::outcomes;
