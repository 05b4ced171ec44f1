//! The cut points of a rule and its entries, the pairs of points that a proof by simulation relates; or the first limit
//! that is met. `specs/Cuts.antt` says which they are, `specs/CutAnswers.antt` what `cuts` answers.
#![tactic(auto)]

mod cut_points;
mod default_cuts;
mod entries;
mod entry_search;
pub mod laws;
mod point_kinds;
mod refusal;

pub use entry_search::cuts;
pub use refusal::{CutsRefusal, LimitMark};
