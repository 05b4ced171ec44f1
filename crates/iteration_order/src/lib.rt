//! In which order loops run, and when the order of blocks may change.
//! `tuples` gives the values of a nest's counters in running order, exactly; `laws` says what that order
//! is worth: a list of blocks may be put in any order in which reversed pairs end alike both ways.
//! `specs/RunningOrder.antt` says what running order is, `specs/Exchange.antt` what the law says of loops.
#![tactic(auto)]

mod affine;
mod bounds;
pub mod laws;
mod refusal;
mod running;
mod turns;

pub use affine::Affine;
pub use bounds::Bounds;
pub use refusal::TuplesRefusal;
pub use running::tuples;
