//! Affine forms over the counters of loops and over symbols, in fixed arrays and without memory: sums, multiples,
//! forms put for counters, and the maps between the counters of two nests. `specs/Form.antt` says what a form is
//! worth, `specs/Maps.antt` what the maps are, and `specs/Laws.antt` what holds of their values.
#![tactic(auto)]

mod form;
pub mod laws;
mod maps;
mod sums;

pub use form::Form;
pub use maps::{solve_one, solve_two, undoes};
