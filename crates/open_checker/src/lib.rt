//! What an escape has to meet, one exact call a point: like terms, flags, numbers, known conjuncts,
//! path and goal. An escape is a finite model in which an obligation fails: classes of names and
//! stores, numbers of values, and flags. `specs/Points.antt` and `Likeness.antt` say what is asked.
//! README.md says what is missing.
#![tactic(auto)]

mod conjuncts;
mod flags;
pub mod laws;
mod likeness;
mod numbers;
mod once;

pub use conjuncts::{broken_known, broken_path, goal_fails};
pub use flags::{unlike_ends, unlike_tests};
pub use likeness::{unlike_store, unlike_stores, unlike_value, unlike_values};
pub use numbers::{broken_number, large_number};
pub use once::is_listed_once;
