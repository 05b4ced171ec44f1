//! How large an obligation is, and its universe: the terms that its laws speak of, each once.
//! `counts` takes no memory, so that it can be asked first (`specs/Tallies.antt`); `universe` sorts what one
//! walk meets (`specs/Universe.antt`).
#![tactic(auto)]

mod exchange;
mod gather;
pub mod laws;
mod limits;
mod part;
mod tally;
mod term_universe;
mod walk;

pub use limits::{MOST_DEPTH, MOST_NODES, MOST_READINGS, MOST_STORES, first_passed};
pub use part::{Part, next_part};
pub use tally::{Tally, counts};
pub use term_universe::{TermUniverse, universe};
