//! The meaning of terms, without deciding whether a block ends.
//! `specs/Meaning.antt` says what a term means under a table of runs, and when an obligation holds.
#![tactic(auto)]

pub mod laws;
