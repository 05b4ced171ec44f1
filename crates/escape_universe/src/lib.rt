//! Whether the terms that have marks in an escape are those of the universe of an obligation, and
//! whether each of its names has a class.
//! `specs/MarksUniverse.antt` says both. The universe is never made: what occurs in the
//! obligation is walked over.
#![tactic(auto)]

mod marked;
mod names;
mod shape;
mod sought;
mod walk;

pub use marked::marks_its_terms;
pub use names::names_have_classes;
