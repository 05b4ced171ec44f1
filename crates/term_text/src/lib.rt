//! Terms as words: read from the front of tokens up to a depth, and put behind other tokens.
//! `specs/TermText.antt` has the words of a term, `specs/TermReading.antt` what is read of tokens.
#![tactic(auto)]

pub mod laws;
mod reading;
mod refusal;
mod writing;

pub use reading::{DEEPEST, read_store, read_value};
pub use refusal::Unread;
pub use writing::{put_store, put_value};
