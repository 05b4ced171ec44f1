//! Terms, literals, conjuncts and obligations read from a notation of words in prefix order, for worked examples
//! and benches. It promises nothing; tests above it show what is read.
#![tactic(auto)]

mod obligations;
mod reading;

pub use obligations::obligation;
pub use reading::{conjunct, literals, store, value};
