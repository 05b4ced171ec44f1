//! `swaps` by text, and one test of any side condition by text for an instance, with the laws that a yes implies the
//! meaning. `specs/SwapText.antt` says when two statements swap by text, `specs/ByText.antt` when a
//! condition holds, `specs/SwapLaws.antt` what that implies. Nothing here takes memory.
#![tactic(auto)]

mod clashing;
mod demands;
mod holding;
pub mod laws;
mod sizes;
mod spans;
mod swapping;
mod walks;

pub use holding::holds_by_text;
pub use swapping::{Counters, Swap, swaps_by_text};
