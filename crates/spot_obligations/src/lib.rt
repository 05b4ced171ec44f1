//! What has to be shown of a relation between the two sides of a rule: its spots, and the obligation at
//! each. `specs/Owed.antt` says what a pair of paths owes, `specs/Obligations.antt` what the obligation is.
#![tactic(auto)]

mod entry;
mod obligation_at;
mod obligations;
mod owed;
mod pair_obligation;
mod paths_of_entry;
mod quiet;

pub use entry::{Entry, Spot};
pub use obligation_at::ObligationAt;
pub use obligations::{is_exit, obligation, obligation_among};
pub use owed::{Owed, owed_at, paths_owe};
pub use pair_obligation::{obligation_of, weighed_obligation};
pub use paths_of_entry::{EntryPaths, entry_paths};
