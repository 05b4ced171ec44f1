//! Certificates of rules: a relation between the points of both sides, with a refutation of each obligation
//! of it. `specs/Certificates.antt` says which certificates prove their rule; `check` finds it out, in one
//! walk. It stands on paths, preconditions and refutations, and on nothing of the prover. What has a
//! certificate is valid.
#![tactic(auto)]

mod certificate;
mod checking;
pub mod laws;
mod relation;
mod taking;

pub use certificate::{Certificate, Proved};
pub use checking::check;
pub use spot_obligations::{Entry, ObligationAt, Spot, obligation};
