//! Refutations of obligations: proofs by cases and steps, which may cite clauses of the laws (`law_clauses`).
//! `specs/Refutes.antt` says which refutations are right, and a right one makes its obligation hold.
#![tactic(auto)]

mod arguments;
mod assumed;
mod cited_lists;
mod cites;
mod closing;
mod equalities;
mod given;
pub mod laws;
mod laws_cited;
mod leaf;
mod replaced;
mod steps;
mod sums;
mod walk;

pub use walk::{refutes, refutes_under};
