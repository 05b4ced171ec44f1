//! The simulation: where each obligation of a relation holds, the two sides of the rule end alike and halt
//! alike. Pure laws. `specs/Shown.antt` says what is asked of the relation; `proofs/Simulation.antt` is the
//! law without rules.
#![tactic(auto)]

pub mod laws;
