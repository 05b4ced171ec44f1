//! Worked rows of differences, linear rows and nests of loops: each public call once where it succeeds, and each
//! limit that could hide behind want of memory. What is worked without running stands in `proofs/Examples.antt`.
#![tactic(auto)]

#[cfg(test)]
mod diff_tests;
#[cfg(test)]
mod linear_tests;
#[cfg(test)]
mod nest_tests;
