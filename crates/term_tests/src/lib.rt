//! Tests of the crates of terms, which hold none themselves: worked terms, obligations and refutations, and each
//! public call once with ample memory. It promises nothing.
#![tactic(auto)]

#[cfg(test)]
mod copied_tests;
#[cfg(test)]
mod counted_tests;
#[cfg(test)]
mod meaning_tests;
#[cfg(test)]
mod precondition_tests;
#[cfg(test)]
mod refutation_tests;
