//! Tests of the crates of bytes, which hold none themselves: one call of each public function on the path on which
//! memory suffices, and what no clause says. It promises nothing.
#![tactic(auto)]

#[cfg(test)]
mod stream_tests;
#[cfg(test)]
mod text_tests;
#[cfg(test)]
mod word_tests;
