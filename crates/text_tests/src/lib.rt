//! Tests of the crates that read and print terms as words: each public call where memory suffices. It promises nothing.
#![tactic(auto)]

#[cfg(test)]
mod term_tests;
