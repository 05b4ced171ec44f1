//! Tests of `cert_checker`, which holds none itself: a certificate by hand, and forged ones. It promises nothing.
#![tactic(auto)]

#[cfg(test)]
mod check_tests;
