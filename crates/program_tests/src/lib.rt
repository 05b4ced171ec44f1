//! Each public call of the crates of programs and rules that no program makes, once with ample memory, and walks over
//! 4,097 levels. It promises nothing.
#![tactic(auto)]

#[cfg(test)]
mod filling_tests;
#[cfg(test)]
mod instance_tests;
#[cfg(test)]
mod nesting_tests;
#[cfg(test)]
mod printing_tests;
