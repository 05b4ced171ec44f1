//! Tests of `swap_conditions` and `side_conditions`, which hold none themselves: side conditions that hold by text and
//! that do not, for each line of the table of conditions. It promises nothing.
#![tactic(auto)]

#[cfg(test)]
mod rows;
#[cfg(test)]
mod table_tests;
