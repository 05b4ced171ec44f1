//! Worked examples of paths: outcomes, cut points and entries, the limits that they meet, and programs run along the
//! paths of a rule's left side, from cut point to cut point, beside the same programs run step by step. Tests alone.
#![tactic(auto)]

#[cfg(test)]
mod entry_tests;
#[cfg(test)]
mod outcome_tests;
#[cfg(test)]
mod runs;
#[cfg(test)]
mod truths;
#[cfg(test)]
mod walk_tests;
#[cfg(test)]
mod walking;
