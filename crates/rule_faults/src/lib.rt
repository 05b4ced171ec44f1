//! What is first wrong with a rule that is not well formed, in expected time linear in the rule.
//! Whether two parameters have one name, whether a pair of cuts is listed twice and whether a parameter
//! does not occur on the left are found here, with memory; `toy_imp` finds the rest, and its
//! `specs/Faults.antt` defines all items.
#![tactic(auto)]

mod first;
mod marking;
mod omitting;
mod repeating;

pub use first::first_fault;
pub use omitting::omits_parameter;
pub use repeating::{repeats_name, repeats_pair};
