//! Readers of programs, rules, stores and instances that are given as texts, for tables of tests in the crates above. It
//! promises nothing; what texts are read, refused, printed and run as is shown on `./pec` itself, by the texts of `rules/`.
#![tactic(auto)]

mod fillings;
mod stores;
mod texts;

pub use fillings::{expression, instance, name, test};
pub use stores::assignments;
pub use texts::{program, rule, section};
