//! Store terms and value terms: the words in which runs of rules with open parameters are spoken of.
//! Obligations are made of them.
#![tactic(auto)]

mod copy;
mod expression;
mod goal;
pub mod laws;
mod limit;
mod listed;
mod obligation;
mod order;
mod path;
mod same;
mod size;
mod term;

pub use copy::{copy_stores, copy_values};
pub use expression::{number_of, value_at, values_at};
pub use goal::{falsehood, sides_equal};
pub use limit::LimitKind;
pub use listed::{commute, ignores};
pub use obligation::{
    Atom, Conjunct, Literal, Obligation, copy_conditions, copy_conjuncts, copy_literals,
};
pub use path::{Path, Stop};
pub use same::{same_conditions, same_conjuncts, same_literals, same_stores, same_values};
pub use size::Size;
pub use term::{Place, StoreNode, StoreTerm, ValueNode, ValueTerm};
