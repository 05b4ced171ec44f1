//! Conjuncts by numbers of a pool where a pair of paths stops, and before it: two stores in place of L and R, each
//! shared part once. `specs/Replaced.antt` says which numbers stand for what.
#![tactic(auto)]

mod goal;
mod items;
mod memo;
mod nodes;
mod numbers;
mod path;
mod precondition;

pub use goal::conjunct_at;
pub use nodes::{conjunct_nodes, obligation_nodes};
pub use path::PooledPath;
pub use precondition::before;
