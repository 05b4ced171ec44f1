//! Terms by numbers: each different term once, parts before the whole.
//! Terms of one pool are equal exactly where their numbers are.
#![tactic(auto)]

mod adding;
mod building;
mod count;
pub mod laws;
mod node;
mod obligation;
mod pool;
mod pooled;

pub use node::{Node, PooledPlace};
pub use obligation::pool_obligation;
pub use pool::Pool;
pub use pooled::{PooledAtom, PooledConjunct, PooledLiteral, PooledObligation};
