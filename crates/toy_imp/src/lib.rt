//! The data of programs and of rewrite rules, with their meaning.
//! Each type stands in a file of its own. `specs/` says what a program does, when an instance fits a
//! rule and meets its conditions, and when a rule is valid; `laws` has what all proofs stand on.
//! Whatever allocates takes the allocator first and answers `NoMemory` where there is none.
#![tactic(auto)]

mod block;
mod condition;
mod expr;
mod faults;
mod form;
mod instance;
pub mod laws;
mod levels;
mod name;
mod nesting;
mod no_memory;
mod operators;
mod param;
mod points;
mod rule;
mod test;
mod uses;

pub use block::{Block, Stmt, StmtNode};
pub use condition::{Condition, Region};
pub use expr::{Expr, ExprNode};
pub use form::{ExprForm, TestForm};
pub use instance::{Filling, Instance};
pub use name::Name;
pub use no_memory::NoMemory;
pub use param::{Kind, Param};
pub use rule::{CutList, Method, Rule};
pub use test::{Test, TestNode};
