//! Blocks filled by an instance: each parameter of a rule replaced by what stands for it.
//! `fill` and its like for names, expressions and tests answer the substitution of `toy_imp`'s
//! `specs/Fill.antt`; `laws` has what matching, rewriting and simulation stand on.
#![tactic(auto)]

mod block;
mod expr;
pub mod laws;
mod standing;
mod test;

pub use block::fill;
pub use expr::{fill_expr, fill_exprs};
pub use standing::fill_name;
pub use test::fill_test;
