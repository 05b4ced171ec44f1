//! The clauses of the 24 laws: which lists of literals are clauses of a law, in code, and that each
//! clause has a true literal. `specs/Laws.antt` has the table of the laws, `ClauseForms.antt` their
//! clauses by what the letters stand for, `ClauseLaws.antt` what they give.
#![tactic(auto)]

mod arguments;
mod condition_laws;
mod dispatch;
pub mod laws;
mod listed;
mod literals;
mod number_laws;
mod offsets;
mod read_back;
mod shapes;
mod write_laws;
mod written_alike;

pub use arguments::{Argument, same_store_top, same_value_top, store_argument, value_argument};
pub use dispatch::is_clause;
pub use listed::{
    lists_commutes, lists_constant, lists_distinct, lists_ignores, lists_keeps, lists_positive,
};
pub use literals::{is_negation, same_signed};
pub use offsets::{Offset, split_offset};
pub use shapes::{count, is_add, is_ev, is_get, is_mul, is_num, is_put, is_run, is_sub};
