//! Whether the laws of the side conditions, 11 to 21, hold in an escape: each clause all of whose
//! terms have marks has a true literal. The clauses are found from the marks and from the listed
//! conditions. `specs/MarkedConditions.antt` says which clauses speak of a term.
#![tactic(auto)]

mod all_laws;
mod apart;
mod behind;
mod constant_laws;
pub mod laws;
mod literals;
mod name_laws;
mod read_laws;
mod run_laws;
mod test_laws;
mod value_laws;

pub use all_laws::laws_hold;
pub use behind::{is_second_run, is_write};
pub use constant_laws::unlike_constant;
pub use literals::expr_mark;
pub use name_laws::broken_distinct;
pub use read_laws::broken_stay;
pub use run_laws::broken_run;
pub use test_laws::broken_test;
pub use value_laws::broken_value;
