//! Whether the laws hold in an escape, law by law: each clause of a law all of whose terms have
//! marks has a true literal. The clauses are found from the marks. `specs/MarkedLaws.antt` says
//! which clauses speak of a term. The laws of the side conditions stand in `escape_conditions`.
#![tactic(auto)]

mod back_law;
mod end_laws;
mod index_law;
mod kept;
pub mod laws;
mod number_laws;
mod pair_laws;
mod read_laws;
mod reads;
mod written_law;

pub use back_law::broken_read_back;
pub use end_laws::broken_end;
pub use index_law::broken_index;
pub use kept::{does_not_end, ends, equal, other_name, same_store, unequal};
pub use number_laws::broken_sum;
pub use pair_laws::{broken_exchange, sides_end, unlike_halts};
pub use read_laws::broken_read;
pub use reads::{equals_read, read_mark};
pub use written_law::unlike_written;
