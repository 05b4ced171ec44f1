//! From tokens to statements: the reader of programs and of the sides of rules, over derivation trees.
//! `specs/Grammar.antt` says which bytes spell a program; `specs/BlockReading.antt` what is read of
//! tokens under declared parameters, which is exactly what has a tree (`proofs/BlockSound.antt`,
//! `proofs/BlockComplete.antt`).
#![tactic(auto)]

mod block_reading;
mod expr_reading;
mod front;
pub mod laws;
mod names;
mod program;
mod refusal;
mod test_reading;

pub use block_reading::block;
pub use front::{behind_sign, behind_word};
pub use names::Names;
pub use program::{MOST_LEVELS, has_wide, read_program};
pub use refusal::{ReadRule, Unread};
