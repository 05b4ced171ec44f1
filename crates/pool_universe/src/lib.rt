//! What occurs in an obligation by numbers, and how large it is, by look-up: each shared part is looked at once.
//! `specs/PooledParts.antt` says what parts by numbers stand for; the counts are those of `term_universe`.
#![tactic(auto)]

mod counts;
mod part;
mod roots;
mod sweep;

pub use counts::counts_of;
pub use part::PooledPart;
pub use sweep::occurring;
