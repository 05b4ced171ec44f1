//! Where blocks read and write, by their text, and the frame law, which says what a run's reads and writes decide.
//! `specs/Places.antt` says what a text reads and writes, `specs/Frame.antt` what a run does, and
//! `specs/FrameLaws.antt` the laws. On these stand the tests of side conditions by text, which
//! `specs/ByText.antt` defines. Nothing here takes memory.
#![tactic(auto)]

mod by_text;
pub mod laws;
mod occurring;
mod offsets;
mod places;

pub use by_text::{
    commutes_by_text, constant_by_text, distinct_by_text, ignores_by_text, keeps_by_text,
    positive_by_text, quiet_by_text,
};
pub use offsets::offset_of;
pub use places::{Form, Sought, block_asserts, block_reads, block_writes, expr_has, test_has};
