//! Literals, steps and refutations as words: read from the front of tokens, and put behind other tokens.
//! `specs/LiteralText.antt` and `StepText.antt` have the words, `LiteralReading.antt` and `StepReading.antt` what is read.
#![tactic(auto)]

mod head;
pub mod laws;
mod literal_reading;
mod literal_writing;
mod number;
mod part_reading;
mod reason_reading;
mod step_writing;
mod word;

pub use literal_reading::{read_literal, read_literals};
pub use literal_writing::{put_literal, put_literals};
pub use number::{put_count, put_index, read_count, read_index};
pub use part_reading::{read_refutation, read_step};
pub use step_writing::{put_refutation, put_step};
pub use word::read_end;
