//! Escapes, finite models in which an obligation fails: classes of names and stores, numbers of
//! values, and flags. What the mark of a term is, and which atoms and literals are true in an
//! escape. `specs/Marks.antt` says both.
#![tactic(auto)]

mod escape;
mod marks;
mod truth;

pub use escape::{Escape, StoreMark, TestMark, ValueMark};
pub use marks::{count_names, name_class, store_mark, test_mark, value_mark};
pub use truth::{is_given_true, is_true, is_true_literal, names_agree, one_class, one_value};
