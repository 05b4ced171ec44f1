//! Canonical texts of programs and rules: one text for each value, which reads back as that value.
//! `specs/CanonicalText.antt` has the text of the grammar's trees; the text of a value is that of its canonical tree.
#![tactic(auto)]

mod block_printing;
mod expr_printing;
mod phrase;
mod program;
mod rule;
mod rule_lines;
mod test_printing;

pub use program::{print_program, program_printed_again};
pub use rule::{print_rule, rule_printed_again};
