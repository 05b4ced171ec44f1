//! The program as a function of words and bytes: which words are a command, what is read, what is
//! written and with which status the program ends. `specs/Serving.antt` says it of a whole run.
#![tactic(auto)]

mod check;
mod check_report;
mod command;
mod content;
mod input;
mod later_formats;
mod no_memory;
mod output;
mod printed_items;
mod refusal_line;
mod report;
mod run_report;
mod serving;
mod skip_form;
mod titles;
mod verdict;

pub use check::Check;
pub use command::{Command, one_command};
pub use content::{Content, Item, Program, Reason, TitledCertificate};
pub use input::{Input, Refusal, one_input};
pub use output::{Ending, Output, one_output};
pub use run_report::Outcome;
pub use serving::serve_plain;
pub use verdict::Verdict;
