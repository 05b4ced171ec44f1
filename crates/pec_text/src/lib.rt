//! Texts: cut into sections, and the bodies of sections into tokens. Both cuts are exact: `sections`
//! answers the one list of sections that `IsText` allows, `tokens` the one list that `Spells` does.
#![tactic(auto)]

mod byte;
mod id;
mod lexer;
mod line;
mod no_memory;
mod section_data;
mod section_header;
mod section_text;
mod token;

pub use id::{LONGEST_ID, is_id};
pub use lexer::{LexRefusal, one_reading, takes_longest, tokens};
pub use line::{first_kept, first_word};
pub use no_memory::NoMemory;
pub use section_data::{Section, SectionKind, SectionList, TextRefusal};
pub use section_text::{every_text_has_one_list, sections};
pub use token::{Numeral, Sign, Token, Word};
