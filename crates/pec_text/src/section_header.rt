//! Headers and end lines, told by their words. Nothing here takes memory.
//! Which lines they are is said in `specs/SectionHeader.antt`.
ghost use Rattle.std.specs.Prelude.{◌≡◌, option_map};
ghost use Rattle.pec_text.specs.SectionHeader.{kind_of, header_of, is_end};

use crate::id::is_id;
use crate::line::{first_word, only_word};
use crate::section_data::SectionKind;

/// The kind whose word this is.
fn kind_of(word: &[u8]) -> Option<SectionKind>
    ensures { result ≡ kind_of word.now }
{
    if word == b"rule".as_slice() {
        Some(SectionKind::Rule)
    } else if word == b"program".as_slice() {
        Some(SectionKind::Program)
    } else if word == b"cert".as_slice() {
        Some(SectionKind::Cert)
    } else if word == b"refused".as_slice() {
        Some(SectionKind::Refused)
    } else if word == b"trace".as_slice() {
        Some(SectionKind::Trace)
    } else if word == b"report".as_slice() {
        Some(SectionKind::Report)
    } else if word == b"chain".as_slice() {
        Some(SectionKind::Chain)
    } else {
        None
    }
}

/// The kind and title of a header; `None` for another line.
pub fn header_of(line: &[u8]) -> Option<(SectionKind, &[u8])>
    ensures { option_map (λ header. (header.0, header.1.now)) result ≡ header_of line.now }
{
    let (word, rest) = first_word(line)?;
    let title = only_word(rest)?;
    if !is_id(title) {
        return None;
    }
    Some((kind_of(word)?, title))
}

/// Whether a line is an end line.
pub fn is_end(line: &[u8]) -> bool
    ensures { result ≡ is_end line.now }
{
    match only_word(line) {
        Some(word) => word == b"end".as_slice(),
        None => false,
    }
}
