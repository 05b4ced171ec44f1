//! The cut of a text into sections: time and memory grow with the length of the text.
//! `IsText` of `specs/Section.antt` says what the sections of a text are, and `sections_of` computes them.
ghost use Rattle.std.specs.Prelude.{◌≡◌, ◌<◌, ◌↔◌, ℕ, true, List, [], length, All, IfOk, IfSome, option_map};
ghost use Rattle.pec_text.specs.Id.{is_id};
ghost use Rattle.pec_text.specs.Line.{kept_lines};
ghost use Rattle.pec_text.specs.Section.{IsText};
ghost use Rattle.pec_text.specs.SectionsOf.{sections_of, body_from};
ghost use Rattle.pec_text.specs.declared.section_data.SectionList.{SectionList};

use crate::line::first_kept;
use crate::no_memory::NoMemory;
use crate::section_data::{Section, SectionList, TextRefusal};
use crate::section_header::{header_of, is_end};
use sqlite_items::Items;
use std::alloc::Global;

/// Cuts a text into its sections.
///
/// A line ends with a line feed or with the text. Blank lines and comments are dropped everywhere. Every other
/// line outside sections has to be a header; a section ends at the line whose one word is `end`. Bytes may be any.
///
/// The one error is want of memory. A text that is not sections to its end is an answer: `rest` says where it stops.
pub fn sections(alloc: Global, bytes: &[u8]) -> Result<SectionList, NoMemory>
    ensures text { IfOk result (λ text. IsText bytes.now text) }
    ensures exact { IfOk result (λ text. text ≡ sections_of bytes.now) }
    ensures titles { IfOk result (λ text. All (λ section. is_id section.title ≡ true) text.whole) }
{
    let mut whole = Items::new(alloc);
    let mut rest = bytes;
    while let Some((line, after)) = first_kept(rest) {
        let number = whole.len() as u64 + 1;
        let Some((kind, title)) = header_of(line) else {
            return Ok(SectionList {
                whole,
                rest: Some(TextRefusal::Stray(number)),
            });
        };
        let Some((body, after)) = section_body(alloc, after)? else {
            return Ok(SectionList {
                whole,
                rest: Some(TextRefusal::Unended(number)),
            });
        };
        let title = Items::from_slice(alloc, title)?;
        whole.push(Section { kind, title, body })?;
        rest = after;
    }
    Ok(SectionList { whole, rest: None })
}

/// The body of a section whose header stands before the bytes, and the bytes after its end; `None` where it has no end.
fn section_body(alloc: Global, bytes: &[u8]) -> Result<Option<(Items<u8>, &[u8])>, NoMemory>
    ensures body { IfOk result (λ found. option_map (λ p. (p.0, kept_lines p.1.now)) found ≡ body_from [] (kept_lines bytes.now)) }
    ensures shorter { IfOk result (λ found. IfSome found (λ p. length p.1.now < length bytes.now)) }
{
    let mut body = Vec::new(alloc);
    let mut rest = bytes;
    while let Some((line, after)) = first_kept(rest) {
        if is_end(line) {
            return Ok(Some((Items::from_vec(body), after)));
        }
        body.extend_from_slice(line)?;
        body.push(b'\n')?;
        rest = after;
    }
    Ok(None)
}

/// A law: of any text there is one list of sections, that of `sections_of`. It does nothing.
pub fn every_text_has_one_list()
    ensures { (bytes : List ℕ) (text : SectionList) → IsText bytes text ↔ (text ≡ sections_of bytes) }
{}
