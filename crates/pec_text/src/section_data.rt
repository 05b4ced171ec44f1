//! What a text is cut into: whole sections, and why the cut stopped before the end.
//! Lists are `Items`, so that a clause sees a section as plain data and two of them are equal where their bytes are.
use sqlite_items::Items;

/// What a section is, by the first word of its header.
#[derive(Clone, Copy, Debug, PartialEq, Eq, Hash)]
pub enum SectionKind {
    Rule,
    Program,
    Cert,
    Refused,
    Trace,
    Report,
    Chain,
}

/// One section.
#[derive(Debug, Drop)]
pub struct Section {
    pub kind: SectionKind,

    /// The second word of the header, an ID of 1 to 32 bytes.
    pub title: Items<u8>,

    /// The kept lines between header and end, byte for byte, each ended by one line feed. Empty where there is none.
    pub body: Items<u8>,
}

/// Why a text is not sections to its end. Sections are numbered from 1.
#[derive(Clone, Copy, Debug, PartialEq, Eq, Hash)]
pub enum TextRefusal {
    /// The input ends inside the section of this number: its header has no end.
    Unended(u64),

    /// Where the section of this number would begin stands a line that is not blank, no comment and no header.
    Stray(u64),
}

/// The sections of a text.
#[derive(Debug, Drop)]
pub struct SectionList {
    /// The sections that have a header and an end, in order, up to the end of the text or the first fault.
    pub whole: Items<Section>,

    /// The first fault; its number is that of the section after the whole ones. `None` where the text has none.
    pub rest: Option<TextRefusal>,
}
