//! The laws of words, each the contract of a function that does nothing.
//! The statements are in `specs/WordLaws.antt`.

ghost use Rattle.word_text.specs.WordLaws.{TextReadsBack, OneReading};

/// Canonical text has the tokens that were put.
pub fn text_reads_back()
    ensures { TextReadsBack }
{}

/// A text has at most one list of tokens.
pub fn one_reading()
    ensures { OneReading }
{}
