//! The laws of terms as words, each the contract of a function that does nothing.
//! The statements are in `specs/TermLaws.antt`.

ghost use Rattle.term_text.specs.TermLaws.{TermReadsBack};

/// The words of a term are read as it, whatever follows.
pub fn term_reads_back()
    ensures { TermReadsBack }
{}
