//! The laws of literals and refutations as words, each the contract of a function that does nothing.
//! The statements are in `specs/TextLaws.antt`.

ghost use Rattle.refutation_text.specs.TextLaws.{LiteralReadsBack, RefutationReadsBack};

/// The words of a literal are read as it, whatever follows.
pub fn literal_reads_back()
    ensures { LiteralReadsBack }
{}

/// The words of a refutation are read as it, whatever follows.
pub fn refutation_reads_back()
    ensures { RefutationReadsBack }
{}
