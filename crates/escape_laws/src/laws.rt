//! What the tests at terms say of the laws, each statement the contract of a function that does
//! nothing. The statements are in `specs/KeptLaws.antt`, `KeptPairs.antt`, `ReadBack.antt`,
//! `IndexLaw.antt` and `WrittenLaw.antt`.

ghost use Rattle.escape_laws.specs.KeptLaws.{EndLawsHold, ReadLawsHold, SumLawsHold, LawsPass};
ghost use Rattle.escape_laws.specs.KeptPairs.{PairLawsHold, PairLawsPass};
ghost use Rattle.escape_laws.specs.ReadBack.{BackLawHolds, BackLawPasses};
ghost use Rattle.escape_laws.specs.IndexLaw.{IndexLawHolds, IndexLawPasses};
ghost use Rattle.escape_laws.specs.WrittenLaw.{WrittenLawHolds, WrittenLawPasses};

/// Where `broken_end` finds nothing, each clause of laws 7 to 9 all of whose terms have marks has a
/// true literal.
pub fn end_laws_hold()
    ensures { EndLawsHold }
{}

/// The same of `broken_read` and laws 2 and 4.
pub fn read_laws_hold()
    ensures { ReadLawsHold }
{}

/// The same of `broken_sum` and laws 23 and 24.
pub fn sum_laws_hold()
    ensures { SumLawsHold }
{}

/// Where all laws hold in an escape, these calls find nothing.
pub fn laws_pass()
    ensures { LawsPass }
{}

/// Where `sides_end` is true, and `unlike_halts` and `broken_exchange` find nothing: the same of
/// laws 6, 10 and 22.
pub fn pair_laws_hold()
    ensures { PairLawsHold }
{}

/// .. and where all laws hold, it is so.
pub fn pair_laws_pass()
    ensures { PairLawsPass }
{}

/// Where `broken_read_back` finds nothing: the same of law 1.
pub fn back_law_holds()
    ensures { BackLawHolds }
{}

/// .. and where all laws hold, it finds nothing.
pub fn back_law_passes()
    ensures { BackLawPasses }
{}

/// Where `broken_index` finds nothing: the same of law 3.
pub fn index_law_holds()
    ensures { IndexLawHolds }
{}

/// .. and where all laws hold, it finds nothing.
pub fn index_law_passes()
    ensures { IndexLawPasses }
{}

/// Where `unlike_written` finds nothing: the same of law 5.
pub fn written_law_holds()
    ensures { WrittenLawHolds }
{}

/// .. and where all laws hold, it finds nothing.
pub fn written_law_passes()
    ensures { WrittenLawPasses }
{}
