//! The frame law and its parts, each the contract of a function that does nothing.
//! The statements are in `specs/FrameLaws.antt`, `specs/ApartLaws.antt`, `specs/KeepLaws.antt`,
//! `specs/IgnoreLaws.antt`, `specs/TextLaws.antt` and `specs/Offsets.antt`.

ghost use Rattle.side_conditions.specs.ApartLaws.{ApartCommute, AssertlessIsQuiet};
ghost use Rattle.side_conditions.specs.FrameLaws.{FrameLaw, WorkTellsOutcome, WritesTellStore, OthersKept, WithinText};
ghost use Rattle.side_conditions.specs.IgnoreLaws.{AbsentIgnoredByExpr, AbsentIgnoredByTest, AbsentIgnoredByStmt};
ghost use Rattle.side_conditions.specs.KeepLaws.{UnwrittenExprKept, UnwrittenTestKept, UnwrittenNameKept};
ghost use Rattle.side_conditions.specs.Offsets.{OffsetTells};
ghost use Rattle.side_conditions.specs.TextLaws as text;

/// Steps from stores that agree on the cells that those from the first read: the same reads, the same
/// writes of the same numbers, and the same work left.
pub fn frame()
    ensures { FrameLaw }
{}

/// Whether a run has ended or halted is told by the work that it leaves.
pub fn work_tells_outcome()
    ensures { WorkTellsOutcome }
{}

/// The store that steps leave is the first one with their writes done in order.
pub fn writes_tell_store()
    ensures { WritesTellStore }
{}

/// A cell that is not among the writes keeps its value.
pub fn others_kept()
    ensures { OthersKept }
{}

/// What a run of a block reads and writes is within the names of its text.
pub fn within_text()
    ensures { WithinText }
{}

/// Two blocks, of which neither writes a name that the other reads or writes, end alike in both orders.
pub fn apart_commute()
    ensures { ApartCommute }
{}

/// A block in which no `assert` stands halts from no store.
pub fn assertless_is_quiet()
    ensures { AssertlessIsQuiet }
{}

/// A block keeps the value of an expression of which it writes no name.
pub fn unwritten_expr_kept()
    ensures { UnwrittenExprKept }
{}

/// A block keeps the truth of a test of which it writes no name.
pub fn unwritten_test_kept()
    ensures { UnwrittenTestKept }
{}

/// A block keeps the variable of a name that it does not write.
pub fn unwritten_name_kept()
    ensures { UnwrittenNameKept }
{}

/// Writing a cell of a name that an expression does not hold leaves its value.
pub fn absent_ignored_by_expr()
    ensures { AbsentIgnoredByExpr }
{}

/// Writing a cell of a name that a test does not hold leaves its truth.
pub fn absent_ignored_by_test()
    ensures { AbsentIgnoredByTest }
{}

/// A cell of a name that a block neither reads nor writes may be written before the block or behind it.
pub fn absent_ignored_by_stmt()
    ensures { AbsentIgnoredByStmt }
{}

/// Fillings of which a side condition holds by text meet it.
pub fn text_suffices()
    ensures keeps { text.KeepsSuffices }
    ensures ignores { text.IgnoresSuffices }
    ensures commutes { text.CommutesSuffices }
    ensures positive { text.PositiveSuffices }
    ensures constant { text.ConstantSuffices }
    ensures distinct { text.DistinctSuffices }
    ensures quiet { text.QuietSuffices }
{}

/// An index of the form `k + c` is c from the variable k, in every store.
pub fn offset_tells()
    ensures { OffsetTells }
{}
