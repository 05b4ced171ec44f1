//! The laws that proofs about programs stand on, each the contract of a function that does nothing.
//! The statements are in `specs/StoreLaws.antt`, `specs/RunLaws.antt`, `specs/NumberLaws.antt` and
//! `specs/CanonicalLaws.antt`.

ghost use Rattle.toy_imp.specs.CanonicalLaws.{CanonicalExprReadsBack, CanonicalTestReadsBack, CanonicalBlockReadsBack, ReadExprIsSpellable, ReadTestIsSpellable, ReadBlockIsSpellable};
ghost use Rattle.toy_imp.specs.NumberLaws.{ProductCommutes, ProductAssociates, ProductOfSum, SumTimes, ProductOfDifference, DifferenceTimes};
ghost use Rattle.toy_imp.specs.RunLaws.{WorkSplits, WorkJoins, OneOutcome, SkipIsNothing, SkipDrops, EmptyIsNothing, LaterReplaced, FrontReplaced, PartsReplaced, OpenNeverEnds, QuietIsSame, QuietTogether};
ghost use Rattle.toy_imp.specs.StoreLaws.{WriteIsRead, WriteKeepsOthers, AgreeingIsEqual};

/// A cell holds what was written into it.
pub fn write_is_read()
    ensures { WriteIsRead }
{}

/// A write keeps every other cell.
pub fn write_keeps_others()
    ensures { WriteKeepsOthers }
{}

/// Stores that agree at every cell are equal.
pub fn agreeing_is_equal()
    ensures { AgreeingIsEqual }
{}

/// The steps that do two lists of work are steps that do the first and then steps that do the second, or the first
/// halts in them.
pub fn work_splits()
    ensures { WorkSplits }
{}

/// Steps that do one list of work and then another do both, and steps in which the first halts halt.
pub fn work_joins()
    ensures { WorkJoins }
{}

/// From a store, work ends or halts at most one way, in one store.
pub fn one_outcome()
    ensures { OneOutcome }
{}

/// A parameter that stands for no statement never ends and never halts.
pub fn open_never_ends()
    ensures { OpenNeverEnds }
{}

/// `skip` in front of any work changes nothing.
pub fn skip_is_nothing()
    ensures { SkipIsNothing }
{}

/// `skip` may be dropped at any place of a block.
pub fn skip_drops()
    ensures { SkipDrops }
{}

/// The empty block changes nothing in front of work or after a block.
pub fn empty_is_nothing()
    ensures { EmptyIsNothing }
{}

/// Work that is done later may be replaced by work that ends and halts alike.
pub fn later_replaced()
    ensures { LaterReplaced }
{}

/// A block in front of work may be replaced by one that is the same.
pub fn front_replaced()
    ensures { FrontReplaced }
{}

/// Both parts of a block may be replaced by blocks that are the same.
pub fn parts_replaced()
    ensures { PartsReplaced }
{}

/// Blocks that halt from no store and end alike are the same.
pub fn quiet_is_same()
    ensures { QuietIsSame }
{}

/// Two blocks that halt from no store, one after the other, halt from no store.
pub fn quiet_together()
    ensures { QuietTogether }
{}

/// The order of two factors does not matter.
pub fn product_commutes()
    ensures { ProductCommutes }
{}

/// The grouping of three factors does not matter.
pub fn product_associates()
    ensures { ProductAssociates }
{}

/// A number times a sum.
pub fn product_of_sum()
    ensures { ProductOfSum }
{}

/// A sum times a number.
pub fn sum_times()
    ensures { SumTimes }
{}

/// A number times a difference.
pub fn product_of_difference()
    ensures { ProductOfDifference }
{}

/// A difference times a number.
pub fn difference_times()
    ensures { DifferenceTimes }
{}

/// The canonical tree of a spellable expression has that expression as its value.
pub fn canonical_expr_reads_back()
    ensures { CanonicalExprReadsBack }
{}

/// The canonical tree of a spellable test has that test as its value.
pub fn canonical_test_reads_back()
    ensures { CanonicalTestReadsBack }
{}

/// The canonical tree of a spellable block has that block as its value.
pub fn canonical_block_reads_back()
    ensures { CanonicalBlockReadsBack }
{}

/// An expression that is the value of a tree is spellable.
pub fn read_expr_is_spellable()
    ensures { ReadExprIsSpellable }
{}

/// A test that is the value of a tree, and whose test parameters are declared, is spellable.
pub fn read_test_is_spellable()
    ensures { ReadTestIsSpellable }
{}

/// A block that is the value of a tree, and whose test and statement parameters are declared, is spellable.
pub fn read_block_is_spellable()
    ensures { ReadBlockIsSpellable }
{}
