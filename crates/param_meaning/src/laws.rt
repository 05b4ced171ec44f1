//! The laws of filling that matching, rewriting and simulation stand on, each the contract of a
//! function that does nothing. The statements are in `specs/FillLaws.antt`.

ghost use Rattle.param_meaning.specs.FillLaws.{FilledByParts, FilledWorkByParts, EachIsOccurring, FilledExprIsClosed, FilledTestIsClosed, FilledIsProgram, FittingCovers, FittingFillsProgram, ClosedExprStays, ClosedTestStays, ProgramStays, ExprFilledAlike, TestFilledAlike, FilledAlike, ValueOfFilled, TruthOfFilled};

/// A list of statements that is cut in two is filled part by part.
pub fn filled_by_parts()
    ensures { FilledByParts }
{}

/// The work of a filled list that is cut in two is that of its parts.
pub fn filled_work_by_parts()
    ensures { FilledWorkByParts }
{}

/// Each parameter of a block passes a test exactly where each one that occurs in it does.
pub fn each_is_occurring()
    ensures { EachIsOccurring }
{}

/// An expression that is covered by fillings without parameters is filled to one without parameters.
pub fn filled_expr_is_closed()
    ensures { FilledExprIsClosed }
{}

/// So is a test.
pub fn filled_test_is_closed()
    ensures { FilledTestIsClosed }
{}

/// A block that is covered by fillings without parameters is filled to a program.
pub fn filled_is_program()
    ensures { FilledIsProgram }
{}

/// An instance that fits a rule covers each block for which the rule's parameters are declared, by
/// fillings without parameters.
pub fn fitting_covers()
    ensures { FittingCovers }
{}

/// An instance that fits a rule fills each block for which the rule's parameters are declared to a
/// program.
pub fn fitting_fills_program()
    ensures { FittingFillsProgram }
{}

/// An expression without parameters stays as it is.
pub fn closed_expr_stays()
    ensures { ClosedExprStays }
{}

/// So does a test.
pub fn closed_test_stays()
    ensures { ClosedTestStays }
{}

/// A program stays as it is.
pub fn program_stays()
    ensures { ProgramStays }
{}

/// What an expression is filled to depends only on what stands for the parameters that occur in it.
pub fn expr_filled_alike()
    ensures { ExprFilledAlike }
{}

/// So for a test.
pub fn test_filled_alike()
    ensures { TestFilledAlike }
{}

/// So for a block.
pub fn filled_alike()
    ensures { FilledAlike }
{}

/// The value of a filled expression, by the values of what stands for its parameters.
pub fn value_of_filled()
    ensures { ValueOfFilled }
{}

/// The truth of a filled test, by the values and truths of what stands for its parameters.
pub fn truth_of_filled()
    ensures { TruthOfFilled }
{}
