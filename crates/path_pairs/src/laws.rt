//! The laws of paths, each the contract of a function that does nothing.
//! The statements are in `specs/PathLaws.antt` and `specs/RulePaths.antt`.

ghost use Rattle.path_pairs.specs.PathLaws.{PathLaw, RunGoesOn, AllIsLeftAtStart, RunEndsAtExit};
ghost use Rattle.path_pairs.specs.RulePaths.{RuleSides, RulePathLaw, OneHasPlace, LiteralsCoverPaths, LiteralsInARow, CoversEachList};

/// Of all paths from a point, the literals of exactly one are true. It tells to which point the run comes, by some
/// step or with fewer statements left; or that it halts; or before which statement parameter it is stuck.
pub fn path_law()
    ensures { PathLaw }
{}

/// In a rule that is well formed and proved by simulation every name is a parameter, and there is no `for` and no `let`.
pub fn rule_sides()
    ensures { RuleSides }
{}

/// The path law of a rule that is well formed and proved by simulation, from a point from which no limit is met.
pub fn rule_path_law()
    ensures { RulePathLaw }
{}

/// The one path stands at one place in the list, and at every other place one that is not taken.
pub fn one_has_place()
    ensures { OneHasPlace }
{}

/// A table that covers one list of literals covers all that is asked of a list of paths.
pub fn literals_cover_paths()
    ensures { LiteralsCoverPaths }
{}

/// The literals of two lists of paths in a row are those of each.
pub fn literals_in_a_row()
    ensures { LiteralsInARow }
{}

/// A table that covers two lists of literals in a row covers each.
pub fn covers_each_list()
    ensures { CoversEachList }
{}

/// A run that comes to other work goes on with it, and has exactly the outcome that that work has.
pub fn run_goes_on()
    ensures { RunGoesOn }
{}

/// At the start all of a side is left to do.
pub fn all_is_left_at_start()
    ensures { AllIsLeftAtStart }
{}

/// A run that comes to the exit has ended.
pub fn run_ends_at_exit()
    ensures { RunEndsAtExit }
{}
