//! The law of runs, the contract of a function that does nothing.
//! The statement is in `specs/RanLaws.antt`.

ghost use Rattle.toy_run.specs.RanLaws.{OneRan};

/// A block and a number of steps come to one answer.
pub fn one_ran()
    ensures { OneRan }
{}
