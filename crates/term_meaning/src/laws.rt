//! The laws of the meaning of terms, each the contract of a function that does nothing.
//! The statements are in `specs/MeaningLaws.antt`; the laws of reads, writes, sums and conditions are lemmas in `proofs/`.

ghost use Rattle.term_meaning.specs.MeaningLaws.{StoresAreTold, TableMayBeAssumed, TableMayGrow, OnlyRunsThatOccur, ValueAtMeans, SubstitutionMeans, ObligationGivesGoal, KnownRunIsTold, RunGoesOn, KindsFit};

/// The test of stores says whether they are equal.
pub fn stores_are_told()
    ensures { StoresAreTold }
{}

/// To show an answer, one may assume a faithful table that covers any finite list of literals.
pub fn table_may_be_assumed()
    ensures { TableMayBeAssumed }
{}

/// .. and that a faithful table grows to one.
pub fn table_may_grow()
    ensures { TableMayGrow }
{}

/// What a term means depends only on the runs that occur in it.
pub fn only_runs_that_occur()
    ensures { OnlyRunsThatOccur }
{}

/// The value term of an expression means the value of the filled expression.
pub fn value_at_means()
    ensures { ValueAtMeans }
{}

/// A term with stores in place of L and R means what it means at these stores.
pub fn substitution_means()
    ensures { SubstitutionMeans }
{}

/// An obligation that holds gives its goal, whatever answer is shown.
pub fn obligation_gives_goal()
    ensures { ObligationGivesGoal }
{}

/// A run that is known to end ends as the table says, or there is the answer.
pub fn known_run_is_told()
    ensures { KnownRunIsTold }
{}

/// Any other run goes on where the table says in which store it ends.
pub fn run_goes_on()
    ensures { RunGoesOn }
{}

/// An instance that fits the parameters of a rule fits their kinds.
pub fn kinds_fit()
    ensures { KindsFit }
{}
