//! The laws of preconditions, each the contract of a function that does nothing.
//! The statements are in `specs/PreconditionLaws.antt`.

ghost use Rattle.parallel_wp.specs.PreconditionLaws.{PreconditionMeans, ObligationNodes};

/// Where the literals of both paths are true the precondition is true exactly where the conjunct is true where
/// they arrive; where some literal is false it is true.
pub fn precondition_means()
    ensures { PreconditionMeans }
{}

/// The nodes of an obligation at a pair of paths are those of its known conjuncts and of the precondition.
pub fn obligation_nodes()
    ensures { ObligationNodes }
{}
