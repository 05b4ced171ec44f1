//! The laws that proofs about terms stand on, each the contract of a function that does nothing.
//! The statements are in `specs/SubstituteLaws.antt`.

ghost use Rattle.rule_terms.specs.SubstituteLaws.{NodesReplaced, DepthReplaced, SidesStay, ReplacedTwice, PartsReplaced, NothingElse};

/// With stores in place of L and R a term has the nodes of the stores where it had those of L and R.
pub fn nodes_replaced()
    ensures { NodesReplaced }
{}

/// Its depth grows by less than the greater depth of the stores.
pub fn depth_replaced()
    ensures { DepthReplaced }
{}

/// L and R in place of themselves change nothing.
pub fn sides_stay()
    ensures { SidesStay }
{}

/// One replacement after another is one replacement.
pub fn replaced_twice()
    ensures { ReplacedTwice }
{}

/// What occurs in a term occurs, replaced, in the replaced term.
pub fn parts_replaced()
    ensures { PartsReplaced }
{}

/// Nothing else occurs there but what occurs in the stores.
pub fn nothing_else()
    ensures { NothingElse }
{}
