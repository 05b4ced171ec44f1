//! Laws of pools. Each is the contract of a function that does nothing.

ghost use Rattle.term_pool.specs.Numbered.{NodesOnce};

/// No node of a pool stands at two numbers. That no term has two is part of what a pool is.
#[tactic(auto, using(crate::proofs::Different::nodes_once))]
pub fn nodes_have_one_number()
    ensures { NodesOnce }
{}
