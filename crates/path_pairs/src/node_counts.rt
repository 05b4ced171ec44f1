//! How many nodes terms will have, counted before they are built. `specs/NodeCounts.antt` says how many.

ghost use Rattle.std.specs.Prelude.{◌≡◌, ◌+◌, max, true, false};
ghost use Rattle.toy_imp.specs.ExprView.{exprs_of};
ghost use Rattle.rule_terms.specs.Counts.{saturated};
ghost use Rattle.path_pairs.specs.NodeCounts.{expr_nodes, exprs_nodes, outcome_nodes};

use toy_imp::{Expr, ExprNode, Test, TestNode};

/// The nodes of the term of an expression at a store of `n` nodes, or 2^64 - 1 where there are more.
#[cycle(nodes)]
#[tactic(auto, unfolding(crate::specs::NodeCounts::expr_nodes))]
pub fn expr_nodes(e: &Expr, n: u64) -> u64
    ensures { result ≡ saturated (expr_nodes e.now n) }
{
    match &e.node {
        ExprNode::Num(_) => 1,
        ExprNode::At(_, indices) => one_over(exprs_nodes(indices.as_slice(), n), n),
        ExprNode::Add(a, b) | ExprNode::Sub(a, b) | ExprNode::Mul(a, b) => {
            one_over(expr_nodes(a.get(), n), expr_nodes(b.get(), n))
        }
        ExprNode::Par(_) => n.saturating_add(1),
    }
}

/// The nodes of the terms of expressions one after another, likewise.
#[cycle(nodes)]
#[tactic(auto, using(toy_imp::specs::ExprFalls::expr_item), unfolding(crate::specs::NodeCounts::exprs_nodes))]
pub fn exprs_nodes(items: &[Expr], n: u64) -> u64
    ensures { result ≡ saturated (exprs_nodes (exprs_of items.now) n) }
{
    let mut all: u64 = 0;
    for e in items {
        all = all.saturating_add(expr_nodes(e, n));
    }
    all
}

// One node over two terms.
fn one_over(a: u64, b: u64) -> u64
    ensures { result ≡ saturated (a + b + 1) }
{
    a.saturating_add(b).saturating_add(1)
}

/// The most nodes of an outcome of a test in which it is true and in which it is false; each number
/// stands still at 2^64 - 1.
#[derive(Clone, Copy, Debug, PartialEq, Eq)]
pub struct OutcomeNodes {
    pub when_true: u64,
    pub when_false: u64,
}

impl OutcomeNodes {
    /// Those of a test with one outcome of each kind.
    fn same(nodes: u64) -> OutcomeNodes
        ensures when_true { result.when_true ≡ nodes }
        ensures when_false { result.when_false ≡ nodes }
    {
        OutcomeNodes {
            when_true: nodes,
            when_false: nodes,
        }
    }

    /// Those of the negation.
    fn turned(self) -> OutcomeNodes
        ensures when_true { result.when_true ≡ self.when_false }
        ensures when_false { result.when_false ≡ self.when_true }
    {
        OutcomeNodes {
            when_true: self.when_false,
            when_false: self.when_true,
        }
    }

    /// Those of both tests together.
    fn and(self, other: OutcomeNodes) -> OutcomeNodes
        ensures when_true { result.when_true ≡ saturated (self.when_true + other.when_true) }
        ensures when_false { result.when_false ≡ max self.when_false (saturated (self.when_true + other.when_false)) }
    {
        let second = self.when_true.saturating_add(other.when_false);
        OutcomeNodes {
            when_true: self.when_true.saturating_add(other.when_true),
            when_false: self.when_false.max(second),
        }
    }
}

/// The most nodes of an outcome of a test at a store of `n` nodes. Takes no memory.
#[tactic(auto, unfolding(crate::specs::NodeCounts::outcome_nodes))]
pub fn outcome_nodes(t: &Test, n: u64) -> OutcomeNodes
    ensures when_true { result.when_true ≡ saturated (outcome_nodes t.now true n) }
    ensures when_false { result.when_false ≡ saturated (outcome_nodes t.now false n) }
{
    match &t.node {
        TestNode::Less(a, b) | TestNode::LessEq(a, b) | TestNode::Equal(a, b) => {
            OutcomeNodes::same(one_over(expr_nodes(a, n), expr_nodes(b, n)))
        }
        TestNode::Not(t) => outcome_nodes(t.get(), n).turned(),
        TestNode::And(t, u) => outcome_nodes(t.get(), n).and(outcome_nodes(u.get(), n)),
        TestNode::Or(t, u) => {
            let t = outcome_nodes(t.get(), n).turned();
            let u = outcome_nodes(u.get(), n).turned();
            t.and(u).turned()
        }
        TestNode::Par(_) => OutcomeNodes::same(n.saturating_add(1)),
    }
}
