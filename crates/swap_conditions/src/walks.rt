//! A walk over the places of a block, read or written, that says how far those of a name are from a counter.
//! It is the fold of `specs/Folding.antt` over them; it goes over the tree once and takes no memory.

ghost use Rattle.std.specs.Prelude.{◌≡◌};
ghost use Rattle.toy_imp.specs.ExprView.{exprs_of};
ghost use Rattle.swap_conditions.specs.Folding as fold;
ghost use Rattle.swap_conditions.specs.Spanning.{passed};

use crate::spans::{Asked, Span};
use toy_imp::{Block, Expr, ExprNode, Stmt, StmtNode, Test, TestNode};

/// What is known once the places of an expression are passed too.
#[cycle(expr_span)]
fn expr_span(q: Asked, e: &Expr, before: Span) -> Span
    ensures { result ≡ fold.expr_fold (passed q.entry) e.now before }
{
    match &e.node {
        ExprNode::Num(_) => before,
        ExprNode::At(x, indices) => {
            let indices = indices.as_slice();
            exprs_span(q, indices, q.passed(x, indices, before))
        }
        ExprNode::Add(a, b) => expr_span(q, b.get(), expr_span(q, a.get(), before)),
        ExprNode::Sub(a, b) => expr_span(q, b.get(), expr_span(q, a.get(), before)),
        ExprNode::Mul(a, b) => expr_span(q, b.get(), expr_span(q, a.get(), before)),
        ExprNode::Par(_) => before,
    }
}

/// .. of a list of expressions.
#[cycle(expr_span)]
#[tactic(auto, using(toy_imp::specs::ExprFalls::expr_item))]
fn exprs_span(q: Asked, items: &[Expr], before: Span) -> Span
    ensures { result ≡ fold.exprs_fold (passed q.entry) (exprs_of items.now) before }
{
    let mut span = before;
    for e in items {
        span = expr_span(q, e, span);
    }
    span
}

/// .. of a test.
fn test_span(q: Asked, t: &Test, before: Span) -> Span
    ensures { result ≡ fold.test_fold (passed q.entry) t.now before }
{
    match &t.node {
        TestNode::Less(a, b) => expr_span(q, b, expr_span(q, a, before)),
        TestNode::LessEq(a, b) => expr_span(q, b, expr_span(q, a, before)),
        TestNode::Equal(a, b) => expr_span(q, b, expr_span(q, a, before)),
        TestNode::Not(t) => test_span(q, t.get(), before),
        TestNode::And(t, u) => test_span(q, u.get(), test_span(q, t.get(), before)),
        TestNode::Or(t, u) => test_span(q, u.get(), test_span(q, t.get(), before)),
        TestNode::Par(_) => before,
    }
}

/// .. of a block.
#[cycle(block_span)]
#[tactic(auto, using(toy_imp::specs::BlockFalls::stmt_item))]
pub(crate) fn block_span(q: Asked, b: &Block, before: Span) -> Span
    ensures { result ≡ fold.block_fold (passed q.entry) b.now before }
{
    let mut span = before;
    for s in b.stmts.as_slice() {
        span = stmt_span(q, s, span);
    }
    span
}

/// .. of a statement.
#[cycle(block_span)]
fn stmt_span(q: Asked, s: &Stmt, before: Span) -> Span
    ensures { result ≡ fold.stmt_fold (passed q.entry) s.now before }
{
    match &s.node {
        StmtNode::Skip => before,
        StmtNode::Put(x, indices, e) => {
            let indices = indices.as_slice();
            let span = exprs_span(q, indices, q.passed(x, indices, before));
            expr_span(q, e, span)
        }
        StmtNode::Assert(t) => test_span(q, t, before),
        StmtNode::If(t, b, c) => {
            let span = block_span(q, b, test_span(q, t, before));
            block_span(q, c, span)
        }
        StmtNode::While(t, b) => block_span(q, b, test_span(q, t, before)),
        StmtNode::For(x, low, high, b) => {
            let span = expr_span(q, low, q.passed(x, &[], before));
            block_span(q, b, expr_span(q, high, span))
        }
        StmtNode::Let(x, e, b) => {
            let span = expr_span(q, e, q.passed(x, &[], before));
            block_span(q, b, span)
        }
        StmtNode::Par(_) => before,
    }
}
