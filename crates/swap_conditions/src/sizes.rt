//! How many nodes a block has, so that the smaller of two is walked over. No answer rests on it: it says nothing but how
//! long a test takes.

use toy_imp::{Block, Expr, ExprNode, Stmt, StmtNode, Test, TestNode};

/// The number of statements, expressions and tests in a block, as far as 64 bits count.
#[cycle(block_size)]
#[tactic(auto, using(toy_imp::specs::BlockFalls::stmt_item))]
pub(crate) fn block_size(b: &Block) -> u64 {
    let mut all = 0u64;
    for s in b.stmts.as_slice() {
        all = all.saturating_add(stmt_size(s));
    }
    all
}

#[cycle(block_size)]
fn stmt_size(s: &Stmt) -> u64 {
    match &s.node {
        StmtNode::Skip | StmtNode::Par(_) => 1,
        StmtNode::Put(_, indices, e) => {
            exprs_size(indices.as_slice())
                .saturating_add(expr_size(e))
                .saturating_add(1)
        }
        StmtNode::Assert(t) => test_size(t),
        StmtNode::If(t, b, c) => {
            test_size(t)
                .saturating_add(block_size(b))
                .saturating_add(block_size(c))
        }
        StmtNode::While(t, b) => test_size(t).saturating_add(block_size(b)),
        StmtNode::For(_, low, high, b) => {
            let bounds = expr_size(low).saturating_add(expr_size(high));
            bounds.saturating_add(block_size(b))
        }
        StmtNode::Let(_, e, b) => expr_size(e).saturating_add(block_size(b)),
    }
}

#[cycle(expr_size)]
fn expr_size(e: &Expr) -> u64 {
    match &e.node {
        ExprNode::Num(_) | ExprNode::Par(_) => 1,
        ExprNode::At(_, indices) => exprs_size(indices.as_slice()).saturating_add(1),
        ExprNode::Add(a, b) => expr_size(a.get()).saturating_add(expr_size(b.get())),
        ExprNode::Sub(a, b) => expr_size(a.get()).saturating_add(expr_size(b.get())),
        ExprNode::Mul(a, b) => expr_size(a.get()).saturating_add(expr_size(b.get())),
    }
}

#[cycle(expr_size)]
#[tactic(auto, using(toy_imp::specs::ExprFalls::expr_item))]
fn exprs_size(items: &[Expr]) -> u64 {
    let mut all = 0u64;
    for e in items {
        all = all.saturating_add(expr_size(e));
    }
    all
}

fn test_size(t: &Test) -> u64 {
    match &t.node {
        TestNode::Less(a, b) => expr_size(a).saturating_add(expr_size(b)),
        TestNode::LessEq(a, b) => expr_size(a).saturating_add(expr_size(b)),
        TestNode::Equal(a, b) => expr_size(a).saturating_add(expr_size(b)),
        TestNode::Not(t) => test_size(t.get()),
        TestNode::And(t, u) => test_size(t.get()).saturating_add(test_size(u.get())),
        TestNode::Or(t, u) => test_size(t.get()).saturating_add(test_size(u.get())),
        TestNode::Par(_) => 1,
    }
}
