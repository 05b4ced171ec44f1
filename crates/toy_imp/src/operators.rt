//! How many binary operators a canonical text has: an expression or a test with all that is in it, and at most in one
//! expression or test of a statement or block that is part of no other.
//! The operators are those of the grammar (`specs/ExprGrammar.antt`, `specs/TestGrammar.antt`,
//! `specs/BlockGrammar.antt`), counted up to the greatest `u64`; nothing takes memory.

ghost use Rattle.std.specs.Prelude.{◌≡◌, [], suc, ◌+◌, min, ◌^◌, ◌-◌};
ghost use Rattle.toy_imp.specs.BlockCanonical.{canonical_stmt, canonical_block};
ghost use Rattle.toy_imp.specs.BlockGrammar.{stmt_operators, stmts_operators};
ghost use Rattle.toy_imp.specs.ExprCanonical.{canonical_expr, canonical_place};
ghost use Rattle.toy_imp.specs.ExprGrammar.{expr_operators, place_operators, index_operators};
ghost use Rattle.toy_imp.specs.ExprView.{exprs_of};
ghost use Rattle.toy_imp.specs.TestCanonical.{canonical_test};
ghost use Rattle.toy_imp.specs.TestGrammar.{test_operators};

use crate::block::{Block, Stmt, StmtNode};
use crate::expr::{Expr, ExprNode};
use crate::test::{Test, TestNode};

/// The most operators of one expression or test of a block.
#[cycle(block)]
#[tactic(auto, using(crate::specs::BlockFalls::stmt_item))]
pub fn block_operators(b: &Block) -> u64
    ensures { result ≡ min (stmts_operators (canonical_block [] b.now)) (2 ^ 64 - 1) }
{
    let mut most: u64 = 0;
    for s in b.stmts.as_slice() {
        most = most.max(stmt_operators(s));
    }
    most
}

/// The most operators of one expression or test of a statement.
#[cycle(block)]
#[tactic(auto, using(crate::proofs::Canonicals::names_change_nothing))]
pub fn stmt_operators(s: &Stmt) -> u64
    ensures { result ≡ min (stmt_operators (canonical_stmt [] s.now)) (2 ^ 64 - 1) }
{
    match &s.node {
        StmtNode::Skip => 0,
        StmtNode::Put(_, indices, e) => {
            let index = written_operators(indices.as_slice());
            index.max(expr_operators(e))
        }
        StmtNode::Assert(t) => test_operators(t),
        StmtNode::If(t, b, c) => {
            let blocks = block_operators(b).max(block_operators(c));
            test_operators(t).max(blocks)
        }
        StmtNode::While(t, b) => test_operators(t).max(block_operators(b)),
        StmtNode::For(_, low, high, b) => {
            let bounds = expr_operators(low).max(expr_operators(high));
            bounds.max(block_operators(b))
        }
        StmtNode::Let(_, e, b) => expr_operators(e).max(block_operators(b)),
        StmtNode::Par(_) => 0,
    }
}

/// The operators of a test, those of its expressions among them.
#[tactic(auto, using(crate::proofs::Canonicals::wrapping_keeps_operators))]
pub fn test_operators(t: &Test) -> u64
    ensures { result ≡ min (test_operators (canonical_test [] t.now)) (2 ^ 64 - 1) }
{
    match &t.node {
        TestNode::Less(a, b) => expr_operators(a).saturating_add(expr_operators(b)),
        TestNode::LessEq(a, b) => expr_operators(a).saturating_add(expr_operators(b)),
        TestNode::Equal(a, b) => expr_operators(a).saturating_add(expr_operators(b)),
        TestNode::Not(t) => test_operators(t.get()),
        TestNode::And(t, u) => joined(test_operators(t.get()), test_operators(u.get())),
        TestNode::Or(t, u) => joined(test_operators(t.get()), test_operators(u.get())),
        TestNode::Par(_) => 0,
    }
}

/// The operators of an expression, those of its indices among them.
#[cycle(expr)]
#[tactic(auto, using(crate::proofs::Canonicals::names_change_nothing, crate::proofs::Canonicals::wrapping_keeps_operators))]
pub fn expr_operators(e: &Expr) -> u64
    ensures { result ≡ min (expr_operators (canonical_expr [] e.now)) (2 ^ 64 - 1) }
{
    match &e.node {
        ExprNode::Num(_) => 0,
        ExprNode::At(_, indices) => indices_operators(indices.as_slice()),
        ExprNode::Add(a, b) => joined(expr_operators(a.get()), expr_operators(b.get())),
        ExprNode::Sub(a, b) => joined(expr_operators(a.get()), expr_operators(b.get())),
        ExprNode::Mul(a, b) => joined(expr_operators(a.get()), expr_operators(b.get())),
        ExprNode::Par(_) => 0,
    }
}

/// The operators of all indices of a place that is part of an expression.
#[cycle(expr)]
#[tactic(auto, using(crate::specs::ExprFalls::expr_item))]
pub fn indices_operators(indices: &[Expr]) -> u64
    ensures { result ≡ min (place_operators (canonical_place [] [] (exprs_of indices.now))) (2 ^ 64 - 1) }
{
    match indices {
        [] => 0,
        [a] => expr_operators(a),
        [a, b] => expr_operators(a).saturating_add(expr_operators(b)),
        [a, b, c, ..] => {
            let later = expr_operators(b).saturating_add(expr_operators(c));
            expr_operators(a).saturating_add(later)
        }
    }
}

/// The most operators of one index of a place that is written: each is an expression of its own.
pub fn written_operators(indices: &[Expr]) -> u64
    ensures { result ≡ min (index_operators (canonical_place [] [] (exprs_of indices.now))) (2 ^ 64 - 1) }
{
    match indices {
        [] => 0,
        [a] => expr_operators(a),
        [a, b] => expr_operators(a).max(expr_operators(b)),
        [a, b, c, ..] => {
            let later = expr_operators(b).max(expr_operators(c));
            expr_operators(a).max(later)
        }
    }
}

// The operators of two operands, and the one between them.
fn joined(left: u64, right: u64) -> u64
    ensures { result ≡ min (suc (left + right)) (2 ^ 64 - 1) }
{
    left.saturating_add(right).saturating_add(1)
}
