//! How many blocks, `not`, brackets and parentheses stand round one place of a canonical text, at most.
//! The levels are those of the grammar (`specs/ExprGrammar.antt`, `specs/TestGrammar.antt`,
//! `specs/BlockGrammar.antt`), counted up to the greatest `u64`; nothing takes memory.

ghost use Rattle.std.specs.Prelude.{◌≡◌, [], suc, min, max, ◌^◌, ◌-◌};
ghost use Rattle.toy_imp.specs.BlockCanonical.{canonical_stmt, canonical_block};
ghost use Rattle.toy_imp.specs.BlockGrammar.{stmt_levels, stmts_levels};
ghost use Rattle.toy_imp.specs.ExprCanonical.{canonical_expr, canonical_place};
ghost use Rattle.toy_imp.specs.ExprGrammar.{expr_levels, place_levels};
ghost use Rattle.toy_imp.specs.ExprView.{exprs_of};
ghost use Rattle.toy_imp.specs.Forms.{expr_levels_as, test_levels_as};
ghost use Rattle.toy_imp.specs.TestCanonical.{canonical_test};

use crate::block::{Block, Stmt, StmtNode};
use crate::expr::{Expr, ExprNode};
use crate::form::{ExprForm, TestForm};
use crate::test::{Test, TestNode};

/// The levels of a block's statements, without a block round the whole.
#[cycle(block)]
#[tactic(auto, using(crate::specs::BlockFalls::stmt_item))]
pub fn block_levels(b: &Block) -> u64
    ensures { result ≡ min (stmts_levels (canonical_block [] b.now)) (2 ^ 64 - 1) }
{
    let mut most: u64 = 0;
    for s in b.stmts.as_slice() {
        most = most.max(stmt_levels(s));
    }
    most
}

/// The levels of a statement.
#[cycle(block)]
#[tactic(auto, using(crate::proofs::Canonicals::names_change_nothing))]
pub fn stmt_levels(s: &Stmt) -> u64
    ensures { result ≡ min (stmt_levels (canonical_stmt [] s.now)) (2 ^ 64 - 1) }
{
    match &s.node {
        StmtNode::Skip => 0,
        StmtNode::Put(_, indices, e) => {
            indices_levels(indices.as_slice()).max(expr_levels(e, ExprForm::Expr))
        }
        StmtNode::Assert(t) => test_levels(t, TestForm::Test),
        StmtNode::If(t, b, c) => {
            let blocks = block_levels(b).max(block_levels(c));
            test_levels(t, TestForm::Test).max(inside(blocks))
        }
        StmtNode::While(t, b) => test_levels(t, TestForm::Test).max(inside(block_levels(b))),
        StmtNode::For(_, low, high, b) => {
            let low = expr_levels(low, ExprForm::Expr);
            let high = expr_levels(high, ExprForm::Expr);
            low.max(high).max(inside(block_levels(b)))
        }
        StmtNode::Let(_, e, b) => expr_levels(e, ExprForm::Expr).max(inside(block_levels(b))),
        StmtNode::Par(_) => 0,
    }
}

/// The levels of a test that is written in a form of the grammar.
pub fn test_levels(t: &Test, form: TestForm) -> u64
    ensures { result ≡ min (test_levels_as form (canonical_test [] t.now)) (2 ^ 64 - 1) }
{
    match &t.node {
        TestNode::Less(a, b) => compared_levels(a, b),
        TestNode::LessEq(a, b) => compared_levels(a, b),
        TestNode::Equal(a, b) => compared_levels(a, b),
        TestNode::Not(t) => inside(test_levels(t.get(), TestForm::One)),
        TestNode::And(t, u) => {
            let left = test_levels(t.get(), TestForm::Both);
            let both = left.max(test_levels(u.get(), TestForm::One));
            match form {
                TestForm::One => inside(both),
                _ => both,
            }
        }
        TestNode::Or(t, u) => {
            let left = test_levels(t.get(), TestForm::Test);
            let both = left.max(test_levels(u.get(), TestForm::Both));
            match form {
                TestForm::Test => both,
                _ => inside(both),
            }
        }
        TestNode::Par(_) => 0,
    }
}

// The levels of the two sides of a comparison.
fn compared_levels(a: &Expr, b: &Expr) -> u64
    ensures { result ≡ min (max (expr_levels (canonical_expr [] a.now)) (expr_levels (canonical_expr [] b.now))) (2 ^ 64 - 1) }
{
    expr_levels(a, ExprForm::Expr).max(expr_levels(b, ExprForm::Expr))
}

/// The levels of an expression that is written in a form of the grammar.
#[cycle(expr)]
#[tactic(auto, using(crate::proofs::Canonicals::names_change_nothing))]
pub fn expr_levels(e: &Expr, form: ExprForm) -> u64
    ensures { result ≡ min (expr_levels_as form (canonical_expr [] e.now)) (2 ^ 64 - 1) }
{
    match &e.node {
        ExprNode::Num(_) => 0,
        ExprNode::At(_, indices) => indices_levels(indices.as_slice()),
        ExprNode::Add(a, b) | ExprNode::Sub(a, b) => {
            let left = expr_levels(a.get(), ExprForm::Expr);
            let both = left.max(expr_levels(b.get(), ExprForm::Term));
            match form {
                ExprForm::Expr => both,
                _ => inside(both),
            }
        }
        ExprNode::Mul(a, b) => {
            let left = expr_levels(a.get(), ExprForm::Term);
            let both = left.max(expr_levels(b.get(), ExprForm::Factor));
            match form {
                ExprForm::Factor => inside(both),
                _ => both,
            }
        }
        ExprNode::Par(_) => 0,
    }
}

/// The levels of a place by its indices, whatever its name.
#[cycle(expr)]
#[tactic(auto, using(crate::specs::ExprFalls::expr_item))]
pub fn indices_levels(indices: &[Expr]) -> u64
    ensures { result ≡ min (place_levels (canonical_place [] [] (exprs_of indices.now))) (2 ^ 64 - 1) }
{
    match indices {
        [] => 0,
        [a] => inside(expr_levels(a, ExprForm::Expr)),
        [a, b] => {
            let first = expr_levels(a, ExprForm::Expr);
            inside(first.max(expr_levels(b, ExprForm::Expr)))
        }
        [a, b, c, ..] => {
            let first = expr_levels(a, ExprForm::Expr);
            let second = expr_levels(b, ExprForm::Expr);
            inside(first.max(second).max(expr_levels(c, ExprForm::Expr)))
        }
    }
}

// One level more.
fn inside(levels: u64) -> u64
    ensures { result ≡ min (suc levels) (2 ^ 64 - 1) }
{
    levels.saturating_add(1)
}
