//! A walk over a side of a rule that marks the numbers of the parameters in it.

ghost use Rattle.std.specs.Prelude.{◌≡◌};
ghost use Rattle.toy_imp.specs.ExprView.{exprs_of};
ghost use Rattle.rule_faults.specs.Marks.{number_marked, name_marked, expr_marked, exprs_marked, test_marked, stmt_marked, block_marked};

use toy_imp::{Block, Expr, ExprNode, Name, Stmt, StmtNode, Test, TestNode};

/// Marks a number, if it has a place.
#[tactic(auto, using(crate::proofs::MarkedParts::number_passed, crate::proofs::MarkedParts::number_set))]
fn mark_number(k: u32, marks: &mut [bool])
    ensures { marks.new ≡ number_marked k marks.old }
{
    let place = k as usize;
    if place < marks.len() {
        marks[place] = true;
    }
}

/// Marks the number of a name that is a parameter.
#[tactic(auto, using(crate::proofs::MarkedParts::own_marked, crate::proofs::MarkedParts::name_par_marked))]
fn mark_name(x: &Name, marks: &mut [bool])
    ensures { marks.new ≡ name_marked x.now marks.old }
{
    match x {
        Name::Own(_) => {}
        Name::Par(k) => mark_number(*k, marks),
    }
}

/// Marks the numbers in an expression.
#[cycle(mark_expr)]
#[tactic(auto, using(crate::proofs::MarkedParts::num_marked, crate::proofs::MarkedParts::at_marked, crate::proofs::MarkedParts::add_marked, crate::proofs::MarkedParts::sub_marked, crate::proofs::MarkedParts::mul_marked, crate::proofs::MarkedParts::par_expr_marked))]
fn mark_expr(e: &Expr, marks: &mut [bool])
    ensures { marks.new ≡ expr_marked e.now marks.old }
{
    match &e.node {
        ExprNode::Num(_) => {}
        ExprNode::At(x, indices) => {
            mark_name(x, marks);
            mark_exprs(indices.as_slice(), marks);
        }
        ExprNode::Add(a, b) => {
            mark_expr(a.get(), marks);
            mark_expr(b.get(), marks);
        }
        ExprNode::Sub(a, b) => {
            mark_expr(a.get(), marks);
            mark_expr(b.get(), marks);
        }
        ExprNode::Mul(a, b) => {
            mark_expr(a.get(), marks);
            mark_expr(b.get(), marks);
        }
        ExprNode::Par(k) => mark_number(*k, marks),
    }
}

/// The same of a list of expressions.
#[cycle(mark_expr)]
#[tactic(auto, using(toy_imp::specs::ExprFalls::expr_item, crate::proofs::MarkedParts::expr_item_marked, crate::proofs::MarkedParts::expr_items_marked))]
fn mark_exprs(items: &[Expr], marks: &mut [bool])
    ensures { marks.new ≡ exprs_marked (exprs_of items.now) marks.old }
{
    for e in items {
        mark_expr(e, marks);
    }
}

/// Marks the numbers in a test.
#[tactic(auto, using(crate::proofs::MarkedParts::less_marked, crate::proofs::MarkedParts::less_eq_marked, crate::proofs::MarkedParts::equal_marked, crate::proofs::MarkedParts::not_marked, crate::proofs::MarkedParts::and_marked, crate::proofs::MarkedParts::or_marked, crate::proofs::MarkedParts::par_test_marked))]
fn mark_test(t: &Test, marks: &mut [bool])
    ensures { marks.new ≡ test_marked t.now marks.old }
{
    match &t.node {
        TestNode::Less(a, b) => {
            mark_expr(a, marks);
            mark_expr(b, marks);
        }
        TestNode::LessEq(a, b) => {
            mark_expr(a, marks);
            mark_expr(b, marks);
        }
        TestNode::Equal(a, b) => {
            mark_expr(a, marks);
            mark_expr(b, marks);
        }
        TestNode::Not(t) => mark_test(t.get(), marks),
        TestNode::And(t, u) => {
            mark_test(t.get(), marks);
            mark_test(u.get(), marks);
        }
        TestNode::Or(t, u) => {
            mark_test(t.get(), marks);
            mark_test(u.get(), marks);
        }
        TestNode::Par(k) => mark_number(*k, marks),
    }
}

/// Marks the numbers in a statement.
#[cycle(mark_block)]
#[tactic(auto, using(crate::proofs::MarkedParts::skip_marked, crate::proofs::MarkedParts::put_marked, crate::proofs::MarkedParts::assert_marked, crate::proofs::MarkedParts::if_marked, crate::proofs::MarkedParts::while_marked, crate::proofs::MarkedParts::for_marked, crate::proofs::MarkedParts::let_marked, crate::proofs::MarkedParts::par_stmt_marked))]
fn mark_stmt(s: &Stmt, marks: &mut [bool])
    ensures { marks.new ≡ stmt_marked s.now marks.old }
{
    match &s.node {
        StmtNode::Skip => {}
        StmtNode::Put(x, indices, e) => {
            mark_name(x, marks);
            mark_exprs(indices.as_slice(), marks);
            mark_expr(e, marks);
        }
        StmtNode::Assert(t) => mark_test(t, marks),
        StmtNode::If(t, b, c) => {
            mark_test(t, marks);
            mark_block(b, marks);
            mark_block(c, marks);
        }
        StmtNode::While(t, b) => {
            mark_test(t, marks);
            mark_block(b, marks);
        }
        StmtNode::For(x, low, high, b) => {
            mark_name(x, marks);
            mark_expr(low, marks);
            mark_expr(high, marks);
            mark_block(b, marks);
        }
        StmtNode::Let(x, e, b) => {
            mark_name(x, marks);
            mark_expr(e, marks);
            mark_block(b, marks);
        }
        StmtNode::Par(k) => mark_number(*k, marks),
    }
}

/// Marks the numbers in a block.
#[cycle(mark_block)]
#[tactic(auto, using(toy_imp::specs::BlockFalls::stmt_item, crate::proofs::MarkedParts::stmt_item_marked, crate::proofs::MarkedParts::stmt_items_marked))]
pub fn mark_block(b: &Block, marks: &mut [bool])
    ensures { marks.new ≡ block_marked b.now marks.old }
{
    for s in b.stmts.as_slice() {
        mark_stmt(s, marks);
    }
}
