//! Whether a place of a block clashes: one of the two blocks writes the name, the other reads or writes it, and the
//! region's demand is not met. A walk over the block asks of each of its places; no list of names is built.

ghost use Rattle.std.specs.Prelude.{◌≡◌};
ghost use Rattle.toy_imp.specs.Cell.{spelled};
ghost use Rattle.toy_imp.specs.ExprView.{exprs_of};
ghost use Rattle.side_conditions.specs.Places.{expr_has, exprs_have, test_has};
ghost use Rattle.side_conditions.specs.Seeking.{reads_name, writes_name};
ghost use Rattle.swap_conditions.specs.Pairs.{clash_of};
ghost use Rattle.swap_conditions.specs.Standing.{block_has, stmt_has};
ghost use Rattle.swap_conditions.specs.SwapText as spec;

use crate::demands::is_apart;
use crate::spans::bytes_of;
use crate::swapping::Swap;
use side_conditions::{Form, Sought, block_reads, block_writes};
use toy_imp::{Block, Expr, ExprNode, Name, Stmt, StmtNode, Test, TestNode};

/// Whether a place in a block clashes.
#[cycle(block_clashes)]
#[tactic(auto, using(toy_imp::specs::BlockFalls::stmt_item))]
pub(crate) fn block_clashes(q: Swap, b: &Block) -> bool
    ensures { result ≡ block_has (clash_of q.entry) b.now }
{
    for s in b.stmts.as_slice() {
        if stmt_clashes(q, s) {
            return true;
        }
    }
    false
}

/// .. in a statement.
#[cycle(block_clashes)]
fn stmt_clashes(q: Swap, s: &Stmt) -> bool
    ensures { result ≡ stmt_has (clash_of q.entry) s.now }
{
    match &s.node {
        StmtNode::Skip => false,
        StmtNode::Put(x, indices, e) => {
            let indices = indices.as_slice();
            place_clashes(q, x, indices) || exprs_clash(q, indices) || expr_clashes(q, e)
        }
        StmtNode::Assert(t) => test_clashes(q, t),
        StmtNode::If(t, b, c) => {
            test_clashes(q, t) || block_clashes(q, b) || block_clashes(q, c)
        }
        StmtNode::While(t, b) => test_clashes(q, t) || block_clashes(q, b),
        StmtNode::For(x, low, high, b) => {
            place_clashes(q, x, &[])
                || expr_clashes(q, low)
                || expr_clashes(q, high)
                || block_clashes(q, b)
        }
        StmtNode::Let(x, e, b) => {
            place_clashes(q, x, &[]) || expr_clashes(q, e) || block_clashes(q, b)
        }
        StmtNode::Par(_) => false,
    }
}

/// .. in an expression.
#[cycle(expr_clashes)]
fn expr_clashes(q: Swap, e: &Expr) -> bool
    ensures { result ≡ expr_has (clash_of q.entry) e.now }
{
    match &e.node {
        ExprNode::Num(_) => false,
        ExprNode::At(x, indices) => {
            let indices = indices.as_slice();
            place_clashes(q, x, indices) || exprs_clash(q, indices)
        }
        ExprNode::Add(a, b) => expr_clashes(q, a.get()) || expr_clashes(q, b.get()),
        ExprNode::Sub(a, b) => expr_clashes(q, a.get()) || expr_clashes(q, b.get()),
        ExprNode::Mul(a, b) => expr_clashes(q, a.get()) || expr_clashes(q, b.get()),
        ExprNode::Par(_) => false,
    }
}

/// .. in a list of expressions.
#[cycle(expr_clashes)]
#[tactic(auto, using(toy_imp::specs::ExprFalls::expr_item))]
fn exprs_clash(q: Swap, items: &[Expr]) -> bool
    ensures { result ≡ exprs_have (clash_of q.entry) (exprs_of items.now) }
{
    for e in items {
        if expr_clashes(q, e) {
            return true;
        }
    }
    false
}

/// .. in a test.
fn test_clashes(q: Swap, t: &Test) -> bool
    ensures { result ≡ test_has (clash_of q.entry) t.now }
{
    match &t.node {
        TestNode::Less(a, b) => expr_clashes(q, a) || expr_clashes(q, b),
        TestNode::LessEq(a, b) => expr_clashes(q, a) || expr_clashes(q, b),
        TestNode::Equal(a, b) => expr_clashes(q, a) || expr_clashes(q, b),
        TestNode::Not(t) => test_clashes(q, t.get()),
        TestNode::And(t, u) => test_clashes(q, t.get()) || test_clashes(q, u.get()),
        TestNode::Or(t, u) => test_clashes(q, t.get()) || test_clashes(q, u.get()),
        TestNode::Par(_) => false,
    }
}

/// Whether this place does.
fn place_clashes(q: Swap, x: &Name, indices: &[Expr]) -> bool
    ensures { result ≡ clash_of q.entry x.now (exprs_of indices.now) }
{
    shares(q.first, q.second, bytes_of(x)) && !is_apart(q, x, indices)
}

/// Whether one of two blocks writes a name and the other reads or writes it.
fn shares(first: &Block, second: &Block, name: &[u8]) -> bool
    ensures { result ≡ spec.shares first.now second.now name.now }
{
    (writes_name(name, first) && touches(name, second))
        || (writes_name(name, second) && touches(name, first))
}

/// Whether a block reads or writes the name of these bytes.
fn touches(name: &[u8], b: &Block) -> bool
    ensures { result ≡ spec.touches b.now name.now }
{
    reads_name(name, b) || writes_name(name, b)
}

/// Whether it reads it.
fn reads_name(name: &[u8], b: &Block) -> bool
    ensures { result ≡ reads_name b.now name.now }
{
    block_reads(
        Sought {
            name,
            form: Form::Any,
        },
        b,
    )
}

/// Whether it writes it.
pub(crate) fn writes_name(name: &[u8], b: &Block) -> bool
    ensures { result ≡ writes_name b.now name.now }
{
    block_writes(
        Sought {
            name,
            form: Form::Any,
        },
        b,
    )
}
