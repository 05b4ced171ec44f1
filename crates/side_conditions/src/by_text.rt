//! Side conditions by text, kind by kind: `specs/ByText.antt` has a definition for each line of the table
//! of conditions. That a yes implies the meaning is in `laws`. `swaps` is not here. Nothing takes memory.

ghost use Rattle.std.specs.Prelude.{◌≡◌, true};
ghost use Rattle.side_conditions.specs.Places.{expr_has};
ghost use Rattle.side_conditions.specs.ByText as spec;

use crate::occurring::{block_writes_into, bytes_of, occurs};
use crate::places::block_asserts;
use toy_imp::{Expr, ExprNode, Filling};

/// `keeps S E`, `keeps S B`, `keeps S X`: S writes no name of the expression or the test, or not the name
/// itself; a write of any of its cells counts, and so do `for` and `let`. False for other kinds. A walk
/// over the other text for each write of S.
pub fn keeps_by_text(s: &Filling, other: &Filling) -> bool
    ensures { result ≡ spec.keeps_by_text s.now other.now }
{
    match (s, other) {
        (Filling::Stmt(b), Filling::Expr(_)) => !block_writes_into(other, b),
        (Filling::Stmt(b), Filling::Test(_)) => !block_writes_into(other, b),
        (Filling::Stmt(b), Filling::Name(_)) => !block_writes_into(other, b),
        _ => false,
    }
}

/// `ignores E X`, `ignores B X`, `ignores S X`: the name does not stand in the text, read or written.
/// False for other kinds. One walk, or two over a statement.
pub fn ignores_by_text(text: &Filling, x: &Filling) -> bool
    ensures { result ≡ spec.ignores_by_text text.now x.now }
{
    match (text, x) {
        (Filling::Expr(_), Filling::Name(x)) => !occurs(text, bytes_of(x)),
        (Filling::Test(_), Filling::Name(x)) => !occurs(text, bytes_of(x)),
        (Filling::Stmt(_), Filling::Name(x)) => !occurs(text, bytes_of(x)),
        _ => false,
    }
}

/// `commutes S T`: neither statement writes a name that the other reads or writes, and no `assert`
/// stands in either. False for other kinds. The time is the product of the sizes.
pub fn commutes_by_text(s: &Filling, t: &Filling) -> bool
    ensures { result ≡ spec.commutes_by_text s.now t.now }
{
    match (s, t) {
        (Filling::Stmt(b), Filling::Stmt(c)) => {
            !block_asserts(b)
                && !block_asserts(c)
                && !block_writes_into(t, b)
                && !block_writes_into(s, c)
        }
        _ => false,
    }
}

/// `positive E`: a constant of at least 1, or a sum or a product of such. False for other kinds.
pub fn positive_by_text(e: &Filling) -> bool
    ensures { result ≡ spec.positive_by_text e.now }
{
    match e {
        Filling::Expr(e) => has_positive_form(e),
        _ => false,
    }
}

/// `constant E`: no name stands in the expression. False for other kinds.
pub fn constant_by_text(e: &Filling) -> bool
    ensures { result ≡ spec.constant_by_text e.now }
{
    match e {
        Filling::Expr(e) => !has_place(e),
        _ => false,
    }
}

/// `distinct X Y`: two names of different bytes. False for other kinds.
pub fn distinct_by_text(x: &Filling, y: &Filling) -> bool
    ensures { result ≡ spec.distinct_by_text x.now y.now }
{
    match (x, y) {
        (Filling::Name(x), Filling::Name(y)) => bytes_of(x) != bytes_of(y),
        _ => false,
    }
}

/// `quiet S`: no `assert` stands in the statement, at any depth. False for other kinds.
pub fn quiet_by_text(s: &Filling) -> bool
    ensures { result ≡ spec.quiet_by_text s.now }
{
    match s {
        Filling::Stmt(b) => !block_asserts(b),
        _ => false,
    }
}

/// Whether an expression is a constant of at least 1, or a sum or a product of such.
fn has_positive_form(e: &Expr) -> bool
    ensures { result ≡ spec.has_positive_form e.now }
{
    match &e.node {
        ExprNode::Num(z) => *z >= 1,
        ExprNode::At(_, _) => false,
        ExprNode::Add(a, b) => has_positive_form(a.get()) && has_positive_form(b.get()),
        ExprNode::Sub(_, _) => false,
        ExprNode::Mul(a, b) => has_positive_form(a.get()) && has_positive_form(b.get()),
        ExprNode::Par(_) => false,
    }
}

/// Whether a name stands in an expression.
fn has_place(e: &Expr) -> bool
    ensures { result ≡ expr_has (λ x is. true) e.now }
{
    match &e.node {
        ExprNode::Num(_) => false,
        ExprNode::At(_, _) => true,
        ExprNode::Add(a, b) => has_place(a.get()) || has_place(b.get()),
        ExprNode::Sub(a, b) => has_place(a.get()) || has_place(b.get()),
        ExprNode::Mul(a, b) => has_place(a.get()) || has_place(b.get()),
        ExprNode::Par(_) => false,
    }
}
