//! A walk over the places of a rule's sides where names and parameters stand.
//! `specs/Uses.antt` says which places there are; a question is asked of each until one says yes.

ghost use Rattle.std.specs.Prelude.{◌≡◌};
ghost use Rattle.toy_imp.specs.declared.param.Kind.TheVariants as kind;
ghost use Rattle.toy_imp.specs.ExprView.{exprs_of};
ghost use Rattle.toy_imp.specs.Faults.{has_kind};
ghost use Rattle.toy_imp.specs.Questions.{asked};
ghost use Rattle.toy_imp.specs.Uses.{own_name, parameter, name_use, expr_any, exprs_any, test_any, stmt_any, block_any};

use crate::block::{Block, Stmt, StmtNode};
use crate::expr::{Expr, ExprNode};
use crate::name::Name;
use crate::param::{Kind, Param};
use crate::test::{Test, TestNode};

/// What is asked of a place where a name or a parameter stands.
#[derive(Clone, Copy)]
pub enum Question<'a> {
    /// Whether it holds a name of no parameter, or a number that is not below this one.
    IsUndeclared(usize),
    /// Whether the parameter there is not of the kind that the place wants.
    IsMisplaced(&'a [Param]),
    /// Whether the parameter of this number stands there.
    IsNumber(usize),
}

impl<'a> Question<'a> {
    /// The answer at a name that is no parameter.
    fn at_own(self) -> bool
        ensures { result ≡ asked self.entry own_name }
    {
        match self {
            Question::IsUndeclared(_) => true,
            Question::IsMisplaced(_) => false,
            Question::IsNumber(_) => false,
        }
    }

    /// The answer at a parameter where a kind is wanted.
    fn at(self, wanted: Kind, k: u32) -> bool
        ensures { result ≡ asked self.entry (parameter wanted k) }
    {
        match self {
            Question::IsUndeclared(count) => count <= k as usize,
            Question::IsMisplaced(params) => !has_kind(params, wanted, k),
            Question::IsNumber(number) => k as usize == number,
        }
    }

    /// The answer at a name.
    fn at_name(self, x: &Name) -> bool
        ensures { result ≡ asked self.entry (name_use x.now) }
    {
        match x {
            Name::Own(_) => self.at_own(),
            Name::Par(k) => self.at(Kind::Name, *k),
        }
    }
}

/// Whether the number is that of a parameter of this kind.
pub fn has_kind(params: &[Param], wanted: Kind, k: u32) -> bool
    ensures { result ≡ has_kind params.now wanted k }
{
    match params.get(k as usize) {
        Some(p) => p.kind == wanted,
        None => false,
    }
}

/// Whether the answer is yes at some place of an expression.
#[cycle(expr_any)]
fn expr_any(question: Question, e: &Expr) -> bool
    ensures { result ≡ expr_any (asked question.entry) e.now }
{
    match &e.node {
        ExprNode::Num(_) => false,
        ExprNode::At(x, indices) => question.at_name(x) || exprs_any(question, indices.as_slice()),
        ExprNode::Add(a, b) => expr_any(question, a.get()) || expr_any(question, b.get()),
        ExprNode::Sub(a, b) => expr_any(question, a.get()) || expr_any(question, b.get()),
        ExprNode::Mul(a, b) => expr_any(question, a.get()) || expr_any(question, b.get()),
        ExprNode::Par(k) => question.at(Kind::Expr, *k),
    }
}

/// The same of a list of expressions.
#[cycle(expr_any)]
#[tactic(auto, using(crate::specs::ExprFalls::expr_item))]
fn exprs_any(question: Question, items: &[Expr]) -> bool
    ensures { result ≡ exprs_any (asked question.entry) (exprs_of items.now) }
{
    for e in items {
        if expr_any(question, e) {
            return true;
        }
    }
    false
}

/// Whether the answer is yes at some place of a test.
fn test_any(question: Question, t: &Test) -> bool
    ensures { result ≡ test_any (asked question.entry) t.now }
{
    match &t.node {
        TestNode::Less(a, b) => expr_any(question, a) || expr_any(question, b),
        TestNode::LessEq(a, b) => expr_any(question, a) || expr_any(question, b),
        TestNode::Equal(a, b) => expr_any(question, a) || expr_any(question, b),
        TestNode::Not(t) => test_any(question, t.get()),
        TestNode::And(t, u) => test_any(question, t.get()) || test_any(question, u.get()),
        TestNode::Or(t, u) => test_any(question, t.get()) || test_any(question, u.get()),
        TestNode::Par(k) => question.at(Kind::Test, *k),
    }
}

/// Whether the answer is yes at some place of a statement.
#[cycle(block_any)]
fn stmt_any(question: Question, s: &Stmt) -> bool
    ensures { result ≡ stmt_any (asked question.entry) s.now }
{
    match &s.node {
        StmtNode::Skip => false,
        StmtNode::Put(x, indices, e) => {
            question.at_name(x) || exprs_any(question, indices.as_slice()) || expr_any(question, e)
        }
        StmtNode::Assert(t) => test_any(question, t),
        StmtNode::If(t, b, c) => {
            test_any(question, t) || block_any(question, b) || block_any(question, c)
        }
        StmtNode::While(t, b) => test_any(question, t) || block_any(question, b),
        StmtNode::For(x, low, high, b) => {
            question.at_name(x)
                || expr_any(question, low)
                || expr_any(question, high)
                || block_any(question, b)
        }
        StmtNode::Let(x, e, b) => {
            question.at_name(x) || expr_any(question, e) || block_any(question, b)
        }
        StmtNode::Par(k) => question.at(Kind::Stmt, *k),
    }
}

/// Whether the answer is yes at some place of a block.
#[cycle(block_any)]
#[tactic(auto, using(crate::specs::BlockFalls::stmt_item))]
pub fn block_any(question: Question, b: &Block) -> bool
    ensures { result ≡ block_any (asked question.entry) b.now }
{
    for s in b.stmts.as_slice() {
        if stmt_any(question, s) {
            return true;
        }
    }
    false
}
