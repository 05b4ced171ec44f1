//! Questions about the places of a text: whether a name is read, or written, with indices or without.
//! Each walks over the tree once and takes no memory; `specs/Places.antt` and `specs/Seeking.antt`
//! say what is asked. The sets of names that a text reads and writes are never built.

ghost use Rattle.std.specs.Prelude.{◌≡◌, bytes_eq};
ghost use Rattle.toy_imp.specs.Cell.{spelled};
ghost use Rattle.toy_imp.specs.Expr.{no_exprs};
ghost use Rattle.toy_imp.specs.ExprView.{exprs_of};
ghost use Rattle.side_conditions.specs.Places.{expr_has, exprs_have, test_has, stmt_reads, block_reads, stmt_writes, block_writes, stmt_asserts, block_asserts};
ghost use Rattle.side_conditions.specs.Seeking.{has_form, sought};

use toy_imp::{Block, Expr, ExprNode, Name, Stmt, StmtNode, Test, TestNode};

/// How many indices the places have that are sought.
#[derive(Clone, Copy)]
pub enum Form {
    /// Any number of them.
    Any,
    /// None: the variable of the name.
    Variable,
    /// At least one.
    Indexed,
}

impl Form {
    /// Whether so many indices are wanted.
    fn wants(self, indices: &[Expr]) -> bool
        ensures { result ≡ has_form self (exprs_of indices.now) }
    {
        match self {
            Form::Any => true,
            Form::Variable => indices.is_empty(),
            Form::Indexed => !indices.is_empty(),
        }
    }
}

/// The places that are sought: those of a name, by its bytes, of a form.
#[derive(Clone, Copy)]
pub struct Sought<'a> {
    pub name: &'a [u8],
    pub form: Form,
}

impl<'a> Sought<'a> {
    /// Whether a place is one of them.
    pub(crate) fn has(self, x: &Name, indices: &[Expr]) -> bool
        ensures { result ≡ sought self.entry x.now (exprs_of indices.now) }
    {
        is_spelled(x, self.name) && self.form.wants(indices)
    }
}

/// Whether a name has these bytes; a parameter has none.
pub(crate) fn is_spelled(x: &Name, bytes: &[u8]) -> bool
    ensures { result ≡ bytes_eq (spelled x.now) bytes.now }
{
    match x {
        Name::Own(own) => own.as_slice() == bytes,
        Name::Par(_) => bytes.is_empty(),
    }
}

/// Whether a place that is sought stands in an expression, in its indices too.
#[cycle(expr_has)]
pub fn expr_has(wanted: Sought, e: &Expr) -> bool
    ensures { result ≡ expr_has (sought wanted.entry) e.now }
{
    match &e.node {
        ExprNode::Num(_) => false,
        ExprNode::At(x, indices) => {
            wanted.has(x, indices.as_slice()) || exprs_have(wanted, indices.as_slice())
        }
        ExprNode::Add(a, b) => expr_has(wanted, a.get()) || expr_has(wanted, b.get()),
        ExprNode::Sub(a, b) => expr_has(wanted, a.get()) || expr_has(wanted, b.get()),
        ExprNode::Mul(a, b) => expr_has(wanted, a.get()) || expr_has(wanted, b.get()),
        ExprNode::Par(_) => false,
    }
}

/// The same of a list of expressions.
#[cycle(expr_has)]
#[tactic(auto, using(toy_imp::specs::ExprFalls::expr_item))]
fn exprs_have(wanted: Sought, items: &[Expr]) -> bool
    ensures { result ≡ exprs_have (sought wanted.entry) (exprs_of items.now) }
{
    for e in items {
        if expr_has(wanted, e) {
            return true;
        }
    }
    false
}

/// Whether a place that is sought stands in a test.
pub fn test_has(wanted: Sought, t: &Test) -> bool
    ensures { result ≡ test_has (sought wanted.entry) t.now }
{
    match &t.node {
        TestNode::Less(a, b) => expr_has(wanted, a) || expr_has(wanted, b),
        TestNode::LessEq(a, b) => expr_has(wanted, a) || expr_has(wanted, b),
        TestNode::Equal(a, b) => expr_has(wanted, a) || expr_has(wanted, b),
        TestNode::Not(t) => test_has(wanted, t.get()),
        TestNode::And(t, u) => test_has(wanted, t.get()) || test_has(wanted, u.get()),
        TestNode::Or(t, u) => test_has(wanted, t.get()) || test_has(wanted, u.get()),
        TestNode::Par(_) => false,
    }
}

/// Whether a block reads at a place that is sought: in its expressions and tests, at any depth.
#[cycle(block_reads)]
#[tactic(auto, using(toy_imp::specs::BlockFalls::stmt_item))]
pub fn block_reads(wanted: Sought, b: &Block) -> bool
    ensures { result ≡ block_reads (sought wanted.entry) b.now }
{
    for s in b.stmts.as_slice() {
        if stmt_reads(wanted, s) {
            return true;
        }
    }
    false
}

/// The same of a statement.
#[cycle(block_reads)]
fn stmt_reads(wanted: Sought, s: &Stmt) -> bool
    ensures { result ≡ stmt_reads (sought wanted.entry) s.now }
{
    match &s.node {
        StmtNode::Skip => false,
        StmtNode::Put(_, indices, e) => {
            exprs_have(wanted, indices.as_slice()) || expr_has(wanted, e)
        }
        StmtNode::Assert(t) => test_has(wanted, t),
        StmtNode::If(t, b, c) => {
            test_has(wanted, t) || block_reads(wanted, b) || block_reads(wanted, c)
        }
        StmtNode::While(t, b) => test_has(wanted, t) || block_reads(wanted, b),
        StmtNode::For(_, low, high, b) => {
            expr_has(wanted, low) || expr_has(wanted, high) || block_reads(wanted, b)
        }
        StmtNode::Let(_, e, b) => expr_has(wanted, e) || block_reads(wanted, b),
        StmtNode::Par(_) => false,
    }
}

/// Whether a block writes at a place that is sought; `for` and `let` write a name without indices.
#[cycle(block_writes)]
#[tactic(auto, using(toy_imp::specs::BlockFalls::stmt_item))]
pub fn block_writes(wanted: Sought, b: &Block) -> bool
    ensures { result ≡ block_writes (sought wanted.entry) b.now }
{
    for s in b.stmts.as_slice() {
        if stmt_writes(wanted, s) {
            return true;
        }
    }
    false
}

/// The same of a statement.
#[cycle(block_writes)]
fn stmt_writes(wanted: Sought, s: &Stmt) -> bool
    ensures { result ≡ stmt_writes (sought wanted.entry) s.now }
{
    match &s.node {
        StmtNode::Skip => false,
        StmtNode::Put(x, indices, _) => wanted.has(x, indices.as_slice()),
        StmtNode::Assert(_) => false,
        StmtNode::If(_, b, c) => block_writes(wanted, b) || block_writes(wanted, c),
        StmtNode::While(_, b) => block_writes(wanted, b),
        StmtNode::For(x, _, _, b) => wanted.has(x, &[]) || block_writes(wanted, b),
        StmtNode::Let(x, _, b) => wanted.has(x, &[]) || block_writes(wanted, b),
        StmtNode::Par(_) => false,
    }
}

/// Whether an `assert` stands in a block, at any depth.
#[cycle(block_asserts)]
#[tactic(auto, using(toy_imp::specs::BlockFalls::stmt_item))]
pub fn block_asserts(b: &Block) -> bool
    ensures { result ≡ block_asserts b.now }
{
    for s in b.stmts.as_slice() {
        if stmt_asserts(s) {
            return true;
        }
    }
    false
}

/// The same of a statement.
#[cycle(block_asserts)]
fn stmt_asserts(s: &Stmt) -> bool
    ensures { result ≡ stmt_asserts s.now }
{
    match &s.node {
        StmtNode::Skip => false,
        StmtNode::Put(_, _, _) => false,
        StmtNode::Assert(_) => true,
        StmtNode::If(_, b, c) => block_asserts(b) || block_asserts(c),
        StmtNode::While(_, b) => block_asserts(b),
        StmtNode::For(_, _, _, b) => block_asserts(b),
        StmtNode::Let(_, _, b) => block_asserts(b),
        StmtNode::Par(_) => false,
    }
}
