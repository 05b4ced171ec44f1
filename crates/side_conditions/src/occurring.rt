//! Whether a name stands in a filling, and whether a block writes some name that does.
//! `specs/ByText.antt` says what is asked. A walk over the block asks of each write; no list of names
//! is built.

ghost use Rattle.std.specs.Prelude.{◌≡◌};
ghost use Rattle.toy_imp.specs.Cell.{spelled};
ghost use Rattle.side_conditions.specs.ByText as spec;
ghost use Rattle.side_conditions.specs.Places.{stmt_writes};
ghost use Rattle.side_conditions.specs.Places as places;
ghost use Rattle.side_conditions.specs.Seeking.{named, reads_name, writes_name};

use crate::places::{Form, Sought, block_reads, block_writes, expr_has, is_spelled, test_has};
use toy_imp::{Block, Expr, Filling, Name, Stmt, StmtNode, Test};

/// The bytes of a name; a parameter has none.
pub(crate) fn bytes_of(x: &Name) -> &[u8]
    ensures { result.now ≡ spelled x.now }
{
    match x {
        Name::Own(own) => own.as_slice(),
        Name::Par(_) => &[],
    }
}

/// Whether the name of these bytes stands in a filling.
pub(crate) fn occurs(f: &Filling, name: &[u8]) -> bool
    ensures { result ≡ spec.occurs f.now name.now }
{
    match f {
        Filling::Name(x) => is_spelled(x, name),
        Filling::Expr(e) => expr_has_name(name, e),
        Filling::Test(t) => test_has_name(name, t),
        Filling::Stmt(b) => reads_name(name, b) || writes_name(name, b),
    }
}

/// Whether the name of these bytes stands in an expression.
fn expr_has_name(name: &[u8], e: &Expr) -> bool
    ensures { result ≡ places.expr_has (named name.now) e.now }
{
    expr_has(
        Sought {
            name,
            form: Form::Any,
        },
        e,
    )
}

/// .. in a test.
fn test_has_name(name: &[u8], t: &Test) -> bool
    ensures { result ≡ places.test_has (named name.now) t.now }
{
    test_has(
        Sought {
            name,
            form: Form::Any,
        },
        t,
    )
}

/// Whether a block reads the name of these bytes.
fn reads_name(name: &[u8], b: &Block) -> bool
    ensures { result ≡ reads_name b.now name.now }
{
    block_reads(
        Sought {
            name,
            form: Form::Any,
        },
        b,
    )
}

/// .. writes it.
fn writes_name(name: &[u8], b: &Block) -> bool
    ensures { result ≡ writes_name b.now name.now }
{
    block_writes(
        Sought {
            name,
            form: Form::Any,
        },
        b,
    )
}

/// Whether a block writes some name that stands in the filling.
#[cycle(block_writes_into)]
#[tactic(auto, using(toy_imp::specs::BlockFalls::stmt_item))]
pub(crate) fn block_writes_into(f: &Filling, b: &Block) -> bool
    ensures { result ≡ spec.writes_into b.now f.now }
{
    for s in b.stmts.as_slice() {
        if stmt_writes_into(f, s) {
            return true;
        }
    }
    false
}

/// The same of a statement.
#[cycle(block_writes_into)]
fn stmt_writes_into(f: &Filling, s: &Stmt) -> bool
    ensures { result ≡ stmt_writes (λ x is. spec.occurs f.now (spelled x)) s.now }
{
    match &s.node {
        StmtNode::Skip => false,
        StmtNode::Put(x, _, _) => occurs(f, bytes_of(x)),
        StmtNode::Assert(_) => false,
        StmtNode::If(_, b, c) => block_writes_into(f, b) || block_writes_into(f, c),
        StmtNode::While(_, b) => block_writes_into(f, b),
        StmtNode::For(x, _, _, b) => occurs(f, bytes_of(x)) || block_writes_into(f, b),
        StmtNode::Let(x, _, b) => occurs(f, bytes_of(x)) || block_writes_into(f, b),
        StmtNode::Par(_) => false,
    }
}
