//! Walks over a block: which names its loops and `let`s set, and round which statement parameters.
//! `specs/Setting.antt` says what each asks; they take no memory.

ghost use Rattle.std.specs.Prelude.{◌≡◌, ◌&&◌};
ghost use Rattle.loop_sides.specs.Setting as spec;

use toy_imp::{Block, Name, Stmt, StmtNode};

/// Whether a statement parameter stands in a block, at any depth.
#[cycle(holds)]
#[tactic(auto, using(toy_imp::specs::BlockFalls::stmt_item))]
pub fn block_holds(k: usize, b: &Block) -> bool
    ensures { result ≡ spec.block_holds k b.now }
{
    for s in b.stmts.as_slice() {
        if stmt_holds(k, s) {
            return true;
        }
    }
    false
}

#[cycle(holds)]
fn stmt_holds(k: usize, s: &Stmt) -> bool
    ensures { result ≡ spec.stmt_holds k s.now }
{
    match &s.node {
        StmtNode::If(_, b, c) => block_holds(k, b) || block_holds(k, c),
        StmtNode::While(_, b) => block_holds(k, b),
        StmtNode::For(_, _, _, b) => block_holds(k, b),
        StmtNode::Let(_, _, b) => block_holds(k, b),
        StmtNode::Par(j) => *j as usize == k,
        StmtNode::Skip | StmtNode::Put(_, _, _) | StmtNode::Assert(_) => false,
    }
}

/// Whether some `for` or `let` of a block, at any depth, sets a name parameter.
#[cycle(sets)]
#[tactic(auto, using(toy_imp::specs::BlockFalls::stmt_item))]
pub fn block_sets(x: usize, b: &Block) -> bool
    ensures { result ≡ spec.block_sets x b.now }
{
    for s in b.stmts.as_slice() {
        if stmt_sets(x, s) {
            return true;
        }
    }
    false
}

#[cycle(sets)]
fn stmt_sets(x: usize, s: &Stmt) -> bool
    ensures { result ≡ spec.stmt_sets x s.now }
{
    match &s.node {
        StmtNode::If(_, b, c) => block_sets(x, b) || block_sets(x, c),
        StmtNode::While(_, b) => block_sets(x, b),
        StmtNode::For(y, _, _, b) => is_parameter(x, y) || block_sets(x, b),
        StmtNode::Let(y, _, b) => is_parameter(x, y) || block_sets(x, b),
        StmtNode::Skip | StmtNode::Put(_, _, _) | StmtNode::Assert(_) | StmtNode::Par(_) => false,
    }
}

/// Whether some `for` or `let` of a block, at any depth, sets a name parameter round a place of a statement
/// parameter.
#[cycle(sets_round)]
#[tactic(auto, using(toy_imp::specs::BlockFalls::stmt_item))]
pub fn sets_round(x: usize, k: usize, b: &Block) -> bool
    ensures { result ≡ spec.sets_round x k b.now }
{
    for s in b.stmts.as_slice() {
        if stmt_sets_round(x, k, s) {
            return true;
        }
    }
    false
}

#[cycle(sets_round)]
fn stmt_sets_round(x: usize, k: usize, s: &Stmt) -> bool
    ensures { result ≡ spec.stmt_sets_round x k s.now }
{
    match &s.node {
        StmtNode::If(_, b, c) => sets_round(x, k, b) || sets_round(x, k, c),
        StmtNode::While(_, b) => sets_round(x, k, b),
        StmtNode::For(y, _, _, b) => sets_here(x, k, y, b) || sets_round(x, k, b),
        StmtNode::Let(y, _, b) => sets_here(x, k, y, b) || sets_round(x, k, b),
        StmtNode::Skip | StmtNode::Put(_, _, _) | StmtNode::Assert(_) | StmtNode::Par(_) => false,
    }
}

/// Whether the name that is set round this block is the parameter, and the statement parameter stands inside.
fn sets_here(x: usize, k: usize, y: &Name, b: &Block) -> bool
    ensures { result ≡ spec.is_parameter x y.now && spec.block_holds k b.now }
{
    is_parameter(x, y) && block_holds(k, b)
}

/// Whether a name is the parameter of this number.
fn is_parameter(k: usize, x: &Name) -> bool
    ensures { result ≡ spec.is_parameter k x.now }
{
    match x {
        Name::Own(_) => false,
        Name::Par(j) => *j as usize == k,
    }
}
