//! The cut points of a side by default: the statement parameters, and each `while` whose body holds none.
//! One walk from the end of the side finds them; `specs/Cuts.antt` says which they are.

ghost use Rattle.std.specs.Prelude.{◌≡◌, ◌+◌, ◌≤◌, [], ◌∷◌, ◌++◌, reverse, cond, IfOk};
ghost use Rattle.toy_imp.specs.Points.{stmt_count, point_count, exit_point};
ghost use Rattle.entry_pairs.specs.Cuts.{stmt_has_par, has_par, stmt_cuts, default_cuts, with_ends};

use sqlite_items::Items;
use std::alloc::Global;
use toy_imp::{Block, NoMemory, Stmt, StmtNode};

/// Of some statements: the number of their first point, and whether they hold a statement parameter.
#[derive(Clone, Copy)]
struct Found {
    first: u32,
    has_par: bool,
}

/// The default cut points of a side with this exit, its ends among them, in ascending order.
pub fn default_points(alloc: Global, side: &Block, exit: u32) -> Result<Items<u32>, NoMemory>
    requires { exit ≡ exit_point side.now }
    ensures { IfOk result (λ all. all ≡ with_ends side.now (default_cuts 1 side.now)) }
{
    let mut downward = Items::new(alloc);
    downward.push(exit)?;
    push_block(&mut downward, side, exit)?;
    downward.push(0)?;
    turned(alloc, downward.as_slice())
}

// The points in the opposite order.
fn turned(alloc: Global, points: &[u32]) -> Result<Items<u32>, NoMemory>
    ensures { IfOk result (λ all. all ≡ reverse points.now) }
{
    let mut all = Vec::from_slice(alloc, points)?;
    all.reverse();
    Ok(Items::from_vec(all))
}

// Adds the cut points of a block in descending order; the point behind it has the number `after`.
#[cycle(default)]
#[tactic(auto, using(toy_imp::specs::BlockFalls::stmt_item))]
fn push_block(all: &mut Items<u32>, b: &Block, after: u32) -> Result<Found, NoMemory>
    requires { point_count b.now ≤ after }
    ensures numbered { IfOk result (λ found. found.first + point_count b.now ≡ after) }
    ensures pars { IfOk result (λ found. found.has_par ≡ has_par b.now) }
    ensures cuts { IfOk result (λ found. all.new ≡ all.old ++ reverse (default_cuts found.first b.now)) }
{
    let stmts = b.stmts.as_slice();
    let mut at = stmts.len();
    let mut first = after;
    let mut has_par = false;
    while at > 0 {
        at -= 1;
        let found = push_stmt(all, &stmts[at], first)?;
        first = found.first;
        has_par = found.has_par || has_par;
    }
    Ok(Found { first, has_par })
}

// The same of a statement.
#[cycle(default)]
fn push_stmt(all: &mut Items<u32>, s: &Stmt, after: u32) -> Result<Found, NoMemory>
    requires { stmt_count s.now ≤ after }
    ensures numbered { IfOk result (λ found. found.first + stmt_count s.now ≡ after) }
    ensures pars { IfOk result (λ found. found.has_par ≡ stmt_has_par s.now) }
    ensures cuts { IfOk result (λ found. all.new ≡ all.old ++ reverse (stmt_cuts found.first s.now)) }
{
    match &s.node {
        StmtNode::Skip | StmtNode::Put(_, _, _) | StmtNode::Assert(_) => Ok(Found {
            first: after,
            has_par: false,
        }),
        StmtNode::If(_, b, c) => {
            let no = push_block(all, c, after)?;
            let yes = push_block(all, b, no.first)?;
            Ok(Found {
                first: yes.first,
                has_par: yes.has_par || no.has_par,
            })
        }
        StmtNode::While(_, b) => {
            let body = push_block(all, b, after)?;
            push_while(all, body)
        }
        StmtNode::For(_, _, _, b) | StmtNode::Let(_, _, b) => push_block(all, b, after),
        StmtNode::Par(_) => {
            all.push(after - 1)?;
            Ok(Found {
                first: after - 1,
                has_par: true,
            })
        }
    }
}

// Adds a `while` round a body unless the body holds a statement parameter.
fn push_while(all: &mut Items<u32>, body: Found) -> Result<Found, NoMemory>
    requires { 1 ≤ body.first }
    ensures numbered { IfOk result (λ found. found.first + 1 ≡ body.first) }
    ensures pars { IfOk result (λ found. found.has_par ≡ body.has_par) }
    ensures cuts { IfOk result (λ found. all.new ≡ all.old ++ cond body.has_par [] (found.first ∷ [])) }
{
    let first = body.first - 1;
    if !body.has_par {
        all.push(first)?;
    }
    Ok(Found {
        first,
        has_par: body.has_par,
    })
}
