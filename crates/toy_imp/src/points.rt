//! How many points a side of a rule has. `specs/Points.antt` says what its points are.

ghost use Rattle.std.specs.Prelude.{◌≡◌, ◌^◌, ◌-◌, min};
ghost use Rattle.toy_imp.specs.Points.{stmt_count, point_count};

use crate::block::{Block, Stmt, StmtNode};

/// The number of points inside a block, or 2^64 - 1 where there are more.
#[cycle(count)]
#[tactic(auto, using(crate::specs::BlockFalls::stmt_item, crate::proofs::PointPlaces::counted_all))]
pub fn block_points(b: &Block) -> u64
    ensures { result ≡ min (point_count b.now) (2 ^ 64 - 1) }
{
    let mut count: u64 = 0;
    for s in b.stmts.as_slice() {
        count = count.saturating_add(stmt_points(s));
    }
    count
}

/// The number of points in a statement and at it.
#[cycle(count)]
fn stmt_points(s: &Stmt) -> u64
    ensures { result ≡ min (stmt_count s.now) (2 ^ 64 - 1) }
{
    match &s.node {
        StmtNode::Skip => 0,
        StmtNode::Put(_, _, _) => 0,
        StmtNode::Assert(_) => 0,
        StmtNode::If(_, b, c) => block_points(b).saturating_add(block_points(c)),
        StmtNode::While(_, b) => block_points(b).saturating_add(1),
        StmtNode::For(_, _, _, b) => block_points(b),
        StmtNode::Let(_, _, b) => block_points(b),
        StmtNode::Par(_) => 1,
    }
}
