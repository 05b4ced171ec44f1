//! What stands at each point of a side, found by going down to the statement that holds the point.
//! `specs/Rests.antt` says what stands where.

ghost use Rattle.std.specs.Prelude.{◌≡◌, ◌+◌, ◌^◌, ◌<◌, ◌≤◌, false, IfOk, [], ◌∷◌};
ghost use Rattle.toy_imp.specs.Block.{stmt};
ghost use Rattle.toy_imp.specs.BlockView.{block_of};
ghost use Rattle.toy_imp.specs.Faults.{has_scope};
ghost use Rattle.toy_imp.specs.Points.{point_count, exit_point};
ghost use Rattle.path_pairs.specs.Rests.{rest_at};
ghost use Rattle.path_pairs.specs.RestsFound.{Finds, Holds, LeadsTo};
ghost use Rattle.path_pairs.specs.Stretches.{rest_of};

use crate::along::{block_points, stmt_points};
use crate::stretch::Stretch;
use sqlite_items::Items;
use std::alloc::Global;
use toy_imp::{Block, NoMemory, Stmt, StmtNode};

// The statement of a block that holds a point.
#[derive(Clone, Copy)]
struct Holder<'a> {
    // The number of the first point in it.
    first: u64,
    stmt: &'a Stmt,
    // It and the statements behind it.
    stmts: &'a [Stmt],
    // The statements behind it.
    others: &'a [Stmt],
}

// The statement among these that holds a point.
fn holding<'a>(first: u64, stmts: &'a [Stmt], p: u64) -> Holder<'a>
    requires from { first ≤ p }
    requires below { p < first + point_count (block_of stmts.now) }
    requires numbered { first + point_count (block_of stmts.now) < 2 ^ 64 }
    requires unscoped { has_scope (block_of stmts.now) ≡ false }
    ensures holds { Holds first (block_of stmts.now) p result.first result.stmt.now (block_of result.others.now) }
    ensures stmts { block_of result.stmts.now ≡ stmt result.stmt.now (block_of result.others.now) }
{
    let mut n = first;
    for i in 0..stmts.len() {
        let s = &stmts[i];
        let next = n + stmt_points(s);
        if p < next {
            return Holder {
                first: n,
                stmt: s,
                stmts: &stmts[i..],
                others: &stmts[i + 1..],
            };
        }
        n = next;
    }
    unreachable!()
}

// One stretch alone.
fn alone<'a>(alloc: Global, only: Stretch<'a>) -> Result<Items<Stretch<'a>>, NoMemory>
    ensures { IfOk result (λ all. all ≡ only.entry ∷ []) }
{
    let mut all = Items::new(alloc);
    all.push(only)?;
    Ok(all)
}

// How to come to what stands at a point of a block.
#[derive(Clone, Copy)]
enum Way<'a> {
    // It is this, up to what comes behind the block.
    Here(Stretch<'a>),
    // It stands in this block inside, whose first point has the number, and in front of this.
    Inside(u64, &'a Block, Stretch<'a>),
}

// The way to what stands at a point of a block.
fn way_to<'a>(first: u64, stmts: &'a [Stmt], p: u64) -> Way<'a>
    requires from { first ≤ p }
    requires below { p < first + point_count (block_of stmts.now) }
    requires numbered { first + point_count (block_of stmts.now) < 2 ^ 64 }
    requires unscoped { has_scope (block_of stmts.now) ≡ false }
    ensures { LeadsTo first (block_of stmts.now) p result }
{
    let holder = holding(first, stmts, p);
    let n = holder.first;
    let s = holder.stmt;
    let here = Stretch {
        first: n,
        stmts: holder.stmts,
    };
    match &s.node {
        StmtNode::Par(_) => Way::Here(here),
        StmtNode::While(_, b) => {
            if p == n {
                Way::Here(here)
            } else {
                Way::Inside(n + 1, b, here)
            }
        }
        StmtNode::If(_, b, c) => {
            let middle = n + block_points(b);
            let behind = Stretch {
                first: middle + block_points(c),
                stmts: holder.others,
            };
            if p < middle {
                Way::Inside(n, b, behind)
            } else {
                Way::Inside(middle, c, behind)
            }
        }
        StmtNode::Skip => unreachable!(),
        StmtNode::Put(_, _, _) => unreachable!(),
        StmtNode::Assert(_) => unreachable!(),
        StmtNode::For(_, _, _, _) => unreachable!(),
        StmtNode::Let(_, _, _) => unreachable!(),
    }
}

// What stands at a point of a block, up to what comes behind the block.
fn at_point<'a>(
    alloc: Global,
    first: u64,
    stmts: &'a [Stmt],
    p: u64,
) -> Result<Items<Stretch<'a>>, NoMemory>
    requires from { first ≤ p }
    requires below { p < first + point_count (block_of stmts.now) }
    requires numbered { first + point_count (block_of stmts.now) < 2 ^ 64 }
    requires unscoped { has_scope (block_of stmts.now) ≡ false }
    ensures { IfOk result (λ all. Finds first (block_of stmts.now) p (rest_of all)) }
{
    match way_to(first, stmts, p) {
        Way::Here(here) => alone(alloc, here),
        Way::Inside(n, b, behind) => {
            let mut found = at_point(alloc, n, b.stmts.as_slice(), p)?;
            found.push(behind)?;
            Ok(found)
        }
    }
}

/// What stands at a point before the exit of a side in which there is no `for` and no `let`. Its points
/// have numbers of 64 bits. `Err` comes only where memory runs out.
pub fn rest_at<'a>(alloc: Global, side: &'a Block, p: u32) -> Result<Items<Stretch<'a>>, NoMemory>
    requires inside { p < exit_point side.now }
    requires numbered { exit_point side.now < 2 ^ 64 }
    requires unscoped { has_scope side.now ≡ false }
    ensures { IfOk result (λ all. rest_of all ≡ rest_at side.now p) }
{
    let stmts = side.stmts.as_slice();
    if p == 0 {
        return alone(alloc, Stretch { first: 1, stmts });
    }
    at_point(alloc, 1, stmts, u64::from(p))
}
