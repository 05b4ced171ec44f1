//! What stands at a point of a side, as stretches of its statements.
//! `specs/Stretches.antt` says what a list of them stands for, `specs/Rests.antt` what stands where.

ghost use Rattle.std.specs.Prelude.{◌≡◌, ◌∷◌, [], IfOk, MatchOption};
ghost use Rattle.toy_imp.specs.BlockView.{block_of};
ghost use Rattle.path_pairs.specs.Stretches.{stretch_of, rest_of, from_next};
ghost use Rattle.path_pairs.specs.Walkable.{AreWalkable, IsStanding};

use crate::along::stmt_points;
use sqlite_items::Items;
use std::alloc::Global;
use toy_imp::{NoMemory, Stmt};

/// Statements of a side that are run one after another.
#[derive(Clone, Copy)]
pub struct Stretch<'a> {
    /// The number of the first point in them.
    pub first: u64,
    pub stmts: &'a [Stmt],
}

/// A statement that stands next, with what stands around it.
#[derive(Clone, Copy)]
pub struct Standing<'r, 'a> {
    /// The number of the first point in the statement.
    pub first: u64,
    pub stmt: &'a Stmt,
    /// The number of the first point behind it.
    pub next: u64,
    /// The statements behind it in its block.
    pub others: &'a [Stmt],
    /// What stands next, this statement first.
    pub here: &'r [Stretch<'a>],
    /// What stands behind the block.
    pub behind: &'r [Stretch<'a>],
}

/// A stretch in front of others.
pub fn in_front<'a>(
    alloc: Global,
    first: Stretch<'a>,
    behind: &[Stretch<'a>],
) -> Result<Items<Stretch<'a>>, NoMemory>
    ensures { IfOk result (λ all. rest_of all ≡ stretch_of first.entry ∷ rest_of behind.now) }
{
    let mut all = Items::new(alloc);
    all.push(first)?;
    let behind = Items::from_slice(alloc, behind)?;
    all.append(behind)?;
    Ok(all)
}

/// The statement that stands next, if one does.
pub fn stands_next<'r, 'a>(rest: &'r [Stretch<'a>]) -> Option<Standing<'r, 'a>>
    requires { AreWalkable (rest_of rest.now) }
    ensures { MatchOption result (from_next (rest_of rest.now) ≡ []) (λ at. IsStanding (rest_of rest.now) at.first at.stmt.now at.next (block_of at.others.now) (rest_of at.here.now) (rest_of at.behind.now)) }
{
    for i in 0..rest.len() {
        let stretch = &rest[i];
        if let Some((s, others)) = stretch.stmts.split_first() {
            return Some(Standing {
                first: stretch.first,
                stmt: s,
                next: stretch.first + stmt_points(s),
                others,
                here: &rest[i..],
                behind: &rest[i + 1..],
            });
        }
    }
    None
}
