//! How far walks go from a point, and how many there are, before any is built.
//! `specs/Along.antt` says so by what stands at the point alone.

ghost use Rattle.std.specs.Prelude.{◌≡◌, ◌+◌, ◌^◌, ◌<◌, ◌≤◌, min};
ghost use Rattle.toy_imp.specs.Points.{stmt_count};
ghost use Rattle.rule_terms.specs.Counts.{saturated};
ghost use Rattle.path_pairs.specs.Along.{stmt_steps, stmt_walks, rest_steps, rest_walks, stmt_onward, rest_onward, stmt_branches, rest_branches, steps_from, number_from};
ghost use Rattle.path_pairs.specs.Stretches.{rest_of};
ghost use Rattle.path_pairs.specs.Walkable.{AreWalkable};

use crate::along::{
    block_points, by_outcomes, most_steps, one_more, steps_along, stmt_steps, stmt_walks,
    walk_count, walks_along,
};
use crate::stretch::{Stretch, stands_next};
use toy_imp::{Stmt, StmtNode};

// The steps of the longest walk over stretches; 65 where there are more.
fn rest_steps(cuts: &[u32], rest: &[Stretch<'_>]) -> u64
    requires { AreWalkable (rest_of rest.now) }
    ensures { result ≡ min 65 (rest_steps cuts.now (rest_of rest.now)) }
{
    match rest.split_first() {
        None => 0,
        Some((first, behind)) => {
            let after = rest_steps(cuts, behind);
            steps_along(cuts, first.first, first.stmts, after)
        }
    }
}

// How many walks there are over stretches; the number stands still at 2^64 - 1.
fn rest_walks(cuts: &[u32], rest: &[Stretch<'_>]) -> u64
    requires { AreWalkable (rest_of rest.now) }
    ensures { result ≡ saturated (rest_walks cuts.now (rest_of rest.now)) }
{
    match rest.split_first() {
        None => 1,
        Some((first, behind)) => {
            let after = rest_walks(cuts, behind);
            walks_along(cuts, first.first, first.stmts, after)
        }
    }
}

// How far walks go after a first step over a statement, where they go so far from it and behind it.
fn stmt_onward(cuts: &[u32], n: u64, s: &Stmt, here: u64, behind: u64) -> u64
    requires numbers { n + stmt_count s.now < 2 ^ 64 }
    requires here { here ≤ 65 }
    requires behind { behind ≤ 65 }
    ensures { result ≡ min 65 (stmt_onward cuts.now n s.now here behind) }
{
    match &s.node {
        StmtNode::Skip => behind,
        StmtNode::Put(_, _, _) => behind,
        StmtNode::Assert(_) => behind,
        StmtNode::If(_, b, c) => {
            let then = most_steps(cuts, n, b, behind);
            let or_else = most_steps(cuts, n + block_points(b), c, behind);
            then.max(or_else)
        }
        StmtNode::While(_, b) => most_steps(cuts, n + 1, b, here).max(behind),
        StmtNode::For(_, _, _, _) => 0,
        StmtNode::Let(_, _, _) => 0,
        StmtNode::Par(_) => behind,
    }
}

// How many walks there are after a first step over a statement, where so many go on from it and behind it.
#[tactic(auto, using(crate::proofs::Capped::saturated_each, crate::proofs::Capped::saturated_first))]
fn stmt_branches(cuts: &[u32], n: u64, s: &Stmt, here: u64, behind: u64) -> u64
    requires { n + stmt_count s.now < 2 ^ 64 }
    ensures { result ≡ saturated (stmt_branches cuts.now n s.now here behind) }
{
    match &s.node {
        StmtNode::Skip => behind,
        StmtNode::Put(_, _, _) => behind,
        StmtNode::Assert(t) => by_outcomes(t, behind, 1),
        StmtNode::If(t, b, c) => {
            let then = walk_count(cuts, n, b, behind);
            let or_else = walk_count(cuts, n + block_points(b), c, behind);
            by_outcomes(t, then, or_else)
        }
        StmtNode::While(t, b) => by_outcomes(t, walk_count(cuts, n + 1, b, here), behind),
        StmtNode::For(_, _, _, _) => 0,
        StmtNode::Let(_, _, _) => 0,
        StmtNode::Par(_) => behind.saturating_add(1),
    }
}

// How far walks go after a first step.
fn steps_onward(cuts: &[u32], rest: &[Stretch<'_>]) -> u64
    requires { AreWalkable (rest_of rest.now) }
    ensures { result ≡ min 65 (rest_onward cuts.now (rest_of rest.now)) }
{
    match stands_next(rest) {
        None => 0,
        Some(at) => {
            let after = rest_steps(cuts, at.behind);
            let behind = steps_along(cuts, at.next, at.others, after);
            let here = stmt_steps(cuts, at.first, at.stmt, behind);
            stmt_onward(cuts, at.first, at.stmt, here, behind)
        }
    }
}

// How many walks there are after a first step.
fn walks_onward(cuts: &[u32], rest: &[Stretch<'_>]) -> u64
    requires { AreWalkable (rest_of rest.now) }
    ensures { result ≡ saturated (rest_branches cuts.now (rest_of rest.now)) }
{
    match stands_next(rest) {
        None => 0,
        Some(at) => {
            let after = rest_walks(cuts, at.behind);
            let behind = walks_along(cuts, at.next, at.others, after);
            let here = stmt_walks(cuts, at.first, at.stmt, behind);
            stmt_branches(cuts, at.first, at.stmt, here, behind)
        }
    }
}

/// The steps of the longest walk from the point `p`, where this stands; 65 where there are more.
pub fn steps_from(cuts: &[u32], p: u32, rest: &[Stretch<'_>]) -> u64
    requires { AreWalkable (rest_of rest.now) }
    ensures { result ≡ min 65 (steps_from p cuts.now (rest_of rest.now)) }
{
    if p == 0 {
        return rest_steps(cuts, rest);
    }
    one_more(steps_onward(cuts, rest))
}

/// How many walks there are from the point `p`, where this stands and none makes 65 steps; the number
/// stands still at 2^64 - 1.
pub fn number_from(cuts: &[u32], p: u32, rest: &[Stretch<'_>]) -> u64
    requires { AreWalkable (rest_of rest.now) }
    ensures { result ≡ saturated (number_from p cuts.now (rest_of rest.now)) }
{
    if p == 0 {
        return rest_walks(cuts, rest);
    }
    walks_onward(cuts, rest)
}
