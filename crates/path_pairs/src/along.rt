//! How far walks go over statements, and how many there are, without walking.
//! `specs/Along.antt` says so by the statements alone.

ghost use Rattle.std.specs.Prelude.{◌≡◌, ◌+◌, ◌*◌, ◌^◌, ◌<◌, ◌≤◌, min, true, false};
ghost use Rattle.rule_terms.specs.Counts.{saturated};
ghost use Rattle.toy_imp.specs.BlockView.{block_of};
ghost use Rattle.toy_imp.specs.Points.{stmt_count, point_count};
ghost use Rattle.path_pairs.specs.OutcomeCounts.{outcome_count};
ghost use Rattle.path_pairs.specs.Walks.{is_cut};
ghost use Rattle.path_pairs.specs.Along.{stmt_passes, passes, stmt_steps, most_steps, stmt_walks, walk_count};

use crate::counting::outcome_counts;
use toy_imp::{Block, Stmt, StmtNode, Test};

/// The number of points inside a block, or 2^64 - 1 where there are more.
#[cycle(count)]
pub fn block_points(b: &Block) -> u64
    ensures { result ≡ saturated (point_count b.now) }
{
    points_along(b.stmts.as_slice())
}

/// The number of points in statements one after another, likewise.
#[cycle(count)]
#[tactic(auto, using(toy_imp::specs::BlockFalls::stmt_item, toy_imp::proofs::PointPlaces::counted_all))]
pub fn points_along(stmts: &[Stmt]) -> u64
    ensures { result ≡ saturated (point_count (block_of stmts.now)) }
{
    let mut count: u64 = 0;
    for s in stmts {
        count = count.saturating_add(stmt_points(s));
    }
    count
}

/// The number of points in a statement and at it, or 2^64 - 1 where there are more.
#[cycle(count)]
pub fn stmt_points(s: &Stmt) -> u64
    ensures { result ≡ saturated (stmt_count s.now) }
{
    match &s.node {
        StmtNode::Skip => 0,
        StmtNode::Put(_, _, _) => 0,
        StmtNode::Assert(_) => 0,
        StmtNode::If(_, b, c) => block_points(b).saturating_add(block_points(c)),
        StmtNode::While(_, b) => block_points(b).saturating_add(1),
        StmtNode::For(_, _, _, b) => block_points(b),
        StmtNode::Let(_, _, b) => block_points(b),
        StmtNode::Par(_) => 1,
    }
}

/// Whether a point is a cut point.
pub fn is_cut(cuts: &[u32], p: u64) -> bool
    ensures { result ≡ is_cut cuts.now p }
{
    cuts.iter().any(|c| u64::from(*c) == p)
}

/// Whether some walk goes through a block without a stop, whose first point has the number `first`.
#[cycle(passes)]
#[tactic(auto, using(toy_imp::specs::BlockFalls::stmt_item))]
pub fn passes(cuts: &[u32], first: u64, b: &Block) -> bool
    requires { first + point_count b.now < 2 ^ 64 }
    ensures { result ≡ passes cuts.now first b.now }
{
    let mut n = first;
    for s in b.stmts.as_slice() {
        if !stmt_passes(cuts, n, s) {
            return false;
        }
        n += stmt_points(s);
    }
    true
}

// The same of a statement.
#[cycle(passes)]
fn stmt_passes(cuts: &[u32], n: u64, s: &Stmt) -> bool
    requires { n + stmt_count s.now < 2 ^ 64 }
    ensures { result ≡ stmt_passes cuts.now n s.now }
{
    match &s.node {
        StmtNode::Skip => true,
        StmtNode::Put(_, _, _) => true,
        StmtNode::Assert(_) => true,
        StmtNode::If(_, b, c) => passes(cuts, n, b) || passes(cuts, n + block_points(b), c),
        StmtNode::While(_, _) => !is_cut(cuts, n),
        StmtNode::For(_, _, _, _) => false,
        StmtNode::Let(_, _, _) => false,
        StmtNode::Par(_) => !is_cut(cuts, n),
    }
}

/// One step more, up to 65.
pub fn one_more(steps: u64) -> u64
    requires { steps ≤ 65 }
    ensures { result ≡ min 65 (steps + 1) }
{
    (steps + 1).min(65)
}

/// The steps of the longest walk before a stop, where walks behind the block make `after`; 65 where
/// there are more.
#[cycle(steps)]
pub fn most_steps(cuts: &[u32], first: u64, b: &Block, after: u64) -> u64
    requires numbers { first + point_count b.now < 2 ^ 64 }
    requires after { after ≤ 65 }
    ensures { result ≡ min 65 (most_steps cuts.now first b.now after) }
{
    steps_along(cuts, first, b.stmts.as_slice(), after)
}

/// The same of statements one after another.
#[cycle(steps)]
#[tactic(auto, using(toy_imp::specs::BlockFalls::stmt_item))]
pub fn steps_along(cuts: &[u32], first: u64, stmts: &[Stmt], after: u64) -> u64
    requires numbers { first + point_count (block_of stmts.now) < 2 ^ 64 }
    requires after { after ≤ 65 }
    ensures { result ≡ min 65 (most_steps cuts.now first (block_of stmts.now) after) }
{
    let mut at = stmts.len();
    let mut n = first + points_along(stmts);
    let mut most = after;
    while at > 0 {
        at -= 1;
        let s = &stmts[at];
        n -= stmt_points(s);
        most = stmt_steps(cuts, n, s, most);
    }
    most
}

/// The same of a statement.
#[cycle(steps)]
pub fn stmt_steps(cuts: &[u32], n: u64, s: &Stmt, after: u64) -> u64
    requires numbers { n + stmt_count s.now < 2 ^ 64 }
    requires after { after ≤ 65 }
    ensures { result ≡ min 65 (stmt_steps cuts.now n s.now after) }
{
    match &s.node {
        StmtNode::Skip => one_more(after),
        StmtNode::Put(_, _, _) => one_more(after),
        StmtNode::Assert(_) => one_more(after),
        StmtNode::If(_, b, c) => {
            let yes = most_steps(cuts, n, b, after);
            let no = most_steps(cuts, n + block_points(b), c, after);
            one_more(yes.max(no))
        }
        StmtNode::While(_, b) => {
            if is_cut(cuts, n) {
                return 0;
            }
            if passes(cuts, n + 1, b) {
                return 65;
            }
            one_more(most_steps(cuts, n + 1, b, 0).max(after))
        }
        StmtNode::For(_, _, _, _) => 0,
        StmtNode::Let(_, _, _) => 0,
        StmtNode::Par(_) => {
            if is_cut(cuts, n) {
                return 0;
            }
            one_more(after)
        }
    }
}

/// How many walks there are up to their stop, where this many go on behind the block and no loop
/// goes on; the number stands still at 2^64 - 1.
#[cycle(walks)]
pub fn walk_count(cuts: &[u32], first: u64, b: &Block, after: u64) -> u64
    requires { first + point_count b.now < 2 ^ 64 }
    ensures { result ≡ saturated (walk_count cuts.now first b.now after) }
{
    walks_along(cuts, first, b.stmts.as_slice(), after)
}

/// The same of statements one after another.
#[cycle(walks)]
#[tactic(auto, using(toy_imp::specs::BlockFalls::stmt_item))]
pub fn walks_along(cuts: &[u32], first: u64, stmts: &[Stmt], after: u64) -> u64
    requires { first + point_count (block_of stmts.now) < 2 ^ 64 }
    ensures { result ≡ saturated (walk_count cuts.now first (block_of stmts.now) after) }
{
    let mut at = stmts.len();
    let mut n = first + points_along(stmts);
    let mut count = after;
    while at > 0 {
        at -= 1;
        let s = &stmts[at];
        n -= stmt_points(s);
        count = stmt_walks(cuts, n, s, count);
    }
    count
}

/// The same of a statement.
#[cycle(walks)]
#[tactic(auto, using(crate::proofs::Capped::saturated_each, crate::proofs::Capped::saturated_first))]
pub fn stmt_walks(cuts: &[u32], n: u64, s: &Stmt, after: u64) -> u64
    requires { n + stmt_count s.now < 2 ^ 64 }
    ensures { result ≡ saturated (stmt_walks cuts.now n s.now after) }
{
    match &s.node {
        StmtNode::Skip => after,
        StmtNode::Put(_, _, _) => after,
        StmtNode::Assert(t) => by_outcomes(t, after, 1),
        StmtNode::If(t, b, c) => {
            let yes = walk_count(cuts, n, b, after);
            let no = walk_count(cuts, n + block_points(b), c, after);
            by_outcomes(t, yes, no)
        }
        StmtNode::While(t, b) => {
            if is_cut(cuts, n) {
                return 1;
            }
            by_outcomes(t, walk_count(cuts, n + 1, b, 0), after)
        }
        StmtNode::For(_, _, _, _) => 0,
        StmtNode::Let(_, _, _) => 0,
        StmtNode::Par(_) => {
            if is_cut(cuts, n) {
                return 1;
            }
            after.saturating_add(1)
        }
    }
}

/// So many walks for each outcome of a test in which it is true, and so many for each other one.
#[tactic(auto, using(crate::proofs::Capped::saturated_test))]
pub fn by_outcomes(t: &Test, yes: u64, no: u64) -> u64
    ensures { result ≡ saturated (outcome_count t.now true * yes + outcome_count t.now false * no) }
{
    let counts = outcome_counts(t);
    let yes = counts.when_true.saturating_mul(yes);
    let no = counts.when_false.saturating_mul(no);
    yes.saturating_add(no)
}
