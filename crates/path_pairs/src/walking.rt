//! The walks of a side from a point, built one after another, in order.
//! `specs/Walks.antt` says which they are, `specs/PathAnswers.antt` what is answered.

ghost use Rattle.std.specs.Prelude.{◌≡◌, ◌+◌, ◌^◌, ◌<◌, suc, true, false, [], ◌∷◌, ◌++◌, flat_map};
ghost use Rattle.std.specs.List.{list_any};
ghost use Rattle.toy_imp.specs.Block.{empty, stmt};
ghost use Rattle.toy_imp.specs.ExprView.{exprs_of};
ghost use Rattle.toy_imp.specs.Points.{stmt_count};
ghost use Rattle.rule_terms.specs.Term.{put, run};
ghost use Rattle.rule_terms.specs.ValueAt.{is_open, names_are_open, all_names_are_open, number_of, value_at, values_at};
ghost use Rattle.rule_terms.specs.declared.obligation.Atom.TheVariants.{Ends};
ghost use Rattle.rule_terms.specs.declared.path.Stop.TheVariants.{Stuck};
ghost use Rattle.path_pairs.specs.Open.{test_is_open};
ghost use Rattle.path_pairs.specs.Outcomes.{outcomes};
ghost use Rattle.path_pairs.specs.PathAnswers.{Adds};
ghost use Rattle.path_pairs.specs.Rests.{stretch};
ghost use Rattle.path_pairs.specs.Stretches.{stretch_of, rest_of};
ghost use Rattle.path_pairs.specs.Walkable.{IsWalkable, AreWalkable};
ghost use Rattle.path_pairs.specs.Walks.{stands, by_each, halting_paths, stmt_step, stmt_stop, rest_stop, rest_step, walks, goes_on};

use crate::along::{block_points, is_cut};
use crate::met::Met;
use crate::refusal::PathRefusal;
use crate::stopped::{add_halted, add_path, add_stuck, is_too_large};
use crate::stretch::{Stretch, in_front, stands_next};
use crate::test_outcome::outcomes;
use rule_terms::{LimitKind, Literal, Path, Stop};
use sqlite_items::Items;
use std::alloc::Global;
use toy_imp::{Block, Expr, Name, Stmt, StmtNode, Test};

/// How far walks go on: to the next cut point or the exit, and at most so many steps.
#[derive(Clone, Copy)]
pub struct Course<'a> {
    /// The numbers of the cut points of the side.
    pub cuts: &'a [u32],
    /// The number of its exit.
    pub exit: u32,
    /// The most steps that a walk still makes.
    pub steps: u64,
}

// Where a walk stops that stands before a statement whose first point has the number `n`.
fn stmt_stop(cuts: &[u32], n: u64, s: &Stmt) -> Option<Stop>
    requires { n + stmt_count s.now < 2 ^ 32 }
    ensures { result ≡ stmt_stop cuts.now n s.now }
{
    let stops = match &s.node {
        StmtNode::While(_, _) => is_cut(cuts, n),
        StmtNode::Par(_) => is_cut(cuts, n),
        StmtNode::Skip => return None,
        StmtNode::Put(_, _, _) => return None,
        StmtNode::Assert(_) => return None,
        StmtNode::If(_, _, _) => return None,
        StmtNode::For(_, _, _, _) => return None,
        StmtNode::Let(_, _, _) => return None,
    };
    if stops {
        Some(Stop::At(n as u32))
    } else {
        None
    }
}

// Where a walk stops before its next step, if it does.
fn rest_stop(cuts: &[u32], exit: u32, rest: &[Stretch<'_>]) -> Option<Stop>
    requires { AreWalkable (rest_of rest.now) }
    ensures { result ≡ rest_stop cuts.now exit (rest_of rest.now) }
{
    match stands_next(rest) {
        None => Some(Stop::At(exit)),
        Some(at) => stmt_stop(cuts, at.first, at.stmt),
    }
}

// The statements of a block, whose first point has the number.
fn inside<'a>(first: u64, b: &'a Block) -> Stretch<'a>
    ensures { stretch_of result ≡ stretch first b.now }
{
    Stretch {
        first,
        stmts: b.stmts.as_slice(),
    }
}

// Adds the paths of the walks on from a walk, up to so many steps more, none of which goes on then.
#[cycle(walk)]
pub fn walk(
    alloc: Global,
    course: Course<'_>,
    met: Met,
    rest: &[Stretch<'_>],
    all: &mut Items<Path>,
) -> Result<(), PathRefusal>
    requires rest { AreWalkable (rest_of rest.now) }
    requires ends { goes_on (suc course.steps) course.cuts.now course.exit (stands met.literals met.store (rest_of rest.now)) ≡ false }
    ensures { Adds (walks course.entry.steps course.entry.cuts.now course.entry.exit (stands met.literals met.store (rest_of rest.now))) all.old all.new result }
{
    match rest_stop(course.cuts, course.exit, rest) {
        Some(stop) => add_path(all, met, stop),
        None => {
            if course.steps == 0 {
                Ok(())
            } else {
                let next = Course {
                    steps: course.steps - 1,
                    ..course
                };
                walk_on(alloc, next, met, rest, all)
            }
        }
    }
}

/// Adds the paths of the walks that make one step from a walk and then up to so many steps more, none of
/// which goes on then. `Err` says that one of them is too large, or comes where memory runs out.
#[cycle(walk)]
pub fn walk_on(
    alloc: Global,
    course: Course<'_>,
    met: Met,
    rest: &[Stretch<'_>],
    all: &mut Items<Path>,
) -> Result<(), PathRefusal>
    requires rest { AreWalkable (rest_of rest.now) }
    requires ends { list_any (goes_on (suc course.steps) course.cuts.now course.exit) (rest_step (rest_of rest.now) met.literals met.store) ≡ false }
    ensures { Adds (flat_map (walks course.entry.steps course.entry.cuts.now course.entry.exit) (rest_step (rest_of rest.now) met.literals met.store)) all.old all.new result }
{
    match stands_next(rest) {
        None => Ok(()),
        Some(at) => {
            let others = Stretch {
                first: at.next,
                stmts: at.others,
            };
            let behind = in_front(alloc, others, at.behind)?;
            walk_stmt(
                alloc,
                course,
                met,
                at.first,
                at.stmt,
                at.here,
                behind.as_slice(),
                all,
            )
        }
    }
}

// The same where a statement stands next, whose first point has the number `n`.
#[cycle(walk)]
fn walk_stmt<'a>(
    alloc: Global,
    course: Course<'_>,
    met: Met,
    n: u64,
    s: &'a Stmt,
    here: &[Stretch<'a>],
    behind: &[Stretch<'a>],
    all: &mut Items<Path>,
) -> Result<(), PathRefusal>
    requires s { IsWalkable n (stmt s.now empty) }
    requires here { AreWalkable (rest_of here.now) }
    requires behind { AreWalkable (rest_of behind.now) }
    requires ends { list_any (goes_on (suc course.steps) course.cuts.now course.exit) (stmt_step n s.now (rest_of here.now) (rest_of behind.now) met.literals met.store) ≡ false }
    ensures { Adds (flat_map (walks course.entry.steps course.entry.cuts.now course.entry.exit) (stmt_step n s.now (rest_of here.now) (rest_of behind.now) met.literals met.store)) all.old all.new result }
{
    match &s.node {
        StmtNode::Skip => walk(alloc, course, met, behind, all),
        StmtNode::Put(x, indices, e) => {
            walk_write(alloc, course, met, x, indices.as_slice(), e, behind, all)
        }
        StmtNode::Assert(t) => walk_assert(alloc, course, &met, t, behind, all),
        StmtNode::If(t, b, c) => {
            let then = in_front(alloc, inside(n, b), behind)?;
            let or_else = in_front(alloc, inside(n + block_points(b), c), behind)?;
            walk_test(
                alloc,
                course,
                &met,
                t,
                then.as_slice(),
                or_else.as_slice(),
                all,
            )
        }
        StmtNode::While(t, b) => {
            let then = in_front(alloc, inside(n + 1, b), here)?;
            walk_test(alloc, course, &met, t, then.as_slice(), behind, all)
        }
        StmtNode::For(_, _, _, _) => Ok(()),
        StmtNode::Let(_, _, _) => Ok(()),
        StmtNode::Par(k) => walk_run(alloc, course, &met, *k, behind, all),
    }
}

// Adds the paths of the walks on from a walk with the value of an expression written into a cell.
#[cycle(walk)]
fn walk_write(
    alloc: Global,
    course: Course<'_>,
    met: Met,
    x: &Name,
    indices: &[Expr],
    e: &Expr,
    behind: &[Stretch<'_>],
    all: &mut Items<Path>,
) -> Result<(), PathRefusal>
    requires name { is_open x.now ≡ true }
    requires indices { all_names_are_open (exprs_of indices.now) ≡ true }
    requires value { names_are_open e.now ≡ true }
    requires behind { AreWalkable (rest_of behind.now) }
    requires ends { goes_on (suc course.steps) course.cuts.now course.exit (stands met.literals (put met.store (number_of x.now) (values_at (exprs_of indices.now) met.store) (value_at e.now met.store)) (rest_of behind.now)) ≡ false }
    ensures { Adds (walks course.entry.steps course.entry.cuts.now course.entry.exit (stands met.literals (put met.store (number_of x.now) (values_at (exprs_of indices.now) met.store) (value_at e.now met.store)) (rest_of behind.now))) all.old all.new result }
{
    match met.write(alloc, x, indices, e) {
        Ok(next) => walk(alloc, course, next, behind, all),
        Err(e) => Err(e),
    }
}

// Adds the paths of the walks on from a walk in which a statement parameter ends.
#[cycle(walk)]
fn walk_ended(
    alloc: Global,
    course: Course<'_>,
    met: &Met,
    k: u32,
    behind: &[Stretch<'_>],
    all: &mut Items<Path>,
) -> Result<(), PathRefusal>
    requires behind { AreWalkable (rest_of behind.now) }
    requires ends { goes_on (suc course.steps) course.cuts.now course.exit (stands (met.now.literals ++ record { sign = true; atom = Ends (run k met.now.store) } ∷ []) (run k met.now.store) (rest_of behind.now)) ≡ false }
    ensures { Adds (walks course.entry.steps course.entry.cuts.now course.entry.exit (stands (met.now.literals ++ record { sign = true; atom = Ends (run k met.now.store) } ∷ []) (run k met.now.store) (rest_of behind.now))) all.old all.new result }
{
    match met.run(alloc, k) {
        Ok(ended) => walk(alloc, course, ended, behind, all),
        Err(e) => Err(e),
    }
}

// Adds the paths of the walks by a statement parameter, which ends or does not.
#[cycle(walk)]
fn walk_run(
    alloc: Global,
    course: Course<'_>,
    met: &Met,
    k: u32,
    behind: &[Stretch<'_>],
    all: &mut Items<Path>,
) -> Result<(), PathRefusal>
    requires behind { AreWalkable (rest_of behind.now) }
    requires ends { goes_on (suc course.steps) course.cuts.now course.exit (stands (met.now.literals ++ record { sign = true; atom = Ends (run k met.now.store) } ∷ []) (run k met.now.store) (rest_of behind.now)) ≡ false }
    ensures { Adds (walks course.entry.steps course.entry.cuts.now course.entry.exit (stands (met.now.literals ++ record { sign = true; atom = Ends (run k met.now.store) } ∷ []) (run k met.now.store) (rest_of behind.now)) ++ record { literals = met.now.literals ++ record { sign = false; atom = Ends (run k met.now.store) } ∷ []; store = met.now.store; stop = Stuck k } ∷ []) all.old all.new result }
{
    walk_ended(alloc, course, met, k, behind, all)?;
    add_stuck(alloc, met, k, all)
}

// Adds the paths of the walks by an `assert`: first those in which it is true, then those that halt.
#[cycle(walk)]
fn walk_assert(
    alloc: Global,
    course: Course<'_>,
    met: &Met,
    t: &Test,
    behind: &[Stretch<'_>],
    all: &mut Items<Path>,
) -> Result<(), PathRefusal>
    requires is_open { test_is_open t.now ≡ true }
    requires behind { AreWalkable (rest_of behind.now) }
    requires ends { list_any (goes_on (suc course.steps) course.cuts.now course.exit) (by_each (outcomes t.now true met.now.store) met.now.literals met.now.store (rest_of behind.now)) ≡ false }
    ensures { Adds (flat_map (walks course.entry.steps course.entry.cuts.now course.entry.exit) (by_each (outcomes t.now true met.now.store) met.now.literals met.now.store (rest_of behind.now)) ++ halting_paths (outcomes t.now false met.now.store) met.now.literals met.now.store) all.old all.new result }
{
    walk_way(alloc, course, met, t, true, behind, all)?;
    add_halted(alloc, met, t, all)
}

// Adds the paths of the walks by the outcomes of a test, first those in which it is true.
#[cycle(walk)]
fn walk_test(
    alloc: Global,
    course: Course<'_>,
    met: &Met,
    t: &Test,
    then: &[Stretch<'_>],
    or_else: &[Stretch<'_>],
    all: &mut Items<Path>,
) -> Result<(), PathRefusal>
    requires is_open { test_is_open t.now ≡ true }
    requires then { AreWalkable (rest_of then.now) }
    requires or_else { AreWalkable (rest_of or_else.now) }
    requires ends { list_any (goes_on (suc course.steps) course.cuts.now course.exit) (by_each (outcomes t.now true met.now.store) met.now.literals met.now.store (rest_of then.now) ++ by_each (outcomes t.now false met.now.store) met.now.literals met.now.store (rest_of or_else.now)) ≡ false }
    ensures { Adds (flat_map (walks course.entry.steps course.entry.cuts.now course.entry.exit) (by_each (outcomes t.now true met.now.store) met.now.literals met.now.store (rest_of then.now) ++ by_each (outcomes t.now false met.now.store) met.now.literals met.now.store (rest_of or_else.now))) all.old all.new result }
{
    walk_way(alloc, course, met, t, true, then, all)?;
    walk_way(alloc, course, met, t, false, or_else, all)
}

// Adds the paths of the walks by the outcomes of a test in which it is true, or false.
#[cycle(walk)]
fn walk_way(
    alloc: Global,
    course: Course<'_>,
    met: &Met,
    t: &Test,
    way: bool,
    rest: &[Stretch<'_>],
    all: &mut Items<Path>,
) -> Result<(), PathRefusal>
    requires is_open { test_is_open t.now ≡ true }
    requires rest { AreWalkable (rest_of rest.now) }
    requires ends { list_any (goes_on (suc course.steps) course.cuts.now course.exit) (by_each (outcomes t.now way met.now.store) met.now.literals met.now.store (rest_of rest.now)) ≡ false }
    ensures { Adds (flat_map (walks course.entry.steps course.entry.cuts.now course.entry.exit) (by_each (outcomes t.now way met.now.store) met.now.literals met.now.store (rest_of rest.now))) all.old all.new result }
{
    if is_too_large(met, t, way) {
        return Err(PathRefusal::Limit(LimitKind::PathNodes));
    }
    let found = outcomes(alloc, t, way, &met.store)?;
    walk_each(alloc, course, met, found.as_slice(), rest, all)
}

// Adds the paths of the walks by each of these outcomes, in order.
#[cycle(walk)]
fn walk_each(
    alloc: Global,
    course: Course<'_>,
    met: &Met,
    found: &[Items<Literal>],
    rest: &[Stretch<'_>],
    all: &mut Items<Path>,
) -> Result<(), PathRefusal>
    requires rest { AreWalkable (rest_of rest.now) }
    requires ends { list_any (goes_on (suc course.steps) course.cuts.now course.exit) (by_each found.now met.now.literals met.now.store (rest_of rest.now)) ≡ false }
    ensures { Adds (flat_map (walks course.entry.steps course.entry.cuts.now course.entry.exit) (by_each found.now met.now.literals met.now.store (rest_of rest.now))) all.old all.new result }
{
    for outcome in found {
        walk_outcome(alloc, course, met, outcome.as_slice(), rest, all)?;
    }
    Ok(())
}

// Adds the paths of the walks on from a walk with the literals of an outcome.
#[cycle(walk)]
fn walk_outcome(
    alloc: Global,
    course: Course<'_>,
    met: &Met,
    outcome: &[Literal],
    rest: &[Stretch<'_>],
    all: &mut Items<Path>,
) -> Result<(), PathRefusal>
    requires rest { AreWalkable (rest_of rest.now) }
    requires ends { goes_on (suc course.steps) course.cuts.now course.exit (stands (met.now.literals ++ outcome.now) met.now.store (rest_of rest.now)) ≡ false }
    ensures { Adds (walks course.entry.steps course.entry.cuts.now course.entry.exit (stands (met.now.literals ++ outcome.now) met.now.store (rest_of rest.now))) all.old all.new result }
{
    match met.with(alloc, outcome) {
        Ok(next) => walk(alloc, course, next, rest, all),
        Err(e) => Err(e),
    }
}
