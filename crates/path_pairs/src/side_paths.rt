//! The paths of a side of a rule from a point, and how many they are. Limits of steps and of their number are
//! decided before any path is built. `specs/Paths.antt` says which paths there are, `specs/PathAnswers.antt` what is answered.

ghost use Rattle.std.specs.Prelude.{◌≡◌, ◌^◌, ◌<◌, true, false, IfSome};
ghost use Rattle.toy_imp.specs.Faults.{well_formed, is_simulate};
ghost use Rattle.toy_imp.specs.Points.{exit_point};
ghost use Rattle.path_pairs.specs.PathAnswers.{PathsAnswer, CountAnswer, Adds, Builds};
ghost use Rattle.path_pairs.specs.Paths.{side_of, cuts_of, walks_from, goes_on_from};
ghost use Rattle.path_pairs.specs.Rests.{rest_at};
ghost use Rattle.path_pairs.specs.Stretches.{rest_of};
ghost use Rattle.path_pairs.specs.Walkable.{AreWalkable};
ghost use Rattle.path_pairs.specs.Walks.{stands};

use crate::along::block_points;
use crate::cut_points::{CutPoints, Side};
use crate::limits::{number_from, steps_from};
use crate::locations::rest_at;
use crate::met::Met;
use crate::refusal::PathRefusal;
use crate::stretch::Stretch;
use crate::walking::{Course, walk, walk_on};
use rule_terms::{LimitKind, Path};
use sqlite_items::Items;
use std::alloc::Global;
use toy_imp::{Block, Rule};

// The most steps of a walk, and the most walks from a point.
const MOST_STEPS: u64 = 64;

const MOST_PATHS: u64 = 512;

// The statements of a side.
fn side_block(rule: &Rule, side: Side) -> &Block
    ensures { result.now ≡ side_of rule.now side }
{
    match side {
        Side::Left => &rule.left,
        Side::Right => &rule.right,
    }
}

// The cut points of a side.
fn side_cuts(cuts: &CutPoints, side: Side) -> &[u32]
    ensures { result.now ≡ cuts_of cuts.now side }
{
    match side {
        Side::Left => cuts.left.as_slice(),
        Side::Right => cuts.right.as_slice(),
    }
}

// The number of the exit of a side, if 32 bits hold it.
fn exit_number(side: &Block) -> Option<u32>
    ensures is { IfSome result (λ exit. exit ≡ exit_point side.now) }
    ensures fits { IfSome result (λ exit. exit_point side.now < 2 ^ 32) }
{
    let points = block_points(side);
    if points >= 0xffff_ffff {
        return None;
    }
    Some(points as u32 + 1)
}

// Adds the paths from a point, where no walk makes 65 steps.
fn walked(
    alloc: Global,
    cuts: &[u32],
    exit: u32,
    from: u32,
    met: Met,
    rest: &[Stretch<'_>],
    all: &mut Items<Path>,
) -> Result<(), PathRefusal>
    requires rest { AreWalkable (rest_of rest.now) }
    requires ends { goes_on_from from 64 cuts.now exit (stands met.literals met.store (rest_of rest.now)) ≡ false }
    ensures { Adds (walks_from from 63 cuts.now exit (stands met.literals met.store (rest_of rest.now))) all.old all.new result }
{
    if from == 0 {
        let course = Course {
            cuts,
            exit,
            steps: 64,
        };
        walk(alloc, course, met, rest, all)
    } else {
        let course = Course {
            cuts,
            exit,
            steps: 63,
        };
        walk_on(alloc, course, met, rest, all)
    }
}

// The paths from a point, where no walk makes 65 steps.
fn built(
    alloc: Global,
    cuts: &[u32],
    exit: u32,
    from: u32,
    met: Met,
    rest: &[Stretch<'_>],
) -> Result<Items<Path>, PathRefusal>
    requires rest { AreWalkable (rest_of rest.now) }
    requires ends { goes_on_from from 64 cuts.now exit (stands met.literals met.store (rest_of rest.now)) ≡ false }
    ensures { Builds (walks_from from 63 cuts.now exit (stands met.literals met.store (rest_of rest.now))) result }
{
    let mut all = Items::new(alloc);
    match walked(alloc, cuts, exit, from, met, rest, &mut all) {
        Ok(()) => Ok(all),
        Err(e) => Err(e),
    }
}

// How many paths there are from a point where this stands, if none makes too many steps.
fn counted(
    rule: &Rule,
    cuts: &CutPoints,
    side: Side,
    from: u32,
    rest: &[Stretch<'_>],
) -> Result<u64, PathRefusal>
    requires at { rest_of rest.now ≡ rest_at (side_of rule.now side) from }
    requires rest { AreWalkable (rest_of rest.now) }
    ensures { CountAnswer rule.now cuts.now side from result }
{
    let cut = side_cuts(cuts, side);
    let steps = steps_from(cut, from, rest);
    if steps > MOST_STEPS {
        return Err(PathRefusal::Limit(LimitKind::PathSteps));
    }
    let number = number_from(cut, from, rest);
    Ok(number)
}

// The paths of the side from a point where this stands, once they are not too long and not too many.
fn limited(
    alloc: Global,
    rule: &Rule,
    cuts: &CutPoints,
    side: Side,
    exit: u32,
    from: u32,
    rest: &[Stretch<'_>],
) -> Result<Items<Path>, PathRefusal>
    requires exit { exit ≡ exit_point (side_of rule.now side) }
    requires at { rest_of rest.now ≡ rest_at (side_of rule.now side) from }
    requires rest { AreWalkable (rest_of rest.now) }
    ensures { PathsAnswer rule.now cuts.now side from result }
{
    match counted(rule, cuts, side, from, rest) {
        Err(e) => Err(e),
        Ok(number) => {
            if number > MOST_PATHS {
                return Err(PathRefusal::Limit(LimitKind::Paths));
            }
            let cut = side_cuts(cuts, side);
            let met = Met::start(alloc, side);
            built(alloc, cut, exit, from, met, rest)
        }
    }
}

/// The paths of a side of a rule from a point before its exit, in order; or the first limit that they
/// pass, of 64 steps, of 512 paths or of 4,096 nodes. The rule is well formed and of method simulate.
/// `NoMemory` comes where memory runs out, or where the side has more points than 32 bits number.
/// The cut points are taken as they are given: no entry is searched.
pub fn paths(
    alloc: Global,
    rule: &Rule,
    cuts: &CutPoints,
    side: Side,
    from: u32,
) -> Result<Items<Path>, PathRefusal>
    requires well_formed { well_formed rule.now ≡ true }
    requires simulates { is_simulate rule.now.method ≡ true }
    requires inside { from < exit_point (side_of rule.now side) }
    ensures { PathsAnswer rule.now cuts.now side from result }
{
    let block = side_block(rule, side);
    match exit_number(block) {
        None => Err(PathRefusal::NoMemory),
        Some(exit) => {
            let rest = rest_at(alloc, block, from)?;
            limited(alloc, rule, cuts, side, exit, from, rest.as_slice())
        }
    }
}

/// How many paths there are from a point, up to 2^64 - 1; or `Limit(PathSteps)` where some walk makes 65
/// steps before it stops. None is built. The conditions are those of `paths`, and so is `NoMemory`.
pub fn path_count(
    alloc: Global,
    rule: &Rule,
    cuts: &CutPoints,
    side: Side,
    from: u32,
) -> Result<u64, PathRefusal>
    requires well_formed { well_formed rule.now ≡ true }
    requires simulates { is_simulate rule.now.method ≡ true }
    requires inside { from < exit_point (side_of rule.now side) }
    ensures { CountAnswer rule.now cuts.now side from result }
{
    let block = side_block(rule, side);
    match exit_number(block) {
        None => Err(PathRefusal::NoMemory),
        Some(_) => {
            let rest = rest_at(alloc, block, from)?;
            counted(rule, cuts, side, from, rest.as_slice())
        }
    }
}
