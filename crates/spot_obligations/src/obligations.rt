//! The obligation at a spot: by its number, or among paths that are at hand.
//! `specs/Obligations.antt` says what it is, and when there is none.

ghost use Rattle.std.specs.Prelude.{◌≡◌, ◌==◌, true, Some, IfOk};
ghost use Rattle.toy_imp.specs.Faults as faults;
ghost use Rattle.entry_pairs.specs.CutAnswers.{may_be_entry};
ghost use Rattle.spot_obligations.specs.Obligations as spec;
ghost use Rattle.spot_obligations.specs.Obligations.{weighed, obligation_at, of_pair, of_paths, of_entry};
ghost use Rattle.spot_obligations.specs.Owed.{pair_of};
ghost use Rattle.spot_obligations.specs.PathsOfEntry.{is_exit, are_inside};
ghost use Rattle.toy_imp.specs.Points.{exit_point};

use crate::entry::{Entry, Spot};
use crate::obligation_at::ObligationAt;
use crate::owed::{owed_at, paths_owe};
use crate::pair_obligation::weighed_obligation;
use crate::paths_of_entry::{EntryPaths, entry_paths};
use entry_pairs::{CutsRefusal, cuts};
use path_pairs::{CutPoints, block_points};
use rule_terms::{Conjunct, Path};
use std::alloc::Global;
use toy_imp::{Block, NoMemory, Rule};

// The obligation of a pair of paths and the conjunct of this number that they owe.
fn obligation_of_pair(
    alloc: Global,
    rule: &Rule,
    entries: &[Entry],
    known: &[Conjunct],
    left: &Path,
    right: &Path,
    number: Option<u32>,
    used: u32,
) -> Result<ObligationAt, NoMemory>
    ensures { IfOk result (λ a. a ≡ of_pair rule.now entries.now known.now left.now right.now number used) }
{
    let what = paths_owe(rule.conditions.as_slice(), entries, left.stop, right.stop);
    match owed_at(alloc, what, number)? {
        None => Ok(ObligationAt::Absent),
        Some(goal) => {
            if used as usize > known.len() {
                return Ok(ObligationAt::Absent);
            }
            weighed_obligation(alloc, rule, &known[..used as usize], left, right, &goal)
        }
    }
}

/// The obligation at a spot whose entry has these conjuncts and these paths, with `used` conjuncts
/// known. It is what `obligation` answers, for callers that keep the paths of an entry at hand; the
/// number of the entry is not looked at.
#[tactic(auto, unfolding(crate::specs::Obligations::among_paths))]
pub fn obligation_among(
    alloc: Global,
    rule: &Rule,
    entries: &[Entry],
    known: &[Conjunct],
    all: &EntryPaths,
    spot: Spot,
    used: u32,
) -> Result<ObligationAt, NoMemory>
    ensures { IfOk result (λ a. a ≡ of_paths rule.now entries.now known.now all.now spot used) }
{
    match all.lefts.as_slice().get(spot.left as usize) {
        None => Ok(ObligationAt::Absent),
        Some(left) => match all.rights.as_slice().get(spot.right as usize) {
            None => Ok(ObligationAt::Absent),
            Some(right) => obligation_of_pair(
                alloc,
                rule,
                entries,
                known,
                left,
                right,
                spot.conjunct,
                used,
            ),
        },
    }
}

fn is_exit_of(side: &Block, p: u32) -> bool
    ensures { result ≡ (p == exit_point side.now) }
{
    p > 0 && u64::from(p - 1) == block_points(side)
}

/// Whether the entry is the pair of exits.
pub fn is_exit(rule: &Rule, e: &Entry) -> bool
    ensures { result ≡ is_exit rule.now e.now }
{
    is_exit_of(&rule.left, e.left) && is_exit_of(&rule.right, e.right)
}

// The obligation at a spot of this entry.
fn obligation_from(
    alloc: Global,
    rule: &Rule,
    points: &CutPoints,
    entries: &[Entry],
    e: &Entry,
    spot: Spot,
    used: u32,
) -> Result<ObligationAt, NoMemory>
    requires well_formed { faults.well_formed rule.now ≡ true }
    requires simulates { faults.is_simulate rule.now.method ≡ true }
    requires inside { may_be_entry rule.now (pair_of e.now) ≡ true }
    ensures { IfOk result (λ a. a ≡ of_entry rule.now points.now entries.now e.now spot used) }
{
    if is_exit(rule, e) {
        return Ok(ObligationAt::Absent);
    }
    match entry_paths(alloc, rule, points, e)? {
        None => Ok(ObligationAt::Absent),
        Some(all) => obligation_among(
            alloc,
            rule,
            entries,
            e.conjuncts.as_slice(),
            &all,
            spot,
            used,
        ),
    }
}

// The obligation at a spot under these cut points.
#[tactic(auto, unfolding(crate::specs::Obligations::obligation_at, crate::specs::Obligations::at_spot))]
fn obligation_under(
    alloc: Global,
    rule: &Rule,
    points: &CutPoints,
    entries: &[Entry],
    spot: Spot,
    used: u32,
) -> Result<ObligationAt, NoMemory>
    requires well_formed { faults.well_formed rule.now ≡ true }
    requires simulates { faults.is_simulate rule.now.method ≡ true }
    requires inside { are_inside rule.now entries.now ≡ true }
    ensures { IfOk result (λ a. a ≡ weighed (obligation_at rule.now points.now entries.now spot used)) }
{
    match entries.get(spot.entry as usize) {
        None => Ok(ObligationAt::Absent),
        Some(e) => obligation_from(alloc, rule, points, entries, e, spot, used),
    }
}

/// The obligation at a spot of these entries, with the first `used` conjuncts of its entry known. Each
/// entry is the pair of exits or has both points before them; the rule is well formed and of method
/// simulate. `Absent` where there is no such spot, where the rule has no cut points within the limits or
/// the paths from the spot's points pass one, and where `used` is greater than the number of the entry's
/// conjuncts; else `Heavy` where it has more than 4,096 nodes. `NoMemory` comes where memory runs out, or
/// where a side has 2^32 - 1 points or more.
#[tactic(auto, unfolding(crate::specs::Obligations::obligation))]
pub fn obligation(
    alloc: Global,
    rule: &Rule,
    entries: &[Entry],
    spot: &Spot,
    used: u32,
) -> Result<ObligationAt, NoMemory>
    requires well_formed { faults.well_formed rule.now ≡ true }
    requires simulates { faults.is_simulate rule.now.method ≡ true }
    requires inside { are_inside rule.now entries.now ≡ true }
    ensures { IfOk result (λ a. a ≡ spec.obligation rule.now entries.now spot.now used) }
{
    match cuts(alloc, rule) {
        Err(CutsRefusal::Limit(_)) => Ok(ObligationAt::Absent),
        Err(CutsRefusal::NoMemory) => Err(NoMemory),
        Ok(points) => obligation_under(alloc, rule, &points, entries, *spot, used),
    }
}
