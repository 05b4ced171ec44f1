//! The search for the entries of a rule: from each entry in turn its paths are walked, and where they
//! arrive at alike points there is an entry. `specs/Cuts.antt` says which entries there are, and which
//! limit is the first.

ghost use Rattle.std.specs.Prelude.{◌≡◌, ◌*◌, ◌<◌, true, false, length, nat_lt, slice_get};
ghost use Rattle.std.specs.List.{list_all};
ghost use Rattle.toy_imp.specs.Faults as faults;
ghost use Rattle.toy_imp.specs.Points.{exit_point};
ghost use Rattle.path_pairs.specs.Paths.{side_of};
ghost use Rattle.entry_pairs.specs.Cuts.{first_cuts, first_entries, entries_after, walked};
ghost use Rattle.entry_pairs.specs.CutAnswers.{CutsAnswer, EntriesAnswer, EntryPathsAnswer, paired, rule_table, may_be_entry};

use crate::cut_points::{exit_number, first_cuts};
use crate::entries::enter_all;
use crate::point_kinds::PointTable;
use crate::refusal::{CutsRefusal, LimitMark};
use path_pairs::{CutPoints, PathRefusal, Side, paths};
use rule_terms::{LimitKind, Path};
use sqlite_items::Items;
use std::alloc::Global;
use toy_imp::{CutList, Rule};

// The paths from a point of the entry of number `i`.
fn entry_paths(
    alloc: Global,
    rule: &Rule,
    points: &CutPoints,
    side: Side,
    from: u32,
    i: u32,
) -> Result<Items<Path>, CutsRefusal>
    requires well_formed { faults.well_formed rule.now ≡ true }
    requires simulates { faults.is_simulate rule.now.method ≡ true }
    requires inside { from < exit_point (side_of rule.now side) }
    ensures { EntryPathsAnswer rule.now points.now side from i result }
{
    match paths(alloc, rule, points, side, from) {
        Ok(all) => Ok(all),
        Err(PathRefusal::Limit(what)) => Err(CutsRefusal::Limit(LimitMark { what, entry: i })),
        Err(PathRefusal::NoMemory) => Err(CutsRefusal::NoMemory),
    }
}

// Whether so many paths of both sides make more than 256 pairs.
fn has_many_pairs(lefts: usize, rights: usize) -> bool
    ensures { result ≡ nat_lt 256 (lefts * rights) }
{
    lefts.saturating_mul(rights) > 256
}

// Enters where the paths of an entry arrive, if they are not too many; listed cuts find no entries.
#[tactic(auto, unfolding(crate::specs::CutAnswers::paired))]
fn enter_pairs(
    entries: &mut Items<(u32, u32)>,
    list: &CutList,
    table: &PointTable,
    i: u32,
    lefts: &[Path],
    rights: &[Path],
) -> Result<(), CutsRefusal>
    ensures { EntriesAnswer (paired list.now table.now i entries.old lefts.now rights.now) entries.new result }
{
    if has_many_pairs(lefts.len(), rights.len()) {
        return Err(CutsRefusal::Limit(LimitMark {
            what: LimitKind::Pairs,
            entry: i,
        }));
    }
    match list {
        CutList::Default => enter_all(entries, i, table, lefts, rights),
        CutList::Listed(_) => Ok(()),
    }
}

fn is_same(a: (u32, u32), b: (u32, u32)) -> bool
    ensures { result ≡ faults.same_pair a b }
{
    a.0 == b.0 && a.1 == b.1
}

// Walks the entry `a` of number `i`; from the exits nothing is walked.
fn walk_entry(
    alloc: Global,
    rule: &Rule,
    points: &CutPoints,
    table: &PointTable,
    i: u32,
    a: (u32, u32),
    entries: &mut Items<(u32, u32)>,
) -> Result<(), CutsRefusal>
    requires well_formed { faults.well_formed rule.now ≡ true }
    requires simulates { faults.is_simulate rule.now.method ≡ true }
    requires table { table.now ≡ rule_table rule.now }
    requires before { may_be_entry rule.now a ≡ true }
    ensures { EntriesAnswer (entries_after rule.now points.now i a entries.old) entries.new result }
{
    if is_same(a, table.exits) {
        return Ok(());
    }
    let lefts = entry_paths(alloc, rule, points, Side::Left, a.0, i)?;
    let rights = entry_paths(alloc, rule, points, Side::Right, a.1, i)?;
    enter_pairs(
        entries,
        &rule.cuts,
        table,
        i,
        lefts.as_slice(),
        rights.as_slice(),
    )
}

fn entry_at(entries: &[(u32, u32)], i: u32) -> Option<(u32, u32)>
    ensures { result ≡ slice_get entries.now i }
{
    entries.get(i as usize).copied()
}

// Walks all entries in their order, those that are found on the way among them.
fn walk_entries(
    alloc: Global,
    rule: &Rule,
    points: &CutPoints,
    table: &PointTable,
    entries: &mut Items<(u32, u32)>,
) -> Result<(), CutsRefusal>
    requires well_formed { faults.well_formed rule.now ≡ true }
    requires simulates { faults.is_simulate rule.now.method ≡ true }
    requires table { table.now ≡ rule_table rule.now }
    requires before { list_all (may_be_entry rule.now) entries.old ≡ true }
    ensures { EntriesAnswer (walked 64 rule.now points.now 0 entries.old) entries.new result }
{
    for i in 0..64u32 {
        match entry_at(entries.as_slice(), i) {
            None => return Ok(()),
            Some(a) => walk_entry(alloc, rule, points, table, i, a, entries)?,
        }
    }
    Ok(())
}

// Searches the entries of a rule from its first ones.
fn search(
    alloc: Global,
    rule: &Rule,
    points: CutPoints,
    table: &PointTable,
) -> Result<CutPoints, CutsRefusal>
    requires well_formed { faults.well_formed rule.now ≡ true }
    requires simulates { faults.is_simulate rule.now.method ≡ true }
    requires table { table.now ≡ rule_table rule.now }
    requires points { points ≡ first_cuts rule.now }
    requires few { nat_lt 64 (length (first_entries rule.now.cuts (0, 0))) ≡ false }
    ensures { CutsAnswer rule.now result }
{
    let mut entries = Items::from_slice(alloc, points.pairs.as_slice())?;
    walk_entries(alloc, rule, &points, table, &mut entries)?;
    Ok(CutPoints {
        left: points.left,
        right: points.right,
        pairs: entries,
    })
}

// Whether the first entries are more than 64.
fn has_many_entries(list: &CutList) -> bool
    ensures { result ≡ nat_lt 64 (length (first_entries list.now (0, 0))) }
{
    match list {
        CutList::Default => false,
        CutList::Listed(pairs) => pairs.len() > 62,
    }
}

/// The cut points of a rule and the entries of a proof by simulation: the pair of starts, the pair of
/// exits, then the listed pairs or those that are found along the paths. `Limit` names the first limit
/// that is met, and the entry whose paths were walked then. `NoMemory` comes also where the exit of a
/// side has a number above 2^32 - 1.
pub fn cuts(alloc: Global, rule: &Rule) -> Result<CutPoints, CutsRefusal>
    requires well_formed { faults.well_formed rule.now ≡ true }
    requires simulates { faults.is_simulate rule.now.method ≡ true }
    ensures { CutsAnswer rule.now result }
{
    if has_many_entries(&rule.cuts) {
        return Err(CutsRefusal::Limit(LimitMark {
            what: LimitKind::Entries,
            entry: 0,
        }));
    }
    let exits = (exit_number(&rule.left)?, exit_number(&rule.right)?);
    let points = first_cuts(alloc, rule, exits)?;
    let table = PointTable::of(alloc, rule, exits)?;
    search(alloc, rule, points, &table)
}
