//! The entries: the pairs of points that a proof by simulation relates, as they are found along the paths.
//! `specs/Cuts.antt` says which they are. The pairs of paths are gone through without a list of them.

ghost use Rattle.std.specs.Prelude.{◌≡◌, [], ◌∷◌, flat_map};
ghost use Rattle.std.specs.List.{list_any};
ghost use Rattle.toy_imp.specs.Faults.{same_pair};
ghost use Rattle.entry_pairs.specs.PointKinds.{stops_meet, right_meetings, meetings};
ghost use Rattle.entry_pairs.specs.CutAnswers.{EntriesAnswer, entered_or_mark};

use crate::point_kinds::{PointTable, are_alike, kind_at};
use crate::refusal::{CutsRefusal, LimitMark};
use rule_terms::{LimitKind, Path, Stop};
use sqlite_items::Items;

/// Enters each pair of alike points at which a path of the left side and one of the right side stop, in
/// order. `i` is the number of the entry from which the paths set out.
pub fn enter_all(
    entries: &mut Items<(u32, u32)>,
    i: u32,
    table: &PointTable,
    lefts: &[Path],
    rights: &[Path],
) -> Result<(), CutsRefusal>
    ensures { EntriesAnswer (entered_or_mark i entries.old (meetings table.now lefts.now rights.now)) entries.new result }
{
    for l in lefts {
        enter_rights(entries, i, table, l.stop, rights)?;
    }
    Ok(())
}

// The same of one path of the left side, by its stop.
fn enter_rights(
    entries: &mut Items<(u32, u32)>,
    i: u32,
    table: &PointTable,
    left: Stop,
    rights: &[Path],
) -> Result<(), CutsRefusal>
    ensures { EntriesAnswer (entered_or_mark i entries.old (right_meetings table.now left rights.now)) entries.new result }
{
    for r in rights {
        enter_stops(entries, i, table, left, r.stop)?;
    }
    Ok(())
}

// The same of two stops.
#[tactic(auto, unfolding(crate::specs::CutAnswers::entered_or_mark))]
fn enter_stops(
    entries: &mut Items<(u32, u32)>,
    i: u32,
    table: &PointTable,
    left: Stop,
    right: Stop,
) -> Result<(), CutsRefusal>
    ensures { EntriesAnswer (entered_or_mark i entries.old (stops_meet table.now left right)) entries.new result }
{
    match (left, right) {
        (Stop::At(p), Stop::At(q)) => {
            if are_alike(
                kind_at(table.left.as_slice(), p),
                kind_at(table.right.as_slice(), q),
            ) {
                return enter(entries, i, p, q);
            }
            Ok(())
        }
        _ => Ok(()),
    }
}

// Enters a pair unless it is an entry already.
#[tactic(auto, unfolding(crate::specs::CutAnswers::entered_or_mark))]
fn enter(entries: &mut Items<(u32, u32)>, i: u32, p: u32, q: u32) -> Result<(), CutsRefusal>
    ensures { EntriesAnswer (entered_or_mark i entries.old ((p, q) ∷ [])) entries.new result }
{
    if is_entry(entries.as_slice(), p, q) {
        return Ok(());
    }
    if entries.len() >= 64 {
        return Err(CutsRefusal::Limit(LimitMark {
            what: LimitKind::Entries,
            entry: i,
        }));
    }
    entries.push((p, q))?;
    Ok(())
}

fn is_entry(entries: &[(u32, u32)], p: u32, q: u32) -> bool
    ensures { result ≡ list_any (same_pair (p, q)) entries.now }
{
    entries.iter().any(|b| p == b.0 && q == b.1)
}
