//! The paths of both sides from an entry. `specs/PathsOfEntry.antt` says which they are, and when there
//! are none.

ghost use Rattle.std.specs.Prelude.{◌≡◌, ◌<◌, true};
ghost use Rattle.toy_imp.specs.Faults.{well_formed, is_simulate};
ghost use Rattle.toy_imp.specs.Points.{exit_point};
ghost use Rattle.spot_obligations.specs.PathsOfEntry.{EntryPathsAnswer};

use crate::entry::Entry;
use path_pairs::{CutPoints, PathRefusal, Side, paths};
use rule_terms::Path;
use sqlite_items::Items;
use std::alloc::Global;
use toy_imp::{NoMemory, Rule};

/// The paths of an entry, of each side in order.
#[derive(Drop)]
pub struct EntryPaths {
    pub lefts: Items<Path>,
    pub rights: Items<Path>,
}

/// The paths of an entry that is not the exits; none where they pass a limit of paths.
pub fn entry_paths(
    alloc: Global,
    rule: &Rule,
    points: &CutPoints,
    e: &Entry,
) -> Result<Option<EntryPaths>, NoMemory>
    requires well_formed { well_formed rule.now ≡ true }
    requires simulates { is_simulate rule.now.method ≡ true }
    requires left { e.now.left < exit_point rule.now.left }
    requires right { e.now.right < exit_point rule.now.right }
    ensures { EntryPathsAnswer rule.now points.now e.now result }
{
    match paths(alloc, rule, points, Side::Left, e.left) {
        Err(PathRefusal::Limit(_)) => Ok(None),
        Err(PathRefusal::NoMemory) => Err(NoMemory),
        Ok(lefts) => match paths(alloc, rule, points, Side::Right, e.right) {
            Err(PathRefusal::Limit(_)) => Ok(None),
            Err(PathRefusal::NoMemory) => Err(NoMemory),
            Ok(rights) => Ok(Some(EntryPaths { lefts, rights })),
        },
    }
}
