//! The limits of an obligation, and the first of them that its counts pass. `specs/Limits.antt` says which it is.

ghost use Rattle.std.specs.Prelude.{◌≡◌};
ghost use Rattle.term_universe.specs.Limits as spec;

use crate::tally::Tally;
use rule_terms::LimitKind;

/// The most nodes of an obligation.
pub const MOST_NODES: u64 = 4096;

/// The most different store terms of an obligation.
pub const MOST_STORES: u64 = 48;

/// The most readings of an obligation: different places, expression parameters and test parameters.
pub const MOST_READINGS: u64 = 32;

/// The greatest depth of an obligation.
pub const MOST_DEPTH: u64 = 512;

/// The first limit that the counts pass: of nodes, of store terms, of readings, of the depth; `None` where they pass none.
pub fn first_passed(tally: Tally) -> Option<LimitKind>
    ensures { result ≡ spec.first_passed tally }
{
    if tally.nodes > MOST_NODES {
        Some(LimitKind::Nodes)
    } else if tally.stores > MOST_STORES {
        Some(LimitKind::Stores)
    } else if tally.readings > MOST_READINGS {
        Some(LimitKind::Readings)
    } else if tally.depth > MOST_DEPTH {
        Some(LimitKind::Depth)
    } else {
        None
    }
}
