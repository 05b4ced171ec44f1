//! The counts of an obligation, without memory. `specs/Tallies.antt` says what is counted.

ghost use Rattle.std.specs.Prelude.{◌≡◌, ◌+◌, cond};
ghost use Rattle.rule_terms.specs.Parts.{obligation_parts};
ghost use Rattle.rule_terms.specs.Counts.{saturated};
ghost use Rattle.term_universe.specs.Tallies.{is_store, is_reading, is_value, different_stores, different_readings, tally};
ghost use Rattle.term_universe.specs.Walked.{part_of};

use crate::part::{Part, next_part};
use rule_terms::Obligation;

/// How large an obligation is; each count stands still at 2^64 - 1.
#[derive(Clone, Copy, Debug, PartialEq, Eq)]
pub struct Tally {
    /// Constructors of store and value terms, with repeats, and literals.
    pub nodes: u64,
    /// Different store terms among all subterms.
    pub stores: u64,
    /// Different places, expression parameters and test parameters.
    pub readings: u64,
    /// The greatest number of nested constructors.
    pub depth: u64,
}

/// How many different store terms and readings were met.
#[derive(Clone, Copy)]
struct Met {
    stores: u64,
    readings: u64,
}

/// One more where the part is a store term, or a reading.
fn one_more(before: Met, part: Part<'_>) -> Met
    ensures stores { result.stores ≡ saturated (before.stores + cond (is_store (part_of part.entry)) 1 0) }
    ensures readings { result.readings ≡ saturated (before.readings + cond (is_reading (part_of part.entry)) 1 0) }
{
    match part {
        Part::Store(_) => Met {
            stores: before.stores.saturating_add(1),
            readings: before.readings,
        },
        Part::Value(_) => before,
        Part::Place(_) | Part::Expr(_) | Part::Test(_) => Met {
            stores: before.stores,
            readings: before.readings.saturating_add(1),
        },
    }
}

fn is_value(part: Part<'_>) -> bool
    ensures { result ≡ is_value (part_of part.entry) }
{
    match part {
        Part::Store(_) => false,
        Part::Value(_) => true,
        Part::Place(_) | Part::Expr(_) | Part::Test(_) => false,
    }
}

/// The different store terms and readings of an obligation. They are met in increasing order, and value
/// terms come behind them.
fn met_in(ob: &Obligation) -> Met
    ensures stores { result.stores ≡ saturated (different_stores (obligation_parts ob.now)) }
    ensures readings { result.readings ≡ saturated (different_readings (obligation_parts ob.now)) }
{
    let mut so_far = Met {
        stores: 0,
        readings: 0,
    };
    let mut last = None;
    while let Some(part) = next_part(ob, last) {
        if is_value(part) {
            return so_far;
        }
        so_far = one_more(so_far, part);
        last = Some(part);
    }
    so_far
}

/// The counts of an obligation: nodes, different store terms, readings and depth. Takes no memory.
pub fn counts(ob: &Obligation) -> Tally
    ensures { result ≡ tally ob.now }
{
    let size = ob.size();
    let met = met_in(ob);
    Tally {
        nodes: size.nodes,
        stores: met.stores,
        readings: met.readings,
        depth: size.depth,
    }
}
