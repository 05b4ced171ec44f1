//! `swaps` by text: `specs/SwapText.antt` says when two statements swap over one or two counters, region by region.
//! The time is at worst the product of the statements' sizes; nothing takes memory.

ghost use Rattle.std.specs.Prelude.{◌≡◌};
ghost use Rattle.swap_conditions.specs.Pairs.{clash_of, names_of};
ghost use Rattle.swap_conditions.specs.Standing.{block_has};
ghost use Rattle.swap_conditions.specs.SwapText as spec;

use crate::clashing::{block_clashes, writes_name};
use crate::sizes::block_size;
use crate::spans::bytes_of;
use side_conditions::block_asserts;
use toy_imp::{Block, Name, Region};

/// The counters over which two statements swap.
#[derive(Clone, Copy)]
pub enum Counters<'a> {
    One(&'a Name),
    Two(&'a Name, &'a Name),
}

/// Two statements, which may be one twice, and the pairs of tuples of counters for which they are to swap.
#[derive(Clone, Copy)]
pub struct Swap<'a> {
    pub first: &'a Block,
    pub second: &'a Block,
    pub counters: Counters<'a>,
    pub region: Region,
}

/// Whether two statements swap by text: no `assert` stands in either, the counters differ, neither writes one, and
/// the region's demand is met at each place of a name that one writes and the other reads or writes.
pub fn swaps_by_text(q: Swap) -> bool
    ensures { let p = q.entry in
        result ≡ spec.swaps_by_text p.first.now p.second.now (names_of p.counters) p.region }
{
    !block_asserts(q.first)
        && !block_asserts(q.second)
        && differ(q.counters)
        && leaves(q.counters, q.first)
        && leaves(q.counters, q.second)
        && !clash(q)
}

/// Whether a place clashes; those of the smaller statement tell.
#[tactic(auto, using(crate::proofs::Moving::either_block))]
fn clash(q: Swap) -> bool
    ensures { result ≡ block_has (clash_of q.entry) q.entry.first.now }
{
    if block_size(q.first) <= block_size(q.second) {
        block_clashes(q, q.first)
    } else {
        block_clashes(q, q.second)
    }
}

/// Whether the counters have different bytes.
fn differ(counters: Counters) -> bool
    ensures { result ≡ spec.are_counters (names_of counters.entry) }
{
    match counters {
        Counters::One(_) => true,
        Counters::Two(k, l) => bytes_of(k) != bytes_of(l),
    }
}

/// Whether a block writes none of the counters.
fn leaves(counters: Counters, b: &Block) -> bool
    ensures { result ≡ spec.leaves (names_of counters.entry) b.now }
{
    match counters {
        Counters::One(k) => !writes_name(bytes_of(k), b),
        Counters::Two(k, l) => !writes_name(bytes_of(k), b) && !writes_name(bytes_of(l), b),
    }
}
