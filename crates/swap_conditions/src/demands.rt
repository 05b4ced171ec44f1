//! What a region demands of the places of a name that two blocks share, at one of its places.
//! `specs/SwapText.antt` says what; each position of the place's indices costs a walk over either block.

ghost use Rattle.std.specs.Prelude.{◌≡◌};
ghost use Rattle.toy_imp.specs.Cell.{spelled};
ghost use Rattle.toy_imp.specs.ExprView.{exprs_of};
ghost use Rattle.swap_conditions.specs.Pairs.{names_of};
ghost use Rattle.swap_conditions.specs.Placing.{count, distance, is_just};
ghost use Rattle.swap_conditions.specs.Standing.{every_place};
ghost use Rattle.swap_conditions.specs.SwapText as spec;

use crate::spans::{Asked, Span, bytes_of};
use crate::swapping::{Counters, Swap};
use crate::walks::block_span;
use toy_imp::{Block, Expr, Name, Region};

/// Whether the region's demand is met by the name of a place with these indices.
pub(crate) fn is_apart(q: Swap, x: &Name, indices: &[Expr]) -> bool
    ensures { let p = q.entry in
        result ≡ spec.is_apart p.region (names_of p.counters) (spelled x.now) (exprs_of indices.now)
        p.first.now p.second.now }
{
    match (q.region, q.counters) {
        (Region::Distinct, Counters::One(k)) => has_constant(q, k, x, indices),
        (Region::Distinct, Counters::Two(k, l)) => {
            has_constant(q, k, x, indices) && has_constant(q, l, x, indices)
        }
        (Region::Earlier, Counters::One(k)) => has_order(q, k, x, indices),
        (Region::Earlier, Counters::Two(k, l)) => {
            has_constant(q, k, x, indices) && has_constant(q, l, x, indices)
        }
        (Region::Crossing, Counters::One(_)) => false,
        (Region::Crossing, Counters::Two(k, l)) => {
            has_constant(q, k, x, indices) || has_constant(q, l, x, indices)
        }
    }
}

/// Whether at some position all places of the name have `k + c` with one c, that of this place.
fn has_constant(q: Swap, k: &Name, x: &Name, indices: &[Expr]) -> bool
    ensures { result ≡ spec.has_constant k.now (spelled x.now) (exprs_of indices.now)
        q.entry.first.now q.entry.second.now }
{
    for p in 0..indices.len() {
        if is_constant_at(q, k, x, indices, p) {
            return true;
        }
    }
    false
}

/// Whether at some position each place of the name has `k + c`, no c in the first block below one in the second.
fn has_order(q: Swap, k: &Name, x: &Name, indices: &[Expr]) -> bool
    ensures { result ≡ spec.has_order k.now (spelled x.now) (exprs_of indices.now)
        q.entry.first.now q.entry.second.now }
{
    for p in 0..indices.len() {
        if is_ordered_at(q, k, x, indices, p) {
            return true;
        }
    }
    false
}

/// The places of a name, at a position of as many indices as these.
#[tactic(auto, using(crate::proofs::Distances::as_many))]
fn asked<'a>(k: &'a Name, x: &'a Name, indices: &[Expr], position: usize) -> Asked<'a>
    ensures name { result.name.now ≡ spelled x.now }
    ensures counter { result.counter.now ≡ spelled k.now }
    ensures count { result.count ≡ count (exprs_of indices.now) }
    ensures position { result.position ≡ position }
{
    Asked {
        name: bytes_of(x),
        counter: bytes_of(k),
        count: indices.len(),
        position,
    }
}

/// Whether at this position all places of the name have the distance of this one.
fn is_constant_at(q: Swap, k: &Name, x: &Name, indices: &[Expr], p: usize) -> bool
    ensures { result ≡ spec.constant_at k.now (spelled x.now) (exprs_of indices.now)
        q.entry.first.now q.entry.second.now p }
{
    let a = asked(k, x, indices, p);
    match a.distance(indices) {
        None => false,
        Some(c) => all_at(a, q.first, c) && all_at(a, q.second, c),
    }
}

/// Whether at this position all places in the first block are at least as far as all in the second.
fn is_ordered_at(q: Swap, k: &Name, x: &Name, indices: &[Expr], p: usize) -> bool
    ensures { result ≡ spec.order_at k.now (spelled x.now) (exprs_of indices.now)
        q.entry.first.now q.entry.second.now p }
{
    all_ordered(asked(k, x, indices, p), q.first, q.second)
}

/// Whether all places in a block have this distance.
fn all_at(a: Asked, b: &Block, c: i128) -> bool
    ensures { let r = a.entry in
        let far = distance r.counter.now r.count r.position in
        result ≡ every_place r.name.now (λ es. is_just c (far es)) b.now }
{
    block_span(a, b, Span::Nowhere).is_at(c)
}

/// Whether all places in the first block are at least as far as all in the second.
#[tactic(auto, using(crate::proofs::Bounds::all_above))]
fn all_ordered(a: Asked, first: &Block, second: &Block) -> bool
    ensures { let r = a.entry in
        result ≡ spec.all_ordered r.counter.now r.count r.position r.name.now first.now second.now }
{
    block_span(a, first, Span::Nowhere).is_above(block_span(a, second, Span::Nowhere))
}
