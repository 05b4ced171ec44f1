//! The values of the counters of one or two loops, in running order.
//! The answer is `running_order` of `specs/RunningOrder.antt`, exactly, and `Many` comes exactly where that
//! is too long. The tuples are counted before any memory is taken, so want of memory hides no `Many`.

ghost use Rattle.std.specs.Prelude.{◌≡◌, ◌≤◌, ◌<◌, ◌^◌, ◌↔◌, [], ◌++◌, length, IsTrue, IfOk, OnOk};
ghost use Rattle.iteration_order.specs.Affine.{IsAtMost};
ghost use Rattle.iteration_order.specs.Nest.{AreBounds, IsNest};
ghost use Rattle.iteration_order.specs.RunningOrder.{tuples_between, pairs_between, running_order, AreMany};

use crate::bounds::Bounds;
use crate::refusal::TuplesRefusal;
use crate::turns::Turns;
use sqlite_items::Items;
use std::alloc::{AllocError, Global};

/// So many tuples there may be, and so many turns of the outer loop.
const MOST: i128 = 65536;

/// The values of the counters of a nest, one tuple for each turn of the innermost loop, in running order.
/// The nest is one loop or two, outermost first, over at most eight symbols of any value. The bounds of
/// loop k, from 0, have k counter coefficients, of magnitude at most 1,024, and one coefficient for each
/// symbol; these and the constants are below 2^31 in magnitude. `Many` comes exactly where there are more
/// than 65,536 tuples or the outer loop has more than 65,536 turns; else `Err` comes only where memory
/// runs out.
pub fn tuples(
    alloc: Global,
    nest: &[Bounds],
    symbols: &[i64],
) -> Result<Items<Items<i128>>, TuplesRefusal>
    requires { IsNest (length symbols.now) nest.now }
    ensures order { IfOk result (λ tuples. tuples ≡ running_order nest.now symbols.now) }
    ensures many { (result ≡ Err TuplesRefusal.Many) ↔ AreMany nest.now symbols.now }
{
    let outer = Turns::of(&nest[0], &[], symbols);
    if outer.count() > MOST {
        return Err(TuplesRefusal::Many);
    }
    match nest.get(1) {
        None => Ok(singles(alloc, outer)?),
        Some(inner) => {
            if has_many(outer, inner, symbols) {
                return Err(TuplesRefusal::Many);
            }
            Ok(pairs(alloc, outer, inner, symbols)?)
        }
    }
}

/// Whether two loops have more than 65,536 tuples.
fn has_many(outer: Turns, inner: &Bounds, symbols: &[i64]) -> bool
    requires inner { AreBounds 1 (length symbols.now) inner.now }
    requires few { length symbols.now ≤ 8 }
    requires low { IsAtMost (2 ^ 98) outer.low }
    requires high { IsAtMost (2 ^ 98) outer.high }
    ensures { IsTrue result ↔
        (65536 < length (pairs_between inner.now symbols.now outer.low outer.high)) }
{
    let mut count = 0;
    for v in outer.low..outer.high {
        let turns = Turns::of(inner, &[v], symbols);
        count += turns.count();
        if count > MOST {
            return true;
        }
    }
    false
}

/// The tuples of a loop that stands alone.
fn singles(alloc: Global, outer: Turns) -> Result<Items<Items<i128>>, AllocError>
    ensures { IfOk result (λ tuples. tuples ≡ tuples_between [] outer.low outer.high) }
{
    let mut tuples = Items::new(alloc);
    push_turns(alloc, &mut tuples, &[], outer)?;
    Ok(tuples)
}

/// The tuples of two loops.
fn pairs(
    alloc: Global,
    outer: Turns,
    inner: &Bounds,
    symbols: &[i64],
) -> Result<Items<Items<i128>>, AllocError>
    requires inner { AreBounds 1 (length symbols.now) inner.now }
    requires few { length symbols.now ≤ 8 }
    requires low { IsAtMost (2 ^ 98) outer.low }
    requires high { IsAtMost (2 ^ 98) outer.high }
    ensures { IfOk result
        (λ tuples. tuples ≡ pairs_between inner.now symbols.now outer.low outer.high) }
{
    let mut tuples = Items::new(alloc);
    for v in outer.low..outer.high {
        let turns = Turns::of(inner, &[v], symbols);
        push_turns(alloc, &mut tuples, &[v], turns)?;
    }
    Ok(tuples)
}

/// Adds a tuple for each turn of a loop: the value of the counter round it, where there is one, and its
/// own.
fn push_turns(
    alloc: Global,
    tuples: &mut Items<Items<i128>>,
    around: &[i128],
    turns: Turns,
) -> Result<(), AllocError>
    ensures { OnOk result
        (tuples.new ≡ tuples.old ++ tuples_between around.now turns.low turns.high) }
{
    for v in turns.low..turns.high {
        let mut tuple = Items::from_slice(alloc, around)?;
        tuple.push(v)?;
        tuples.push(tuple)?;
    }
    Ok(())
}
