//! Nests of just as many turns and tuples as there may be, and of one more.

ghost use Rattle.std.specs.Prelude.{length, IfOk, if◌then◌else◌};
ghost use Rattle.iteration_order.specs.Affine.{IsForm};
ghost use Rattle.iteration_order.specs.Nest.{AreBounds, IsNest};

use iteration_order::{Affine, Bounds, TuplesRefusal, tuples};
use sqlite_items::Items;
use std::process::Abort;
use std::test::Fail;

/// The coefficients of the counter round the loop and of the one symbol, and the constant.
type Parts = (i64, i64, i64);

/// The form of the parts; a loop that stands alone has no counter round it.
fn form(rt: &(impl Abort + AllocGlobal), inside: bool, parts: Parts) -> Result<Affine, Fail>
    ensures { IfOk result (IsForm (if inside then 1 else 0) 1) }
{
    let (counter, symbol, constant) = parts;
    assert!(rt; counter.unsigned_abs() <= 1024);
    assert!(rt; symbol.unsigned_abs() < 1 << 31);
    assert!(rt; constant.unsigned_abs() < 1 << 31);
    let mut counters = Items::new(rt.alloc());
    if inside {
        counters.push(counter)?;
    }
    let mut symbols = Items::new(rt.alloc());
    symbols.push(symbol)?;
    Ok(Affine {
        counters,
        symbols,
        constant,
    })
}

/// The bounds of the parts, by way of a copy.
fn bounds(
    rt: &(impl Abort + AllocGlobal),
    inside: bool,
    low: Parts,
    high: Parts,
) -> Result<Bounds, Fail>
    ensures { IfOk result (AreBounds (if inside then 1 else 0) 1) }
{
    let low = form(rt, inside, low)?;
    let high = form(rt, inside, high)?;
    Ok(Bounds { low, high }.copy(rt.alloc())?)
}

/// One loop by the first two forms, or two by all four.
fn nest_of(
    rt: &(impl Abort + AllocGlobal),
    loops: usize,
    forms: [Parts; 4],
) -> Result<Vec<Bounds>, Fail>
    ensures { IfOk result (λ nest. IsNest 1 nest.items) }
{
    let mut nest = Vec::new(rt.alloc());
    nest.push(bounds(rt, false, forms[0], forms[1])?)?;
    if loops != 2 {
        return Ok(nest);
    }
    nest.push(bounds(rt, true, forms[2], forms[3])?)?;
    Ok(nest)
}

/// How many tuples there are, or nothing where they are too many.
fn counted(
    rt: &(impl Abort + AllocGlobal),
    loops: usize,
    forms: [Parts; 4],
) -> Result<Option<usize>, Fail> {
    let nest = nest_of(rt, loops, forms)?;
    match tuples(rt.alloc(), &nest, &[0]) {
        Ok(all) => Ok(Some(all.len())),
        Err(TuplesRefusal::Many) => Ok(None),
        Err(TuplesRefusal::NoMemory) => Err("no memory".into()),
    }
}

#[test]
fn lists_tuples_up_to_the_limit(rt: HostRuntime) -> Result<(), Fail> {
    let none = (0, 0, 0);
    for (loops, forms, expected) in [
        (1, [none, (0, 0, 65536), none, none], Some(65536)),
        (1, [none, (0, 0, 65537), none, none], None),
        (2, [none, (0, 0, 65536), none, none], Some(0)),
        (2, [none, (0, 0, 65537), none, none], None),
        (2, [none, (0, 0, 256), none, (0, 0, 256)], Some(65536)),
        (2, [none, (0, 0, 2), none, (1, 0, 32768)], None),
    ] {
        assert_eq!(rt; counted(&rt, loops, forms)?, expected, "forms {forms:?}");
    }
    Ok(())
}
