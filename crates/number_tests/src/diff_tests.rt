//! Systems of differences whose answers are known, and a chain as long as a system may be. Each point is seen
//! to meet its rows, and each cycle is accepted.

ghost use Rattle.std.specs.Prelude.{◌≤◌, ◌^◌, All, IfOk, OnOk};
ghost use Rattle.diff_prover.specs.Row.{IsWithin, IsRowOver};

use diff_prover::{DiffAnswer, DiffRow, check_cycle, solve};
use std::process::Abort;
use std::test::Fail;

/// The greatest magnitude of a row's number.
const LARGEST: i128 = 1 << 65;

/// A row over the first n variables.
fn row(rt: &impl Abort, n: u32, left: u32, right: u32, by: i128) -> DiffRow
    ensures { IsRowOver n result }
{
    assert!(rt; left < n);
    assert!(rt; right < n);
    assert!(rt; -LARGEST <= by);
    assert!(rt; by <= LARGEST);
    DiffRow { left, right, by }
}

/// Adds a row over the first n variables.
fn push_row(
    rt: &impl Abort,
    n: u32,
    rows: &mut Vec<DiffRow>,
    left: u32,
    right: u32,
    by: i128,
) -> Result<(), Fail>
    requires rows { All (IsRowOver n) rows.old.items }
    requires magnitudes { All (λ row. IsWithin (2 ^ 65) row.by) rows.old.items }
    ensures rows { OnOk result (All (IsRowOver n) rows.new.items) }
    ensures magnitudes { OnOk result (All (λ row. IsWithin (2 ^ 65) row.by) rows.new.items) }
{
    rows.push(row(rt, n, left, right, by))?;
    Ok(())
}

/// Rows that say that each variable is at most the next one plus `by`.
fn chain(rt: &(impl Abort + AllocGlobal), n: u32, by: i128) -> Result<Vec<DiffRow>, Fail>
    ensures rows { IfOk result (λ rows. All (IsRowOver n) rows.items) }
    ensures magnitudes { IfOk result (λ rows. All (λ row. IsWithin (2 ^ 65) row.by) rows.items) }
{
    let mut rows = Vec::new(rt.alloc());
    for i in 1..n {
        push_row(rt, n, &mut rows, i - 1, i, by)?;
    }
    Ok(rows)
}

/// The point's sum, or the number of the cycle's rows below 0.
fn found(rt: &(impl Abort + AllocGlobal), n: u32, rows: &[DiffRow]) -> Result<i128, Fail>
    requires few { n ≤ 65536 }
    requires rows { All (IsRowOver n) rows.now }
    requires magnitudes { All (λ row. IsWithin (2 ^ 65) row.by) rows.now }
{
    match solve(rt.alloc(), n, rows)? {
        DiffAnswer::Point(point) => {
            Ok(
                point
                    .as_slice()
                    .iter()
                    .fold(0, |sum, value| value.wrapping_add(sum)),
            )
        }
        DiffAnswer::Cycle(places) => {
            let cycle = places.as_slice();
            assert!(rt; cycle.len() <= n as usize);
            assert!(rt; check_cycle(rows, cycle));
            Ok(cycle.len() as i128)
        }
    }
}

#[test]
fn finds_a_point_or_a_cycle(rt: HostRuntime) -> Result<(), Fail> {
    let mut rows = Vec::new(rt.alloc());
    assert_eq!(rt; found(&rt, 3, &rows)?, 0, "no row");
    push_row(&rt, 3, &mut rows, 0, 1, -4)?;
    push_row(&rt, 3, &mut rows, 1, 2, -5)?;
    assert_eq!(rt; found(&rt, 3, &rows)?, -14);
    push_row(&rt, 3, &mut rows, 2, 0, 8)?;
    assert_eq!(rt; found(&rt, 3, &rows)?, 3, "a cycle of sum -1");
    Ok(())
}

#[test]
fn solves_a_long_chain(rt: HostRuntime) -> Result<(), Fail> {
    let n = 65536;
    let rows = chain(&rt, n, -LARGEST)?;
    assert_eq!(rt; found(&rt, n, &rows)?, -LARGEST * (65535 * 65536 / 2));
    Ok(())
}
