//! `pec_bench diff`: solves the systems of rows that standard input holds, one after another.
//! A line `system N` begins one over N variables, a line `LEFT RIGHT BY` is a row of it, and `end`
//! solves it. Prints how many have a point, how many a cycle, and a sum of all that was answered.

ghost use Rattle.std.specs.Prelude.{◌≤◌, All, IfOk};
ghost use Rattle.diff_prover.specs.Row.{IsRowOver};

use anyhow::{Context, Result, bail};
use diff_prover::{DiffAnswer, DiffRow, solve};
use std::alloc::Global;
use std::io;

/// What all answers so far come to.
#[derive(Clone, Copy)]
struct Tally {
    points: u64,
    cycles: u64,
    sum: i128,
}

/// Solves each system of standard input, and prints the tally.
pub fn run(rt: &(impl Input + Print + AllocGlobal)) -> Result<()> {
    let text = io::read_to_string(rt.alloc(), rt.reader())?;
    let tally = solve_all(rt.alloc(), text.as_str())?;
    println!(rt;
        "points {} cycles {} sum {}",
        tally.points, tally.cycles, tally.sum
    )?;
    Ok(())
}

/// Reads the systems in turn, and solves each at its `end`.
fn solve_all(alloc: Global, text: &str) -> Result<Tally> {
    let mut tally = Tally {
        points: 0,
        cycles: 0,
        sum: 0,
    };
    let mut n = 0;
    let mut rows = Vec::new(alloc);
    for line in text.lines() {
        if let Some(count) = line.strip_prefix("system ") {
            n = variables(count)?;
            rows = Vec::new(alloc);
        } else if line == "end" {
            tally = counted(alloc, n, &rows, tally)?;
        } else {
            rows.push(row(n, line)?)?;
        }
    }
    Ok(tally)
}

/// The number of variables, at most 65,536.
fn variables(text: &str) -> Result<u32>
    ensures { IfOk result (λ n. n ≤ 65536) }
{
    let n = text.parse::<u32>().context("the number of variables")?;
    if n > 65536 {
        bail!("{n} variables are too many");
    }
    Ok(n)
}

/// The row of a line, over the first n variables.
fn row(n: u32, line: &str) -> Result<DiffRow>
    ensures { IfOk result (IsRowOver n) }
{
    let mut words = line.split(' ');
    let left = words
        .next()
        .unwrap_or("")
        .parse::<u32>()
        .context("the left variable")?;
    let right = words
        .next()
        .unwrap_or("")
        .parse::<u32>()
        .context("the right variable")?;
    let by = words
        .next()
        .unwrap_or("")
        .parse::<i64>()
        .context("the number")?;
    if left >= n || right >= n {
        bail!("{line}: there are {n} variables");
    }
    Ok(DiffRow {
        left,
        right,
        by: i128::from(by),
    })
}

/// The tally with the answer to one more system.
fn counted(alloc: Global, n: u32, rows: &[DiffRow], tally: Tally) -> Result<Tally>
    requires few { n ≤ 65536 }
    requires rows { All (IsRowOver n) rows.now }
{
    let mut tally = tally;
    match solve(alloc, n, rows) {
        Err(_) => bail!("out of memory"),
        Ok(DiffAnswer::Point(point)) => {
            tally.points = tally.points.wrapping_add(1);
            for value in point.as_slice() {
                tally.sum = tally.sum.wrapping_add(*value);
            }
        }
        Ok(DiffAnswer::Cycle(places)) => {
            tally.cycles = tally.cycles.wrapping_add(1);
            for place in places.as_slice() {
                tally.sum = tally.sum.wrapping_add(*place as i128);
            }
        }
    }
    Ok(tally)
}
