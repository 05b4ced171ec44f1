//! `pec_bench rows`: eliminates the variables of the systems of linear rows that standard input holds, one after
//! another. A line `system N` begins one over N variables, a line `A B .. <= C` is a row of it with N coefficients, and
//! `end` eliminates. Prints how many have a point, how many are empty, and how many pass a limit.

ghost use Rattle.std.specs.Prelude.{◌≡◌, ◌≤◌, ◌^◌, All, IfOk, unsigned_abs};
ghost use Rattle.std.specs.List.{list_all};
ghost use Rattle.linear_rows.specs.Fractions.{is_small};
ghost use Rattle.linear_rows.specs.Row.{IsRowOver};

use anyhow::{Context, Result, bail};
use linear_rows::{Row, Rows, feasible};
use sqlite_items::Items;
use std::alloc::Global;
use std::io;

/// What all answers so far come to.
#[derive(Clone, Copy)]
struct Answers {
    empty: u64,
    points: u64,
    limits: u64,
}

/// Eliminates in each system of standard input, and prints the answers.
pub fn run(rt: &(impl Input + Print + AllocGlobal)) -> Result<()> {
    let text = io::read_to_string(rt.alloc(), rt.reader())?;
    let all = answer_all(rt.alloc(), text.as_str())?;
    println!(rt;
        "points {} empty {} limits {}",
        all.points, all.empty, all.limits
    )?;
    Ok(())
}

/// Reads the systems in turn, and eliminates at each `end`.
fn answer_all(alloc: Global, text: &str) -> Result<Answers> {
    let mut all = Answers {
        empty: 0,
        points: 0,
        limits: 0,
    };
    let mut n = 0;
    let mut rows = Vec::new(alloc);
    for line in text.lines() {
        if let Some(count) = line.strip_prefix("system ") {
            n = variables(count)?;
            rows = Vec::new(alloc);
        } else if line == "end" {
            all = counted(alloc, n, &rows, all)?;
        } else {
            rows.push(row(alloc, n, line)?)?;
        }
    }
    Ok(all)
}

/// The number of variables, at most 64.
fn variables(text: &str) -> Result<u32>
    ensures { IfOk result (λ n. n ≤ 64) }
{
    let n = text.parse::<u32>().context("the number of variables")?;
    if n > 64 {
        bail!("{n} variables are too many");
    }
    Ok(n)
}

/// The row of a line, over n variables.
fn row(alloc: Global, n: u32, line: &str) -> Result<Row>
    ensures { IfOk result (IsRowOver n) }
{
    let Some((numbers, bound)) = line.split_once(" <= ") else {
        bail!("{line}: a row is wanted");
    };
    let bound = bound.parse::<i64>().context("the bound")?;
    let coefficients = coefficients(alloc, numbers)?;
    checked(
        n,
        Row {
            coefficients,
            bound,
        },
    )
}

/// The numbers of a line.
fn coefficients(alloc: Global, text: &str) -> Result<Items<i64>> {
    let mut all = Items::new(alloc);
    for word in text.split(' ') {
        all.push(word.parse::<i64>().context("a coefficient")?)?;
    }
    Ok(all)
}

/// The row, if it is one over n variables.
#[tactic(auto, using(crate::proofs::Small::all_small, crate::proofs::Small::small))]
fn checked(n: u32, row: Row) -> Result<Row>
    ensures { IfOk result (IsRowOver n) }
{
    if row.coefficients.len() != n as usize {
        bail!("there are {n} variables");
    }
    if !are_small(row.coefficients.as_slice()) {
        bail!("a coefficient is beyond 2^62");
    }
    if !is_small(row.bound) {
        bail!("a bound is beyond 2^62");
    }
    Ok(row)
}

fn are_small(numbers: &[i64]) -> bool
    ensures { result ≡ list_all is_small numbers.now }
{
    numbers.iter().all(|z| is_small(*z))
}

fn is_small(z: i64) -> bool
    ensures { result ≡ is_small z }
{
    z.unsigned_abs() <= 1 << 62
}

/// The answers with that to one more system.
fn counted(alloc: Global, n: u32, rows: &[Row], all: Answers) -> Result<Answers>
    requires few { n ≤ 64 }
    requires rows { All (IsRowOver n) rows.now }
{
    let mut all = all;
    match feasible(alloc, n, rows) {
        Err(_) => bail!("out of memory"),
        Ok(Rows::Empty(_steps)) => all.empty = all.empty.wrapping_add(1),
        Ok(Rows::Point(_point)) => all.points = all.points.wrapping_add(1),
        Ok(Rows::Limit(_mark)) => all.limits = all.limits.wrapping_add(1),
    }
    Ok(all)
}
