//! What a stage is made from: the rows, or the lines of the stage before it.
//! `specs/Stage.antt` has the order of the lines; the first that passes a limit ends the work.

ghost use Rattle.std.specs.Prelude.{◌≡◌, ◌≤◌, ◌<◌, ◌^◌, pos, true, [], ◌∷◌, map, unsigned_abs, slice_index_or, All, IfOk, OnOk};
ghost use Rattle.linear_rows.specs.Stage.{line_of, first, is_lower, without_first, mixed, kept_lines, cancelled_lines, sums_of, sums_with, multiplier, IsSmall, IsWide};
ghost use Rattle.linear_rows.specs.Lines.{items_of, lines_of, Gathers};
ghost use Rattle.linear_rows.specs.Recorded.{RecordsLine, RecordsRows, RecordsNext, RecordsSum, RecordsSums, RecordsAll};

use crate::answer::RowKind;
use crate::divisor::divisor;
use crate::line::{drop_first, first, is_lower, is_upper, line_of, mixed, without_first};
use crate::no_memory::NoMemory;
use crate::record::{Record, same_row};
use crate::row::Row;
use crate::stage::Stage;
use crate::step::RowStep;
use std::alloc::Global;

/// Takes each row.
pub fn take_rows(
    alloc: Global,
    rows: &[Row],
    stage: &mut Stage,
    history: &mut Record,
) -> Result<Option<RowKind>, NoMemory>
    requires rows { All (λ row. IsSmall (line_of row)) rows.now }
    requires small { All IsSmall (lines_of stage.old) }
    ensures gathered { IfOk result (Gathers (lines_of stage.old) (map line_of rows.now) (lines_of stage.new)) }
    ensures small { OnOk result (All IsSmall (lines_of stage.new)) }
    ensures recorded { OnOk result (RecordsRows rows.now history.old stage.old history.new stage.new) }
{
    for (i, row) in rows.iter().enumerate() {
        let what = take_row(alloc, row, i, stage, history)?;
        if what.is_some() {
            return Ok(what);
        }
    }
    Ok(None)
}

/// Takes one row.
fn take_row(
    alloc: Global,
    row: &Row,
    i: usize,
    stage: &mut Stage,
    history: &mut Record,
) -> Result<Option<RowKind>, NoMemory>
    requires row { IsSmall (line_of row.now) }
    requires small { All IsSmall (lines_of stage.old) }
    ensures gathered { IfOk result (Gathers (lines_of stage.old) (line_of row.now ∷ []) (lines_of stage.new)) }
    ensures small { OnOk result (All IsSmall (lines_of stage.new)) }
    ensures recorded { OnOk result (RecordsLine i (line_of row.now) history.old stage.old history.new stage.new) }
{
    let Ok(number) = u32::try_from(i) else {
        return Err(NoMemory);
    };
    let line = line_of(alloc, row)?;
    stage.take(line, same_row(number), history)
}

/// Takes each line in which the first variable does not stand.
pub fn take_kept(
    alloc: Global,
    lines: &[Vec<i128>],
    numbers: &[u32],
    next: &mut Stage,
    history: &mut Record,
) -> Result<Option<RowKind>, NoMemory>
    requires lines { All IsSmall (items_of lines.now) }
    requires small { All IsSmall (lines_of next.old) }
    ensures gathered { IfOk result (Gathers (lines_of next.old) (kept_lines (items_of lines.now)) (lines_of next.new)) }
    ensures small { OnOk result (All IsSmall (lines_of next.new)) }
    ensures recorded { OnOk result (RecordsAll numbers.now (items_of lines.now) history.old next.old history.new next.new) }
{
    for (i, line) in lines.iter().enumerate() {
        let what = take_kept_line(alloc, line, number_at(numbers, i), next, history)?;
        if what.is_some() {
            return Ok(what);
        }
    }
    Ok(None)
}

/// Takes a line if the first variable does not stand in it.
fn take_kept_line(
    alloc: Global,
    line: &[i128],
    number: u32,
    next: &mut Stage,
    history: &mut Record,
) -> Result<Option<RowKind>, NoMemory>
    requires line { IsSmall line.now }
    requires small { All IsSmall (lines_of next.old) }
    ensures gathered { IfOk result (Gathers (lines_of next.old) (kept_lines (line.now ∷ [])) (lines_of next.new)) }
    ensures small { OnOk result (All IsSmall (lines_of next.new)) }
    ensures recorded { OnOk result (RecordsNext number line.now history.old next.old history.new next.new) }
{
    if first(line) != 0 {
        return Ok(None);
    }
    let rest = without_first(alloc, line)?;
    next.take(rest, same_row(number), history)
}

/// The number of a line's row.
pub fn number_at(numbers: &[u32], i: usize) -> u32
    ensures { result ≡ slice_index_or numbers.now i 0 }
{
    numbers.get(i).copied().unwrap_or(0)
}

/// Takes, for each lower bound and within that for each upper bound, the sum that cancels the variable.
pub fn take_cancelled(
    alloc: Global,
    lines: &[Vec<i128>],
    numbers: &[u32],
    next: &mut Stage,
    history: &mut Record,
) -> Result<Option<RowKind>, NoMemory>
    requires lines { All IsSmall (items_of lines.now) }
    requires small { All IsSmall (lines_of next.old) }
    ensures gathered { IfOk result (Gathers (lines_of next.old) (cancelled_lines (items_of lines.now)) (lines_of next.new)) }
    ensures small { OnOk result (All IsSmall (lines_of next.new)) }
    ensures recorded { OnOk result (RecordsAll numbers.now (items_of lines.now) history.old next.old history.new next.new) }
{
    for (i, p) in lines.iter().enumerate() {
        let number = number_at(numbers, i);
        let what = take_sums(alloc, p, number, lines, numbers, next, history)?;
        if what.is_some() {
            return Ok(what);
        }
    }
    Ok(None)
}

/// Takes the sums of a line with each upper bound, if it is a lower bound.
#[tactic(auto, using(crate::proofs::Gathered::sums_none, crate::proofs::Gathered::sums_all))]
fn take_sums(
    alloc: Global,
    p: &[i128],
    number: u32,
    lines: &[Vec<i128>],
    numbers: &[u32],
    next: &mut Stage,
    history: &mut Record,
) -> Result<Option<RowKind>, NoMemory>
    requires first { IsSmall p.now }
    requires lines { All IsSmall (items_of lines.now) }
    requires small { All IsSmall (lines_of next.old) }
    ensures gathered { IfOk result (Gathers (lines_of next.old) (sums_with (items_of lines.now) (p.now ∷ [])) (lines_of next.new)) }
    ensures small { OnOk result (All IsSmall (lines_of next.new)) }
    ensures recorded { OnOk result (RecordsSums number p.now numbers.now (items_of lines.now) history.old next.old history.new next.new) }
{
    if !is_lower(p) {
        return Ok(None);
    }
    take_all_sums(alloc, p, number, lines, numbers, next, history)
}

/// Takes the sums of a lower bound with each upper bound.
fn take_all_sums(
    alloc: Global,
    p: &[i128],
    number: u32,
    lines: &[Vec<i128>],
    numbers: &[u32],
    next: &mut Stage,
    history: &mut Record,
) -> Result<Option<RowKind>, NoMemory>
    requires lower { is_lower p.now ≡ true }
    requires first { IsSmall p.now }
    requires lines { All IsSmall (items_of lines.now) }
    requires small { All IsSmall (lines_of next.old) }
    ensures gathered { IfOk result (Gathers (lines_of next.old) (sums_of p.now (items_of lines.now)) (lines_of next.new)) }
    ensures small { OnOk result (All IsSmall (lines_of next.new)) }
    ensures recorded { OnOk result (RecordsSums number p.now numbers.now (items_of lines.now) history.old next.old history.new next.new) }
{
    for (i, q) in lines.iter().enumerate() {
        let other = number_at(numbers, i);
        let what = take_sum(alloc, p, number, q, other, next, history)?;
        if what.is_some() {
            return Ok(what);
        }
    }
    Ok(None)
}

/// Takes the sum of a lower bound with a line, if that is an upper bound.
#[tactic(auto, using(crate::proofs::Gathered::sum_none, crate::proofs::Gathered::sum_one, crate::proofs::Gathered::upper_some, crate::proofs::Gathered::lower_some, crate::proofs::Walking::first_small))]
fn take_sum(
    alloc: Global,
    p: &[i128],
    number: u32,
    q: &[i128],
    other: u32,
    next: &mut Stage,
    history: &mut Record,
) -> Result<Option<RowKind>, NoMemory>
    requires lower { is_lower p.now ≡ true }
    requires first { IsSmall p.now }
    requires second { IsSmall q.now }
    requires small { All IsSmall (lines_of next.old) }
    ensures gathered { IfOk result (Gathers (lines_of next.old) (sums_of p.now (q.now ∷ [])) (lines_of next.new)) }
    ensures small { OnOk result (All IsSmall (lines_of next.new)) }
    ensures recorded { OnOk result (RecordsSum number p.now other q.now history.old next.old history.new next.new) }
{
    if !is_upper(q) {
        return Ok(None);
    }
    let by = multiplier(q, p);
    let times = multiplier(p, q);
    let sum = sum_of(alloc, by, p, times, q)?;
    let step = RowStep {
        first: number,
        by,
        second: other,
        times,
        cut: 1,
    };
    next.take(sum, step, history)
}

/// How often a line is taken, so that the other one's first coefficient is cancelled: the magnitude of that
/// by their common divisor.
fn multiplier(other: &[i128], line: &[i128]) -> u64
    requires small { unsigned_abs (first other.now) ≤ 2 ^ 62 }
    requires some { 0 < unsigned_abs (first line.now) }
    ensures value { result ≡ multiplier (first other.now) (first line.now) }
    ensures small { result ≤ 2 ^ 62 }
{
    let a = first(other).unsigned_abs();
    let b = first(line).unsigned_abs();
    (a / divisor(a, b)) as u64
}

/// A sum of two lines without the first variable.
fn sum_of(alloc: Global, by: u64, p: &[i128], times: u64, q: &[i128]) -> Result<Vec<i128>, NoMemory>
    requires by { by ≤ 2 ^ 62 }
    requires times { times ≤ 2 ^ 62 }
    requires first { IsSmall p.now }
    requires second { IsSmall q.now }
    ensures value { IfOk result (λ line. line.items ≡ without_first (mixed (pos by) p.now (pos times) q.now)) }
    ensures wide { IfOk result (λ line. IsWide line.items) }
{
    let mut line = mixed(alloc, i128::from(by), p, i128::from(times), q)?;
    drop_first(&mut line);
    Ok(line)
}
