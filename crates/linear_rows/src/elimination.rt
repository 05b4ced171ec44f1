//! Fourier-Motzkin elimination by stages (Motzkin 1936): the first variable is eliminated, the rest solved,
//! and then the first variable gets its value. `specs/Elimination.antt` says what that comes to.

ghost use Rattle.std.specs.Prelude.{◌≡◌, ◌≤◌, ◌+◌, [], All, IfOk, IfSome, OnOk, is_some};
ghost use Rattle.std.specs.List.{list_any};
ghost use Rattle.linear_rows.specs.Row.{IsRowOver};
ghost use Rattle.linear_rows.specs.Stage.{line_of, is_never_met, next_lines, IsSmall};
ghost use Rattle.linear_rows.specs.Lines.{items_of, lines_of, Gathers};
ghost use Rattle.linear_rows.specs.Elimination.{Outcome, eliminated, outcome_of, with_first, IsEliminated, Refutes};
ghost use Rattle.linear_rows.specs.Solution.{MeetsRows};
ghost use Rattle.linear_rows.specs.Found.{IsNext, IsFirst, gathered_by, IsFound, IsProperFound};
ghost use Rattle.linear_rows.specs.Recorded.{RecordsAll, RecordsFirst, RecordsGathered, RecordsFound, StaysFound, IsNumberOfNever, Shows, Answers};

use crate::answer::{RowKind, RowMark, Rows};
use crate::fraction::Fraction;
use crate::gathering::{number_at, take_cancelled, take_kept, take_rows};
use crate::line::is_never_met;
use crate::no_memory::NoMemory;
use crate::record::Record;
use crate::row::Row;
use crate::stage::Stage;
use crate::step::RowStep;
use crate::value::value;
use sqlite_items::Items;
use std::alloc::Global;

/// A stage, or the limit that it passes.
#[derive(Drop)]
pub enum Gathered {
    /// All its lines.
    Whole(Stage),
    /// The first limit.
    Passed(RowKind),
}

/// What a stage comes to.
#[derive(Drop)]
pub enum Found {
    /// The number of a row that is never met.
    Never(u32),
    /// A value for each variable that is left.
    Point(Vec<Fraction>),
    /// The first limit.
    Limit(RowMark),
}

/// Eliminates the variables of the rows in order. The answer is just what the elimination comes to, with its
/// first limit; the row steps of `Empty` check, so nothing meets the rows, and a `Point` has a fraction for each
/// variable, in lowest terms, and meets every row.
/// There are `n` variables, at most 64; each row has `n` coefficients, and numbers of magnitude at most
/// 2^62. `Err` comes where memory runs out; 2^32 rows and steps are more than there is memory for.
pub fn feasible(alloc: Global, n: u32, rows: &[Row]) -> Result<Rows, NoMemory>
    requires few { n ≤ 64 }
    requires rows { All (IsRowOver n) rows.now }
    ensures exact { IfOk result (IsEliminated n rows.now) }
    ensures refutes { IfOk result (Refutes rows.now) }
    ensures meets { IfOk result (MeetsRows n rows.now) }
{
    eliminate(alloc, n, rows)
}

/// Makes stage 0 of the rows, and answers by what it comes to.
fn eliminate(alloc: Global, n: u32, rows: &[Row]) -> Result<Rows, NoMemory>
    requires few { n ≤ 64 }
    requires rows { All (IsRowOver n) rows.now }
    ensures { IfOk result (IsEliminated n rows.now) }
{
    let mut history = Record::new(alloc, rows.len());
    match first_stage(alloc, rows, &mut history)? {
        Gathered::Passed(what) => Ok(Rows::Limit(RowMark { stage: 0, what })),
        Gathered::Whole(stage) => {
            let found = outcome(alloc, n, 0, &stage, &mut history)?;
            Ok(answer(found, history))
        }
    }
}

/// The answer to the rows by what stage 0 comes to.
fn answer(found: Found, history: Record) -> Rows
    ensures { Answers history found result }
{
    match found {
        Found::Limit(mark) => Rows::Limit(mark),
        Found::Point(xs) => Rows::Point(Items::from_vec(xs)),
        Found::Never(number) => Rows::Empty(refutation(number, history)),
    }
}

/// The steps that make the row of this number.
fn refutation(number: u32, history: Record) -> Items<RowStep>
    ensures { Shows history number result }
{
    Items::from_vec(history.steps_to(number))
}

/// What a stage comes to, of which `n` variables are left.
fn outcome(
    alloc: Global,
    n: u32,
    k: u32,
    stage: &Stage,
    history: &mut Record,
) -> Result<Found, NoMemory>
    requires few { k + n ≤ 64 }
    requires small { All IsSmall (lines_of stage.now) }
    ensures found { IfOk result (IsFound (outcome_of n k (lines_of stage.now))) }
    ensures recorded { IfOk result (RecordsFound n k stage.now history.old history.new) }
{
    if let Some(number) = never_met(stage.lines.as_slice(), &stage.numbers) {
        return Ok(Found::Never(number));
    }
    if n == 0 {
        return Ok(Found::Point(Vec::new(alloc)));
    }
    match next_stage(alloc, stage, history)? {
        Gathered::Passed(what) => Ok(Found::Limit(RowMark { stage: k + 1, what })),
        Gathered::Whole(next) => {
            let found = outcome(alloc, n - 1, k + 1, &next, history)?;
            with_first(k, stage.lines.as_slice(), found)
        }
    }
}

/// The number of the first line that is never met.
fn never_met(lines: &[Vec<i128>], numbers: &[u32]) -> Option<u32>
    ensures found { is_some result ≡ list_any is_never_met (items_of lines.now) }
    ensures number { IfSome result (IsNumberOfNever numbers.now (items_of lines.now)) }
{
    for (i, line) in lines.iter().enumerate() {
        if is_never_met(line) {
            return Some(number_at(numbers, i));
        }
    }
    None
}

/// What comes to a stage with the value of its first variable.
fn with_first(k: u32, lines: &[Vec<i128>], found: Found) -> Result<Found, NoMemory>
    requires small { All IsSmall (items_of lines.now) }
    requires proper { IsProperFound found }
    ensures found { IfOk result (λ more. (o : Outcome) → IsFound o found → IsFound (with_first k (items_of lines.now) o) more) }
    ensures stays { IfOk result (StaysFound found) }
{
    let Found::Point(xs) = found else {
        return Ok(found);
    };
    match value(lines, &xs) {
        None => Ok(Found::Limit(RowMark {
            stage: k,
            what: RowKind::Point,
        })),
        Some(x) => {
            let mut xs = xs;
            xs.insert(0, x)?;
            Ok(Found::Point(xs))
        }
    }
}

/// The stage after another.
fn next_stage(alloc: Global, stage: &Stage, history: &mut Record) -> Result<Gathered, NoMemory>
    requires { All IsSmall (lines_of stage.now) }
    ensures next { IfOk result (IsNext (lines_of stage.now)) }
    ensures recorded { IfOk result (RecordsGathered stage.now history.old history.new) }
{
    let mut next = Stage::new(alloc);
    let what = take_next(alloc, stage, &mut next, history)?;
    Ok(gathered_by(next, what))
}

/// Takes what the stage after another is made from.
fn take_next(
    alloc: Global,
    stage: &Stage,
    next: &mut Stage,
    history: &mut Record,
) -> Result<Option<RowKind>, NoMemory>
    requires lines { All IsSmall (lines_of stage.now) }
    requires empty { lines_of next.old ≡ [] }
    ensures gathered { IfOk result (Gathers [] (next_lines (lines_of stage.now)) (lines_of next.new)) }
    ensures small { OnOk result (All IsSmall (lines_of next.new)) }
    ensures recorded { OnOk result (RecordsAll stage.now.numbers.items (lines_of stage.now) history.old next.old history.new next.new) }
{
    let lines = stage.lines.as_slice();
    let what = take_kept(alloc, lines, &stage.numbers, next, history)?;
    if what.is_some() {
        return Ok(what);
    }
    take_cancelled(alloc, lines, &stage.numbers, next, history)
}

/// The stage that the rows make.
fn first_stage(alloc: Global, rows: &[Row], history: &mut Record) -> Result<Gathered, NoMemory>
    requires { All (λ row. IsSmall (line_of row)) rows.now }
    ensures first { IfOk result (IsFirst rows.now) }
    ensures recorded { IfOk result (RecordsFirst rows.now history.old history.new) }
{
    let mut stage = Stage::new(alloc);
    let what = take_rows(alloc, rows, &mut stage, history)?;
    Ok(gathered_by(stage, what))
}

/// The stage, or the limit that it passes.
fn gathered_by(stage: Stage, what: Option<RowKind>) -> Gathered
    ensures { result ≡ gathered_by stage what }
{
    match what {
        Some(what) => Gathered::Passed(what),
        None => Gathered::Whole(stage),
    }
}
