//! Runs the programs of an input and reports on them. Each is reported on as soon as it has run, so that the cells of one program
//! at a time are held. `specs/Runs.antt` says what the runs are, `specs/RunReport.antt` has the text.

ghost use Rattle.std.specs.Prelude.{◌≡◌, [], ◌∷◌, ◌++◌, IfOk, OnOk, flat_map, count_by};
ghost use Rattle.std.specs.Fmt.{signed_decimal};
ghost use Rattle.std.specs.List.{list_all};
ghost use Rattle.pec_top.specs.Output.{IsRunReport};
ghost use Rattle.pec_top.specs.Report.{ending_of_all};
ghost use Rattle.pec_top.specs.RunReport.{next_index_text, indices_text, cell_line, cell_lines, ran_text, program_report, outcome_of, has_ended, has_halted, is_spent, is_wide, outcome_counts, last_report, Reports};

use crate::content::Item;
use crate::no_memory::NoMemory;
use crate::output::{Ending, Output, put};
use crate::report::put_count;
use itoa::Buffer;
use sqlite_items::Items;
use std::alloc::Global;
use toy_run::{Cell, Ran, run_program};

/// How a program ran.
#[derive(Clone, Copy, Debug, PartialEq, Eq)]
pub enum Outcome {
    Ended,
    Halted,
    /// Its steps were used up.
    Spent,
    /// A number left 128 bits.
    Wide,
}

/// The reports on the programs among these items, each run for at most so many steps.
#[tactic(auto, using(crate::proofs::Reports::reports_none, crate::proofs::Reports::reports_more, crate::proofs::Reports::reports_whole))]
pub fn run_report(alloc: Global, steps: u64, items: &[Item]) -> Result<Output, NoMemory>
    ensures { IfOk result (IsRunReport steps items.now) }
{
    let mut outcomes = Vec::new(alloc);
    let mut out = Vec::new(alloc);
    for item in items {
        put_item(alloc, steps, item, &mut outcomes, &mut out)?;
    }
    put_last_report(outcomes.as_slice(), &mut out)?;
    let ending = ending_of(outcomes.as_slice());
    let text = Items::from_vec(out);
    Ok(Output { text, ending })
}

/// Runs an item that is a program, puts the report on it and adds how it ran.
#[tactic(auto, using(crate::proofs::Reports::reports_rule, crate::proofs::Reports::reports_certificate, crate::proofs::Reports::reports_program))]
fn put_item(
    alloc: Global,
    steps: u64,
    item: &Item,
    outcomes: &mut Vec<Outcome>,
    out: &mut Vec<u8>,
) -> Result<(), NoMemory>
    ensures { OnOk result
        (Reports steps (item.now ∷ []) outcomes.old.items outcomes.new.items out.old.items out.new.items) }
{
    match item {
        Item::Rule(_) | Item::Certificate(_) => Ok(()),
        Item::Program(program) => {
            let ran = run_program(alloc, &program.block, steps)?;
            put_program(program.title.as_slice(), &ran, out)?;
            outcomes.push(outcome_of(&ran))?;
            Ok(())
        }
    }
}

/// Puts the report on a program with this title.
fn put_program(title: &[u8], ran: &Ran, out: &mut Vec<u8>) -> Result<(), NoMemory>
    ensures { OnOk result (out.new.items ≡ out.old.items
        ++ program_report (record { title = title.now; ran = ran.now })) }
{
    put(b"report ", out)?;
    put(title, out)?;
    put(b"\n", out)?;
    put_ran(ran, out)?;
    put(b"end\n", out)
}

/// Puts how a program ran, and the cells that it left.
fn put_ran(ran: &Ran, out: &mut Vec<u8>) -> Result<(), NoMemory>
    ensures { OnOk result (out.new.items ≡ out.old.items ++ ran_text ran.now) }
{
    match ran {
        Ran::Ended(cells, steps) => {
            put_count(b"ended ", *steps, out)?;
            put_cells(cells.as_slice(), out)
        }
        Ran::Halted(cells, steps) => {
            put_count(b"halted ", *steps, out)?;
            put_cells(cells.as_slice(), out)
        }
        Ran::Spent => put(b"spent\n", out),
        Ran::Wide(step) => put_count(b"wide ", *step, out),
    }
}

/// Puts a line for each cell.
fn put_cells(cells: &[Cell], out: &mut Vec<u8>) -> Result<(), NoMemory>
    ensures { OnOk result (out.new.items ≡ out.old.items ++ cell_lines cells.now) }
{
    for cell in cells {
        put_cell(cell, out)?;
    }
    Ok(())
}

fn put_cell(cell: &Cell, out: &mut Vec<u8>) -> Result<(), NoMemory>
    ensures { OnOk result (out.new.items ≡ out.old.items ++ cell_line cell.now) }
{
    put(cell.name.as_slice(), out)?;
    put_indices(cell.indices.as_slice(), out)?;
    put(b" = ", out)?;
    put_number(cell.value, out)?;
    put(b"\n", out)
}

/// Puts the indices of a cell in brackets, and nothing for a variable.
fn put_indices(indices: &[i128], out: &mut Vec<u8>) -> Result<(), NoMemory>
    ensures { OnOk result (out.new.items ≡ out.old.items ++ indices_text indices.now) }
{
    let Some((first, more)) = indices.split_first() else {
        return Ok(());
    };
    put(b"[", out)?;
    put_number(*first, out)?;
    put_next_indices(more, out)?;
    put(b"]", out)
}

/// Puts the indices behind the first.
fn put_next_indices(indices: &[i128], out: &mut Vec<u8>) -> Result<(), NoMemory>
    ensures { OnOk result (out.new.items ≡ out.old.items ++ flat_map next_index_text indices.now) }
{
    for index in indices {
        put_next_index(*index, out)?;
    }
    Ok(())
}

fn put_next_index(index: i128, out: &mut Vec<u8>) -> Result<(), NoMemory>
    ensures { OnOk result (out.new.items ≡ out.old.items ++ next_index_text index) }
{
    put(b", ", out)?;
    put_number(index, out)
}

fn put_number(value: i128, out: &mut Vec<u8>) -> Result<(), NoMemory>
    ensures { OnOk result (out.new.items ≡ out.old.items ++ signed_decimal value) }
{
    let mut buffer = Buffer::new();
    put(buffer.format(value).as_bytes(), out)
}

fn outcome_of(ran: &Ran) -> Outcome
    ensures { result ≡ outcome_of ran.now }
{
    match ran {
        Ran::Ended(_, _) => Outcome::Ended,
        Ran::Halted(_, _) => Outcome::Halted,
        Ran::Spent => Outcome::Spent,
        Ran::Wide(_) => Outcome::Wide,
    }
}

/// Puts the report that counts the programs by how they ran.
fn put_last_report(all: &[Outcome], out: &mut Vec<u8>) -> Result<(), NoMemory>
    ensures { OnOk result (out.new.items ≡ out.old.items ++ last_report all.now) }
{
    put(b"report run\n", out)?;
    put_counts(all, out)?;
    put(b"end\n", out)
}

fn put_counts(all: &[Outcome], out: &mut Vec<u8>) -> Result<(), NoMemory>
    ensures { OnOk result (out.new.items ≡ out.old.items ++ outcome_counts all.now) }
{
    put_count(b"programs ", all.len() as u64, out)?;
    put_count(b"ended ", ended_count(all) as u64, out)?;
    put_count(b"halted ", halted_count(all) as u64, out)?;
    put_count(b"spent ", spent_count(all) as u64, out)?;
    put_count(b"wide ", wide_count(all) as u64, out)
}

fn ended_count(all: &[Outcome]) -> usize
    ensures { result ≡ count_by has_ended all.now }
{
    all.iter()
        .filter(|outcome| matches!(outcome, Outcome::Ended))
        .count()
}

fn halted_count(all: &[Outcome]) -> usize
    ensures { result ≡ count_by has_halted all.now }
{
    all.iter()
        .filter(|outcome| matches!(outcome, Outcome::Halted))
        .count()
}

fn spent_count(all: &[Outcome]) -> usize
    ensures { result ≡ count_by is_spent all.now }
{
    all.iter()
        .filter(|outcome| matches!(outcome, Outcome::Spent))
        .count()
}

fn wide_count(all: &[Outcome]) -> usize
    ensures { result ≡ count_by is_wide all.now }
{
    all.iter()
        .filter(|outcome| matches!(outcome, Outcome::Wide))
        .count()
}

/// How the program ends that reports these outcomes.
fn ending_of(all: &[Outcome]) -> Ending
    ensures { result ≡ ending_of_all (list_all has_ended all.now) }
{
    if have_all_ended(all) {
        Ending::Done
    } else {
        Ending::SomeFailed
    }
}

fn have_all_ended(all: &[Outcome]) -> bool
    ensures { result ≡ list_all has_ended all.now }
{
    all.iter().all(|outcome| matches!(outcome, Outcome::Ended))
}
