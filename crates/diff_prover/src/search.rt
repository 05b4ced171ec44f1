//! The search for a point: shortest paths after Bellman and Ford, by passes over the rows.
//! Values start at 0 and fall until a pass finds each row met, or until the parents make a cycle.
//! Passes run forward and backward in turn (Yen), and after each the values fall along the parents, so
//! that a chain of rows in whatever order takes two or three passes.

ghost use Rattle.std.specs.Prelude.{◌≡◌, ◌≤◌, ◌^◌, length, All, IfOk, OnOk};
ghost use Rattle.diff_prover.specs.Row.{IsWithin, IsRowOver};
ghost use Rattle.diff_prover.specs.Answer.{Answers};
ghost use Rattle.diff_prover.specs.Search.{AreExplained, MeetsOrRefutes, FallsOrRefutes};

use crate::answer::DiffAnswer;
use crate::lowering::{Lowered, lower_all, lower_walk};
use crate::no_memory::NoMemory;
use crate::row::DiffRow;
use crate::trail::Trail;
use sqlite_items::Items;
use std::alloc::{AllocError, Global};

/// A point of `n` numbers of magnitude at most 2^81 that meets every row, or the places of at most `n`
/// rows that make a cycle with a negative sum. The rows are over the variables `0` to `n - 1`, of which
/// there are at most 65,536, and their numbers have magnitudes of at most 2^65; there may be any number
/// of rows. `Err` comes only where memory runs out.
pub fn solve(alloc: Global, n: u32, rows: &[DiffRow]) -> Result<DiffAnswer, NoMemory>
    requires few { n ≤ 65536 }
    requires rows { All (IsRowOver n) rows.now }
    ensures { IfOk result (Answers n rows.now) }
{
    let count = n as usize;
    let mut values = vec![in alloc; 0i128; count]?;
    let mut parents: Vec<Option<usize>> = vec![in alloc; None; count]?;
    let mut trail = Trail::new(alloc, count)?;
    match lower_until_settled(rows, &mut values, &mut parents, &mut trail)? {
        None => Ok(DiffAnswer::Point(Items::from_vec(values))),
        Some(number) => {
            let cycle = Items::from_slice(alloc, &trail.places[number..])?;
            Ok(DiffAnswer::Cycle(cycle))
        }
    }
}

/// Passes over the rows until each is met, which is `None`, or until the parents make a cycle, which
/// stands on the trail from this number on. It ends since each pass but the last lowers a value, and
/// a value below the lowest has a cycle above it. In theory there are at most `n` passes, and mostly few.
fn lower_until_settled(
    rows: &[DiffRow],
    values: &mut [i128],
    parents: &mut [Option<usize>],
    trail: &mut Trail,
) -> Result<Option<usize>, AllocError>
    requires few { length values.old ≤ 65536 }
    requires rows { All (IsRowOver (length values.old)) rows.now }
    requires within { All (IsWithin (2 ^ 81)) values.old }
    requires explained { AreExplained (length values.old) rows.now values.old parents.old }
    requires visits { length trail.old.visits.items ≡ length values.old }
    ensures { IfOk result (MeetsOrRefutes rows.now values.new trail.new.places.items) }
{
    let mut backward = false;
    loop {
        match lower_all(rows, backward, values, parents) {
            Lowered::Nowhere => return Ok(None),
            Lowered::Somewhere => {}
            Lowered::Below(variable) => return trail.follow_alone(rows, parents, variable),
        }
        let found = lower_along_parents(rows, values, parents, trail)?;
        if found.is_some() {
            return Ok(found);
        }
        backward = !backward;
    }
}

/// Walks from each variable along the parents, and lowers the values from the end of each walk on.
/// Where a walk comes round, the answer is the number on the trail from which its cycle stands.
fn lower_along_parents(
    rows: &[DiffRow],
    values: &mut [i128],
    parents: &mut [Option<usize>],
    trail: &mut Trail,
) -> Result<Option<usize>, AllocError>
    requires few { length values.old ≤ 65536 }
    requires rows { All (IsRowOver (length values.old)) rows.now }
    requires within { All (IsWithin (2 ^ 81)) values.old }
    requires explained { AreExplained (length values.old) rows.now values.old parents.old }
    requires visits { length trail.old.visits.items ≡ length values.old }
    ensures explained { OnOk result
        (AreExplained (length values.old) rows.now values.new parents.new) }
    ensures visits { OnOk result (length trail.new.visits.items ≡ length values.new) }
    ensures fallen { IfOk result
        (FallsOrRefutes rows.now values.old values.new trail.new.places.items) }
{
    trail.clear();
    for variable in 0..parents.len() {
        let base = trail.places.len();
        let found = trail.follow(rows, parents, variable)?;
        if found.is_some() {
            return Ok(found);
        }
        if let Some(below) = lower_walk(rows, &trail.places[base..], values, parents) {
            return trail.follow_alone(rows, parents, below);
        }
    }
    Ok(None)
}
