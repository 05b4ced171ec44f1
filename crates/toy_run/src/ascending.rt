//! Lists of cells, each behind the one before it: where a cell stands in one, and two lists as one.
//! The order is that in which a run lists its cells, by `specs/Cells.antt`.

ghost use Rattle.std.specs.Prelude.{◌≡◌, ◌≢◌, pos, IsTrue, IfOk, OnOk, MatchOption, Some};
ghost use Rattle.std.specs.List.{All};
ghost use Rattle.std.specs.List.Sorted.{IsStrictlySortedBy};
ghost use Rattle.std.specs.BTreeMap as tree;
ghost use Rattle.toy_run.specs.declared.place.Place.{Place};
ghost use Rattle.toy_run.specs.Cells.{AreCells, cell_order, key_of, is_not_zero};
ghost use Rattle.toy_run.specs.Place.{cell_of, place_cmp};
ghost use Rattle.toy_run.specs.Stored.{empty_store, store_of, with_cells, IsApart, IsBehind, IsCellAt};

use crate::cell::Cell;
use crate::place::{Place, compare};
use crate::scattered::{listed, put};
use sqlite_items::Items;
use std::alloc::Global;
use std::cmp::Ordering;
use std::collections::BTreeMap;
use toy_imp::NoMemory;

/// Whether a place is behind all cells of a list.
pub fn is_behind(cells: &[Cell], place: &Place) -> bool
    requires { IsStrictlySortedBy cell_order cells.now }
    ensures { IsTrue result → IsBehind (cell_of place.now) cells.now }
{
    let n = cells.len();
    if n == 0 {
        return true;
    }
    compare(&cells[n - 1], place).is_lt()
}

/// The number of the cell at a place, if there is one, by halving.
pub fn find(cells: &[Cell], place: &Place) -> Option<usize>
    requires { IsStrictlySortedBy cell_order cells.now }
    ensures { MatchOption result (IsApart (cell_of place.now) cells.now) (IsCellAt cells.now (cell_of place.now)) }
{
    let mut low = 0;
    let mut high = cells.len();
    while low < high {
        let middle = low + (high - low) / 2;
        match compare(&cells[middle], place) {
            Ordering::Less => low = middle + 1,
            Ordering::Equal => return Some(middle),
            Ordering::Greater => high = middle,
        }
    }
    None
}

/// Whether no cell of a list holds 0.
pub fn no_zero(cells: &[Cell]) -> bool
    ensures { IsTrue result → All is_not_zero cells.now }
{
    for cell in cells {
        if cell.value == 0 {
            return false;
        }
    }
    true
}

/// Two lists as one, of which the first holds where both have a cell; what is 0 is left out.
pub fn merged(alloc: Global, cells: &[Cell], others: &[Cell]) -> Result<Items<Cell>, NoMemory>
    ensures { IfOk result (λ all. AreCells (with_cells cells.now (with_cells others.now empty_store)) all) }
{
    let mut all = BTreeMap::new(alloc);
    put_all(alloc, others, &mut all)?;
    put_all(alloc, cells, &mut all)?;
    listed(alloc, all)
}

// Puts cells among others, the first of the list last.
fn put_all<'b>(
    alloc: Global,
    cells: &'b [Cell],
    all: &mut BTreeMap<Place<'b>, i128>,
) -> Result<(), NoMemory>
    requires { (p : Place) → tree.get place_cmp all.old p ≢ Some (pos 0) }
    ensures stored { OnOk result (store_of all.new.entries ≡ with_cells cells.now (store_of all.old.entries)) }
    ensures no_zero { OnOk result ((p : Place) → tree.get place_cmp all.new p ≢ Some (pos 0)) }
{
    let mut left = cells;
    while let Some((cell, before)) = left.split_last() {
        let place = Place {
            name: cell.name.as_slice(),
            indices: Items::from_slice(alloc, cell.indices.as_slice())?,
        };
        put(all, place, cell.value)?;
        left = before;
    }
    Ok(())
}
