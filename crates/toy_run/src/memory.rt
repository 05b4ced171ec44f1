//! The store of a run: cells with indices that were written in order stand in a list, and all others in maps.
//! `specs/Memory.antt` says which store that is.

ghost use Rattle.std.specs.Prelude.{◌≡◌, ◌≢◌, OnOk, IfOk, []};
ghost use Rattle.std.specs.List.{All};
ghost use Rattle.std.specs.List.Sorted.{IsStrictlySortedBy, IsStrictlySortedBy-prop};
ghost use Rattle.toy_imp.specs.Store.{read, write};
ghost use Rattle.toy_run.specs.Place.{cell_of};
ghost use Rattle.toy_run.specs.Stored.{empty_store, with_cells, store_by};
ghost use Rattle.toy_run.specs.Cells.{AreCells, cell_order, has_indices};

use crate::ascending::{find, is_behind, merged, no_zero};
use crate::cell::Cell;
use crate::place::{Place, placed};
use crate::scattered::Scattered;
use sqlite_items::Items;
use std::alloc::Global;
use toy_imp::NoMemory;

/// What the cells of a store hold.
#[derive(Drop)]
pub struct Memory<'a> {
    /// Cells with indices, each behind those before it, with what they hold; that may be 0.
    pub ascending: Items<Cell>,
    /// What all other cells hold.
    pub rest: Scattered<'a>,
    ghost in_order: { IsStrictlySortedBy cell_order ascending } by { IsStrictlySortedBy-prop cell_order ascending },
    ghost indexed: { All has_indices ascending },
}

impl<'a> Memory<'a> {
    /// The store in which every cell holds 0.
    pub fn new(alloc: Global) -> Memory<'a>
        ensures { with_cells result.ascending (store_by result.rest.variables.entries result.rest.cells.entries) ≡ empty_store }
    {
        Memory {
            ascending: Items::new(alloc),
            rest: Scattered::new(alloc),
        }
    }

    /// What the place holds.
    pub fn read(&self, place: &Place<'a>) -> i128
        ensures { result ≡ read (with_cells self.now.ascending (store_by self.now.rest.variables.entries self.now.rest.cells.entries)) (cell_of place.now) }
    {
        if place.indices.is_empty() {
            self.variable(place.name)
        } else {
            self.cell(place)
        }
    }

    /// What the variable of the name holds.
    pub fn variable(&self, name: &'a [u8]) -> i128
        ensures { result ≡ read (with_cells self.now.ascending (store_by self.now.rest.variables.entries self.now.rest.cells.entries)) (name.now, []) }
    {
        self.rest.variable(name)
    }

    // What a place with indices holds.
    fn cell(&self, place: &Place<'a>) -> i128
        requires { place.now.indices ≢ [] }
        ensures { result ≡ read (with_cells self.now.ascending (store_by self.now.rest.variables.entries self.now.rest.cells.entries)) (cell_of place.now) }
    {
        let cells = self.ascending.as_slice();
        match find(cells, place) {
            Some(at) => cells[at].value,
            None => self.rest.cell(place),
        }
    }

    /// Lets the place hold a value.
    pub fn write(&mut self, alloc: Global, place: Place<'a>, value: i128) -> Result<(), NoMemory>
        ensures { OnOk result (with_cells self.new.ascending (store_by self.new.rest.variables.entries self.new.rest.cells.entries) ≡ write (with_cells self.old.ascending (store_by self.old.rest.variables.entries self.old.rest.cells.entries)) (cell_of place.entry) value) }
    {
        if place.indices.is_empty() {
            self.set_variable(place.name, value)
        } else {
            self.set_cell(alloc, place, value)
        }
    }

    /// Lets the variable of the name hold a value.
    pub fn set_variable(&mut self, name: &'a [u8], value: i128) -> Result<(), NoMemory>
        ensures { OnOk result (with_cells self.new.ascending (store_by self.new.rest.variables.entries self.new.rest.cells.entries) ≡ write (with_cells self.old.ascending (store_by self.old.rest.variables.entries self.old.rest.cells.entries)) (name.now, []) value) }
    {
        self.rest.set_variable(name, value)
    }

    // Lets a place with indices hold a value.
    fn set_cell(&mut self, alloc: Global, place: Place<'a>, value: i128) -> Result<(), NoMemory>
        requires { place.indices ≢ [] }
        ensures { OnOk result (with_cells self.new.ascending (store_by self.new.rest.variables.entries self.new.rest.cells.entries) ≡ write (with_cells self.old.ascending (store_by self.old.rest.variables.entries self.old.rest.cells.entries)) (cell_of place.entry) value) }
    {
        if value != 0 && is_behind(self.ascending.as_slice(), &place) {
            self.ascending.push(placed(alloc, place, value)?)?;
            return Ok(());
        }
        match find(self.ascending.as_slice(), &place) {
            Some(at) => {
                self.ascending.set(at, placed(alloc, place, value)?);
                Ok(())
            }
            None => self.rest.set_cell(place, value),
        }
    }

    /// The cells that are not 0, in order.
    pub fn into_cells(self, alloc: Global) -> Result<Items<Cell>, NoMemory>
        ensures { IfOk result (λ cells. AreCells (with_cells self.entry.ascending (store_by self.entry.rest.variables.entries self.entry.rest.cells.entries)) cells) }
    {
        let Memory { ascending, rest } = self;
        let rest = rest.into_cells(alloc)?;
        if rest.is_empty() && no_zero(ascending.as_slice()) {
            return Ok(ascending);
        }
        merged(alloc, ascending.as_slice(), rest.as_slice())
    }
}
