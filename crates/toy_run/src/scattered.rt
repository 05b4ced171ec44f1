//! The part of a store that is kept in maps: variables by their names, and cells with indices that are not 0 by their places.
//! `specs/Stored.antt` says which store its entries make.

ghost use Rattle.std.specs.Prelude.{◌≡◌, ◌≢◌, pos, Some, OnOk, IfOk, [], None};
ghost use Rattle.std.specs.BTreeMap as tree;
ghost use Rattle.toy_imp.specs.Store.{read, write};
ghost use Rattle.toy_run.specs.Place.{cell_of, place_cmp};
ghost use Rattle.toy_run.specs.Stored.{empty_store, store_of, store_by};
ghost use Rattle.toy_run.specs.Cells.{AreCells};
ghost use Rattle.toy_run.specs.declared.place.Place.{Place};

use crate::cell::Cell;
use crate::place::Place;
use sqlite_items::Items;
use std::alloc::Global;
use std::collections::BTreeMap;
use toy_imp::NoMemory;

/// What variables and cells hold; a cell without an entry holds 0.
#[derive(Drop)]
pub struct Scattered<'a> {
    /// What variables hold, by name; it may be 0.
    pub variables: BTreeMap<&'a [u8], i128>,
    /// The cells with indices that are not 0.
    pub cells: BTreeMap<Place<'a>, i128>,
    ghost no_zero: { (p : Place) → tree.get place_cmp cells p ≢ Some (pos 0) },
    ghost no_variable: { (p : Place) → p.indices ≡ [] → tree.get place_cmp cells p ≡ None },
}

impl<'a> Scattered<'a> {
    /// The store in which every cell holds 0.
    pub fn new(alloc: Global) -> Scattered<'a>
        ensures { store_by result.variables.entries result.cells.entries ≡ empty_store }
    {
        Scattered {
            variables: BTreeMap::new(alloc),
            cells: BTreeMap::new(alloc),
        }
    }

    /// What the variable of the name holds.
    pub fn variable(&self, name: &'a [u8]) -> i128
        ensures { result ≡ read (store_by self.now.variables.entries self.now.cells.entries) (name.now, []) }
    {
        match self.variables.get(&name) {
            Some(value) => *value,
            None => 0,
        }
    }

    /// What a place with indices holds.
    pub fn cell(&self, place: &Place<'a>) -> i128
        requires { place.now.indices ≢ [] }
        ensures { result ≡ read (store_by self.now.variables.entries self.now.cells.entries) (cell_of place.now) }
    {
        match self.cells.get(place) {
            Some(value) => *value,
            None => 0,
        }
    }

    /// Lets a place with indices hold a value.
    pub fn set_cell(&mut self, place: Place<'a>, value: i128) -> Result<(), NoMemory>
        requires { place.indices ≢ [] }
        ensures { OnOk result (store_by self.new.variables.entries self.new.cells.entries ≡ write (store_by self.old.variables.entries self.old.cells.entries) (cell_of place.entry) value) }
    {
        if value == 0 {
            self.cells.remove(&place);
        } else {
            self.cells.insert(place, value)?;
        }
        Ok(())
    }

    /// Lets the variable of the name hold a value.
    pub fn set_variable(&mut self, name: &'a [u8], value: i128) -> Result<(), NoMemory>
        ensures { OnOk result (store_by self.new.variables.entries self.new.cells.entries ≡ write (store_by self.old.variables.entries self.old.cells.entries) (name.now, []) value) }
    {
        self.variables.insert(name, value)?;
        Ok(())
    }

    /// The cells that are not 0, in order.
    pub fn into_cells(self, alloc: Global) -> Result<Items<Cell>, NoMemory>
        ensures { IfOk result (λ cells. AreCells (store_by self.entry.variables.entries self.entry.cells.entries) cells) }
    {
        let Scattered {
            mut variables,
            mut cells,
        } = self;
        while let Some((name, value)) = variables.pop_last() {
            let place = Place {
                name,
                indices: Items::new(alloc),
            };
            put(&mut cells, place, value)?;
        }
        listed(alloc, cells)
    }
}

/// Lets the place hold a value; 0 takes its entry away.
pub fn put<'a>(
    cells: &mut BTreeMap<Place<'a>, i128>,
    place: Place<'a>,
    value: i128,
) -> Result<(), NoMemory>
    requires { (p : Place) → tree.get place_cmp cells.old p ≢ Some (pos 0) }
    ensures stored { OnOk result (store_of cells.new.entries ≡ write (store_of cells.old.entries) (cell_of place.entry) value) }
    ensures no_zero { OnOk result ((p : Place) → tree.get place_cmp cells.new p ≢ Some (pos 0)) }
{
    if value == 0 {
        cells.remove(&place);
    } else {
        cells.insert(place, value)?;
    }
    Ok(())
}

/// The cells of the entries, in order.
pub fn listed<'a>(alloc: Global, cells: BTreeMap<Place<'a>, i128>) -> Result<Items<Cell>, NoMemory>
    requires { (p : Place) → tree.get place_cmp cells p ≢ Some (pos 0) }
    ensures { IfOk result (λ all. AreCells (store_of cells.entry.entries) all) }
{
    let mut all = Items::new(alloc);
    for (place, value) in cells {
        let Place { name, indices } = place;
        let name = Items::from_slice(alloc, name)?;
        all.push(Cell {
            name,
            indices,
            value,
        })?;
    }
    Ok(all)
}
