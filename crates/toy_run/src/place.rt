//! A cell of a store as a key: a name and indices.
//! Places are in the order in which a run lists its cells, by `specs/Place.antt`.

ghost use Rattle.std.specs.Prelude.{◌≡◌, Some, IfOk, length, refl};
ghost use Rattle.std.specs.Cmp;
ghost use Rattle.std.specs.Cmp.Rules.{comparing};
ghost use Rattle.std.specs.Cmp.Lexicographic.{slice_cmp};
ghost use Rattle.std.specs.Ordering.{eq_by_cmp, nat_cmp, int_cmp, ordering_then};
ghost use Rattle.std.proofs.Common.{rules};
ghost use Rattle.std.proofs.lemmas.Cmp.{eq_by_cmp_equiv};
ghost use Rattle.std.specs.Cmp.{partial_order_from_agreeing_total};
ghost use Rattle.toy_run.specs.Cells.{key_of};
ghost use Rattle.toy_run.specs.Place.{cell_of, listed_cmp, place_cmp, place_total};

use crate::cell::Cell;
use sqlite_items::Items;
use std::alloc::Global;
use std::cmp::Ordering;
use toy_imp::NoMemory;

/// A name's bytes, which the program holds, and indices.
#[derive(Drop)]
pub struct Place<'a> {
    pub name: &'a [u8],
    pub indices: Items<i128>,
}

impl<'a> PartialEq for Place<'a> {
    ghost eq = { λ x y. eq_by_cmp place_cmp x y };

    ghost laws = { Cmp.partial_equiv_from_equiv (eq_by_cmp_equiv place_total) };

    fn eq(&self, other: &Place<'a>) -> bool {
        self.cmp(other).is_eq()
    }
}

impl<'a> Eq for Place<'a> {
    ghost laws = { eq_by_cmp_equiv place_total };
}

impl<'a> PartialOrd for Place<'a> {
    ghost partial_cmp = { λ x y. Some (place_cmp x y) };

    ghost laws = { partial_order_from_agreeing_total place_cmp place_total (λ x y. refl) (λ x y. refl) };

    fn partial_cmp(&self, other: &Place<'a>) -> Option<Ordering> {
        Some(self.cmp(other))
    }
}

impl<'a> Ord for Place<'a> {
    ghost cmp = { place_cmp };

    ghost total = { place_total };

    ghost matches_partial_cmp = { λ x y. refl };

    ghost matches_eq = { λ x y. refl };

    fn cmp(&self, other: &Place<'a>) -> Ordering {
        match self.name.cmp(other.name) {
            Ordering::Equal => compare_indices(self.indices.as_slice(), other.indices.as_slice()),
            unequal => unequal,
        }
    }
}

/// How a cell compares to a place.
pub fn compare(cell: &Cell, place: &Place) -> Ordering
    ensures { result ≡ listed_cmp (key_of cell.now) (cell_of place.now) }
{
    match cell.name.as_slice().cmp(place.name) {
        Ordering::Equal => compare_indices(cell.indices.as_slice(), place.indices.as_slice()),
        unequal => unequal,
    }
}

/// A cell at a place, with what it holds.
pub fn placed(alloc: Global, place: Place, value: i128) -> Result<Cell, NoMemory>
    ensures { IfOk result (λ c. (key_of c ≡ cell_of place.entry) × (c.value ≡ value)) }
{
    let Place { name, indices } = place;
    let name = Items::from_slice(alloc, name)?;
    Ok(Cell {
        name,
        indices,
        value,
    })
}

// By the number of the indices, then by the indices.
fn compare_indices(a: &[i128], b: &[i128]) -> Ordering
    ensures { result ≡ ordering_then (nat_cmp (length a.now) (length b.now)) (slice_cmp int_cmp a.now b.now) }
{
    match a.len().cmp(&b.len()) {
        Ordering::Equal => a.cmp(b),
        unequal => unequal,
    }
}
