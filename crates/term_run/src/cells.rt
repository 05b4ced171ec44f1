//! Stores as lists of cells: they are read, copied and compared.
//! `specs/Cells.antt` says which store a list makes.

ghost use Rattle.std.specs.Prelude.{◌≡◌, cond, IfOk};
ghost use Rattle.std.specs.Ordering.{eq_by_cmp};
ghost use Rattle.toy_imp.specs.Cell.{cell_cmp};
ghost use Rattle.toy_imp.specs.Store.{read};
ghost use Rattle.term_meaning.specs.SameStore.{same_store};
ghost use Rattle.term_run.specs.Cells.{cell_of, store_by, agrees_at, agree_on};

use sqlite_items::Items;
use std::alloc::Global;
use toy_imp::NoMemory;
use toy_run::Cell;

/// What the cell of this name and these indices holds.
pub fn read(cells: &[Cell], name: &[u8], indices: &[i128]) -> i128
    ensures { result ≡ read (store_by cells.now) (name.now, indices.now) }
{
    let mut value = 0;
    for cell in cells {
        value = newer(name, indices, cell, value);
    }
    value
}

// What the cell of this name and these indices holds after a write, where it held `value`.
fn newer(name: &[u8], indices: &[i128], write: &Cell, value: i128) -> i128
    ensures { result ≡ cond (eq_by_cmp cell_cmp (name.now, indices.now) (cell_of write.now)) write.now.value value }
{
    if is_at(name, indices, write) {
        write.value
    } else {
        value
    }
}

// Whether the cell is the one of this name and these indices.
fn is_at(name: &[u8], indices: &[i128], cell: &Cell) -> bool
    ensures { result ≡ eq_by_cmp cell_cmp (name.now, indices.now) (cell_of cell.now) }
{
    let names = name.cmp(cell.name.as_slice());
    let indices = indices.cmp(cell.indices.as_slice());
    names.then(indices).is_eq()
}

/// Equal cells, in the same order.
pub fn copy_cells(alloc: Global, cells: &[Cell]) -> Result<Items<Cell>, NoMemory>
    ensures { IfOk result (λ all. all ≡ cells.now) }
{
    let mut all = Items::new(alloc);
    for cell in cells {
        let copied = copy_cell(alloc, cell)?;
        all.push(copied)?;
    }
    Ok(all)
}

fn copy_cell(alloc: Global, cell: &Cell) -> Result<Cell, NoMemory>
    ensures { IfOk result (λ c. c ≡ cell.now) }
{
    let name = Items::from_slice(alloc, cell.name.as_slice())?;
    let indices = Items::from_slice(alloc, cell.indices.as_slice())?;
    Ok(Cell {
        name,
        indices,
        value: cell.value,
    })
}

/// Whether two lists make the same store.
pub fn same_store(a: &[Cell], b: &[Cell]) -> bool
    ensures { result ≡ same_store (store_by a.now) (store_by b.now) }
{
    let on_a = agree_on(a, b, a);
    let on_b = agree_on(a, b, b);
    on_a && on_b
}

// Whether the two stores hold the same in each of the cells.
fn agree_on(a: &[Cell], b: &[Cell], cells: &[Cell]) -> bool
    ensures { result ≡ agree_on a.now b.now cells.now }
{
    cells.iter().all(|c| agrees_at(a, b, c))
}

fn agrees_at(a: &[Cell], b: &[Cell], c: &Cell) -> bool
    ensures { result ≡ agrees_at a.now b.now c.now }
{
    let in_a = read(a, c.name.as_slice(), c.indices.as_slice());
    let in_b = read(b, c.name.as_slice(), c.indices.as_slice());
    in_a == in_b
}
