//! Tables of runs: what a table says of a run.
//! The definition of tables in the crate below says what that is.

ghost use Rattle.std.specs.Prelude.{◌≡◌, ◌&&◌, ◌==◌, Some, IfOk, option_map};
ghost use Rattle.term_meaning.specs.SameStore.{same_store};
ghost use Rattle.term_meaning.specs.Table.{look, told, after};
ghost use Rattle.term_run.specs.Cells.{store_by};
ghost use Rattle.term_run.specs.Meant.{meant, table_of};

use crate::cells::{copy_cells, same_store};
use crate::meant::{Meant, Run};
use sqlite_items::Items;
use std::alloc::Global;
use toy_imp::NoMemory;
use toy_run::Cell;

/// The store after the run of a statement parameter from what is before it.
pub fn run_from(alloc: Global, table: &[Run], k: u32, before: Meant) -> Result<Meant, NoMemory>
    ensures { IfOk result (λ m. meant m ≡ option_map (after (table_of table.now) k) (meant before)) }
{
    match before {
        Meant::Store(cells) => look(alloc, table, k, cells.as_slice()),
        Meant::Nothing => Ok(Meant::Nothing),
        Meant::Wide => Ok(Meant::Wide),
    }
}

// What the table says of the run from a store: the last entry for it counts.
fn look(alloc: Global, table: &[Run], k: u32, cells: &[Cell]) -> Result<Meant, NoMemory>
    ensures { IfOk result (λ m. meant m ≡ Some (told (look (table_of table.now) k (store_by cells.now)))) }
{
    let mut i = table.len();
    while i > 0 {
        i -= 1;
        let run = &table[i];
        if is_of(run, k, cells) {
            return ended(alloc, &run.to);
        }
    }
    let unsaid = Meant::Nothing;
    Ok(unsaid)
}

// Whether the entry is of the run of this statement parameter from this store.
fn is_of(run: &Run, k: u32, cells: &[Cell]) -> bool
    ensures { result ≡ (run.now.statement == k && same_store (store_by run.now.from) (store_by cells.now)) }
{
    let same = same_store(run.from.as_slice(), cells);
    run.statement == k && same
}

fn ended(alloc: Global, to: &Option<Items<Cell>>) -> Result<Meant, NoMemory>
    ensures { IfOk result (λ m. meant m ≡ Some (option_map store_by to.now)) }
{
    match to {
        Some(cells) => {
            let cells = copy_cells(alloc, cells.as_slice())?;
            Ok(Meant::Store(cells))
        }
        None => Ok(Meant::Nothing),
    }
}
