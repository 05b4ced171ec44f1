//! 8 threads take, free and finish the slots of one table, and each slot is finished once.

ghost use Rattle.std.specs.Prelude.{◌≡◌, All};
ghost use Rattle.claim_table.specs.Chairs.{slot_count};

use claim_table::{Chair, ClaimTable};
use std::alloc::{AllocError, Global};
use std::test::Fail;
use std::thread;

/// How many slots there are.
const SLOTS: u32 = 10_000;

/// How many threads share them.
const THREADS: u32 = 8;

/// Takes slots until there is none, frees each fifth, finishes the others, and answers what it finished.
fn work(alloc: Global, table: &ClaimTable, mut chair: Chair) -> Result<Vec<u32>, AllocError>
    requires table { chair.table ≡ table.now }
    requires slots { slot_count table.now ≡ 10000 }
{
    let mut finished = Vec::with_capacity(alloc, SLOTS as usize)?;
    table.publish(&mut chair, SLOTS);
    for turn in 0..2 * SLOTS {
        let Some(slot) = table.take(&mut chair) else {
            break;
        };
        if turn % 5 == 4 {
            table.free(&mut chair, slot);
        } else {
            table.finish(&mut chair, slot);
            finished.push(slot)?;
        }
    }
    Ok(finished)
}

#[test]
fn each_slot_is_finished_once(rt: HostRuntime) -> Result<(), Fail> {
    let alloc = rt.alloc();
    let (table, chairs) = ClaimTable::new(alloc, SLOTS, THREADS)?;
    let shared = &table;
    let run = |chair: Chair| -> Result<Vec<u32>, AllocError>
        requires { (chair.table ≡ shared.now) × (slot_count shared.now ≡ 10000) }
    { work(alloc, shared, chair) };
    let lists = thread::map_vec(&rt, chairs, &run)?;
    let mut finished = vec![in alloc; 0u32; SLOTS as usize]?;
    for list in lists.iter() {
        let Ok(list) = list else {
            panic!(rt; "no memory for a list");
        };
        for slot in list.iter() {
            if let Some(times) = finished.get_mut(*slot as usize) {
                *times = times.saturating_add(1);
            }
        }
    }
    assert!(rt; finished.iter().all(|times| *times == 1));
    Ok(())
}
