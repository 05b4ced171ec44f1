//! Three slots and two chairs, call by call. The answers are known beforehand.

ghost use Rattle.std.specs.Prelude.{◌≡◌};
ghost use Rattle.claim_table.specs.Chairs.{slot_count};
ghost use Rattle.claim_table.specs.Views.{Holds};

use claim_table::{Chair, ClaimTable};
use std::process::Abort;
use std::test::Fail;

/// Takes a slot, which has to be there.
fn taken(rt: &impl Abort, table: &ClaimTable, chair: &mut Chair) -> u32
    requires table { chair.old.table ≡ table.now }
    ensures table { chair.new.table ≡ table.now }
    ensures held { Holds chair.new.view result }
{
    table.take(chair).expect(rt, "a slot is free")
}

/// The row: what each call answers.
fn two_chairs(rt: &impl Abort, table: &ClaimTable, first: &mut Chair, second: &mut Chair)
    requires first { first.old.table ≡ table.now }
    requires second { second.old.table ≡ table.now }
    requires slots { slot_count table.now ≡ 3 }
{
    assert_eq!(rt; table.take(first), None, "none is published");
    assert_eq!(rt; table.publish(second, 3), 0);
    let zero = taken(rt, table, first);
    let one = taken(rt, table, second);
    assert_eq!(rt; (zero, one), (0, 1));
    table.finish(first, zero);
    assert_eq!(rt; taken(rt, table, first), 2, "0 is done, and 1 is held");
    assert_eq!(rt; table.take(first), None);
    let None = table.take(second) else {
        panic!(rt; "no slot is free");
    };
    table.free(second, one);
    assert_eq!(rt; table.take(first), Some(1), "1 is free again");
    assert_eq!(rt; table.publish(first, 1), 3, "the count was greater");
    assert_eq!(rt; table.publish(first, 2), 3, "and has stayed");
}

#[test]
fn three_slots_and_two_chairs(rt: HostRuntime) -> Result<(), Fail> {
    let (table, mut chairs) = ClaimTable::new(rt.alloc(), 3, 2)?;
    let mut second = chairs.pop().expect(&rt, "chair 1");
    let mut first = chairs.pop().expect(&rt, "chair 0");
    assert!(rt; chairs.is_empty());
    two_chairs(&rt, &table, &mut first, &mut second);
    Ok(())
}

#[test]
fn the_most_slots_and_chairs(rt: HostRuntime) -> Result<(), Fail> {
    let (table, mut chairs) = ClaimTable::new(rt.alloc(), 524_288, 65)?;
    assert_eq!(rt; chairs.len(), 65);
    let mut last = chairs.pop().expect(&rt, "chair 64");
    assert_eq!(rt; table.publish(&mut last, 524_288), 0);
    let slot = taken(&rt, &table, &mut last);
    assert_eq!(rt; slot, 0);
    table.finish(&mut last, slot);
    Ok(())
}
