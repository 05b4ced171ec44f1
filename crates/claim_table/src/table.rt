//! The table and its chairs, which are all made with it.
//! Chairs are numbered in order from 0, so no two have one number; `AreNew` of `specs/Chairs.antt` says so.

ghost use Rattle.std.specs.Prelude.{◌≡◌, ◌<◌, ◌≤◌, IfOk};
ghost use Rattle.claim_table.specs.Views.{first_view, after_split, new_view};
ghost use Rattle.claim_table.specs.Chairs.{slot_count, AreNew, AreAll};

use crate::chair::Chair;
use crate::no_memory::NoMemory;
use crate::rule::{ClaimRule, OneMore};
use crate::view::View;
use atomic_table::Table;
use std::alloc::Global;
use std::marker::Model;

/// A table of slots. Contracts see which table it is; `slot_count` is the number of its slots.
#[derive(Drop)]
pub struct ClaimTable {
    /// Word 0 is the count of the published slots, and word i + 1 is slot i.
    pub(crate) table: Table<(), View, u32, ClaimRule, Global>,
}

impl Model for ClaimTable {
    ghost use Rattle.atomic_table.specs.Seated.{TableId};
    ghost use Rattle.claim_table.specs.Chairs.{HasSlots};

    ghost Value = { TableId };

    ghost view = { λ t. t.table.shared.table_id };

    ghost invariant = { λ t. HasSlots t.table.shared.key t.table.shared.table_id };
}

impl ClaimTable {
    /// A table of 1 to 524,288 slots, all free and none published (`laws::starts_free`), and its 1 to 65 chairs,
    /// numbered from 0, which know nothing yet. No chair is made later.
    /// `Err` comes only where memory runs out.
    pub fn new(alloc: Global, slots: u32, seats: u32) -> Result<(ClaimTable, Vec<Chair>), NoMemory>
        requires slots { (1 ≤ slots) × (slots ≤ 524288) }
        requires seats { (1 ≤ seats) × (seats ≤ 65) }
        ensures slots { IfOk result (λ made. slot_count made.0 ≡ slots) }
        ensures chairs { IfOk result (λ made. AreNew made.0 0 seats made.1.items) }
        ensures all { IfOk result (λ made. AreAll seats made.1.items) }
    {
        let (table, first) = ClaimTable::with_one_chair(alloc, slots)?;
        let chairs = table.all_chairs(alloc, first, seats)?;
        Ok((table, chairs))
    }

    /// The table with chair 0 alone.
    fn with_one_chair(alloc: Global, slots: u32) -> Result<(ClaimTable, Chair), NoMemory>
        requires { slots ≤ 524288 }
        ensures slots { IfOk result (λ made. slot_count made.0 ≡ slots) }
        ensures table { IfOk result (λ made. made.1.table ≡ made.0) }
        ensures first { IfOk result (λ made. made.1.view ≡ first_view slots) }
    {
        let words = vec![in alloc; 0u64; slots as usize + 1]?;
        let (table, seat) = Table::of_words(alloc, &words, &slots)?;
        Ok((ClaimTable { table }, Chair { number: 0, seat }))
    }

    /// The chairs, of which the first was made with the table.
    fn all_chairs(
        &self,
        alloc: Global,
        mut first: Chair,
        seats: u32,
    ) -> Result<Vec<Chair>, NoMemory>
        requires seats { (1 ≤ seats) × (seats ≤ 65) }
        requires table { first.table ≡ self.now }
        requires first { first.view ≡ first_view (slot_count self.now) }
        ensures chairs { IfOk result (λ chairs. AreNew self.now 0 seats chairs.items) }
        ensures all { IfOk result (λ chairs. AreAll seats chairs.items) }
    {
        let mut chairs = Vec::new(alloc);
        for number in 1..seats {
            chairs.push(self.split(&mut first, number))?;
        }
        chairs.insert(0, first)?;
        Ok(chairs)
    }

    /// One more chair. Its number is how many there were, which chair 0 knows.
    fn split(&self, first: &mut Chair, number: u32) -> Chair
        requires number { number < 65 }
        requires table { first.old.table ≡ self.now }
        requires first { first.old.view.number ≡ 0 }
        requires made { first.old.view.made ≡ number }
        ensures table { (first.new.table ≡ self.now) × (result.table ≡ self.now) }
        ensures first { first.new.view ≡ after_split first.old.view }
        ensures chair { result.view ≡ new_view first.old.view }
    {
        let seat = self.table.shared.split_seat::<OneMore>(&mut first.seat);
        Chair { number, seat }
    }
}
