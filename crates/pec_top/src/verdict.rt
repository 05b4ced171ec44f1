//! The verdict on each rule of an input, in order. `specs/Verdict.antt` says what it is.

ghost use Rattle.std.specs.Prelude.{◌≡◌, ◌++◌, IfOk, OnOk};
ghost use Rattle.pec_top.specs.Verdict.{item_verdicts, verdicts};

use crate::content::Item;
use crate::no_memory::NoMemory;
use crate::skip_form::sides_agree;
use sqlite_items::Items;
use std::alloc::Global;

/// Whether a rule is proved, by its title.
#[derive(Drop)]
pub struct Verdict {
    pub title: Items<u8>,
    pub is_proved: bool,
}

/// The verdicts on the rules among the items, in order.
pub fn verdicts(alloc: Global, items: &[Item]) -> Result<Items<Verdict>, NoMemory>
    ensures { IfOk result (λ all. all ≡ verdicts items.now) }
{
    let mut all = Items::new(alloc);
    for item in items {
        push_verdict(alloc, item, &mut all)?;
    }
    Ok(all)
}

/// Adds the verdict on an item that is a rule.
fn push_verdict(alloc: Global, item: &Item, all: &mut Items<Verdict>) -> Result<(), NoMemory>
    ensures { OnOk result (all.new ≡ all.old ++ item_verdicts item.now) }
{
    match item {
        Item::Rule(rule) => {
            let title = Items::from_slice(alloc, rule.title.as_slice())?;
            let is_proved = sides_agree(alloc, rule)?;
            all.push(Verdict { title, is_proved })?;
            Ok(())
        }
        Item::Program(_) | Item::Certificate(_) => Ok(()),
    }
}
