//! The distances at parts that are read one by one, in the order of the text.
//! `specs/Placed.antt` says which splits wait for their second branch; each part costs a push and at most one pop.

ghost use Rattle.std.specs.Prelude.{◌≡◌, ◌+◌, ◌<◌, ◌^◌, [], reverse, Some, IfOk};
ghost use Rattle.refutations.specs.Placed.{after_part, with_waiting, placed};

use crate::refutation::Part;
use sqlite_items::Items;
use std::alloc::Global;
use toy_imp::NoMemory;

// How far behind its split the part after the one of this number begins.
#[tactic(auto, using(crate::proofs::Placing::latest_first))]
fn after_part(waiting: &mut Items<usize>, n: usize, part: &Part) -> Result<Option<usize>, NoMemory>
    requires { n + 1 < 2 ^ 64 }
    ensures { IfOk result (λ next. with_waiting next (reverse waiting.new) ≡ after_part n part.now (reverse waiting.old)) }
{
    match part {
        Part::Split(_) => {
            waiting.push(n)?;
            Ok(Some(1))
        }
        Part::Leaf(_) => match waiting.pop() {
            Some(split) => Ok(Some((n + 1).saturating_sub(split))),
            None => Ok(None),
        },
    }
}

/// The distances at the parts of one refutation; none where they are not that.
#[tactic(auto, using(crate::proofs::Placing::nothing_behind, crate::proofs::Placing::none_wanted, crate::proofs::Placing::part_read, crate::proofs::Placing::all_read, crate::proofs::Placing::more_wanted))]
pub fn distances_of(alloc: Global, parts: &[Part]) -> Result<Option<Items<usize>>, NoMemory>
    ensures { IfOk result (λ o. o ≡ placed 0 (Some (0, [])) parts.now) }
{
    let mut back = Items::new(alloc);
    let mut waiting = Items::new(alloc);
    let mut next = Some(0);
    for (i, part) in parts.iter().enumerate() {
        let Some(far) = next else {
            return Ok(None);
        };
        back.push(far)?;
        next = after_part(&mut waiting, i, part)?;
    }
    match next {
        Some(_) => Ok(None),
        None => Ok(Some(back)),
    }
}
