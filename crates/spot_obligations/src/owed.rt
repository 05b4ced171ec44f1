//! What a pair of paths owes where they stop. `specs/Owed.antt` says what it is.

ghost use Rattle.std.specs.Prelude.{◌≡◌, find, IfOk, slice_get};
ghost use Rattle.spot_obligations.specs.Owed as spec;
ghost use Rattle.spot_obligations.specs.Owed.{stands_at, owed_of};

use crate::entry::Entry;
use crate::quiet::is_quiet;
use rule_terms::{Conjunct, Stop, falsehood, sides_equal};
use std::alloc::Global;
use toy_imp::{Condition, NoMemory};

/// What a pair of paths owes where they stop.
#[derive(Clone, Copy)]
pub enum Owed<'a> {
    /// Each of these conjuncts, by its number.
    Each(&'a [Conjunct]),
    /// `L = R`, without a number.
    EqualStores,
    /// What is never true, without a number.
    Falsehood,
    Nothing,
}

fn stands_at(e: &Entry, p: u32, q: u32) -> bool
    ensures { result ≡ stands_at p q e.now }
{
    e.left == p && e.right == q
}

// What paths owe that stop at these points.
fn arrival<'a>(entries: &'a [Entry], p: u32, q: u32) -> Owed<'a>
    ensures { owed_of result ≡ spec.arrival (find (stands_at p q) entries.now) }
{
    for e in entries {
        if stands_at(e, p, q) {
            return Owed::Each(e.conjuncts.as_slice());
        }
    }
    // No entry stands there.
    Owed::Falsehood
}

/// What two paths owe that stop so, under these conditions and entries.
#[tactic(auto, unfolding(crate::specs::Owed::owed))]
pub fn paths_owe<'a>(
    conditions: &[Condition],
    entries: &'a [Entry],
    left: Stop,
    right: Stop,
) -> Owed<'a>
    ensures { owed_of result ≡ spec.owed conditions.now entries.now left right }
{
    match (left, right) {
        (Stop::At(p), Stop::At(q)) => arrival(entries, p, q),
        (Stop::Halted, Stop::Halted) => Owed::EqualStores,
        (Stop::Stuck(j), Stop::Stuck(k)) => {
            if is_quiet(conditions, j) && is_quiet(conditions, k) {
                Owed::Nothing
            } else if j == k {
                Owed::EqualStores
            } else {
                Owed::Falsehood
            }
        }
        _ => Owed::Falsehood,
    }
}

// The conjunct of a number among these, copied.
fn copy_at(alloc: Global, conjuncts: &[Conjunct], number: u32) -> Result<Option<Conjunct>, NoMemory>
    ensures { IfOk result (λ c. c ≡ slice_get conjuncts.now number) }
{
    match conjuncts.get(number as usize) {
        Some(c) => {
            let copy = c.copy(alloc)?;
            Ok(Some(copy))
        }
        None => Ok(None),
    }
}

/// What is owed of this number, if it is, as a conjunct of one's own.
pub fn owed_at(
    alloc: Global,
    what: Owed<'_>,
    number: Option<u32>,
) -> Result<Option<Conjunct>, NoMemory>
    ensures { IfOk result (λ c. c ≡ spec.owed_at (owed_of what.entry) number) }
{
    match (what, number) {
        (Owed::Each(conjuncts), Some(n)) => copy_at(alloc, conjuncts, n),
        (Owed::EqualStores, None) => Ok(Some(sides_equal(alloc))),
        (Owed::Falsehood, None) => Ok(Some(falsehood(alloc))),
        _ => Ok(None),
    }
}
