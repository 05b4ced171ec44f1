//! Lists of what occurs in an obligation, and lists to which terms are added that they do not hold yet.
//! `rule_terms` says in `specs/Added.antt` what is added, and in `specs/Parts.antt` what occurs.

ghost use Rattle.std.specs.Prelude.{◌≡◌, [], ◌∷◌, ◌++◌, map, IfOk, OnOk};
ghost use Rattle.std.specs.List.{list_any};
ghost use Rattle.rule_terms.specs.Parts.{obligation_parts, store_in, value_in, stores_among, values_among};
ghost use Rattle.rule_terms.specs.Order.{store_same, value_same};
ghost use Rattle.rule_terms.specs.Added.{added, added_all};
ghost use Rattle.term_universe.specs.Universe.{ListsOnce};
ghost use Rattle.term_universe.specs.Walked.{part_of};

use crate::part::{Part, compare_parts};
use crate::walk::put_obligation;
use rule_terms::{Obligation, StoreTerm, ValueTerm};
use sqlite_items::Items;
use std::alloc::Global;
use std::cmp::Ordering;
use toy_imp::NoMemory;

/// What occurs in an obligation, each part once and in increasing order. The parts that a walk meets are sorted,
/// so that equal ones stand together.
pub fn different_parts<'a>(alloc: Global, ob: &'a Obligation) -> Result<Vec<Part<'a>>, NoMemory>
    ensures { IfOk result (λ parts. ListsOnce (map part_of parts.items) (obligation_parts ob.now)) }
{
    let mut parts = Vec::new(alloc);
    put_obligation(ob, &mut parts)?;
    parts.sort_unstable_by(|p, q| compare_parts(*p, *q));
    parts.dedup_by(|p, q| compare_parts(*p, *q) == Ordering::Equal);
    Ok(parts)
}

// Puts a copy of a store term at the end, where the part is one.
#[tactic(auto, using(crate::proofs::Gathering::nothing_more))]
fn push_store(alloc: Global, stores: &mut Items<StoreTerm>, part: &Part<'_>) -> Result<(), NoMemory>
    ensures { OnOk result (stores.new ≡ stores.old ++ store_in (part_of part.now)) }
{
    match part {
        Part::Store(s) => {
            let s = s.copy(alloc)?;
            stores.push(s)?;
            Ok(())
        }
        Part::Value(_) => Ok(()),
        Part::Place(_) => Ok(()),
        Part::Expr(_) => Ok(()),
        Part::Test(_) => Ok(()),
    }
}

/// Copies of the store terms among parts, in the same order.
pub fn stores_among(alloc: Global, parts: &[Part<'_>]) -> Result<Items<StoreTerm>, NoMemory>
    ensures { IfOk result (λ ss. ss ≡ stores_among (map part_of parts.now)) }
{
    let mut stores = Items::new(alloc);
    for part in parts {
        push_store(alloc, &mut stores, part)?;
    }
    Ok(stores)
}

// Puts a copy of a value term at the end, where the part is one.
#[tactic(auto, using(crate::proofs::Gathering::nothing_more))]
fn push_value(alloc: Global, values: &mut Items<ValueTerm>, part: &Part<'_>) -> Result<(), NoMemory>
    ensures { OnOk result (values.new ≡ values.old ++ value_in (part_of part.now)) }
{
    match part {
        Part::Value(v) => {
            let v = v.copy(alloc)?;
            values.push(v)?;
            Ok(())
        }
        Part::Store(_) => Ok(()),
        Part::Place(_) => Ok(()),
        Part::Expr(_) => Ok(()),
        Part::Test(_) => Ok(()),
    }
}

/// Copies of the value terms among parts, in the same order.
pub fn values_among(alloc: Global, parts: &[Part<'_>]) -> Result<Items<ValueTerm>, NoMemory>
    ensures { IfOk result (λ vs. vs ≡ values_among (map part_of parts.now)) }
{
    let mut values = Items::new(alloc);
    for part in parts {
        push_value(alloc, &mut values, part)?;
    }
    Ok(values)
}

/// Whether a store term is in the list.
pub fn has_store(stores: &[StoreTerm], s: &StoreTerm) -> bool
    ensures { result ≡ list_any (store_same s.now) stores.now }
{
    for t in stores {
        if s.same(t) {
            return true;
        }
    }
    false
}

/// Whether a value term is in the list.
pub fn has_value(values: &[ValueTerm], v: &ValueTerm) -> bool
    ensures { result ≡ list_any (value_same v.now) values.now }
{
    for w in values {
        if v.same(w) {
            return true;
        }
    }
    false
}

/// Adds a store term to the list, if it is not there.
pub fn add_store(stores: &mut Items<StoreTerm>, s: StoreTerm) -> Result<(), NoMemory>
    ensures { OnOk result (stores.new ≡ added store_same stores.old s) }
{
    if has_store(stores.as_slice(), &s) {
        return Ok(());
    }
    stores.push(s)?;
    Ok(())
}

/// Adds a value term to the list, if it is not there.
pub fn add_value(values: &mut Items<ValueTerm>, v: ValueTerm) -> Result<(), NoMemory>
    ensures { OnOk result (values.new ≡ added value_same values.old v) }
{
    if has_value(values.as_slice(), &v) {
        return Ok(());
    }
    values.push(v)?;
    Ok(())
}

/// Adds copies of store terms to the list, each if it is not there.
#[tactic(auto, unfolding(rule_terms::specs::Added::added_all))]
pub fn add_stores(
    alloc: Global,
    stores: &mut Items<StoreTerm>,
    more: &[StoreTerm],
) -> Result<(), NoMemory>
    ensures { OnOk result (stores.new ≡ added_all store_same stores.old more.now) }
{
    for s in more {
        let s = s.copy(alloc)?;
        add_store(stores, s)?;
    }
    Ok(())
}

/// Adds copies of value terms to the list, each if it is not there.
#[tactic(auto, unfolding(rule_terms::specs::Added::added_all))]
pub fn add_values(
    alloc: Global,
    values: &mut Items<ValueTerm>,
    more: &[ValueTerm],
) -> Result<(), NoMemory>
    ensures { OnOk result (values.new ≡ added_all value_same values.old more.now) }
{
    for v in more {
        let v = v.copy(alloc)?;
        add_value(values, v)?;
    }
    Ok(())
}
