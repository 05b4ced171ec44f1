//! Exchanged store terms: what one exchange of a run with a run or a write makes of a store term.
//! `specs/Universe.antt` has a definition of each kind of exchange.

ghost use Rattle.std.specs.Prelude.{◌≡◌, [], ◌∷◌, IfOk, OnOk};
ghost use Rattle.std.specs.List.{flat_map};
ghost use Rattle.rule_terms.specs.Term.{put, run};
ghost use Rattle.rule_terms.specs.Order.{store_same};
ghost use Rattle.rule_terms.specs.Added.{added_all};
ghost use Rattle.term_universe.specs.Universe.{commuted, run_first, write_first, exchanged};

use crate::gather::add_store;
use rule_terms::{Place, StoreNode, StoreTerm, ValueTerm, commute, ignores};
use sqlite_items::Items;
use std::alloc::Global;
use toy_imp::{Condition, NoMemory};

// A run from a copy of a store.
fn run_from(alloc: Global, k: u32, s: &StoreTerm) -> Result<StoreTerm, NoMemory>
    ensures { IfOk result (λ t. t ≡ run k s.now) }
{
    let s = s.copy(alloc)?;
    StoreTerm::run(alloc, k, s)
}

// A write into a store, with copies of its place and value.
fn put_into(alloc: Global, s: StoreTerm, p: &Place, v: &ValueTerm) -> Result<StoreTerm, NoMemory>
    ensures { IfOk result (λ t. t ≡ put s p.now.name p.now.indices v.now) }
{
    let p = p.copy(alloc)?;
    let v = v.copy(alloc)?;
    StoreTerm::put(alloc, s, p, v)
}

// Adds two store terms, each if it is not there.
#[tactic(auto, unfolding(rule_terms::specs::Added::added_all))]
fn add_two(
    stores: &mut Items<StoreTerm>,
    first: StoreTerm,
    second: StoreTerm,
) -> Result<(), NoMemory>
    ensures { OnOk result (stores.new ≡ added_all store_same stores.old (first ∷ second ∷ [])) }
{
    add_store(stores, first)?;
    add_store(stores, second)
}

/// Of a run behind a run that commutes with it: the two in the other order.
#[tactic(auto, unfolding(crate::specs::Universe::commuted, rule_terms::specs::Added::added_all))]
pub fn add_commuted(
    alloc: Global,
    conditions: &[Condition],
    term: &StoreTerm,
    stores: &mut Items<StoreTerm>,
) -> Result<(), NoMemory>
    ensures { OnOk result (stores.new ≡ added_all store_same stores.old (commuted conditions.now term.now)) }
{
    let StoreNode::Run(t, inner) = &term.node else {
        return Ok(());
    };
    let StoreNode::Run(s, u) = &inner.get().node else {
        return Ok(());
    };
    if !commute(conditions, *s, *t) {
        return Ok(());
    }
    let first = run_from(alloc, *t, u.get())?;
    let second = run_from(alloc, *s, &first)?;
    add_two(stores, first, second)
}

/// Of a run behind a write that it ignores: the run before the write.
#[tactic(auto, unfolding(crate::specs::Universe::run_first, rule_terms::specs::Added::added_all))]
pub fn add_run_first(
    alloc: Global,
    conditions: &[Condition],
    term: &StoreTerm,
    stores: &mut Items<StoreTerm>,
) -> Result<(), NoMemory>
    ensures { OnOk result (stores.new ≡ added_all store_same stores.old (run_first conditions.now term.now)) }
{
    let StoreNode::Run(k, inner) = &term.node else {
        return Ok(());
    };
    let StoreNode::Put(s, p, v) = &inner.get().node else {
        return Ok(());
    };
    if !ignores(conditions, *k, p.name) {
        return Ok(());
    }
    let first = run_from(alloc, *k, s.get())?;
    let copied = first.copy(alloc)?;
    let second = put_into(alloc, copied, p, v.get())?;
    add_two(stores, first, second)
}

/// Of a write behind a run that ignores it: the write before the run.
#[tactic(auto, unfolding(crate::specs::Universe::write_first, rule_terms::specs::Added::added_all))]
pub fn add_write_first(
    alloc: Global,
    conditions: &[Condition],
    term: &StoreTerm,
    stores: &mut Items<StoreTerm>,
) -> Result<(), NoMemory>
    ensures { OnOk result (stores.new ≡ added_all store_same stores.old (write_first conditions.now term.now)) }
{
    let StoreNode::Put(inner, p, v) = &term.node else {
        return Ok(());
    };
    let StoreNode::Run(k, s) = &inner.get().node else {
        return Ok(());
    };
    if !ignores(conditions, *k, p.name) {
        return Ok(());
    }
    let copied = s.get().copy(alloc)?;
    let first = put_into(alloc, copied, p, v.get())?;
    let second = run_from(alloc, *k, &first)?;
    add_two(stores, first, second)
}

/// All exchanges of a store term.
#[tactic(auto, using(crate::proofs::Exchanges::three_added))]
pub fn add_exchanged(
    alloc: Global,
    conditions: &[Condition],
    term: &StoreTerm,
    stores: &mut Items<StoreTerm>,
) -> Result<(), NoMemory>
    ensures { OnOk result (stores.new ≡ added_all store_same stores.old (exchanged conditions.now term.now)) }
{
    add_commuted(alloc, conditions, term, stores)?;
    add_run_first(alloc, conditions, term, stores)?;
    add_write_first(alloc, conditions, term, stores)
}

/// All exchanges of each of the store terms.
#[tactic(auto, unfolding(rule_terms::specs::Added::added_all))]
pub fn add_all_exchanged(
    alloc: Global,
    conditions: &[Condition],
    terms: &[StoreTerm],
    stores: &mut Items<StoreTerm>,
) -> Result<(), NoMemory>
    ensures { OnOk result (stores.new ≡ added_all store_same stores.old (flat_map (exchanged conditions.now) terms.now)) }
{
    for term in terms {
        add_exchanged(alloc, conditions, term, stores)?;
    }
    Ok(())
}
