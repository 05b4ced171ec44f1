//! The universe of an obligation: the terms that its laws speak of, each once.
//! `specs/Universe.antt` says which these are.

ghost use Rattle.std.specs.Prelude.{◌≡◌, ◌≢◌, ◌==◌, ◌&&◌, ◌↔◌, pos, [], ◌∷◌, ◌++◌, map, AllPairs, IfOk, OnOk, IsTrue};
ghost use Rattle.std.specs.List.{flat_map, list_any};
ghost use Rattle.rule_terms.specs.Term.{left_store, right_store, num};
ghost use Rattle.rule_terms.specs.Parts.{stores_among, values_among};
ghost use Rattle.rule_terms.specs.Order.{store_same, value_same, test_same};
ghost use Rattle.rule_terms.specs.Added.{added, added_all};
ghost use Rattle.term_universe.specs.NewReadings.{not_in, new_reading, new_readings};
ghost use Rattle.term_universe.specs.Universe.{exchanged, reading, test_of, IsUniverse};
ghost use Rattle.term_universe.specs.Walked.{part_of};

use crate::exchange::add_all_exchanged;
use crate::gather::{
    add_stores, add_values, different_parts, has_value, stores_among, values_among,
};
use crate::part::Part;
use rule_terms::{
    Obligation, StoreTerm, ValueTerm, copy_stores, copy_values, same_stores, same_values,
};
use sqlite_items::Items;
use std::alloc::Global;
use toy_imp::{Condition, NoMemory};

/// The terms of an obligation and those near them, each once.
#[derive(Drop)]
pub struct TermUniverse {
    pub stores: Items<StoreTerm>,
    pub values: Items<ValueTerm>,
    /// A test parameter and the store at which it is taken.
    pub tests: Items<(u32, StoreTerm)>,
}

// The stores of the two sides.
fn both_sides(alloc: Global) -> Result<Items<StoreTerm>, NoMemory>
    ensures { IfOk result (λ ss. ss ≡ left_store ∷ right_store ∷ []) }
{
    let mut stores = Items::new(alloc);
    stores.push(StoreTerm::left())?;
    stores.push(StoreTerm::right())?;
    Ok(stores)
}

// The numbers 0 and 1.
fn zero_and_one(alloc: Global) -> Result<Items<ValueTerm>, NoMemory>
    ensures { IfOk result (λ vs. vs ≡ num (pos 0) ∷ num (pos 1) ∷ []) }
{
    let mut values = Items::new(alloc);
    values.push(ValueTerm::num(0))?;
    values.push(ValueTerm::num(1))?;
    Ok(values)
}

// Adds store terms and all that exchanges make of them, each if it is not there.
fn add_near(
    alloc: Global,
    conditions: &[Condition],
    found: &[StoreTerm],
    stores: &mut Items<StoreTerm>,
) -> Result<(), NoMemory>
    ensures { OnOk result (stores.new ≡ added_all store_same stores.old (found.now ++ flat_map (exchanged conditions.now) found.now)) }
{
    add_stores(alloc, stores, found)?;
    add_all_exchanged(alloc, conditions, found, stores)?;
    Ok(())
}

// The store terms of a universe, from those that occur in the obligation.
fn all_stores(
    alloc: Global,
    conditions: &[Condition],
    found: &[StoreTerm],
) -> Result<Items<StoreTerm>, NoMemory>
    ensures { IfOk result (λ ss. ss ≡ added_all store_same (left_store ∷ right_store ∷ []) (found.now ++ flat_map (exchanged conditions.now) found.now)) }
{
    let mut stores = both_sides(alloc)?;
    add_near(alloc, conditions, found, &mut stores)?;
    Ok(stores)
}

// Puts a value term at the end, if the base does not hold it.
#[tactic(auto, unfolding(crate::specs::NewReadings::not_in))]
fn put_new(base: &[ValueTerm], v: ValueTerm, more: &mut Items<ValueTerm>) -> Result<(), NoMemory>
    ensures { OnOk result (more.new ≡ more.old ++ not_in value_same base.now (v ∷ [])) }
{
    if has_value(base, &v) {
        return Ok(());
    }
    more.push(v)?;
    Ok(())
}

// Puts what a part reads of a store at the end, if the base does not hold it.
#[tactic(auto, using(crate::proofs::Gathering::nothing_more), unfolding(crate::specs::NewReadings::not_in))]
fn put_reading(
    alloc: Global,
    base: &[ValueTerm],
    s: &StoreTerm,
    part: &Part<'_>,
    more: &mut Items<ValueTerm>,
) -> Result<(), NoMemory>
    ensures { OnOk result (more.new ≡ more.old ++ new_reading base.now s.now (part_of part.now)) }
{
    match part {
        Part::Place(p) => {
            let p = p.copy(alloc)?;
            let s = s.copy(alloc)?;
            let v = ValueTerm::get(alloc, p, s)?;
            put_new(base, v, more)
        }
        Part::Expr(k) => {
            let s = s.copy(alloc)?;
            let v = ValueTerm::ev(alloc, *k, s)?;
            put_new(base, v, more)
        }
        Part::Store(_) => Ok(()),
        Part::Value(_) => Ok(()),
        Part::Test(_) => Ok(()),
    }
}

// Puts what the parts read of a store at the end, where the base does not hold it.
fn put_readings(
    alloc: Global,
    base: &[ValueTerm],
    s: &StoreTerm,
    parts: &[Part<'_>],
    more: &mut Items<ValueTerm>,
) -> Result<(), NoMemory>
    ensures { OnOk result (more.new ≡ more.old ++ new_readings base.now (map part_of parts.now) s.now) }
{
    for part in parts {
        put_reading(alloc, base, s, part, more)?;
    }
    Ok(())
}

// What the parts read of each store and the base does not hold. Different parts read different terms of
// different stores, so only the base is looked through.
fn readings_beyond(
    alloc: Global,
    base: &[ValueTerm],
    stores: &[StoreTerm],
    parts: &[Part<'_>],
) -> Result<Items<ValueTerm>, NoMemory>
    ensures { IfOk result (λ more. more ≡ flat_map (new_readings base.now (map part_of parts.now)) stores.now) }
{
    let mut more = Items::new(alloc);
    for s in stores {
        put_readings(alloc, base, s, parts, &mut more)?;
    }
    Ok(more)
}

// The value terms of a universe, from its store terms and the different parts of the obligation.
fn all_values(
    alloc: Global,
    stores: &[StoreTerm],
    parts: &[Part<'_>],
) -> Result<Items<ValueTerm>, NoMemory>
    requires stores { AllPairs (λ a b. a ≢ b) stores.now }
    requires parts { AllPairs (λ a b. a ≢ b) (map part_of parts.now) }
    ensures { IfOk result (λ vs. vs ≡ added_all value_same (num (pos 0) ∷ num (pos 1) ∷ []) (values_among (map part_of parts.now) ++ flat_map (λ s. flat_map (reading s) (map part_of parts.now)) stores.now)) }
{
    let found = values_among(alloc, parts)?;
    let mut values = zero_and_one(alloc)?;
    add_values(alloc, &mut values, found.as_slice())?;
    let more = readings_beyond(alloc, values.as_slice(), stores, parts)?;
    values.append(more)?;
    Ok(values)
}

// Whether a test parameter at a store is in the list.
fn has_test(tests: &[(u32, StoreTerm)], k: u32, s: &StoreTerm) -> bool
    ensures { result ≡ list_any (test_same (k, s.now)) tests.now }
{
    for test in tests {
        if test.0 == k && s.same(&test.1) {
            return true;
        }
    }
    false
}

// Adds a test parameter at a store, if it is not there.
fn add_test(tests: &mut Items<(u32, StoreTerm)>, k: u32, s: StoreTerm) -> Result<(), NoMemory>
    ensures { OnOk result (tests.new ≡ added test_same tests.old (k, s)) }
{
    if has_test(tests.as_slice(), k, &s) {
        return Ok(());
    }
    tests.push((k, s))?;
    Ok(())
}

// Adds the test of a part at a store, if it is not there.
#[tactic(auto, unfolding(rule_terms::specs::Added::added_all))]
fn add_test_of(
    alloc: Global,
    s: &StoreTerm,
    part: &Part<'_>,
    tests: &mut Items<(u32, StoreTerm)>,
) -> Result<(), NoMemory>
    ensures { OnOk result (tests.new ≡ added_all test_same tests.old (test_of s.now (part_of part.now))) }
{
    match part {
        Part::Test(k) => {
            let s = s.copy(alloc)?;
            add_test(tests, *k, s)
        }
        Part::Store(_) => Ok(()),
        Part::Value(_) => Ok(()),
        Part::Place(_) => Ok(()),
        Part::Expr(_) => Ok(()),
    }
}

// Adds the tests of the parts at a store.
#[tactic(auto, unfolding(rule_terms::specs::Added::added_all))]
fn add_tests(
    alloc: Global,
    s: &StoreTerm,
    parts: &[Part<'_>],
    tests: &mut Items<(u32, StoreTerm)>,
) -> Result<(), NoMemory>
    ensures { OnOk result (tests.new ≡ added_all test_same tests.old (flat_map (test_of s.now) (map part_of parts.now))) }
{
    for part in parts {
        add_test_of(alloc, s, part, tests)?;
    }
    Ok(())
}

// The tests of a universe, from its store terms and the different parts of the obligation.
#[tactic(auto, unfolding(rule_terms::specs::Added::added_all))]
fn all_tests(
    alloc: Global,
    stores: &[StoreTerm],
    parts: &[Part<'_>],
) -> Result<Items<(u32, StoreTerm)>, NoMemory>
    ensures { IfOk result (λ ts. ts ≡ added_all test_same [] (flat_map (λ s. flat_map (test_of s) (map part_of parts.now)) stores.now)) }
{
    let mut tests = Items::new(alloc);
    for s in stores {
        add_tests(alloc, s, parts, &mut tests)?;
    }
    Ok(tests)
}

// The universe of an obligation, from its different parts.
fn universe_of(
    alloc: Global,
    conditions: &[Condition],
    parts: &[Part<'_>],
) -> Result<TermUniverse, NoMemory>
    requires { AllPairs (λ a b. a ≢ b) (map part_of parts.now) }
    ensures stores { IfOk result (λ u. u.stores ≡ added_all store_same (left_store ∷ right_store ∷ []) (stores_among (map part_of parts.now) ++ flat_map (exchanged conditions.now) (stores_among (map part_of parts.now)))) }
    ensures values { IfOk result (λ u. u.values ≡ added_all value_same (num (pos 0) ∷ num (pos 1) ∷ []) (values_among (map part_of parts.now) ++ flat_map (λ s. flat_map (reading s) (map part_of parts.now)) u.stores)) }
    ensures tests { IfOk result (λ u. u.tests ≡ added_all test_same [] (flat_map (λ s. flat_map (test_of s) (map part_of parts.now)) u.stores)) }
{
    let found = stores_among(alloc, parts)?;
    let stores = all_stores(alloc, conditions, found.as_slice())?;
    let values = all_values(alloc, stores.as_slice(), parts)?;
    let tests = all_tests(alloc, stores.as_slice(), parts)?;
    Ok(TermUniverse {
        stores,
        values,
        tests,
    })
}

/// The universe of an obligation: its store terms with L, R and one round of exchanged terms, its value
/// terms with 0, 1 and every place and expression parameter read at every store, and every test
/// parameter at every store. Each term stands once, in any order.
pub fn universe(alloc: Global, ob: &Obligation) -> Result<TermUniverse, NoMemory>
    ensures { IfOk result (IsUniverse ob.now) }
{
    let parts = different_parts(alloc, ob)?;
    let near = universe_of(alloc, ob.conditions.as_slice(), parts.as_slice())?;
    Ok(near)
}

impl TermUniverse {
    /// An equal universe.
    pub fn copy(&self, alloc: Global) -> Result<TermUniverse, NoMemory>
        ensures { IfOk result (λ u. u ≡ self.now) }
    {
        let stores = copy_stores(alloc, self.stores.as_slice())?;
        let values = copy_values(alloc, self.values.as_slice())?;
        let tests = copy_tests(alloc, self.tests.as_slice())?;
        Ok(TermUniverse {
            stores,
            values,
            tests,
        })
    }

    /// Whether the two universes are equal, with the same order of their lists.
    pub fn same(&self, other: &TermUniverse) -> bool
        ensures { IsTrue result ↔ (self.now ≡ other.now) }
    {
        same_stores(self.stores.as_slice(), other.stores.as_slice())
            && same_values(self.values.as_slice(), other.values.as_slice())
            && same_tests(self.tests.as_slice(), other.tests.as_slice())
    }
}

fn copy_tests(
    alloc: Global,
    items: &[(u32, StoreTerm)],
) -> Result<Items<(u32, StoreTerm)>, NoMemory>
    ensures { IfOk result (λ all. all ≡ items.now) }
{
    let mut all = Items::new(alloc);
    for test in items {
        let s = test.1.copy(alloc)?;
        all.push((test.0, s))?;
    }
    Ok(all)
}

fn same_tests(a: &[(u32, StoreTerm)], b: &[(u32, StoreTerm)]) -> bool
    ensures { IsTrue result ↔ (a.now ≡ b.now) }
{
    if a.len() != b.len() {
        return false;
    }
    for (i, x) in a.iter().enumerate() {
        if x.0 != b[i].0 || !x.1.same(&b[i].1) {
            return false;
        }
    }
    true
}
