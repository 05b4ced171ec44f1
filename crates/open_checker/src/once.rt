//! Whether each name parameter has a class, and each term one mark alone.
//! `specs/Once.antt` says what is asked. Each mark is looked up among the later ones.

ghost use Rattle.std.specs.Prelude.{◌≡◌, ◌↔◌, IsTrue, is_some};
ghost use Rattle.escape_marks.specs.Marks.{store_mark, value_mark, test_mark};
ghost use Rattle.open_checker.specs.Once.{stores_once, values_once, tests_once, IsListedOnce};

use escape_marks::{
    Escape, StoreMark, TestMark, ValueMark, count_names, store_mark, test_mark, value_mark,
};
use rule_terms::{Obligation, StoreTerm, ValueTerm};

fn has_store_mark(marks: &[StoreMark], s: &StoreTerm) -> bool
    ensures { result ≡ is_some (store_mark marks.now s.now) }
{
    match store_mark(marks, s) {
        Some(_) => true,
        None => false,
    }
}

#[tactic(auto, using(escape_marks::proofs::Places::whole_rest), unfolding(crate::specs::Once::stores_once))]
fn stores_once(marks: &[StoreMark]) -> bool
    ensures { result ≡ stores_once marks.now }
{
    for (i, m) in marks.iter().enumerate() {
        if has_store_mark(&marks[i + 1..], &m.store) {
            return false;
        }
    }
    true
}

fn has_value_mark(marks: &[ValueMark], v: &ValueTerm) -> bool
    ensures { result ≡ is_some (value_mark marks.now v.now) }
{
    match value_mark(marks, v) {
        Some(_) => true,
        None => false,
    }
}

#[tactic(auto, using(escape_marks::proofs::Places::whole_rest), unfolding(crate::specs::Once::values_once))]
fn values_once(marks: &[ValueMark]) -> bool
    ensures { result ≡ values_once marks.now }
{
    for (i, m) in marks.iter().enumerate() {
        if has_value_mark(&marks[i + 1..], &m.value) {
            return false;
        }
    }
    true
}

fn has_test_mark(marks: &[TestMark], k: u32, s: &StoreTerm) -> bool
    ensures { result ≡ is_some (test_mark marks.now k s.now) }
{
    match test_mark(marks, k, s) {
        Some(_) => true,
        None => false,
    }
}

#[tactic(auto, using(escape_marks::proofs::Places::whole_rest), unfolding(crate::specs::Once::tests_once))]
fn tests_once(marks: &[TestMark]) -> bool
    ensures { result ≡ tests_once marks.now }
{
    for (i, m) in marks.iter().enumerate() {
        if has_test_mark(&marks[i + 1..], m.test, &m.store) {
            return false;
        }
    }
    true
}

/// Whether the escape has as many classes as the obligation has parameters of kind name, and one
/// mark of each term that it lists. That these are the terms of the universe is not asked. It takes
/// a look-up for each mark.
pub fn is_listed_once(ob: &Obligation, e: &Escape) -> bool
    ensures { IsTrue result ↔ IsListedOnce ob.now e.now }
{
    if e.names.as_slice().len() != count_names(ob.params.as_slice()) {
        return false;
    }
    if !stores_once(e.stores.as_slice()) {
        return false;
    }
    if !values_once(e.values.as_slice()) {
        return false;
    }
    tests_once(e.tests.as_slice())
}
