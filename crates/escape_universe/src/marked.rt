//! Whether the terms with marks are those of the universe. `specs/Covered.antt` has the tests, part by
//! part, and `specs/MarksUniverse.antt` what they say.

ghost use Rattle.std.specs.Prelude.{◌≡◌, ◌↔◌, IsTrue};
ghost use Rattle.std.specs.List.{list_all, list_any};
ghost use Rattle.rule_terms.specs.Parts.{obligation_parts};
ghost use Rattle.term_universe.specs.Walked.{part_of};
ghost use Rattle.escape_universe.specs.Covered.{occurs, is_near, uncovered, covers};
ghost use Rattle.escape_universe.specs.Covered.{store_there, is_read, value_there, test_there};
ghost use Rattle.escape_universe.specs.Covered.{stores_there, values_there, tests_there};
ghost use Rattle.escape_universe.specs.Covered.{marks_match};
ghost use Rattle.escape_universe.specs.MarksUniverse.{MarksItsTerms};

use crate::sought::{Sought, has_store, has_value};
use crate::walk::in_obligation;
use escape_marks::{Escape, StoreMark, TestMark, ValueMark};
use rule_terms::{Obligation, StoreTerm, ValueNode, ValueTerm};
use term_universe::Part;

#[tactic(auto, unfolding(crate::specs::Sought::meets))]
fn occurs(ob: &Obligation, e: &Escape, p: Part<'_>) -> bool
    ensures { result ≡ occurs ob.now e.now (part_of p.entry) }
{
    in_obligation(Sought::Same(p), ob)
}

#[tactic(auto, unfolding(crate::specs::Sought::meets))]
fn some_near(ob: &Obligation, t: &StoreTerm) -> bool
    ensures { result ≡ list_any (is_near ob.now.conditions t.now) (obligation_parts ob.now) }
{
    in_obligation(Sought::Near(ob.conditions.as_slice(), t), ob)
}

#[tactic(auto, unfolding(crate::specs::Sought::meets))]
fn some_uncovered(ob: &Obligation, e: &Escape) -> bool
    ensures { result ≡ list_any (uncovered ob.now.conditions e.now) (obligation_parts ob.now) }
{
    in_obligation(Sought::Unmarked(ob.conditions.as_slice(), e), ob)
}

#[tactic(auto, unfolding(crate::specs::Covered::covers))]
fn covers(ob: &Obligation, e: &Escape) -> bool
    ensures { result ≡ covers ob.now e.now }
{
    let left = StoreTerm::left();
    let right = StoreTerm::right();
    let zero = ValueTerm::num(0);
    let one = ValueTerm::num(1);
    has_store(e, &left)
        && has_store(e, &right)
        && has_value(e, &zero)
        && has_value(e, &one)
        && !some_uncovered(ob, e)
}

#[tactic(auto, unfolding(crate::specs::Covered::store_there))]
fn store_there(ob: &Obligation, e: &Escape, t: &StoreTerm) -> bool
    ensures { result ≡ store_there ob.now e.now t.now }
{
    let left = StoreTerm::left();
    let right = StoreTerm::right();
    t.same(&left) || (t.same(&right) || some_near(ob, t))
}

#[tactic(auto, unfolding(crate::specs::Covered::is_read))]
fn is_read(ob: &Obligation, e: &Escape, v: &ValueTerm) -> bool
    ensures { result ≡ is_read ob.now e.now v.now }
{
    match &v.node {
        ValueNode::Get(p, s) => has_store(e, s.get()) && occurs(ob, e, Part::Place(p)),
        ValueNode::Ev(k, s) => has_store(e, s.get()) && occurs(ob, e, Part::Expr(*k)),
        _ => false,
    }
}

#[tactic(auto, unfolding(crate::specs::Covered::value_there))]
fn value_there(ob: &Obligation, e: &Escape, v: &ValueTerm) -> bool
    ensures { result ≡ value_there ob.now e.now v.now }
{
    let zero = ValueTerm::num(0);
    let one = ValueTerm::num(1);
    is_read(ob, e, v) || (v.same(&zero) || (v.same(&one) || occurs(ob, e, Part::Value(v))))
}

#[tactic(auto, unfolding(crate::specs::Covered::test_there))]
fn test_there(ob: &Obligation, e: &Escape, k: u32, s: &StoreTerm) -> bool
    ensures { result ≡ test_there ob.now e.now k s.now }
{
    has_store(e, s) && occurs(ob, e, Part::Test(k))
}

fn these_stores(ob: &Obligation, e: &Escape, marks: &[StoreMark]) -> bool
    ensures { result ≡ list_all (λ m. store_there ob.now e.now m.store) marks.now }
{
    for m in marks {
        if !store_there(ob, e, &m.store) {
            return false;
        }
    }
    true
}

fn these_values(ob: &Obligation, e: &Escape, marks: &[ValueMark]) -> bool
    ensures { result ≡ list_all (λ m. value_there ob.now e.now m.value) marks.now }
{
    for m in marks {
        if !value_there(ob, e, &m.value) {
            return false;
        }
    }
    true
}

fn these_tests(ob: &Obligation, e: &Escape, marks: &[TestMark]) -> bool
    ensures { result ≡ list_all (λ m. test_there ob.now e.now m.test m.store) marks.now }
{
    for m in marks {
        if !test_there(ob, e, m.test, &m.store) {
            return false;
        }
    }
    true
}

#[tactic(auto, unfolding(crate::specs::Covered::marks_match, crate::specs::Covered::stores_there, crate::specs::Covered::values_there, crate::specs::Covered::tests_there))]
fn marks_match(ob: &Obligation, e: &Escape) -> bool
    ensures { result ≡ marks_match ob.now e.now }
{
    covers(ob, e)
        && these_stores(ob, e, e.stores.as_slice())
        && these_values(ob, e, e.values.as_slice())
        && these_tests(ob, e, e.tests.as_slice())
}

/// Whether the stores, values and tests that have marks are those of the universe of the obligation,
/// whatever their order and however often they are listed. It walks over the obligation once for all
/// that has to have a mark, and once for each mark; it takes no memory.
pub fn marks_its_terms(ob: &Obligation, e: &Escape) -> bool
    ensures { IsTrue result ↔ MarksItsTerms ob.now e.now }
{
    marks_match(ob, e)
}
