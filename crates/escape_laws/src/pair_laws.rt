//! Laws 6, 10 and 22: the stores of both sides end, stores that do not end are equal, and operands
//! of sums and products may be exchanged. `specs/PairLaws.antt` has their clauses at two terms.

ghost use Rattle.std.specs.Prelude.{◌≡◌, ◌||◌};
ghost use Rattle.std.specs.List.{list_all};
ghost use Rattle.law_clauses.specs.ClauseForms.{equal_values, if_equal};
ghost use Rattle.escape_marks.specs.Failing.{FindsFailing};
ghost use Rattle.escape_marks.specs.LawsHold.{clause_kept};
ghost use Rattle.escape_laws.specs.PairLaws.{sides_kept, halts_kept, exchange_kept};
ghost use Rattle.escape_laws.specs.PairLaws.{halts_as_all, exchanges_with_all};

use crate::kept::{ends, equal, same_store, unequal};
use escape_marks::{Escape, StoreMark, ValueMark};
use rule_terms::{StoreTerm, ValueNode, ValueTerm};
use toy_imp::Kind;

/// Whether law 6 holds: each of the stores of the two sides ends, if it has a mark.
#[tactic(auto, using(law_clauses::proofs::Same::or_false))]
pub fn sides_end(params: &[Kind], e: &Escape) -> bool
    ensures { result ≡ sides_kept params.now e.now }
{
    let left = StoreTerm::left();
    let right = StoreTerm::right();
    ends(params, e, &left) && ends(params, e, &right)
}

#[tactic(auto, using(law_clauses::proofs::Same::or_false), unfolding(crate::specs::PairLaws::halts_kept))]
fn halts_kept(params: &[Kind], e: &Escape, a: &StoreTerm, n: &StoreMark) -> bool
    ensures { result ≡ halts_kept params.now e.now a.now n.now }
{
    ends(params, e, a) || (ends(params, e, &n.store) || same_store(params, e, a, &n.store))
}

fn halts_as_these(params: &[Kind], e: &Escape, a: &StoreTerm, marks: &[StoreMark]) -> bool
    ensures { result ≡ list_all (halts_kept params.now e.now a.now) marks.now }
{
    for n in marks {
        if !halts_kept(params, e, a, n) {
            return false;
        }
    }
    true
}

#[tactic(auto, unfolding(crate::specs::PairLaws::halts_as_all))]
fn halts_as_all(params: &[Kind], e: &Escape, m: &StoreMark) -> bool
    ensures { result ≡ halts_as_all params.now e.now m.now }
{
    halts_as_these(params, e, &m.store, e.stores.as_slice())
}

#[tactic(auto, using(escape_marks::proofs::Places::passes_next, escape_marks::proofs::Places::first_failing))]
fn first_halting(params: &[Kind], e: &Escape, marks: &[StoreMark]) -> Option<usize>
    ensures { FindsFailing (halts_as_all params.now e.now) marks.now result }
{
    for (k, m) in marks.iter().enumerate() {
        if !halts_as_all(params, e, m) {
            return Some(k);
        }
    }
    None
}

/// The place of the first store mark at which a clause of law 10 is broken: neither it nor another
/// one ends, and they are of different classes. `None` exactly where none is. It takes a look-up
/// for each two marks, and four where neither ends.
pub fn unlike_halts(params: &[Kind], e: &Escape) -> Option<usize>
    ensures { FindsFailing (halts_as_all params.now e.now) e.now.stores result }
{
    first_halting(params, e, e.stores.as_slice())
}

// If a = d and b = c: v = w.
#[tactic(auto, using(law_clauses::proofs::Same::or_false))]
fn if_both(
    params: &[Kind],
    e: &Escape,
    first: bool,
    b: &ValueTerm,
    c: &ValueTerm,
    v: &ValueTerm,
    w: &ValueTerm,
) -> bool
    ensures { result ≡ (first || clause_kept params.now e.now (if_equal b.now c.now (equal_values v.now w.now))) }
{
    first || (unequal(params, e, b, c) || equal(params, e, v, w))
}

#[tactic(auto, unfolding(crate::specs::PairLaws::exchange_kept))]
fn exchange_kept(params: &[Kind], e: &Escape, v: &ValueTerm, n: &ValueMark) -> bool
    ensures { result ≡ exchange_kept params.now e.now v.now n.now }
{
    let w = &n.value;
    match (&v.node, &w.node) {
        (ValueNode::Add(a, b), ValueNode::Add(c, d)) => {
            let first = unequal(params, e, a.get(), d.get());
            if_both(params, e, first, b.get(), c.get(), v, w)
        }
        (ValueNode::Mul(a, b), ValueNode::Mul(c, d)) => {
            let first = unequal(params, e, a.get(), d.get());
            if_both(params, e, first, b.get(), c.get(), v, w)
        }
        _ => true,
    }
}

fn exchanges_with_these(params: &[Kind], e: &Escape, v: &ValueTerm, marks: &[ValueMark]) -> bool
    ensures { result ≡ list_all (exchange_kept params.now e.now v.now) marks.now }
{
    for n in marks {
        if !exchange_kept(params, e, v, n) {
            return false;
        }
    }
    true
}

#[tactic(auto, unfolding(crate::specs::PairLaws::exchanges_with_all))]
fn exchanges_with_all(params: &[Kind], e: &Escape, m: &ValueMark) -> bool
    ensures { result ≡ exchanges_with_all params.now e.now m.now }
{
    exchanges_with_these(params, e, &m.value, e.values.as_slice())
}

#[tactic(auto, using(escape_marks::proofs::Places::passes_next, escape_marks::proofs::Places::first_failing))]
fn first_unexchanged(params: &[Kind], e: &Escape, marks: &[ValueMark]) -> Option<usize>
    ensures { FindsFailing (exchanges_with_all params.now e.now) marks.now result }
{
    for (k, m) in marks.iter().enumerate() {
        if !exchanges_with_all(params, e, m) {
            return Some(k);
        }
    }
    None
}

/// The place of the first value mark at which a clause of law 22 is broken: it and another one are
/// a sum or a product of equal operands in the other order, and have different numbers. `None`
/// exactly where none is. It compares each two marks, with six look-ups at most for two sums or
/// two products.
pub fn broken_exchange(params: &[Kind], e: &Escape) -> Option<usize>
    ensures { FindsFailing (exchanges_with_all params.now e.now) e.now.values result }
{
    first_unexchanged(params, e, e.values.as_slice())
}
