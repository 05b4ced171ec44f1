//! Like terms: of one constructor and parameter, with arguments that agree. They agree themselves.
//! `specs/Likeness.antt` says which terms are alike. Arguments are looked up by a walk over marks.

ghost use Rattle.std.specs.Prelude.{◌≡◌};
ghost use Rattle.std.specs.List.{list_all};
ghost use Rattle.rule_terms.specs.TermView.{terms_of};
ghost use Rattle.escape_marks.specs.Failing.{FindsFailing};
ghost use Rattle.open_checker.specs.Likeness.{stores_agree, values_agree, indices_agree};
ghost use Rattle.open_checker.specs.Likeness.{like_stores, like_values};
ghost use Rattle.open_checker.specs.Likeness.{store_agrees_with, value_agrees_with};
ghost use Rattle.open_checker.specs.Likeness.{store_agrees, value_agrees};

use escape_marks::{Escape, StoreMark, ValueMark, names_agree, one_class, one_value};
use rule_terms::{StoreNode, StoreTerm, ValueNode, ValueTerm};
use toy_imp::Kind;

fn stores_agree(params: &[Kind], e: &Escape, a: &StoreTerm, b: &StoreTerm) -> bool
    ensures { result ≡ stores_agree params.now e.now a.now b.now }
{
    one_class(e.stores.as_slice(), a, b)
}

fn values_agree(params: &[Kind], e: &Escape, a: &ValueTerm, b: &ValueTerm) -> bool
    ensures { result ≡ values_agree params.now e.now a.now b.now }
{
    one_value(e.values.as_slice(), a, b)
}

#[tactic(auto, unfolding(crate::specs::Likeness::indices_agree))]
fn indices_agree(params: &[Kind], e: &Escape, is: &[ValueTerm], js: &[ValueTerm]) -> bool
    ensures { result ≡ indices_agree params.now e.now (terms_of is.now) (terms_of js.now) }
{
    if is.len() != js.len() {
        return false;
    }
    for (i, v) in is.iter().enumerate() {
        if !values_agree(params, e, v, &js[i]) {
            return false;
        }
    }
    true
}

// Whether two store terms have one constructor and parameter, and arguments that agree.
#[tactic(auto, unfolding(crate::specs::Likeness::like_stores))]
fn like_stores(params: &[Kind], e: &Escape, a: &StoreTerm, b: &StoreTerm) -> bool
    ensures { result ≡ like_stores params.now e.now a.now b.now }
{
    match (&a.node, &b.node) {
        (StoreNode::L, StoreNode::L) => true,
        (StoreNode::R, StoreNode::R) => true,
        (StoreNode::Put(s, p, v), StoreNode::Put(t, q, w)) => {
            names_agree(params, e, p.name, q.name)
                && stores_agree(params, e, s.get(), t.get())
                && indices_agree(params, e, p.indices.as_slice(), q.indices.as_slice())
                && values_agree(params, e, v.get(), w.get())
        }
        (StoreNode::Run(j, s), StoreNode::Run(k, t)) => {
            *j == *k && stores_agree(params, e, s.get(), t.get())
        }
        _ => false,
    }
}

// Whether two value terms have one constructor and parameter, and arguments that agree.
#[tactic(auto, unfolding(crate::specs::Likeness::like_values))]
fn like_values(params: &[Kind], e: &Escape, a: &ValueTerm, b: &ValueTerm) -> bool
    ensures { result ≡ like_values params.now e.now a.now b.now }
{
    match (&a.node, &b.node) {
        (ValueNode::Num(y), ValueNode::Num(z)) => *y == *z,
        (ValueNode::Get(p, s), ValueNode::Get(q, t)) => {
            names_agree(params, e, p.name, q.name)
                && stores_agree(params, e, s.get(), t.get())
                && indices_agree(params, e, p.indices.as_slice(), q.indices.as_slice())
        }
        (ValueNode::Ev(j, s), ValueNode::Ev(k, t)) => {
            *j == *k && stores_agree(params, e, s.get(), t.get())
        }
        (ValueNode::Add(x, y), ValueNode::Add(z, w)) => {
            values_agree(params, e, x.get(), z.get()) && values_agree(params, e, y.get(), w.get())
        }
        (ValueNode::Sub(x, y), ValueNode::Sub(z, w)) => {
            values_agree(params, e, x.get(), z.get()) && values_agree(params, e, y.get(), w.get())
        }
        (ValueNode::Mul(x, y), ValueNode::Mul(z, w)) => {
            values_agree(params, e, x.get(), z.get()) && values_agree(params, e, y.get(), w.get())
        }
        _ => false,
    }
}

#[tactic(auto, unfolding(crate::specs::Likeness::store_agrees_with))]
fn store_agrees_with(params: &[Kind], e: &Escape, m: &StoreMark, n: &StoreMark) -> bool
    ensures { result ≡ store_agrees_with params.now e.now m.now n.now }
{
    m.class == n.class || !like_stores(params, e, &m.store, &n.store)
}

#[tactic(auto, unfolding(crate::specs::Likeness::value_agrees_with))]
fn value_agrees_with(params: &[Kind], e: &Escape, m: &ValueMark, n: &ValueMark) -> bool
    ensures { result ≡ value_agrees_with params.now e.now m.now n.now }
{
    m.number == n.number || !like_values(params, e, &m.value, &n.value)
}

// The place of the first mark of these that the mark does not agree with.
#[tactic(auto, using(escape_marks::proofs::Places::passes_next, escape_marks::proofs::Places::first_failing))]
fn first_unlike_store(
    params: &[Kind],
    e: &Escape,
    m: &StoreMark,
    marks: &[StoreMark],
) -> Option<usize>
    ensures { FindsFailing (store_agrees_with params.now e.now m.now) marks.now result }
{
    for (k, n) in marks.iter().enumerate() {
        if !store_agrees_with(params, e, m, n) {
            return Some(k);
        }
    }
    None
}

// Whether the mark agrees with all of these.
fn store_agrees_with_all(params: &[Kind], e: &Escape, m: &StoreMark, marks: &[StoreMark]) -> bool
    ensures { result ≡ list_all (store_agrees_with params.now e.now m.now) marks.now }
{
    for n in marks {
        if !store_agrees_with(params, e, m, n) {
            return false;
        }
    }
    true
}

#[tactic(auto, unfolding(crate::specs::Likeness::store_agrees))]
fn store_agrees(params: &[Kind], e: &Escape, m: &StoreMark) -> bool
    ensures { result ≡ store_agrees params.now e.now m.now }
{
    store_agrees_with_all(params, e, m, e.stores.as_slice())
}

#[tactic(auto, using(escape_marks::proofs::Places::passes_next, escape_marks::proofs::Places::first_failing))]
fn first_of_unlike_stores(params: &[Kind], e: &Escape, marks: &[StoreMark]) -> Option<usize>
    ensures { FindsFailing (store_agrees params.now e.now) marks.now result }
{
    for (k, m) in marks.iter().enumerate() {
        if !store_agrees(params, e, m) {
            return Some(k);
        }
    }
    None
}

/// The place of the first store mark that does not agree with some mark: their terms are alike, and
/// have not one class. `None` exactly where all like store terms of the escape agree. It
/// compares each two marks, and looks up the arguments of two terms of one constructor.
pub fn unlike_stores(params: &[Kind], e: &Escape) -> Option<usize>
    ensures { FindsFailing (store_agrees params.now e.now) e.now.stores result }
{
    first_of_unlike_stores(params, e, e.stores.as_slice())
}

/// The place of the first mark that this store mark does not agree with. `None` exactly where it
/// agrees with each.
pub fn unlike_store(params: &[Kind], e: &Escape, m: &StoreMark) -> Option<usize>
    ensures { FindsFailing (store_agrees_with params.now e.now m.now) e.now.stores result }
{
    first_unlike_store(params, e, m, e.stores.as_slice())
}

// The place of the first mark of these that the mark does not agree with.
#[tactic(auto, using(escape_marks::proofs::Places::passes_next, escape_marks::proofs::Places::first_failing))]
fn first_unlike_value(
    params: &[Kind],
    e: &Escape,
    m: &ValueMark,
    marks: &[ValueMark],
) -> Option<usize>
    ensures { FindsFailing (value_agrees_with params.now e.now m.now) marks.now result }
{
    for (k, n) in marks.iter().enumerate() {
        if !value_agrees_with(params, e, m, n) {
            return Some(k);
        }
    }
    None
}

// Whether the mark agrees with all of these.
fn value_agrees_with_all(params: &[Kind], e: &Escape, m: &ValueMark, marks: &[ValueMark]) -> bool
    ensures { result ≡ list_all (value_agrees_with params.now e.now m.now) marks.now }
{
    for n in marks {
        if !value_agrees_with(params, e, m, n) {
            return false;
        }
    }
    true
}

#[tactic(auto, unfolding(crate::specs::Likeness::value_agrees))]
fn value_agrees(params: &[Kind], e: &Escape, m: &ValueMark) -> bool
    ensures { result ≡ value_agrees params.now e.now m.now }
{
    value_agrees_with_all(params, e, m, e.values.as_slice())
}

#[tactic(auto, using(escape_marks::proofs::Places::passes_next, escape_marks::proofs::Places::first_failing))]
fn first_of_unlike_values(params: &[Kind], e: &Escape, marks: &[ValueMark]) -> Option<usize>
    ensures { FindsFailing (value_agrees params.now e.now) marks.now result }
{
    for (k, m) in marks.iter().enumerate() {
        if !value_agrees(params, e, m) {
            return Some(k);
        }
    }
    None
}

/// The place of the first value mark that does not agree with some mark: their terms are alike, and
/// have not one number. `None` exactly where all like value terms of the escape agree. It
/// compares each two marks, and looks up the arguments of two terms of one constructor.
pub fn unlike_values(params: &[Kind], e: &Escape) -> Option<usize>
    ensures { FindsFailing (value_agrees params.now e.now) e.now.values result }
{
    first_of_unlike_values(params, e, e.values.as_slice())
}

/// The place of the first mark that this value mark does not agree with. `None` exactly where it
/// agrees with each.
pub fn unlike_value(params: &[Kind], e: &Escape, m: &ValueMark) -> Option<usize>
    ensures { FindsFailing (value_agrees_with params.now e.now m.now) e.now.values result }
{
    first_unlike_value(params, e, m, e.values.as_slice())
}
