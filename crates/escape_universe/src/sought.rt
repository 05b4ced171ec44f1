//! What is looked for among the parts of an obligation: a part, a store term near one, a part without
//! marks, or a name without a class. `specs/Sought.antt` says when a part meets it.

ghost use Rattle.std.specs.Prelude.{◌≡◌, is_some};
ghost use Rattle.std.specs.List.{list_all, list_any};
ghost use Rattle.rule_terms.specs.Order.{store_same};
ghost use Rattle.rule_terms.specs.Term.{get, ev};
ghost use Rattle.term_universe.specs.Universe.{exchanged};
ghost use Rattle.term_universe.specs.Walked.{part_of};
ghost use Rattle.escape_marks.specs.Marks.{name_class};
ghost use Rattle.escape_universe.specs.Covered.{same_part, is_near, is_covered};
ghost use Rattle.escape_universe.specs.Covered.{has_store, has_value, has_test};
ghost use Rattle.escape_universe.specs.Sought.{meets, unnamed};

use crate::shape::{exchange, has_shape, is_shape};
use escape_conditions::expr_mark;
use escape_laws::read_mark;
use escape_marks::{Escape, StoreMark, name_class, store_mark, test_mark, value_mark};
use rule_terms::{Place, StoreTerm, ValueTerm};
use term_universe::Part;
use toy_imp::{Condition, Kind};

/// What is looked for.
#[derive(Clone, Copy)]
pub enum Sought<'a> {
    /// A part.
    Same(Part<'a>),
    /// A store term that is this one, or of which this one is an exchange.
    Near(&'a [Condition], &'a StoreTerm),
    /// A part that brings a term into the universe that has no mark.
    Unmarked(&'a [Condition], &'a Escape),
    /// A place whose name has no class.
    Unnamed(&'a [Kind], &'a [u32]),
}

#[tactic(auto, unfolding(crate::specs::Covered::same_part))]
fn same_part(p: Part<'_>, q: Part<'_>) -> bool
    ensures { result ≡ same_part (part_of p.entry) (part_of q.entry) }
{
    match (p, q) {
        (Part::Value(v), Part::Value(w)) => v.same(w),
        (Part::Place(x), Part::Place(y)) => x.same(y),
        (Part::Expr(j), Part::Expr(k)) => j == k,
        (Part::Test(j), Part::Test(k)) => j == k,
        _ => false,
    }
}

// Whether the term is an exchange of the store.
#[tactic(auto, using(crate::proofs::ShapeTerms::either_same))]
fn is_exchanged(conditions: &[Condition], t: &StoreTerm, s: &StoreTerm) -> bool
    ensures { result ≡ list_any (store_same t.now) (exchanged conditions.now s.now) }
{
    match exchange(conditions, s) {
        Some(x) => is_shape(x.first, t) || is_shape(x.second, t),
        None => false,
    }
}

#[tactic(auto, unfolding(crate::specs::Covered::is_near))]
fn is_near(conditions: &[Condition], t: &StoreTerm, p: Part<'_>) -> bool
    ensures { result ≡ is_near conditions.now t.now (part_of p.entry) }
{
    match p {
        Part::Store(s) => t.same(s) || is_exchanged(conditions, t, s),
        _ => false,
    }
}

/// Whether the store has a mark.
pub fn has_store(e: &Escape, s: &StoreTerm) -> bool
    ensures { result ≡ has_store e.now s.now }
{
    match store_mark(e.stores.as_slice(), s) {
        Some(_) => true,
        None => false,
    }
}

/// Whether the value has a mark.
pub fn has_value(e: &Escape, v: &ValueTerm) -> bool
    ensures { result ≡ has_value e.now v.now }
{
    match value_mark(e.values.as_slice(), v) {
        Some(_) => true,
        None => false,
    }
}

fn has_read(e: &Escape, p: &Place, s: &StoreTerm) -> bool
    ensures { result ≡ has_value e.now (get p.now.name p.now.indices s.now) }
{
    match read_mark(e.values.as_slice(), p, s) {
        Some(_) => true,
        None => false,
    }
}

fn has_expr(e: &Escape, k: u32, s: &StoreTerm) -> bool
    ensures { result ≡ has_value e.now (ev k s.now) }
{
    match expr_mark(e.values.as_slice(), k, s) {
        Some(_) => true,
        None => false,
    }
}

fn has_test(e: &Escape, k: u32, s: &StoreTerm) -> bool
    ensures { result ≡ has_test e.now k s.now }
{
    match test_mark(e.tests.as_slice(), k, s) {
        Some(_) => true,
        None => false,
    }
}

// What an exchange makes of the store has marks.
fn has_exchanged(conditions: &[Condition], e: &Escape, s: &StoreTerm) -> bool
    ensures { result ≡ list_all (has_store e.now) (exchanged conditions.now s.now) }
{
    let marks = e.stores.as_slice();
    match exchange(conditions, s) {
        Some(x) => has_shape(marks, x.first) && has_shape(marks, x.second),
        None => true,
    }
}

fn has_reads(e: &Escape, p: &Place, stores: &[StoreMark]) -> bool
    ensures { result ≡ list_all (λ m. has_value e.now (get p.now.name p.now.indices m.store)) stores.now }
{
    for m in stores {
        if !has_read(e, p, &m.store) {
            return false;
        }
    }
    true
}

fn has_exprs(e: &Escape, k: u32, stores: &[StoreMark]) -> bool
    ensures { result ≡ list_all (λ m. has_value e.now (ev k m.store)) stores.now }
{
    for m in stores {
        if !has_expr(e, k, &m.store) {
            return false;
        }
    }
    true
}

fn has_tests(e: &Escape, k: u32, stores: &[StoreMark]) -> bool
    ensures { result ≡ list_all (λ m. has_test e.now k m.store) stores.now }
{
    for m in stores {
        if !has_test(e, k, &m.store) {
            return false;
        }
    }
    true
}

#[tactic(auto, unfolding(crate::specs::Covered::is_covered))]
fn is_covered(conditions: &[Condition], e: &Escape, p: Part<'_>) -> bool
    ensures { result ≡ is_covered conditions.now e.now (part_of p.entry) }
{
    match p {
        Part::Store(s) => has_store(e, s) && has_exchanged(conditions, e, s),
        Part::Value(v) => has_value(e, v),
        Part::Place(p) => has_reads(e, p, e.stores.as_slice()),
        Part::Expr(k) => has_exprs(e, k, e.stores.as_slice()),
        Part::Test(k) => has_tests(e, k, e.stores.as_slice()),
    }
}

/// Whether the name has a class.
pub fn has_class(params: &[Kind], classes: &[u32], x: u32) -> bool
    ensures { result ≡ is_some (name_class params.now classes.now x) }
{
    match name_class(params, classes, x) {
        Some(_) => true,
        None => false,
    }
}

fn is_unnamed(params: &[Kind], classes: &[u32], p: Part<'_>) -> bool
    ensures { result ≡ unnamed params.now classes.now (part_of p.entry) }
{
    match p {
        Part::Place(p) => !has_class(params, classes, p.name),
        _ => false,
    }
}

/// Whether a part is what is looked for.
#[tactic(auto, unfolding(crate::specs::Sought::meets))]
pub fn meets(w: Sought<'_>, p: Part<'_>) -> bool
    ensures { result ≡ meets w.entry (part_of p.entry) }
{
    match w {
        Sought::Same(q) => same_part(q, p),
        Sought::Near(conditions, t) => is_near(conditions, t, p),
        Sought::Unmarked(conditions, e) => !is_covered(conditions, e, p),
        Sought::Unnamed(params, classes) => is_unnamed(params, classes, p),
    }
}
