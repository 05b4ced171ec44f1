//! Which atoms, literals and conjuncts are true in an escape.
//! `specs/Marks.antt` says what equality, the order of numbers and flags are there.

ghost use Rattle.std.specs.Prelude.{◌≡◌, ◌+ℤ◌, int_le};
ghost use Rattle.escape_marks.specs.Marks.{names_agree};
ghost use Rattle.escape_marks.specs.Marks.{one_number, one_class, one_value};
ghost use Rattle.escape_marks.specs.Marks.{store_mark, value_mark, test_mark};
ghost use Rattle.escape_marks.specs.Marks.{at_most, ending, holding};
ghost use Rattle.escape_marks.specs.Marks.{atom_true, literal_true, gives_true};

use crate::escape::{Escape, StoreMark, TestMark, ValueMark};
use crate::marks::{name_class, store_mark, test_mark, value_mark};
use rule_terms::{Atom, Literal, StoreTerm, ValueTerm};
use toy_imp::Kind;

fn one_number(a: Option<u32>, b: Option<u32>) -> bool
    ensures { result ≡ one_number a b }
{
    match (a, b) {
        (Some(c), Some(d)) => c == d,
        _ => false,
    }
}

// Whether two store terms have marks of one class.
pub fn one_class(marks: &[StoreMark], a: &StoreTerm, b: &StoreTerm) -> bool
    ensures { result ≡ one_class (store_mark marks.now a.now) (store_mark marks.now b.now) }
{
    match (store_mark(marks, a), store_mark(marks, b)) {
        (Some(m), Some(n)) => m.class == n.class,
        _ => false,
    }
}

// Whether two value terms have marks with one number.
pub fn one_value(marks: &[ValueMark], a: &ValueTerm, b: &ValueTerm) -> bool
    ensures { result ≡ one_value (value_mark marks.now a.now) (value_mark marks.now b.now) }
{
    match (value_mark(marks, a), value_mark(marks, b)) {
        (Some(m), Some(n)) => m.number == n.number,
        _ => false,
    }
}

// Whether two name parameters have one class.
pub fn names_agree(params: &[Kind], e: &Escape, x: u32, y: u32) -> bool
    ensures { result ≡ names_agree params.now e.now x y }
{
    let classes = e.names.as_slice();
    one_number(
        name_class(params, classes, x),
        name_class(params, classes, y),
    )
}

// A sum that does not fit is above every number, or below each.
fn is_at_most(m: i128, n: i128, c: i128) -> bool
    ensures { result ≡ int_le m (n +ℤ c) }
{
    match n.checked_add(c) {
        Some(sum) => m <= sum,
        None => c > 0,
    }
}

fn at_most(marks: &[ValueMark], a: &ValueTerm, b: &ValueTerm, c: i128) -> bool
    ensures { result ≡ at_most (value_mark marks.now a.now) (value_mark marks.now b.now) c }
{
    match (value_mark(marks, a), value_mark(marks, b)) {
        (Some(m), Some(n)) => is_at_most(m.number, n.number, c),
        _ => false,
    }
}

fn is_ending(marks: &[StoreMark], s: &StoreTerm) -> bool
    ensures { result ≡ ending (store_mark marks.now s.now) }
{
    match store_mark(marks, s) {
        Some(m) => m.ends,
        None => false,
    }
}

fn is_holding(marks: &[TestMark], k: u32, s: &StoreTerm) -> bool
    ensures { result ≡ holding (test_mark marks.now k s.now) }
{
    match test_mark(marks, k, s) {
        Some(m) => m.holds,
        None => false,
    }
}

/// Whether an atom is true in an escape: names and stores are equal where they have one class,
/// values where they have one number, and `most a b c` says that the number of a is at most that of
/// b plus c. What has no class or mark makes it false. Exact at all numbers; it takes no memory.
#[tactic(auto, unfolding(crate::specs::Marks::atom_true))]
pub fn is_true(params: &[Kind], e: &Escape, atom: &Atom) -> bool
    ensures { result ≡ atom_true params.now e.now atom.now }
{
    let stores = e.stores.as_slice();
    let values = e.values.as_slice();
    match atom {
        Atom::SameName(x, y) => names_agree(params, e, *x, *y),
        Atom::SameStore(a, b) => one_class(stores, a, b),
        Atom::SameValue(a, b) => one_value(values, a, b),
        Atom::AtMost(a, b, c) => at_most(values, a, b, *c),
        Atom::Ends(s) => is_ending(stores, s),
        Atom::Holds(k, s) => is_holding(e.tests.as_slice(), *k, s),
    }
}

/// Whether a literal is true in an escape: its atom is, or it denies an atom that is not.
pub fn is_true_literal(params: &[Kind], e: &Escape, x: &Literal) -> bool
    ensures { result ≡ literal_true params.now e.now x.now }
{
    let is_true = is_true(params, e, &x.atom);
    if x.sign { is_true } else { !is_true }
}

// Whether there is a literal, and it is true.
pub fn is_given_true(params: &[Kind], e: &Escape, gives: &Option<Literal>) -> bool
    ensures { result ≡ gives_true params.now e.now gives.now }
{
    match gives {
        Some(x) => is_true_literal(params, e, x),
        None => false,
    }
}
