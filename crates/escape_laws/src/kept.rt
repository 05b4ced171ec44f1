//! Whether a literal is true in an escape, or speaks of a term without a mark.
//! `specs/LawsHold.antt` of `escape_marks` says when a clause is kept so.

ghost use Rattle.std.specs.Prelude.{◌≡◌};
ghost use Rattle.rule_terms.specs.declared.obligation.Atom.TheVariants.{SameName, SameStore, SameValue, Ends};
ghost use Rattle.law_clauses.specs.Signed.{plus, minus};
ghost use Rattle.escape_marks.specs.LawsHold.{is_kept};

use escape_marks::{Escape, names_agree, store_mark, value_mark};
use rule_terms::{StoreTerm, ValueTerm};
use toy_imp::Kind;

/// The literal `+ ends s` is true, or the store has no mark.
#[tactic(auto, unfolding(escape_marks::specs::LawsHold::is_kept, escape_marks::specs::LawsHold::is_marked, escape_marks::specs::Marks::atom_true))]
pub fn ends(params: &[Kind], e: &Escape, s: &StoreTerm) -> bool
    ensures { result ≡ is_kept params.now e.now (plus (Ends s.now)) }
{
    match store_mark(e.stores.as_slice(), s) {
        Some(m) => m.ends,
        None => true,
    }
}

/// The literal `- ends s` is true, or the store has no mark.
#[tactic(auto, unfolding(escape_marks::specs::LawsHold::is_kept, escape_marks::specs::LawsHold::is_marked, escape_marks::specs::Marks::atom_true))]
pub fn does_not_end(params: &[Kind], e: &Escape, s: &StoreTerm) -> bool
    ensures { result ≡ is_kept params.now e.now (minus (Ends s.now)) }
{
    match store_mark(e.stores.as_slice(), s) {
        Some(m) => !m.ends,
        None => true,
    }
}

/// The literal `+ value a b` is true, or one of the values has no mark.
#[tactic(auto, unfolding(escape_marks::specs::LawsHold::is_kept, escape_marks::specs::LawsHold::is_marked, escape_marks::specs::Marks::atom_true))]
pub fn equal(params: &[Kind], e: &Escape, a: &ValueTerm, b: &ValueTerm) -> bool
    ensures { result ≡ is_kept params.now e.now (plus (SameValue a.now b.now)) }
{
    let marks = e.values.as_slice();
    match (value_mark(marks, a), value_mark(marks, b)) {
        (Some(m), Some(n)) => m.number == n.number,
        _ => true,
    }
}

/// The literal `- value a b` is true, or one of the values has no mark.
#[tactic(auto, unfolding(escape_marks::specs::LawsHold::is_kept, escape_marks::specs::LawsHold::is_marked, escape_marks::specs::Marks::atom_true))]
pub fn unequal(params: &[Kind], e: &Escape, a: &ValueTerm, b: &ValueTerm) -> bool
    ensures { result ≡ is_kept params.now e.now (minus (SameValue a.now b.now)) }
{
    let marks = e.values.as_slice();
    match (value_mark(marks, a), value_mark(marks, b)) {
        (Some(m), Some(n)) => m.number != n.number,
        _ => true,
    }
}

/// The literal `+ store a b` is true, or one of the stores has no mark.
#[tactic(auto, unfolding(escape_marks::specs::LawsHold::is_kept, escape_marks::specs::LawsHold::is_marked, escape_marks::specs::Marks::atom_true))]
pub fn same_store(params: &[Kind], e: &Escape, a: &StoreTerm, b: &StoreTerm) -> bool
    ensures { result ≡ is_kept params.now e.now (plus (SameStore a.now b.now)) }
{
    let marks = e.stores.as_slice();
    match (store_mark(marks, a), store_mark(marks, b)) {
        (Some(m), Some(n)) => m.class == n.class,
        _ => true,
    }
}

/// The literal `- name x y` is true.
#[tactic(auto, unfolding(escape_marks::specs::LawsHold::is_kept, escape_marks::specs::LawsHold::is_marked, escape_marks::specs::Marks::atom_true))]
pub fn other_name(params: &[Kind], e: &Escape, x: u32, y: u32) -> bool
    ensures { result ≡ is_kept params.now e.now (minus (SameName x y)) }
{
    !names_agree(params, e, x, y)
}
