//! Whether a literal of a test, or of the value of an expression, is true in an escape, or speaks of
//! a term without a mark. `specs/LawsHold.antt` of `escape_marks` says when a literal is kept so.

ghost use Rattle.std.specs.Prelude.{◌≡◌, pos};
ghost use Rattle.std.specs.Option.{option_map};
ghost use Rattle.rule_terms.specs.Order.{value_same};
ghost use Rattle.rule_terms.specs.Term.{ev};
ghost use Rattle.rule_terms.specs.declared.obligation.Atom.TheVariants.{SameValue, AtMost, Holds};
ghost use Rattle.law_clauses.specs.Signed.{plus, minus};
ghost use Rattle.escape_marks.specs.Marks.{value_mark};
ghost use Rattle.escape_marks.specs.LawsHold.{is_kept};

use escape_marks::{Escape, ValueMark, test_mark, value_mark};
use law_clauses::is_ev;
use rule_terms::{StoreTerm, ValueTerm};
use toy_imp::Kind;

// `+ holds q s`
#[tactic(auto, unfolding(escape_marks::specs::LawsHold::is_kept, escape_marks::specs::LawsHold::is_marked, escape_marks::specs::Marks::atom_true))]
pub fn holds(params: &[Kind], e: &Escape, q: u32, s: &StoreTerm) -> bool
    ensures { result ≡ is_kept params.now e.now (plus (Holds q s.now)) }
{
    match test_mark(e.tests.as_slice(), q, s) {
        Some(m) => m.holds,
        None => true,
    }
}

// `- holds q s`
#[tactic(auto, unfolding(escape_marks::specs::LawsHold::is_kept, escape_marks::specs::LawsHold::is_marked, escape_marks::specs::Marks::atom_true))]
pub fn does_not_hold(params: &[Kind], e: &Escape, q: u32, s: &StoreTerm) -> bool
    ensures { result ≡ is_kept params.now e.now (minus (Holds q s.now)) }
{
    match test_mark(e.tests.as_slice(), q, s) {
        Some(m) => !m.holds,
        None => true,
    }
}

#[tactic(auto, using(crate::proofs::BehindShapes::ev_same))]
fn is_value(i: u32, s: &StoreTerm, w: &ValueTerm) -> bool
    ensures { result ≡ value_same (ev i s.now) w.now }
{
    is_ev(w, i, s)
}

/// The first mark of the value of an expression at a store. `None` exactly where it has none. It walks
/// over the marks.
#[tactic(auto, unfolding(escape_marks::specs::Marks::value_mark))]
pub fn expr_mark<'a>(marks: &'a [ValueMark], i: u32, s: &StoreTerm) -> Option<&'a ValueMark>
    ensures { option_map (λ m. m.now) result ≡ value_mark marks.now (ev i s.now) }
{
    for m in marks {
        if is_value(i, s, &m.value) {
            return Some(m);
        }
    }
    None
}

// `+ value v (ev i s)`
#[tactic(auto, unfolding(escape_marks::specs::LawsHold::is_kept, escape_marks::specs::LawsHold::is_marked, escape_marks::specs::Marks::atom_true))]
pub fn equals_value(params: &[Kind], e: &Escape, v: &ValueTerm, i: u32, s: &StoreTerm) -> bool
    ensures { result ≡ is_kept params.now e.now (plus (SameValue v.now (ev i s.now))) }
{
    let marks = e.values.as_slice();
    match (value_mark(marks, v), expr_mark(marks, i, s)) {
        (Some(m), Some(n)) => m.number == n.number,
        _ => true,
    }
}

// `+ most a b 0`
#[tactic(auto, using(crate::proofs::BehindShapes::plus_nothing), unfolding(escape_marks::specs::LawsHold::is_kept, escape_marks::specs::LawsHold::is_marked, escape_marks::specs::Marks::atom_true))]
pub fn is_at_most(params: &[Kind], e: &Escape, a: &ValueTerm, b: &ValueTerm) -> bool
    ensures { result ≡ is_kept params.now e.now (plus (AtMost a.now b.now (pos 0))) }
{
    let marks = e.values.as_slice();
    match (value_mark(marks, a), value_mark(marks, b)) {
        (Some(m), Some(n)) => m.number <= n.number,
        _ => true,
    }
}
