//! The mark of a read, of a place and a store that need not stand as one term, and the literal that a
//! value is that read.
//! `specs/Marks.antt` of `escape_marks` says which mark is that of a term.

ghost use Rattle.std.specs.Prelude.{◌≡◌};
ghost use Rattle.std.specs.Option.{option_map};
ghost use Rattle.rule_terms.specs.Order.{value_same};
ghost use Rattle.rule_terms.specs.Term.{get};
ghost use Rattle.rule_terms.specs.declared.obligation.Atom.TheVariants.{SameValue};
ghost use Rattle.law_clauses.specs.Signed.{plus};
ghost use Rattle.escape_marks.specs.LawsHold.{is_kept};
ghost use Rattle.escape_marks.specs.Marks.{value_mark};

use escape_marks::{Escape, ValueMark, value_mark};
use law_clauses::is_get;
use rule_terms::{Place, StoreTerm, ValueTerm};
use toy_imp::Kind;

#[tactic(auto, using(crate::proofs::ReadShape::read_same))]
fn is_read(p: &Place, s: &StoreTerm, w: &ValueTerm) -> bool
    ensures { result ≡ value_same (get p.now.name p.now.indices s.now) w.now }
{
    is_get(w, p, s)
}

/// The first mark of what a place holds in a store. `None` exactly where it has none. It walks over
/// the marks.
#[tactic(auto, unfolding(escape_marks::specs::Marks::value_mark))]
pub fn read_mark<'a>(marks: &'a [ValueMark], p: &Place, s: &StoreTerm) -> Option<&'a ValueMark>
    ensures { option_map (λ m. m.now) result ≡ value_mark marks.now (get p.now.name p.now.indices s.now) }
{
    for m in marks {
        if is_read(p, s, &m.value) {
            return Some(m);
        }
    }
    None
}

/// The literal `+ value v (get q s)` is true, or one of the values has no mark.
#[tactic(auto, unfolding(escape_marks::specs::LawsHold::is_kept, escape_marks::specs::LawsHold::is_marked, escape_marks::specs::Marks::atom_true))]
pub fn equals_read(params: &[Kind], e: &Escape, v: &ValueTerm, q: &Place, s: &StoreTerm) -> bool
    ensures { result ≡ is_kept params.now e.now (plus (SameValue v.now (get q.now.name q.now.indices s.now))) }
{
    let marks = e.values.as_slice();
    match (value_mark(marks, v), read_mark(marks, q, s)) {
        (Some(m), Some(n)) => m.number == n.number,
        _ => true,
    }
}
