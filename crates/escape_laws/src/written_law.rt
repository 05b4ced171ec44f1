//! Law 5: two stores that are written alike. `specs/WrittenLaw.antt` has its clause at two store terms.

ghost use Rattle.std.specs.Prelude.{◌≡◌, map};
ghost use Rattle.std.specs.List.{list_all, list_any};
ghost use Rattle.rule_terms.specs.declared.obligation.Atom.TheVariants.{SameStore};
ghost use Rattle.term_meaning.specs.Writes.{base_of, written_in};
ghost use Rattle.law_clauses.specs.Signed.{minus};
ghost use Rattle.law_clauses.specs.WriteLaws.{read_unlike};
ghost use Rattle.law_clauses.specs.ClauseForms.{written_alike};
ghost use Rattle.escape_marks.specs.Failing.{FindsFailing};
ghost use Rattle.escape_marks.specs.LawsHold.{is_kept};
ghost use Rattle.escape_laws.specs.MarkedLaws.{keeps};
ghost use Rattle.escape_laws.specs.WrittenLaw.{written_kept, written_as_all};

use crate::kept::same_store;
use crate::reads::read_mark;
use escape_marks::{Escape, StoreMark, store_mark};
use rule_terms::{Place, StoreNode, StoreTerm};
use toy_imp::Kind;

// A store without its writes.
#[tactic(auto, unfolding(term_meaning::specs::Writes::base_of))]
fn base(t: &StoreTerm) -> &StoreTerm
    ensures { result.now ≡ base_of t.now }
{
    let mut t = t;
    while let StoreNode::Put(u, _, _) = &t.node {
        t = u.get();
    }
    t
}

// `- store a b`
#[tactic(auto, unfolding(escape_marks::specs::LawsHold::is_kept, escape_marks::specs::LawsHold::is_marked, escape_marks::specs::Marks::atom_true))]
fn other_store(params: &[Kind], e: &Escape, a: &StoreTerm, b: &StoreTerm) -> bool
    ensures { result ≡ is_kept params.now e.now (minus (SameStore a.now b.now)) }
{
    let marks = e.stores.as_slice();
    match (store_mark(marks, a), store_mark(marks, b)) {
        (Some(m), Some(n)) => m.class != n.class,
        _ => true,
    }
}

// `- value (get p a) (get p c)`
#[tactic(auto, unfolding(escape_marks::specs::LawsHold::is_kept, escape_marks::specs::LawsHold::is_marked, escape_marks::specs::Marks::atom_true))]
fn read_unlike(params: &[Kind], e: &Escape, a: &StoreTerm, c: &StoreTerm, p: &Place) -> bool
    ensures { result ≡ is_kept params.now e.now (read_unlike a.now c.now p.now) }
{
    let marks = e.values.as_slice();
    match (read_mark(marks, p, a), read_mark(marks, p, c)) {
        (Some(m), Some(n)) => m.number != n.number,
        _ => true,
    }
}

// Whether some place that is written in t is read unlike in a and c.
#[tactic(auto, unfolding(term_meaning::specs::Writes::written_in))]
fn some_unlike(params: &[Kind], e: &Escape, a: &StoreTerm, c: &StoreTerm, t: &StoreTerm) -> bool
    ensures { result ≡ list_any (is_kept params.now e.now) (map (read_unlike a.now c.now) (written_in t.now)) }
{
    let mut rest = t;
    while let StoreNode::Put(u, p, _) = &rest.node {
        if read_unlike(params, e, a, c, p) {
            return true;
        }
        rest = u.get();
    }
    false
}

#[tactic(auto, using(crate::proofs::WrittenKept::alike_kept))]
fn alike_kept(params: &[Kind], e: &Escape, a: &StoreTerm, c: &StoreTerm) -> bool
    ensures { result ≡ keeps params.now e.now (written_alike a.now c.now) }
{
    same_store(params, e, a, c)
        || (other_store(params, e, base(a), base(c))
            || (some_unlike(params, e, a, c, a) || some_unlike(params, e, a, c, c)))
}

#[tactic(auto, unfolding(crate::specs::WrittenLaw::written_kept))]
fn written_kept(params: &[Kind], e: &Escape, a: &StoreTerm, n: &StoreMark) -> bool
    ensures { result ≡ written_kept params.now e.now a.now n.now }
{
    alike_kept(params, e, a, &n.store)
}

fn written_as_these(params: &[Kind], e: &Escape, a: &StoreTerm, marks: &[StoreMark]) -> bool
    ensures { result ≡ list_all (written_kept params.now e.now a.now) marks.now }
{
    for n in marks {
        if !written_kept(params, e, a, n) {
            return false;
        }
    }
    true
}

#[tactic(auto, unfolding(crate::specs::WrittenLaw::written_as_all))]
fn written_as_all(params: &[Kind], e: &Escape, m: &StoreMark) -> bool
    ensures { result ≡ written_as_all params.now e.now m.now }
{
    written_as_these(params, e, &m.store, e.stores.as_slice())
}

#[tactic(auto, using(escape_marks::proofs::Places::passes_next, escape_marks::proofs::Places::first_failing))]
fn first_unlike(params: &[Kind], e: &Escape, marks: &[StoreMark]) -> Option<usize>
    ensures { FindsFailing (written_as_all params.now e.now) marks.now result }
{
    for (k, m) in marks.iter().enumerate() {
        if !written_as_all(params, e, m) {
            return Some(k);
        }
    }
    None
}

/// The place of the first store mark at which a clause of law 5 is broken: it and another one are equal
/// without their writes and are read alike at each place written in them, and are of different classes.
/// `None` exactly where none is. It takes two look-ups of stores for each two marks, two more where
/// they are of different classes, and two of values a write where they are equal without their writes.
pub fn unlike_written(params: &[Kind], e: &Escape) -> Option<usize>
    ensures { FindsFailing (written_as_all params.now e.now) e.now.stores result }
{
    first_unlike(params, e, e.stores.as_slice())
}
