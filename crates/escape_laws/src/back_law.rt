//! Law 1: a read behind a write to its cell is what was written.
//! `specs/ReadBack.antt` has its clause at a value term.

ghost use Rattle.std.specs.Prelude.{◌≡◌, [], ◌∷◌, ◌++◌};
ghost use Rattle.std.specs.List.{list_any};
ghost use Rattle.rule_terms.specs.TermView.{terms_of};
ghost use Rattle.rule_terms.specs.declared.obligation.Atom.TheVariants.{SameValue};
ghost use Rattle.term_meaning.specs.Indices.{count};
ghost use Rattle.law_clauses.specs.Signed.{plus};
ghost use Rattle.law_clauses.specs.WriteLaws.{unequal};
ghost use Rattle.escape_marks.specs.Failing.{FindsFailing};
ghost use Rattle.escape_marks.specs.LawsHold.{is_kept};
ghost use Rattle.escape_laws.specs.ReadBack.{back_kept};

use crate::kept::{does_not_end, equal, other_name, unequal};
use escape_marks::{Escape, ValueMark};
use law_clauses::count;
use rule_terms::{Place, StoreNode, ValueNode, ValueTerm};
use toy_imp::Kind;

// Whether some index is not the other place's index beside it, or has no mark.
#[tactic(auto, using(law_clauses::proofs::Pairs::count_terms), unfolding(law_clauses::specs::WriteLaws::unequal))]
fn some_unequal(params: &[Kind], e: &Escape, js: &[ValueTerm], is: &[ValueTerm]) -> bool
    requires { count (terms_of js.now) ≡ count (terms_of is.now) }
    ensures { result ≡ list_any (is_kept params.now e.now) (unequal (terms_of js.now) (terms_of is.now)) }
{
    for (i, v) in js.iter().enumerate() {
        if unequal(params, e, v, &is[i]) {
            return true;
        }
    }
    false
}

// An index is not the other one beside it, or w = v.
#[tactic(auto, using(crate::proofs::BackKept::one_behind))]
fn unequal_or(
    params: &[Kind],
    e: &Escape,
    q: &Place,
    p: &Place,
    w: &ValueTerm,
    v: &ValueTerm,
) -> bool
    requires { count q.now.indices ≡ count p.now.indices }
    ensures { result ≡ list_any (is_kept params.now e.now) (unequal q.now.indices p.now.indices ++ plus (SameValue w.now v.now) ∷ []) }
{
    some_unequal(params, e, q.indices.as_slice(), p.indices.as_slice()) || equal(params, e, w, v)
}

#[tactic(auto, using(law_clauses::proofs::Pairs::count_terms), unfolding(crate::specs::ReadBack::back_kept))]
fn back_kept(params: &[Kind], e: &Escape, w: &ValueTerm) -> bool
    ensures { result ≡ back_kept params.now e.now w.now }
{
    let ValueNode::Get(q, t) = &w.node else {
        return true;
    };
    let StoreNode::Put(_, p, v) = &t.get().node else {
        return true;
    };
    if count(q) != count(p) {
        return true;
    }
    does_not_end(params, e, t.get())
        || (other_name(params, e, q.name, p.name) || unequal_or(params, e, q, p, w, v.get()))
}

#[tactic(auto, using(escape_marks::proofs::Places::passes_next, escape_marks::proofs::Places::first_failing))]
fn first_broken(params: &[Kind], e: &Escape, marks: &[ValueMark]) -> Option<usize>
    ensures { FindsFailing (λ m. back_kept params.now e.now m.value) marks.now result }
{
    for (k, m) in marks.iter().enumerate() {
        if !back_kept(params, e, &m.value) {
            return Some(k);
        }
    }
    None
}

/// The place of the first value mark at which a clause of law 1 is broken: a read behind a write
/// that ends, of an equal name and equal indices, has not the number of what was written. `None`
/// exactly where none is. It takes two look-ups an index and three more for each such read.
pub fn broken_read_back(params: &[Kind], e: &Escape) -> Option<usize>
    ensures { FindsFailing (λ m. back_kept params.now e.now m.value) e.now.values result }
{
    first_broken(params, e, e.values.as_slice())
}
