//! Law 3: a read behind a write with another index. `specs/IndexLaw.antt` has its clauses at a value
//! term.

ghost use Rattle.std.specs.Prelude.{◌≡◌};
ghost use Rattle.rule_terms.specs.TermView.{terms_of};
ghost use Rattle.rule_terms.specs.declared.obligation.Atom.TheVariants.{SameValue};
ghost use Rattle.term_meaning.specs.Indices.{count};
ghost use Rattle.law_clauses.specs.Shapes.{put_at, get_at};
ghost use Rattle.law_clauses.specs.Signed.{plus};
ghost use Rattle.law_clauses.specs.ClauseForms.{past_index};
ghost use Rattle.escape_marks.specs.Failing.{FindsFailing};
ghost use Rattle.escape_laws.specs.MarkedLaws.{keeps};
ghost use Rattle.escape_laws.specs.IndexLaw.{each_pair, equal_or, index_kept};

use crate::kept::equal;
use crate::reads::equals_read;
use escape_marks::{Escape, ValueMark};
use law_clauses::count;
use rule_terms::{Place, StoreNode, StoreTerm, ValueNode, ValueTerm};
use toy_imp::Kind;

fn equal_or(params: &[Kind], e: &Escape, a: &ValueTerm, b: &ValueTerm, rest: bool) -> bool
    ensures { result ≡ equal_or params.now e.now rest a.now b.now }
{
    equal(params, e, a, b) || rest
}

// Whether each index equals the other place's index beside it, or the rest is true.
#[tactic(auto, using(law_clauses::proofs::Pairs::count_terms), unfolding(crate::specs::IndexLaw::each_pair))]
fn pairs_equal(params: &[Kind], e: &Escape, js: &[ValueTerm], is: &[ValueTerm], rest: bool) -> bool
    requires { count (terms_of js.now) ≡ count (terms_of is.now) }
    ensures { result ≡ each_pair (equal_or params.now e.now rest) (terms_of js.now) (terms_of is.now) }
{
    for (i, v) in js.iter().enumerate() {
        if !equal_or(params, e, v, &is[i], rest) {
            return false;
        }
    }
    true
}

// The read `w` of q behind the write of v at p in s: each index of q equals that of p, or the read is
// that before the write.
#[tactic(auto, using(crate::proofs::IndexKept::pairs_or))]
fn pairs_kept(
    params: &[Kind],
    e: &Escape,
    w: &ValueTerm,
    q: &Place,
    s: &StoreTerm,
    p: &Place,
    v: &ValueTerm,
) -> bool
    requires read { w.now ≡ get_at q.now (put_at s.now p.now v.now) }
    requires as_many { count q.now.indices ≡ count p.now.indices }
    ensures { result ≡ each_pair (λ a b. keeps params.now e.now (past_index s.now p.now v.now q.now a b)) q.now.indices p.now.indices }
{
    let same = equals_read(params, e, w, q, s);
    pairs_equal(params, e, q.indices.as_slice(), p.indices.as_slice(), same)
}

#[tactic(auto, unfolding(crate::specs::IndexLaw::index_kept))]
fn index_kept(params: &[Kind], e: &Escape, w: &ValueTerm) -> bool
    ensures { result ≡ index_kept params.now e.now w.now }
{
    let ValueNode::Get(q, t) = &w.node else {
        return true;
    };
    let StoreNode::Put(s, p, v) = &t.get().node else {
        return true;
    };
    if count(q) != count(p) {
        return true;
    }
    pairs_kept(params, e, w, q, s.get(), p, v.get())
}

#[tactic(auto, using(escape_marks::proofs::Places::passes_next, escape_marks::proofs::Places::first_failing))]
fn first_broken(params: &[Kind], e: &Escape, marks: &[ValueMark]) -> Option<usize>
    ensures { FindsFailing (λ m. index_kept params.now e.now m.value) marks.now result }
{
    for (k, m) in marks.iter().enumerate() {
        if !index_kept(params, e, &m.value) {
            return Some(k);
        }
    }
    None
}

/// The place of the first value mark at which a clause of law 3 is broken: a read behind a write of as
/// many indices, one of which is another one, has not the number of the same read before the write.
/// `None` exactly where none is. It takes two look-ups for each such read and two more an index.
pub fn broken_index(params: &[Kind], e: &Escape) -> Option<usize>
    ensures { FindsFailing (λ m. index_kept params.now e.now m.value) e.now.values result }
{
    first_broken(params, e, e.values.as_slice())
}
