//! The marks of two store terms that need not stand as terms: a write behind a run, and a run behind
//! a run. `specs/Marks.antt` of `escape_marks` says which mark is that of a term.

ghost use Rattle.std.specs.Prelude.{◌≡◌};
ghost use Rattle.std.specs.Option.{option_map};
ghost use Rattle.rule_terms.specs.Order.{store_same};
ghost use Rattle.rule_terms.specs.Term.{run};
ghost use Rattle.rule_terms.specs.declared.obligation.Atom.TheVariants.{SameStore};
ghost use Rattle.law_clauses.specs.Shapes.{put_at};
ghost use Rattle.law_clauses.specs.Signed.{plus};
ghost use Rattle.escape_marks.specs.Marks.{store_mark};
ghost use Rattle.escape_marks.specs.LawsHold.{is_kept};
ghost use Rattle.escape_conditions.specs.Shapes.{writes_behind, runs_behind};

use escape_marks::{Escape, StoreMark, store_mark};
use law_clauses::is_run;
use rule_terms::{Place, StoreNode, StoreTerm, ValueTerm};
use toy_imp::Kind;

#[tactic(auto, unfolding(crate::specs::Shapes::writes_behind))]
fn writes_behind(t: &StoreTerm, k: u32, s: &StoreTerm, p: &Place, v: &ValueTerm) -> bool
    ensures { result ≡ writes_behind t.now k s.now p.now v.now }
{
    match &t.node {
        StoreNode::Put(u, q, w) => is_run(u.get(), k, s) && q.same(p) && w.get().same(v),
        _ => false,
    }
}

/// Whether the term is the write of v at p behind the run of k from s.
#[tactic(auto, using(crate::proofs::BehindShapes::write_same))]
pub fn is_write(k: u32, s: &StoreTerm, p: &Place, v: &ValueTerm, t: &StoreTerm) -> bool
    ensures { result ≡ store_same (put_at (run k s.now) p.now v.now) t.now }
{
    writes_behind(t, k, s, p, v)
}

// The first mark of the write behind the run.
#[tactic(auto, unfolding(escape_marks::specs::Marks::store_mark))]
fn write_mark<'a>(
    marks: &'a [StoreMark],
    k: u32,
    s: &StoreTerm,
    p: &Place,
    v: &ValueTerm,
) -> Option<&'a StoreMark>
    ensures { option_map (λ m. m.now) result ≡ store_mark marks.now (put_at (run k s.now) p.now v.now) }
{
    for m in marks {
        if is_write(k, s, p, v, &m.store) {
            return Some(m);
        }
    }
    None
}

// `+ store t (put (run k s) p v)`
#[tactic(auto, unfolding(escape_marks::specs::LawsHold::is_kept, escape_marks::specs::LawsHold::is_marked, escape_marks::specs::Marks::atom_true))]
pub fn equals_write(
    params: &[Kind],
    e: &Escape,
    t: &StoreTerm,
    k: u32,
    s: &StoreTerm,
    p: &Place,
    v: &ValueTerm,
) -> bool
    ensures { result ≡ is_kept params.now e.now (plus (SameStore t.now (put_at (run k s.now) p.now v.now))) }
{
    let marks = e.stores.as_slice();
    match (store_mark(marks, t), write_mark(marks, k, s, p, v)) {
        (Some(m), Some(n)) => m.class == n.class,
        _ => true,
    }
}

#[tactic(auto, unfolding(crate::specs::Shapes::runs_behind))]
fn runs_behind(t: &StoreTerm, j: u32, k: u32, s: &StoreTerm) -> bool
    ensures { result ≡ runs_behind t.now j k s.now }
{
    match &t.node {
        StoreNode::Run(i, u) => *i == j && is_run(u.get(), k, s),
        _ => false,
    }
}

/// Whether the term is the run of j behind the run of k from s.
#[tactic(auto, using(crate::proofs::BehindShapes::run_same))]
pub fn is_second_run(j: u32, k: u32, s: &StoreTerm, t: &StoreTerm) -> bool
    ensures { result ≡ store_same (run j (run k s.now)) t.now }
{
    runs_behind(t, j, k, s)
}

// The first mark of the run behind the run.
#[tactic(auto, unfolding(escape_marks::specs::Marks::store_mark))]
fn run_mark<'a>(marks: &'a [StoreMark], j: u32, k: u32, s: &StoreTerm) -> Option<&'a StoreMark>
    ensures { option_map (λ m. m.now) result ≡ store_mark marks.now (run j (run k s.now)) }
{
    for m in marks {
        if is_second_run(j, k, s, &m.store) {
            return Some(m);
        }
    }
    None
}

// `+ store t (run j (run k s))`
#[tactic(auto, unfolding(escape_marks::specs::LawsHold::is_kept, escape_marks::specs::LawsHold::is_marked, escape_marks::specs::Marks::atom_true))]
pub fn equals_run(params: &[Kind], e: &Escape, t: &StoreTerm, j: u32, k: u32, s: &StoreTerm) -> bool
    ensures { result ≡ is_kept params.now e.now (plus (SameStore t.now (run j (run k s.now)))) }
{
    let marks = e.stores.as_slice();
    match (store_mark(marks, t), run_mark(marks, j, k, s)) {
        (Some(m), Some(n)) => m.class == n.class,
        _ => true,
    }
}
