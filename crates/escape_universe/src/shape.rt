//! The store terms that an exchange makes, by their parts: whether a term is one of them, and whether
//! it has a mark. `specs/Shapes.antt` says which terms they are.

ghost use Rattle.std.specs.Prelude.{◌≡◌, is_some};
ghost use Rattle.rule_terms.specs.Order.{store_same};
ghost use Rattle.rule_terms.specs.Term.{run};
ghost use Rattle.law_clauses.specs.Shapes.{put_at};
ghost use Rattle.term_universe.specs.Universe.{exchanged};
ghost use Rattle.escape_marks.specs.Marks.{store_mark};
ghost use Rattle.escape_universe.specs.Shapes.{shape_term, both_terms, runs_write};

use escape_conditions::{is_second_run, is_write};
use escape_marks::StoreMark;
use law_clauses::{is_put, is_run};
use rule_terms::{Place, StoreNode, StoreTerm, ValueTerm, commute, ignores};
use toy_imp::Condition;

/// A store term by its parts.
#[derive(Clone, Copy)]
pub enum Shape<'a> {
    Run(u32, &'a StoreTerm),
    /// A run behind a run.
    Runs(u32, u32, &'a StoreTerm),
    Write(&'a StoreTerm, &'a Place, &'a ValueTerm),
    /// A write behind a run.
    WriteBehind(u32, &'a StoreTerm, &'a Place, &'a ValueTerm),
    /// A run behind a write.
    RunBehind(u32, &'a StoreTerm, &'a Place, &'a ValueTerm),
}

/// What one exchange makes of a store term.
#[derive(Clone, Copy)]
pub struct Exchanged<'a> {
    pub first: Shape<'a>,
    pub second: Shape<'a>,
}

#[tactic(auto, using(crate::proofs::ShapeTerms::run_same))]
fn is_one_run(k: u32, s: &StoreTerm, t: &StoreTerm) -> bool
    ensures { result ≡ store_same (run k s.now) t.now }
{
    is_run(t, k, s)
}

#[tactic(auto, using(crate::proofs::ShapeTerms::write_same))]
fn is_one_write(s: &StoreTerm, p: &Place, v: &ValueTerm, t: &StoreTerm) -> bool
    ensures { result ≡ store_same (put_at s.now p.now v.now) t.now }
{
    is_put(t, s, p, v)
}

#[tactic(auto, unfolding(crate::specs::Shapes::runs_write))]
fn runs_write(t: &StoreTerm, k: u32, s: &StoreTerm, p: &Place, v: &ValueTerm) -> bool
    ensures { result ≡ runs_write t.now k s.now p.now v.now }
{
    match &t.node {
        StoreNode::Run(j, u) => *j == k && is_put(u.get(), s, p, v),
        _ => false,
    }
}

#[tactic(auto, using(crate::proofs::ShapeTerms::behind_same))]
fn is_run_behind(k: u32, s: &StoreTerm, p: &Place, v: &ValueTerm, t: &StoreTerm) -> bool
    ensures { result ≡ store_same (run k (put_at s.now p.now v.now)) t.now }
{
    runs_write(t, k, s, p, v)
}

/// Whether the term is this one.
pub fn is_shape(x: Shape<'_>, t: &StoreTerm) -> bool
    ensures { result ≡ store_same (shape_term x.entry) t.now }
{
    match x {
        Shape::Run(k, s) => is_one_run(k, s, t),
        Shape::Runs(j, k, s) => is_second_run(j, k, s, t),
        Shape::Write(s, p, v) => is_one_write(s, p, v, t),
        Shape::WriteBehind(k, s, p, v) => is_write(k, s, p, v, t),
        Shape::RunBehind(k, s, p, v) => is_run_behind(k, s, p, v, t),
    }
}

/// Whether the term has a mark.
#[tactic(auto, unfolding(escape_marks::specs::Marks::store_mark))]
pub fn has_shape(marks: &[StoreMark], x: Shape<'_>) -> bool
    ensures { result ≡ is_some (store_mark marks.now (shape_term x.entry)) }
{
    for m in marks {
        if is_shape(x, &m.store) {
            return true;
        }
    }
    false
}

#[tactic(auto, unfolding(term_universe::specs::Universe::commuted, term_universe::specs::Universe::run_first, term_universe::specs::Universe::write_first))]
fn behind_run<'a>(conditions: &[Condition], k: u32, u: &'a StoreTerm) -> Option<Exchanged<'a>>
    ensures { both_terms result ≡ exchanged conditions.now (run k u.now) }
{
    match &u.node {
        StoreNode::Run(j, s) => {
            if !commute(conditions, *j, k) {
                return None;
            }
            Some(Exchanged {
                first: Shape::Run(k, s.get()),
                second: Shape::Runs(*j, k, s.get()),
            })
        }
        StoreNode::Put(s, p, v) => {
            if !ignores(conditions, k, p.name) {
                return None;
            }
            Some(Exchanged {
                first: Shape::Run(k, s.get()),
                second: Shape::WriteBehind(k, s.get(), p, v.get()),
            })
        }
        _ => None,
    }
}

#[tactic(auto, unfolding(term_universe::specs::Universe::commuted, term_universe::specs::Universe::run_first, term_universe::specs::Universe::write_first))]
fn behind_write<'a>(
    conditions: &[Condition],
    u: &'a StoreTerm,
    p: &'a Place,
    v: &'a ValueTerm,
) -> Option<Exchanged<'a>>
    ensures { both_terms result ≡ exchanged conditions.now (put_at u.now p.now v.now) }
{
    match &u.node {
        StoreNode::Run(k, s) => {
            if !ignores(conditions, *k, p.name) {
                return None;
            }
            Some(Exchanged {
                first: Shape::Write(s.get(), p, v),
                second: Shape::RunBehind(*k, s.get(), p, v),
            })
        }
        _ => None,
    }
}

/// What one exchange makes of a store term. `None` exactly where it makes nothing.
#[tactic(auto, unfolding(term_universe::specs::Universe::commuted, term_universe::specs::Universe::run_first, term_universe::specs::Universe::write_first))]
pub fn exchange<'a>(conditions: &[Condition], s: &'a StoreTerm) -> Option<Exchanged<'a>>
    ensures { both_terms result ≡ exchanged conditions.now s.now }
{
    match &s.node {
        StoreNode::Run(k, u) => behind_run(conditions, *k, u.get()),
        StoreNode::Put(u, p, v) => behind_write(conditions, u.get(), p, v.get()),
        _ => None,
    }
}
