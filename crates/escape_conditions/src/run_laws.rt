//! Laws 16 and 18: a run behind a write that it ignores, and two runs that commute.
//! `specs/MarkedConditions.antt` has their clauses at a store term.

ghost use Rattle.std.specs.Prelude.{◌≡◌};
ghost use Rattle.rule_terms.specs.Term.{run};
ghost use Rattle.law_clauses.specs.ClauseForms.{run_ignores, runs_commute};
ghost use Rattle.law_clauses.specs.Shapes.{put_at};
ghost use Rattle.escape_marks.specs.Failing.{FindsFailing};
ghost use Rattle.escape_conditions.specs.MarkedConditions.{kept, kept_at_names, run_kept};

use crate::apart::names_apart;
use crate::behind::{equals_run, equals_write};
use escape_marks::{Escape, StoreMark};
use law_clauses::lists_commutes;
use rule_terms::{Obligation, Place, StoreNode, StoreTerm, ValueTerm};
use toy_imp::Kind;

// 16, at the run `t` of k behind the write of v at p in s.
#[tactic(auto, using(crate::proofs::Names::run_names))]
fn ignores_write(
    ob: &Obligation,
    e: &Escape,
    t: &StoreTerm,
    k: u32,
    s: &StoreTerm,
    p: &Place,
    v: &ValueTerm,
) -> bool
    requires { t.now ≡ run k (put_at s.now p.now v.now) }
    ensures { result ≡ kept_at_names ob.now e.now (λ n. run_ignores k n s.now p.now v.now) }
{
    let equal = equals_write(ob.params.as_slice(), e, t, k, s, p, v);
    names_apart(ob, e, Kind::Stmt, k, p.name, equal)
}

// 18, at the run `t` of k behind the run of j from s.
#[tactic(auto, using(law_clauses::proofs::Same::or_false))]
fn commutes(ob: &Obligation, e: &Escape, t: &StoreTerm, j: u32, k: u32, s: &StoreTerm) -> bool
    requires { t.now ≡ run k (run j s.now) }
    ensures { result ≡ kept ob.now e.now (runs_commute j k s.now) }
{
    !lists_commutes(ob, j, k) || equals_run(ob.params.as_slice(), e, t, j, k, s)
}

#[tactic(auto, unfolding(crate::specs::MarkedConditions::run_kept))]
fn run_kept(ob: &Obligation, e: &Escape, t: &StoreTerm) -> bool
    ensures { result ≡ run_kept ob.now e.now t.now }
{
    let StoreNode::Run(k, u) = &t.node else {
        return true;
    };
    match &u.get().node {
        StoreNode::Put(s, p, v) => ignores_write(ob, e, t, *k, s.get(), p, v.get()),
        StoreNode::Run(j, s) => commutes(ob, e, t, *j, *k, s.get()),
        _ => true,
    }
}

#[tactic(auto, using(escape_marks::proofs::Places::passes_next, escape_marks::proofs::Places::first_failing))]
fn first_broken(ob: &Obligation, e: &Escape, marks: &[StoreMark]) -> Option<usize>
    ensures { FindsFailing (λ m. run_kept ob.now e.now m.store) marks.now result }
{
    for (k, m) in marks.iter().enumerate() {
        if !run_kept(ob, e, &m.store) {
            return Some(k);
        }
    }
    None
}

/// The place of the first store mark at which a clause of law 16 or 18 is broken: a run behind a write
/// to a name that it ignores is not the write behind the run, or two runs that commute are not equal
/// in the other order. `None` exactly where none is. It takes two look-ups for each run behind a write
/// or a run, and a walk over the conditions for each behind a write.
pub fn broken_run(ob: &Obligation, e: &Escape) -> Option<usize>
    ensures { FindsFailing (λ m. run_kept ob.now e.now m.store) e.now.stores result }
{
    first_broken(ob, e, e.stores.as_slice())
}
