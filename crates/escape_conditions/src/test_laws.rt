//! Laws 13 and 15: tests behind a run that keeps them and behind a write that they ignore.
//! `specs/MarkedConditions.antt` has their clauses at a test mark.

ghost use Rattle.std.specs.Prelude.{◌≡◌, ◌||◌};
ghost use Rattle.rule_terms.specs.Term.{run};
ghost use Rattle.rule_terms.specs.declared.obligation.Atom.TheVariants.{Holds};
ghost use Rattle.law_clauses.specs.Signed.{plus, minus};
ghost use Rattle.law_clauses.specs.ClauseForms.{keeps_test, keeps_test_back};
ghost use Rattle.law_clauses.specs.ClauseForms.{test_ignores, test_ignores_back};
ghost use Rattle.law_clauses.specs.Shapes.{put_at};
ghost use Rattle.escape_marks.specs.Failing.{FindsFailing};
ghost use Rattle.escape_marks.specs.LawsHold.{is_kept};
ghost use Rattle.escape_conditions.specs.MarkedConditions.{kept, kept_at_names};
ghost use Rattle.escape_conditions.specs.MarkedConditions.{test_stays, test_kept};

use crate::apart::names_apart;
use crate::literals::{does_not_hold, holds};
use escape_laws::does_not_end;
use escape_marks::{Escape, TestMark};
use law_clauses::lists_keeps;
use rule_terms::{Obligation, Place, StoreNode, StoreTerm, ValueTerm};
use toy_imp::Kind;

// The test does not hold at the one store, or holds at the other.
fn holds_too(params: &[Kind], e: &Escape, q: u32, s: &StoreTerm, t: &StoreTerm) -> bool
    ensures { result ≡ (is_kept params.now e.now (minus (Holds q s.now)) || is_kept params.now e.now (plus (Holds q t.now))) }
{
    does_not_hold(params, e, q, s) || holds(params, e, q, t)
}

// 13, at the run `t` of k from s.
#[tactic(auto, using(law_clauses::proofs::Same::or_false))]
fn run_keeps(ob: &Obligation, e: &Escape, q: u32, t: &StoreTerm, k: u32, s: &StoreTerm) -> bool
    requires { t.now ≡ run k s.now }
    ensures { result ≡ kept ob.now e.now (keeps_test k s.now q) }
{
    let params = ob.params.as_slice();
    !lists_keeps(ob, Kind::Test, k, q)
        || (does_not_end(params, e, t) || holds_too(params, e, q, s, t))
}

#[tactic(auto, using(law_clauses::proofs::Same::or_false))]
fn run_keeps_back(ob: &Obligation, e: &Escape, q: u32, t: &StoreTerm, k: u32, s: &StoreTerm) -> bool
    requires { t.now ≡ run k s.now }
    ensures { result ≡ kept ob.now e.now (keeps_test_back k s.now q) }
{
    let params = ob.params.as_slice();
    !lists_keeps(ob, Kind::Test, k, q)
        || (does_not_end(params, e, t) || holds_too(params, e, q, t, s))
}

// 15, at the write `t` of v at p in s.
#[tactic(auto, using(crate::proofs::Names::test_names))]
fn ignores_write(
    ob: &Obligation,
    e: &Escape,
    q: u32,
    t: &StoreTerm,
    s: &StoreTerm,
    p: &Place,
    v: &ValueTerm,
) -> bool
    requires { t.now ≡ put_at s.now p.now v.now }
    ensures { result ≡ kept_at_names ob.now e.now (λ n. test_ignores q n s.now p.now v.now) }
{
    let rest = holds_too(ob.params.as_slice(), e, q, s, t);
    names_apart(ob, e, Kind::Test, q, p.name, rest)
}

#[tactic(auto, using(crate::proofs::Names::test_names_back))]
fn ignores_write_back(
    ob: &Obligation,
    e: &Escape,
    q: u32,
    t: &StoreTerm,
    s: &StoreTerm,
    p: &Place,
    v: &ValueTerm,
) -> bool
    requires { t.now ≡ put_at s.now p.now v.now }
    ensures { result ≡ kept_at_names ob.now e.now (λ n. test_ignores_back q n s.now p.now v.now) }
{
    let rest = holds_too(ob.params.as_slice(), e, q, t, s);
    names_apart(ob, e, Kind::Test, q, p.name, rest)
}

#[tactic(auto, unfolding(crate::specs::MarkedConditions::test_stays))]
fn test_stays(ob: &Obligation, e: &Escape, q: u32, t: &StoreTerm) -> bool
    ensures { result ≡ test_stays ob.now e.now q t.now }
{
    match &t.node {
        StoreNode::Run(k, s) => {
            run_keeps(ob, e, q, t, *k, s.get()) && run_keeps_back(ob, e, q, t, *k, s.get())
        }
        StoreNode::Put(s, p, v) => {
            ignores_write(ob, e, q, t, s.get(), p, v.get())
                && ignores_write_back(ob, e, q, t, s.get(), p, v.get())
        }
        _ => true,
    }
}

#[tactic(auto, unfolding(crate::specs::MarkedConditions::test_kept))]
fn test_kept(ob: &Obligation, e: &Escape, m: &TestMark) -> bool
    ensures { result ≡ test_kept ob.now e.now m.now }
{
    test_stays(ob, e, m.test, &m.store)
}

#[tactic(auto, using(escape_marks::proofs::Places::passes_next, escape_marks::proofs::Places::first_failing))]
fn first_broken(ob: &Obligation, e: &Escape, marks: &[TestMark]) -> Option<usize>
    ensures { FindsFailing (test_kept ob.now e.now) marks.now result }
{
    for (k, m) in marks.iter().enumerate() {
        if !test_kept(ob, e, m) {
            return Some(k);
        }
    }
    None
}

/// The place of the first test mark at which a clause of law 13 or 15 is broken: a test holds behind a
/// run that ends and keeps it, or behind a write to a name that it ignores, and not before it, or the
/// other way round. `None` exactly where none is. It takes at most six look-ups a mark, and two walks
/// over the conditions.
pub fn broken_test(ob: &Obligation, e: &Escape) -> Option<usize>
    ensures { FindsFailing (test_kept ob.now e.now) e.now.tests result }
{
    first_broken(ob, e, e.tests.as_slice())
}
