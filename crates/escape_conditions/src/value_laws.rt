//! Laws 11, 14 and 19: values of expressions behind a run that keeps them and behind a write that they
//! ignore, and positive ones. `specs/MarkedConditions.antt` has their clauses at a value term.

ghost use Rattle.std.specs.Prelude.{◌≡◌, pos};
ghost use Rattle.rule_terms.specs.Term.{num};
ghost use Rattle.rule_terms.specs.Term.{ev};
ghost use Rattle.law_clauses.specs.ClauseForms.{at_least_one, keeps_value, value_ignores};
ghost use Rattle.law_clauses.specs.Shapes.{put_at};
ghost use Rattle.escape_marks.specs.Failing.{FindsFailing};
ghost use Rattle.escape_conditions.specs.MarkedConditions.{kept, kept_at_names, value_stays, value_kept};

use crate::apart::names_apart;
use crate::literals::{equals_value, is_at_most};
use escape_laws::does_not_end;
use escape_marks::{Escape, ValueMark};
use law_clauses::{lists_keeps, lists_positive};
use rule_terms::{Obligation, Place, StoreNode, StoreTerm, ValueNode, ValueTerm};
use toy_imp::Kind;

// 11, at the value `w` of the expression behind the run `t` of k from s.
#[tactic(auto, using(law_clauses::proofs::Same::or_false))]
fn run_keeps(
    ob: &Obligation,
    e: &Escape,
    w: &ValueTerm,
    i: u32,
    t: &StoreTerm,
    k: u32,
    s: &StoreTerm,
) -> bool
    requires value { w.now ≡ ev i t.now }
    requires run { t.now ≡ Rattle.rule_terms.specs.Term.run k s.now }
    ensures { result ≡ kept ob.now e.now (keeps_value k s.now i) }
{
    let params = ob.params.as_slice();
    !lists_keeps(ob, Kind::Expr, k, i)
        || (does_not_end(params, e, t) || equals_value(params, e, w, i, s))
}

// 14, at the value `w` of the expression behind a write to p in s.
#[tactic(auto, using(crate::proofs::Names::value_names))]
fn ignores_write(
    ob: &Obligation,
    e: &Escape,
    w: &ValueTerm,
    i: u32,
    s: &StoreTerm,
    p: &Place,
    v: &ValueTerm,
) -> bool
    requires { w.now ≡ ev i (put_at s.now p.now v.now) }
    ensures { result ≡ kept_at_names ob.now e.now (λ n. value_ignores i n s.now p.now v.now) }
{
    let equal = equals_value(ob.params.as_slice(), e, w, i, s);
    names_apart(ob, e, Kind::Expr, i, p.name, equal)
}

fn value_stays(ob: &Obligation, e: &Escape, w: &ValueTerm, i: u32, t: &StoreTerm) -> bool
    requires { w.now ≡ ev i t.now }
    ensures { result ≡ value_stays ob.now e.now i t.now }
{
    match &t.node {
        StoreNode::Run(k, s) => run_keeps(ob, e, w, i, t, *k, s.get()),
        StoreNode::Put(s, p, v) => ignores_write(ob, e, w, i, s.get(), p, v.get()),
        _ => true,
    }
}

// 19
#[tactic(auto, using(law_clauses::proofs::Same::or_false))]
fn is_at_least_one(
    ob: &Obligation,
    e: &Escape,
    one: &ValueTerm,
    w: &ValueTerm,
    i: u32,
    s: &StoreTerm,
) -> bool
    requires one { one.now ≡ num (pos 1) }
    requires value { w.now ≡ ev i s.now }
    ensures { result ≡ kept ob.now e.now (at_least_one i s.now) }
{
    let params = ob.params.as_slice();
    !lists_positive(ob, i) || (does_not_end(params, e, s) || is_at_most(params, e, one, w))
}

#[tactic(auto, unfolding(crate::specs::MarkedConditions::value_kept))]
fn value_kept(ob: &Obligation, e: &Escape, one: &ValueTerm, w: &ValueTerm) -> bool
    requires { one.now ≡ num (pos 1) }
    ensures { result ≡ value_kept ob.now e.now w.now }
{
    match &w.node {
        ValueNode::Ev(i, s) => {
            is_at_least_one(ob, e, one, w, *i, s.get()) && value_stays(ob, e, w, *i, s.get())
        }
        _ => true,
    }
}

#[tactic(auto, using(escape_marks::proofs::Places::passes_next, escape_marks::proofs::Places::first_failing))]
fn first_broken(ob: &Obligation, e: &Escape, one: &ValueTerm, marks: &[ValueMark]) -> Option<usize>
    requires { one.now ≡ num (pos 1) }
    ensures { FindsFailing (λ m. value_kept ob.now e.now m.value) marks.now result }
{
    for (k, m) in marks.iter().enumerate() {
        if !value_kept(ob, e, one, &m.value) {
            return Some(k);
        }
    }
    None
}

/// The place of the first value mark at which a clause of law 11, 14 or 19 is broken: the value of an
/// expression behind a run that keeps it, or behind a write to a name that it ignores, is not that
/// before it, or a positive expression is below 1. `None` exactly where none is. It takes at most three
/// look-ups a clause, and a walk over the conditions for each of them.
pub fn broken_value(ob: &Obligation, e: &Escape) -> Option<usize>
    ensures { FindsFailing (λ m. value_kept ob.now e.now m.value) e.now.values result }
{
    let one = ValueTerm::num(1);
    first_broken(ob, e, &one, e.values.as_slice())
}
