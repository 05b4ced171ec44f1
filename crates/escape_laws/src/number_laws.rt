//! Laws 23 and 24: 0 and 1 in sums and products, and differences of equal values.
//! `specs/MarkedLaws.antt` has their clauses at a value term.

ghost use Rattle.std.specs.Prelude.{◌≡◌, pos};
ghost use Rattle.rule_terms.specs.Term.{num};
ghost use Rattle.law_clauses.specs.ClauseForms.{equal_values, if_equal};
ghost use Rattle.escape_marks.specs.Failing.{FindsFailing};
ghost use Rattle.escape_marks.specs.LawsHold.{clause_kept};
ghost use Rattle.escape_laws.specs.MarkedLaws.{sums_kept};

use crate::kept::{equal, unequal};
use escape_marks::{Escape, ValueMark};
use rule_terms::{ValueNode, ValueTerm};
use toy_imp::Kind;

// If a = b: v = w.
#[tactic(auto, using(law_clauses::proofs::Same::or_false))]
fn if_equal(
    params: &[Kind],
    e: &Escape,
    a: &ValueTerm,
    b: &ValueTerm,
    v: &ValueTerm,
    w: &ValueTerm,
) -> bool
    ensures { result ≡ clause_kept params.now e.now (if_equal a.now b.now (equal_values v.now w.now)) }
{
    unequal(params, e, a, b) || equal(params, e, v, w)
}

#[tactic(auto, unfolding(crate::specs::MarkedLaws::sums_kept))]
fn sums_kept(params: &[Kind], e: &Escape, zero: &ValueTerm, one: &ValueTerm, v: &ValueTerm) -> bool
    requires zero { zero.now ≡ num (pos 0) }
    requires one { one.now ≡ num (pos 1) }
    ensures { result ≡ sums_kept params.now e.now v.now }
{
    match &v.node {
        ValueNode::Add(a, b) => {
            if_equal(params, e, b.get(), zero, v, a.get())
                && if_equal(params, e, a.get(), zero, v, b.get())
        }
        ValueNode::Mul(a, b) => {
            if_equal(params, e, a.get(), zero, v, zero)
                && if_equal(params, e, b.get(), zero, v, zero)
                && if_equal(params, e, a.get(), one, v, b.get())
                && if_equal(params, e, b.get(), one, v, a.get())
        }
        ValueNode::Sub(a, b) => if_equal(params, e, a.get(), b.get(), v, zero),
        _ => true,
    }
}

#[tactic(auto, using(escape_marks::proofs::Places::passes_next, escape_marks::proofs::Places::first_failing))]
fn first_broken(
    params: &[Kind],
    e: &Escape,
    zero: &ValueTerm,
    one: &ValueTerm,
    marks: &[ValueMark],
) -> Option<usize>
    requires zero { zero.now ≡ num (pos 0) }
    requires one { one.now ≡ num (pos 1) }
    ensures { FindsFailing (λ m. sums_kept params.now e.now m.value) marks.now result }
{
    for (k, m) in marks.iter().enumerate() {
        if !sums_kept(params, e, zero, one, &m.value) {
            return Some(k);
        }
    }
    None
}

/// The place of the first value mark at which a clause of law 23 or 24 is broken: a sum with 0, a
/// product with 0 or 1, or a difference of equal values has another number than it says. `None`
/// exactly where none is. It takes four look-ups a clause, at most four clauses a mark.
pub fn broken_sum(params: &[Kind], e: &Escape) -> Option<usize>
    ensures { FindsFailing (λ m. sums_kept params.now e.now m.value) e.now.values result }
{
    let zero = ValueTerm::num(0);
    let one = ValueTerm::num(1);
    first_broken(params, e, &zero, &one, e.values.as_slice())
}
