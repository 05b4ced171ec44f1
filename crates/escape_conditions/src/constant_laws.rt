//! Law 20: a constant expression at two stores that end.
//! `specs/MarkedConditions.antt` has its clauses at two value terms.

ghost use Rattle.std.specs.Prelude.{◌≡◌};
ghost use Rattle.std.specs.List.{list_all};
ghost use Rattle.rule_terms.specs.Term.{ev};
ghost use Rattle.rule_terms.specs.declared.obligation.Atom.TheVariants.{Ends};
ghost use Rattle.law_clauses.specs.Signed.{minus};
ghost use Rattle.escape_marks.specs.Failing.{FindsFailing};
ghost use Rattle.escape_marks.specs.LawsHold.{is_kept};
ghost use Rattle.escape_conditions.specs.MarkedConditions.{constant_as, constant_kept};

use escape_laws::{does_not_end, equal};
use escape_marks::{Escape, ValueMark};
use law_clauses::lists_constant;
use rule_terms::{Obligation, StoreTerm, ValueNode, ValueTerm};

// The value `w` of the expression at a, and the value of a mark, if it is of the same expression.
#[tactic(auto, using(law_clauses::proofs::Same::or_false), unfolding(crate::specs::MarkedConditions::constant_as))]
fn constant_as(
    ob: &Obligation,
    e: &Escape,
    w: &ValueTerm,
    i: u32,
    a: &StoreTerm,
    first: bool,
    n: &ValueMark,
) -> bool
    requires value { w.now ≡ ev i a.now }
    requires first { first ≡ is_kept ob.now.params e.now (minus (Ends a.now)) }
    ensures { result ≡ constant_as ob.now e.now i a.now n.now }
{
    let params = ob.params.as_slice();
    match &n.value.node {
        ValueNode::Ev(j, c) => {
            i != *j
                || (first || (does_not_end(params, e, c.get()) || equal(params, e, w, &n.value)))
        }
        _ => true,
    }
}

fn constant_as_these(
    ob: &Obligation,
    e: &Escape,
    w: &ValueTerm,
    i: u32,
    a: &StoreTerm,
    first: bool,
    marks: &[ValueMark],
) -> bool
    requires value { w.now ≡ ev i a.now }
    requires first { first ≡ is_kept ob.now.params e.now (minus (Ends a.now)) }
    ensures { result ≡ list_all (constant_as ob.now e.now i a.now) marks.now }
{
    for n in marks {
        if !constant_as(ob, e, w, i, a, first, n) {
            return false;
        }
    }
    true
}

#[tactic(auto, unfolding(crate::specs::MarkedConditions::constant_kept))]
fn constant_kept(ob: &Obligation, e: &Escape, w: &ValueTerm) -> bool
    ensures { result ≡ constant_kept ob.now e.now w.now }
{
    let ValueNode::Ev(i, a) = &w.node else {
        return true;
    };
    if !lists_constant(ob, *i) {
        return true;
    }
    let first = does_not_end(ob.params.as_slice(), e, a.get());
    constant_as_these(ob, e, w, *i, a.get(), first, e.values.as_slice())
}

#[tactic(auto, using(escape_marks::proofs::Places::passes_next, escape_marks::proofs::Places::first_failing))]
fn first_unlike(ob: &Obligation, e: &Escape, marks: &[ValueMark]) -> Option<usize>
    ensures { FindsFailing (λ m. constant_kept ob.now e.now m.value) marks.now result }
{
    for (k, m) in marks.iter().enumerate() {
        if !constant_kept(ob, e, &m.value) {
            return Some(k);
        }
    }
    None
}

/// The place of the first value mark at which a clause of law 20 is broken: it and another one are of
/// one constant expression, at stores that end, and have different numbers. `None` exactly where none
/// is. It walks over the marks for each value of a constant expression, with at most three look-ups
/// for each two such values.
pub fn unlike_constant(ob: &Obligation, e: &Escape) -> Option<usize>
    ensures { FindsFailing (λ m. constant_kept ob.now e.now m.value) e.now.values result }
{
    first_unlike(ob, e, e.values.as_slice())
}
