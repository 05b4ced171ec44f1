//! Law 21: names that a listed condition says to differ.
//! `specs/MarkedConditions.antt` has its clauses at a condition.

ghost use Rattle.std.specs.Prelude.{◌≡◌};
ghost use Rattle.law_clauses.specs.ClauseForms.{names_differ};
ghost use Rattle.escape_marks.specs.Failing.{FindsFailing};
ghost use Rattle.escape_conditions.specs.MarkedConditions.{kept, name_kept};

use escape_laws::other_name;
use escape_marks::Escape;
use law_clauses::lists_distinct;
use rule_terms::Obligation;
use toy_imp::Condition;

#[tactic(auto, using(law_clauses::proofs::Same::or_false))]
fn names_differ(ob: &Obligation, e: &Escape, x: u32, y: u32) -> bool
    ensures { result ≡ kept ob.now e.now (names_differ x y) }
{
    !lists_distinct(ob, x, y) || other_name(ob.params.as_slice(), e, x, y)
}

#[tactic(auto, unfolding(crate::specs::MarkedConditions::name_kept))]
fn name_kept(ob: &Obligation, e: &Escape, c: &Condition) -> bool
    ensures { result ≡ name_kept ob.now e.now c.now }
{
    match c {
        Condition::Distinct(x, y) => names_differ(ob, e, *x, *y) && names_differ(ob, e, *y, *x),
        _ => true,
    }
}

#[tactic(auto, using(escape_marks::proofs::Places::passes_next, escape_marks::proofs::Places::first_failing))]
fn first_broken(ob: &Obligation, e: &Escape, conditions: &[Condition]) -> Option<usize>
    ensures { FindsFailing (name_kept ob.now e.now) conditions.now result }
{
    for (k, c) in conditions.iter().enumerate() {
        if !name_kept(ob, e, c) {
            return Some(k);
        }
    }
    None
}

/// The place of the first condition at which a clause of law 21 is broken: it says that two names
/// differ, and they have one class. `None` exactly where none is. It takes a walk over the conditions
/// and two classes for each such condition, twice.
pub fn broken_distinct(ob: &Obligation, e: &Escape) -> Option<usize>
    ensures { FindsFailing (name_kept ob.now e.now) ob.now.conditions result }
{
    first_broken(ob, e, ob.conditions.as_slice())
}
