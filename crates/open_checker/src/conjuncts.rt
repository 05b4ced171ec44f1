//! Known conjuncts and the path, which are true in an escape, and the goal, which is false.
//! `specs/Points.antt` says what is asked of them.

ghost use Rattle.std.specs.Prelude.{◌≡◌, ◌↔◌, IsTrue};
ghost use Rattle.std.specs.List.{list_all};
ghost use Rattle.escape_marks.specs.Failing.{FindsFailing};
ghost use Rattle.escape_marks.specs.Marks.{literal_true, conjunct_true};
ghost use Rattle.open_checker.specs.Points.{GoalFails};

use escape_marks::{Escape, is_given_true, is_true_literal};
use rule_terms::{Conjunct, Literal, Obligation};
use toy_imp::Kind;

// The place of the first literal that is false.
#[tactic(auto, using(escape_marks::proofs::Places::passes_next, escape_marks::proofs::Places::first_failing))]
fn first_false(params: &[Kind], e: &Escape, xs: &[Literal]) -> Option<usize>
    ensures { FindsFailing (literal_true params.now e.now) xs.now result }
{
    for (k, x) in xs.iter().enumerate() {
        if !is_true_literal(params, e, x) {
            return Some(k);
        }
    }
    None
}

// Whether all literals are true.
fn are_true(params: &[Kind], e: &Escape, xs: &[Literal]) -> bool
    ensures { result ≡ list_all (literal_true params.now e.now) xs.now }
{
    for x in xs {
        if !is_true_literal(params, e, x) {
            return false;
        }
    }
    true
}

// Whether one of `when` is false, or what the conjunct gives is true.
fn is_true_conjunct(params: &[Kind], e: &Escape, c: &Conjunct) -> bool
    ensures { result ≡ conjunct_true params.now e.now c.now }
{
    !are_true(params, e, c.when.as_slice()) || is_given_true(params, e, &c.gives)
}

#[tactic(auto, using(escape_marks::proofs::Places::passes_next, escape_marks::proofs::Places::first_failing))]
fn first_broken(params: &[Kind], e: &Escape, cs: &[Conjunct]) -> Option<usize>
    ensures { FindsFailing (conjunct_true params.now e.now) cs.now result }
{
    for (k, c) in cs.iter().enumerate() {
        if !is_true_conjunct(params, e, c) {
            return Some(k);
        }
    }
    None
}

/// The place of the first known conjunct that is false in an escape: its `when` literals are true,
/// and what it gives is not. `None` exactly where each is true.
pub fn broken_known(ob: &Obligation, e: &Escape) -> Option<usize>
    ensures { FindsFailing (conjunct_true ob.now.params e.now) ob.now.known result }
{
    first_broken(ob.params.as_slice(), e, ob.known.as_slice())
}

/// The place of the first literal of the path that is false in an escape. `None` exactly where each
/// is true.
pub fn broken_path(ob: &Obligation, e: &Escape) -> Option<usize>
    ensures { FindsFailing (literal_true ob.now.params e.now) ob.now.path result }
{
    first_false(ob.params.as_slice(), e, ob.path.as_slice())
}

/// Whether the goal fails in an escape: its `when` literals are true, and what it gives, if
/// anything, is false.
pub fn goal_fails(ob: &Obligation, e: &Escape) -> bool
    ensures { IsTrue result ↔ GoalFails ob.now e.now }
{
    let params = ob.params.as_slice();
    if !are_true(params, e, ob.goal.when.as_slice()) {
        return false;
    }
    !is_given_true(params, e, &ob.goal.gives)
}
