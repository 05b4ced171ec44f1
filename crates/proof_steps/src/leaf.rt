//! The leaves of a refutation: steps that end in a contradiction.
//! `specs/Refutes.antt` says when a leaf closes; it is one walk over the steps, and one look back from the last.

ghost use Rattle.std.specs.Prelude.{◌≡◌, []};
ghost use Rattle.proof_steps.specs.Refutes.{given_at, leaf_closes};
ghost use Rattle.proof_steps.specs.Leaves.{steps_hold, last_closes};
ghost use Rattle.proof_steps.specs.Ways.{assumed_list};

use crate::assumed::Assumed;
use crate::closing::closes;
use crate::steps::step_holds;
use refutations::Step;
use rule_terms::Obligation;

// Whether each step follows from those before.
#[tactic(auto, using(crate::proofs::Leafing::one_more), unfolding(crate::specs::Leaves::steps_hold))]
fn steps_hold(ob: &Obligation, assumed: &Assumed<'_>, steps: &[Step]) -> bool
    ensures { result ≡ steps_hold ob.now (given_at ob.now (assumed_list assumed.now)) [] steps.now }
{
    for (i, step) in steps.iter().enumerate() {
        if !step_holds(ob, assumed, &steps[..i], step) {
            return false;
        }
    }
    true
}

// Whether the last step closes the leaf.
#[tactic(auto, using(crate::proofs::Leafing::last_is, crate::proofs::Leafing::none_closes))]
fn last_closes(steps: &[Step]) -> bool
    ensures { result ≡ last_closes [] steps.now }
{
    if steps.len() == 0 {
        return false;
    }
    let last = steps.len() - 1;
    closes(&steps[..last], &steps[last].gives)
}

// Whether the steps of a leaf are right and end in a contradiction.
#[tactic(auto, using(crate::proofs::Leafing::leaf_parts))]
pub fn leaf_closes(ob: &Obligation, assumed: &Assumed<'_>, steps: &[Step]) -> bool
    ensures { result ≡ leaf_closes ob.now (given_at ob.now (assumed_list assumed.now)) [] steps.now }
{
    steps_hold(ob, assumed, steps) && last_closes(steps)
}
