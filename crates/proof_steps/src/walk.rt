//! Whether a refutation is right: a walk over its parts in the order of the text.
//! `specs/Refutes.antt` says which are. What is assumed at a part is looked up from there (`assumed.rt`), so no stack and no
//! memory is taken, however deep splits nest.

ghost use Rattle.std.specs.Prelude.{◌≡◌, IsTrue};
ghost use Rattle.term_meaning.specs.Meaning.{ObligationHolds};
ghost use Rattle.proof_steps.specs.Refutes.{refutes_under, refutes};
ghost use Rattle.proof_steps.specs.Ways.{all_listed, assumed_list, part_right};

use crate::assumed::Assumed;
use crate::closing::is_shallow;
use crate::leaf::leaf_closes;
use refutations::{Part, Refutation};
use rule_terms::{Literal, Obligation};

/// Whether the refutation shows that the obligation holds. It takes no memory, and a stack that does not grow with it.
#[tactic(auto, unfolding(crate::specs::Refutes::refutes))]
pub fn refutes(ob: &Obligation, proof: &Refutation) -> bool
    ensures exact { result ≡ refutes ob.now proof.now }
    ensures holds { IsTrue result → ObligationHolds ob.now }
{
    refutes_under(ob, proof, &[])
}

fn is_right(ob: &Obligation, part: &Part, here: &Assumed<'_>) -> bool
    ensures { result ≡ part_right ob.now part.now (assumed_list here.now) }
{
    match part {
        Part::Split(x) => is_shallow(x),
        Part::Leaf(steps) => leaf_closes(ob, here, steps.as_slice()),
    }
}

/// Whether the refutation shows it where these literals are assumed besides, the latest first.
#[tactic(auto, using(crate::proofs::Refuting::all_right, crate::proofs::Refuting::next_right, crate::proofs::Refuting::as_many_ways))]
pub fn refutes_under<'a>(ob: &Obligation, proof: &'a Refutation, assumed: &'a [&'a Literal]) -> bool
    ensures { result ≡ refutes_under ob.now proof.now (all_listed assumed.now) }
{
    let parts = proof.parts();
    for (i, part) in parts.iter().enumerate() {
        let here = Assumed {
            proof,
            at: i,
            first: assumed,
        };
        if !is_right(ob, part, &here) {
            return false;
        }
    }
    true
}
