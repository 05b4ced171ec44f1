//! Whether a literal is one of those that a refutation starts from.
//! `specs/Refutes.antt` says which these are.

ghost use Rattle.std.specs.Prelude.{◌≡◌};
ghost use Rattle.std.specs.List.{list_any};
ghost use Rattle.law_clauses.specs.Signed.{signed_of, signed_same};
ghost use Rattle.proof_steps.specs.Steps.{is_given};
ghost use Rattle.proof_steps.specs.Refutes.{denied, given_first};

use crate::cited_lists::is_among;
use law_clauses::is_negation;
use rule_terms::{Literal, Obligation};

// The negation of what the goal gives.
#[tactic(auto, using(law_clauses::proofs::Same::or_false))]
fn is_denied(x: &Literal, gives: &Option<Literal>) -> bool
    ensures { result ≡ list_any (signed_same (signed_of x.now)) (denied gives.now) }
{
    match gives {
        None => false,
        Some(y) => is_negation(x, y),
    }
}

// A literal of the path or of the goal's `when`, or the negation of what the goal gives.
#[tactic(auto, using(crate::proofs::Lists::given_parts))]
pub fn is_given_first(ob: &Obligation, x: &Literal) -> bool
    ensures { result ≡ is_given (given_first ob.now) (signed_of x.now) }
{
    is_among(ob.path.as_slice(), x)
        || is_among(ob.goal.when.as_slice(), x)
        || is_denied(x, &ob.goal.gives)
}
