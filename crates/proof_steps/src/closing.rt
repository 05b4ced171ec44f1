//! When a leaf closes, and how deep its terms may nest.
//! `specs/Refutes.antt` and `specs/Steps.antt` say what is asked.

ghost use Rattle.std.specs.Prelude.{◌≡◌, ◌||◌};
ghost use Rattle.std.specs.List.{list_any, list_all};
ghost use Rattle.law_clauses.specs.Signed.{signed_of};
ghost use Rattle.proof_steps.specs.Steps.{is_shallow};
ghost use Rattle.proof_steps.specs.Refutes.{is_absurd, denies, closes};

use law_clauses::is_negation;
use refutations::Step;
use rule_terms::{Atom, Literal};

// A value that is at most itself less something.
#[tactic(auto, unfolding(crate::specs::Refutes::is_absurd))]
fn is_absurd(x: &Literal) -> bool
    ensures { result ≡ is_absurd (signed_of x.now) }
{
    match (x.sign, &x.atom) {
        (true, Atom::AtMost(a, b, c)) => a.same(b) && *c < 0,
        _ => false,
    }
}

// Whether a step gives the negation of the literal.
fn some_denies(earlier: &[Step], x: &Literal) -> bool
    ensures { result ≡ list_any (denies (signed_of x.now)) earlier.now }
{
    for step in earlier {
        if is_negation(&step.gives, x) {
            return true;
        }
    }
    false
}

// Whether a leaf whose last literal is this closes.
pub fn closes(earlier: &[Step], x: &Literal) -> bool
    ensures { result ≡ closes earlier.now (signed_of x.now) }
{
    some_denies(earlier, x) || is_absurd(x)
}

// No term nests more than 4,100 deep.
pub fn is_shallow(x: &Literal) -> bool
    ensures { result ≡ is_shallow x.now }
{
    x.size().depth <= 4100
}

pub fn are_shallow(xs: &[Literal]) -> bool
    ensures { result ≡ list_all is_shallow xs.now }
{
    for x in xs {
        if !is_shallow(x) {
            return false;
        }
    }
    true
}
