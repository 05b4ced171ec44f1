//! Joining the classes of terms that literals state to be equal.
//! `specs/Congruence.antt` says which equality a literal states, `specs/Growth.antt` what joining does.

ghost use Rattle.std.specs.Prelude.{◌≡◌, true, [], ◌∷◌, length, map};
ghost use Rattle.law_clauses.specs.Signed.{signed_of, all_signed};
ghost use Rattle.law_clauses.specs.ArgumentView.{argument_of};
ghost use Rattle.equality_prover.specs.Congruence.{respects, all_respected};
ghost use Rattle.equality_prover.specs.Growth.{both_stand, AreSides, TakesPair, TakesIn};

use crate::classes::join;
use crate::places::place_of;
use law_clauses::Argument;
use rule_terms::{Atom, Literal};

// The two terms that a literal states to be equal.
fn sides(literal: &Literal) -> Option<(Argument<'_>, Argument<'_>)>
    ensures { AreSides (signed_of literal.now) result }
{
    match (literal.sign, &literal.atom) {
        (true, Atom::SameName(x, y)) => Some((Argument::Name(*x), Argument::Name(*y))),
        (true, Atom::SameStore(s, t)) => Some((Argument::Store(s), Argument::Store(t))),
        (true, Atom::SameValue(v, w)) => Some((Argument::Value(v), Argument::Value(w))),
        _ => None,
    }
}

// Makes one class of those of two terms.
#[tactic(auto, using(crate::proofs::Taking::first_within, crate::proofs::Taking::second_within, crate::proofs::Taking::pair_of_one))]
fn join_terms(terms: &[Argument<'_>], classes: &mut [usize], a: Argument<'_>, b: Argument<'_>)
    requires count { length classes.old ≡ length terms.now }
    requires stand { both_stand (map argument_of terms.now) (argument_of a) (argument_of b) ≡ true }
    ensures { TakesPair (map argument_of terms.now) (argument_of a.entry) (argument_of b.entry) classes.old classes.new }
{
    let i = place_of(terms, a);
    let j = place_of(terms, b);
    if classes[i] != classes[j] {
        join(classes, i, j);
    }
}

// Makes one class of those of the terms that a literal states to be equal.
#[tactic(auto, using(crate::proofs::Taking::states_none, crate::proofs::Taking::sides_stand))]
fn join_literal(terms: &[Argument<'_>], classes: &mut [usize], literal: &Literal)
    requires count { length classes.old ≡ length terms.now }
    requires stand { respects (both_stand (map argument_of terms.now)) (signed_of literal.now) ≡ true }
    ensures { TakesIn (map argument_of terms.now) (signed_of literal.now ∷ []) classes.old classes.new }
{
    if let Some((a, b)) = sides(literal) {
        join_terms(terms, classes, a, b);
    }
}

/// Makes one class of those of each two terms that some literal states to be equal.
#[tactic(auto, using(crate::proofs::Taking::none_taken, crate::proofs::Taking::one_stands))]
pub fn join_literals(terms: &[Argument<'_>], classes: &mut [usize], literals: &[Literal])
    requires count { length classes.old ≡ length terms.now }
    requires stand { all_respected (both_stand (map argument_of terms.now)) (all_signed literals.now) ≡ true }
    ensures { TakesIn (map argument_of terms.now) (all_signed literals.now) classes.old classes.new }
{
    for literal in literals {
        join_literal(terms, classes, literal);
    }
}
