//! Two conjuncts that many relations and obligations have: that the stores of both sides are equal, and what is never true.
//! `specs/Goals.antt` has them.

ghost use Rattle.std.specs.Prelude.{◌≡◌};
ghost use Rattle.rule_terms.specs.Goals as spec;

use crate::obligation::{Atom, Conjunct, Literal};
use crate::term::StoreTerm;
use sqlite_items::Items;
use std::alloc::Global;

/// `L = R`, behind no literals.
pub fn sides_equal(alloc: Global) -> Conjunct
    ensures { result ≡ spec.sides_equal }
{
    Conjunct {
        when: Items::new(alloc),
        gives: Some(Literal {
            sign: true,
            atom: Atom::SameStore(StoreTerm::left(), StoreTerm::right()),
        }),
    }
}

/// What is true at no stores: the goal without literals.
pub fn falsehood(alloc: Global) -> Conjunct
    ensures { result ≡ spec.falsehood }
{
    Conjunct {
        when: Items::new(alloc),
        gives: None,
    }
}
