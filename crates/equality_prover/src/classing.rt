//! The classes of the least congruence over a list of terms.
//! `specs/Closure.antt` says which classes these are.

ghost use Rattle.std.specs.Prelude.{◌≡◌, true, map, IfOk};
ghost use Rattle.law_clauses.specs.Signed.{all_signed};
ghost use Rattle.law_clauses.specs.ArgumentView.{argument_of};
ghost use Rattle.equality_prover.specs.Congruence.{all_respected};
ghost use Rattle.equality_prover.specs.Places.{places_of, table_of};
ghost use Rattle.equality_prover.specs.Growth.{both_stand};
ghost use Rattle.equality_prover.specs.Closure.{AreClasses};

use crate::joining::join_literals;
use crate::passes::settle;
use crate::places::{first_places, table_of};
use law_clauses::Argument;
use rule_terms::Literal;
use sqlite_items::Items;
use std::alloc::Global;
use toy_imp::NoMemory;

// Joins classes of single terms until they are those of the least congruence.
#[tactic(auto, using(crate::proofs::Exact::first_count))]
fn join_equal(
    terms: &[Argument<'_>],
    table: &[Items<usize>],
    literals: &[Literal],
    classes: &mut [usize],
)
    requires table { table.now ≡ table_of (map argument_of terms.now) (map argument_of terms.now) }
    requires stand { all_respected (both_stand (map argument_of terms.now)) (all_signed literals.now) ≡ true }
    requires single { classes.old ≡ places_of (map argument_of terms.now) (map argument_of terms.now) }
    ensures { AreClasses (map argument_of terms.now) (all_signed literals.now) classes.new }
{
    join_literals(terms, classes, literals);
    settle(terms, table, classes);
}

/// A class number for each term: the same for two terms exactly where they are equal by what the literals state and
/// by congruence.
pub fn classes_of(
    alloc: Global,
    terms: &[Argument<'_>],
    literals: &[Literal],
) -> Result<Vec<usize>, NoMemory>
    requires { all_respected (both_stand (map argument_of terms.now)) (all_signed literals.now) ≡ true }
    ensures { IfOk result (λ classes. AreClasses (map argument_of terms.now) (all_signed literals.now) classes.items) }
{
    let table = table_of(alloc, terms)?;
    let mut classes = first_places(alloc, terms)?;
    join_equal(terms, table.as_slice(), literals, &mut classes);
    Ok(classes)
}
