//! The list of all terms: the names of a rule, the store terms and the value terms of a universe.
//! `specs/Terms.antt` says in which order.

ghost use Rattle.std.specs.Prelude.{◌≡◌, [], ◌∷◌, ◌++◌, map, OnOk, IfOk};
ghost use Rattle.law_clauses.specs.Arguments.{of_name, of_store, of_value};
ghost use Rattle.law_clauses.specs.ArgumentView.{argument_of};
ghost use Rattle.equality_prover.specs.Terms.{names_from, all_terms};

use law_clauses::Argument;
use rule_terms::{StoreTerm, ValueTerm};
use sqlite_items::Items;
use std::alloc::Global;
use toy_imp::{Kind, NoMemory};

// Puts the parameter of this number at the end, where it is of kind name. `Err` also where the number is too wide.
fn put_name(kind: Kind, k: usize, terms: &mut Items<Argument<'_>>) -> Result<(), NoMemory>
    ensures { OnOk result (map argument_of terms.new ≡ map argument_of terms.old ++ map of_name (names_from k (kind ∷ []))) }
{
    if k > u32::MAX as usize {
        return Err(NoMemory);
    }
    match kind {
        Kind::Name => terms.push(Argument::Name(k as u32))?,
        Kind::Expr => {}
        Kind::Test => {}
        Kind::Stmt => {}
    }
    Ok(())
}

// Puts the parameters of kind name at the end.
#[tactic(auto, using(crate::proofs::Listing::next_name))]
fn put_names(params: &[Kind], terms: &mut Items<Argument<'_>>) -> Result<(), NoMemory>
    ensures { OnOk result (map argument_of terms.new ≡ map argument_of terms.old ++ map of_name (names_from 0 params.now)) }
{
    for (k, kind) in params.iter().enumerate() {
        put_name(*kind, k, terms)?;
    }
    Ok(())
}

// .. store terms
#[tactic(auto, using(crate::proofs::Listing::next_store))]
fn put_stores<'a>(stores: &'a [StoreTerm], terms: &mut Items<Argument<'a>>) -> Result<(), NoMemory>
    ensures { OnOk result (map argument_of terms.new ≡ map argument_of terms.old ++ map of_store stores.now) }
{
    for s in stores {
        terms.push(Argument::Store(s))?;
    }
    Ok(())
}

// .. value terms
#[tactic(auto, using(crate::proofs::Listing::next_value))]
fn put_values<'a>(values: &'a [ValueTerm], terms: &mut Items<Argument<'a>>) -> Result<(), NoMemory>
    ensures { OnOk result (map argument_of terms.new ≡ map argument_of terms.old ++ map of_value values.now) }
{
    for v in values {
        terms.push(Argument::Value(v))?;
    }
    Ok(())
}

/// All terms.
#[tactic(auto, using(crate::proofs::Listing::in_order))]
pub fn all_terms<'a>(
    alloc: Global,
    params: &[Kind],
    stores: &'a [StoreTerm],
    values: &'a [ValueTerm],
) -> Result<Items<Argument<'a>>, NoMemory>
    ensures { IfOk result (λ terms. map argument_of terms ≡ all_terms params.now stores.now values.now) }
{
    let mut terms = Items::new(alloc);
    put_names(params, &mut terms)?;
    put_stores(stores, &mut terms)?;
    put_values(values, &mut terms)?;
    Ok(terms)
}
