//! `close`: the classes of names and terms under given equalities.
//! `specs/Closure.antt` says which classes these are.

ghost use Rattle.std.specs.Prelude.{◌≡◌, ◌+◌, ◌≤◌, ◌++◌, true, length, IfOk};
ghost use Rattle.law_clauses.specs.Signed.{all_signed};
ghost use Rattle.equality_prover.specs.Terms.{all_terms};
ghost use Rattle.equality_prover.specs.Congruence.{all_respected};
ghost use Rattle.equality_prover.specs.Growth.{both_stand};
ghost use Rattle.equality_prover.specs.Closure.{IsSplit, IsClosure};

use crate::answer::Classes;
use crate::classing::classes_of;
use crate::terms::all_terms;
use rule_terms::Literal;
use sqlite_items::Items;
use std::alloc::Global;
use term_universe::TermUniverse;
use toy_imp::{Kind, NoMemory};

// The numbers as they are kept. `Err` also where one is too wide.
fn numbers(alloc: Global, classes: &[usize]) -> Result<Items<u32>, NoMemory>
    ensures { IfOk result (λ all. all ≡ classes.now) }
{
    let mut all = Items::new(alloc);
    for class in classes {
        if *class > u32::MAX as usize {
            return Err(NoMemory);
        }
        all.push(*class as u32)?;
    }
    Ok(all)
}

// The numbers of so many names, so many store terms, and the value terms.
fn split(alloc: Global, classes: &[usize], names: usize, stores: usize) -> Result<Classes, NoMemory>
    requires { names + stores ≤ length classes.now }
    ensures { IfOk result (IsSplit classes.now names stores) }
{
    let behind = names + stores;
    let first = numbers(alloc, &classes[..names])?;
    let second = numbers(alloc, &classes[names..behind])?;
    let third = numbers(alloc, &classes[behind..])?;
    Ok(Classes {
        names: first,
        stores: second,
        values: third,
    })
}

/// The least congruence over the name parameters of a rule and the terms of a universe in which the positive
/// equalities among the literals hold: class numbers, which two names, two store terms or two value terms share
/// exactly where they are equal in it. The universe holds the terms of those equalities; that of an obligation also
/// holds the arguments of its terms. `Err` where memory runs out, or there are more than 2^32 names and terms.
#[tactic(auto, using(crate::proofs::Splitting::names_left, crate::proofs::Splitting::names_and_stores))]
pub fn close(
    alloc: Global,
    params: &[Kind],
    universe: &TermUniverse,
    literals: &[Literal],
) -> Result<Classes, NoMemory>
    requires { all_respected (both_stand (all_terms params.now universe.now.stores universe.now.values)) (all_signed literals.now) ≡ true }
    ensures { IfOk result (IsClosure params.now universe.now literals.now) }
{
    let stores = universe.stores.as_slice();
    let values = universe.values.as_slice();
    let terms = all_terms(alloc, params, stores, values)?;
    let classes = classes_of(alloc, terms.as_slice(), literals)?;
    let names = terms.len() - stores.len() - values.len();
    let answer = split(alloc, &classes, names, stores.len())?;
    Ok(answer)
}
