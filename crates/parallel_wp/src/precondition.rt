//! The conjunct where a pair of paths stops, and its precondition, built or only weighed.
//! `specs/Precondition.antt` says what they are.

ghost use Rattle.std.specs.Prelude.{◌≡◌, ◌++◌, IfOk, OnOk};
ghost use Rattle.rule_terms.specs.Counts.{saturated, conjunct_nodes};
ghost use Rattle.parallel_wp.specs.Precondition.{both_literals, goal_at, precondition};

use crate::substitution::{add_literals_at, gives_at};
use crate::weight::{conjunct_weight, literals_nodes};
use rule_terms::{Conjunct, Literal, Path, copy_literals};
use sqlite_items::Items;
use std::alloc::Global;
use toy_imp::NoMemory;

/// The conjunct with the stores of the two paths in place of L and R: what it says where they stop.
pub fn goal_at(alloc: Global, left: &Path, right: &Path, c: &Conjunct) -> Result<Conjunct, NoMemory>
    ensures { IfOk result (λ goal. goal ≡ goal_at left.now right.now c.now) }
{
    let gives = gives_at(alloc, &left.store, &right.store, &c.gives)?;
    let mut when = Items::new(alloc);
    add_literals_at(
        alloc,
        &left.store,
        &right.store,
        c.when.as_slice(),
        &mut when,
    )?;
    Ok(Conjunct { when, gives })
}

/// The conjunct that has to be true before both paths: where the literals of both are true and those of the
/// conjunct's `when` at the paths' stores, what it gives is true at these stores.
pub fn before(alloc: Global, left: &Path, right: &Path, c: &Conjunct) -> Result<Conjunct, NoMemory>
    ensures { IfOk result (λ b. b ≡ precondition left.now right.now c.now) }
{
    let mut all = both_literals(alloc, left, right)?;
    let Conjunct { when, gives } = goal_at(alloc, left, right, c)?;
    all.append(when)?;
    Ok(Conjunct { when: all, gives })
}

/// The literals of the left path, and behind them those of the right one.
fn both_literals(alloc: Global, left: &Path, right: &Path) -> Result<Items<Literal>, NoMemory>
    ensures { IfOk result (λ all. all ≡ both_literals left.now right.now) }
{
    let mut all = copy_literals(alloc, left.literals.as_slice())?;
    add_copies(alloc, right.literals.as_slice(), &mut all)?;
    Ok(all)
}

/// Adds equal literals, in their order.
fn add_copies(alloc: Global, literals: &[Literal], all: &mut Items<Literal>) -> Result<(), NoMemory>
    ensures { OnOk result (all.new ≡ all.old ++ literals.now) }
{
    for literal in literals {
        let copy = literal.copy(alloc)?;
        all.push(copy)?;
    }
    Ok(())
}

/// The nodes of the precondition, standing still at 2^64 - 1. It is not built: one walk of each path and one of
/// the conjunct are enough. Takes no memory.
#[tactic(auto, using(crate::proofs::Weighing::weighed))]
pub fn weigh(left: &Path, right: &Path, c: &Conjunct) -> u64
    ensures { result ≡ saturated (conjunct_nodes (precondition left.now right.now c.now)) }
{
    let a = left.store.size().nodes;
    let b = right.store.size().nodes;
    let own = literals_nodes(left.literals.as_slice()).saturating_add(literals_nodes(
        right.literals.as_slice(),
    ));
    own.saturating_add(conjunct_weight(a, b, c))
}
