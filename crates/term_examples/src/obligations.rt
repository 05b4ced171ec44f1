//! Obligations read from prefix notation: conditions, known conjuncts, path and goal, parted by bars.

use crate::reading::{conjunct, literals};
use rule_terms::{Conjunct, Obligation};
use sqlite_items::Items;
use std::alloc::Global;
use toy_imp::Condition;

fn condition(text: &str) -> Option<Condition> {
    let (word, numbers) = text.split_once(' ')?;
    let (a, b) = numbers.split_once(' ')?;
    let a = a.parse::<u32>().ok()?;
    let b = b.parse::<u32>().ok()?;
    match word {
        "commutes" => Some(Condition::Commutes(a, b)),
        _ => Some(Condition::Ignores(a, b)),
    }
}

fn empty(alloc: Global) -> Obligation {
    Obligation {
        params: Items::new(alloc),
        conditions: Items::new(alloc),
        known: Items::new(alloc),
        path: Items::new(alloc),
        goal: Conjunct {
            when: Items::new(alloc),
            gives: None,
        },
    }
}

fn add_conditions(ob: &mut Obligation, text: &str) -> Option<()> {
    for c in text.split(", ") {
        if let Some(c) = condition(c) {
            ob.conditions.push(c).ok()?;
        }
    }
    Some(())
}

fn add_known(alloc: Global, ob: &mut Obligation, text: &str) -> Option<()> {
    for c in text.split(", ") {
        if !c.trim().is_empty() {
            let c = conjunct(alloc, c)?;
            ob.known.push(c).ok()?;
        }
    }
    Some(())
}

fn fill_in(alloc: Global, ob: &mut Obligation, text: &str) -> Option<()> {
    let (given, text) = text.split_once('|')?;
    let (known, text) = text.split_once('|')?;
    let (path, goal) = text.split_once('|')?;
    add_conditions(ob, given.trim())?;
    add_known(alloc, ob, known)?;
    ob.path = literals(alloc, path)?;
    ob.goal = conjunct(alloc, goal)?;
    Some(())
}

/// The obligation that a text spells.
pub fn obligation(alloc: Global, text: &str) -> Option<Obligation> {
    let mut ob = empty(alloc);
    fill_in(alloc, &mut ob, text)?;
    Some(ob)
}
