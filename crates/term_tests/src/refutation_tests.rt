//! A refutation of an obligation whose goal is known, and the same with a known conjunct that is not there; one with a term
//! as deep as terms may be, and one deeper; and refutations that are built, split and copied.

use proof_steps::refutes;
use refutations::{Builder, By, Refutation, Step};
use rule_terms::{Atom, Literal, Obligation, StoreTerm};
use sqlite_items::Items;
use std::alloc::Global;
use std::test::Fail;
use term_examples::obligation;
use toy_imp::NoMemory;

fn sides(sign: bool) -> Literal {
    Literal {
        sign,
        atom: Atom::SameStore(StoreTerm::left(), StoreTerm::right()),
    }
}

fn denied() -> Step {
    Step {
        gives: sides(false),
        by: By::Given,
    }
}

fn known_step(alloc: Global, known: u32) -> Step {
    Step {
        gives: sides(true),
        by: By::Known(known, Items::new(alloc)),
    }
}

fn steps(alloc: Global, known: u32) -> Result<Items<Step>, NoMemory> {
    let mut steps = Items::new(alloc);
    steps.push(denied())?;
    steps.push(known_step(alloc, known))?;
    Ok(steps)
}

fn leaf(alloc: Global, known: u32) -> Result<Refutation, NoMemory> {
    let steps = steps(alloc, known)?;
    Refutation::leaf(alloc, steps)
}

fn is_right(alloc: Global, ob: &Obligation, known: u32) -> Option<bool> {
    let proof = leaf(alloc, known).ok()?;
    Some(refutes(ob, &proof))
}

fn is_refuted(alloc: Global, known: u32) -> Option<bool> {
    let ob = obligation(alloc, "| +store L R | | +store L R")?;
    is_right(alloc, &ob, known)
}

#[test]
fn known_goal_is_refuted(rt: HostRuntime) -> Result<(), Fail> {
    assert_eq!(rt; is_refuted(rt.alloc(), 0), Some(true));
    assert_eq!(rt; is_refuted(rt.alloc(), 1), Some(false));
    Ok(())
}

// A store term of so many levels.
fn nested(alloc: Global, levels: u32) -> Result<StoreTerm, NoMemory> {
    let mut s = StoreTerm::left();
    for _ in 1..levels {
        s = StoreTerm::run(alloc, 0, s)?;
    }
    Ok(s)
}

// An equality of such a term with itself.
fn itself(alloc: Global, levels: u32) -> Result<Step, NoMemory> {
    let a = nested(alloc, levels)?;
    let b = nested(alloc, levels)?;
    Ok(Step {
        gives: Literal {
            sign: true,
            atom: Atom::SameStore(a, b),
        },
        by: By::Refl,
    })
}

fn deep_leaf(alloc: Global, levels: u32) -> Result<Refutation, NoMemory> {
    let mut steps = Items::new(alloc);
    let deep = itself(alloc, levels)?;
    steps.push(denied())?;
    steps.push(deep)?;
    steps.push(known_step(alloc, 0))?;
    Refutation::leaf(alloc, steps)
}

fn looked_at(alloc: Global, proof: &Refutation) -> Option<bool> {
    let ob = obligation(alloc, "| +store L R | | +store L R")?;
    Some(refutes(&ob, proof))
}

fn is_deep_right(alloc: Global, levels: u32) -> Option<bool> {
    let proof = deep_leaf(alloc, levels).ok()?;
    looked_at(alloc, &proof)
}

#[test]
fn terms_nest_4100_deep(rt: HostRuntime) -> Result<(), Fail> {
    assert_eq!(rt; is_deep_right(rt.alloc(), 4100), Some(true));
    assert_eq!(rt; is_deep_right(rt.alloc(), 4101), Some(false));
    Ok(())
}

// A split of two leaves, as a builder makes it.
fn built(alloc: Global) -> Result<Option<Refutation>, NoMemory> {
    let first = steps(alloc, 0)?;
    let second = steps(alloc, 0)?;
    let mut builder = Builder::new(alloc);
    builder.leaf(second)?;
    builder.leaf(first)?;
    builder.split(sides(true))?;
    builder.finish(alloc)
}

fn is_built_right(alloc: Global) -> Option<bool> {
    let proof = built(alloc).ok()??;
    looked_at(alloc, &proof)
}

// A copy of a split of two leaves.
fn copied(alloc: Global) -> Result<Refutation, NoMemory> {
    let first = leaf(alloc, 0)?;
    let second = leaf(alloc, 0)?;
    let whole = Refutation::split(alloc, sides(true), first, second)?;
    whole.copy(alloc)
}

fn is_copy_right(alloc: Global) -> Option<bool> {
    let proof = copied(alloc).ok()?;
    looked_at(alloc, &proof)
}

#[test]
fn splits_are_built_and_copied(rt: HostRuntime) -> Result<(), Fail> {
    assert_eq!(rt; is_built_right(rt.alloc()), Some(true));
    assert_eq!(rt; is_copy_right(rt.alloc()), Some(true));
    Ok(())
}
