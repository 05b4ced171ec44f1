//! `pec_bench refutes SHAPE N TIMES`: builds a refutation of `L = R`, which is known, and so many times asks whether it is right.
//! A `leaf` has N steps; `first` and `second` have N splits, each in the first or in the second branch of the one before.
//! Prints how often the answer is yes. `pec_bench copies SHAPE N TIMES` builds the same, makes so many copies, drops each,
//! and prints how many parts they had in all.

use anyhow::{Context, Result, bail};
use proof_steps::refutes;
use refutations::{By, Part, Refutation, Step};
use rule_terms::{Atom, Conjunct, Literal, Obligation, StoreTerm};
use sqlite_items::Items;
use std::alloc::Global;

/// Does it, and prints the number.
pub fn run(rt: &(impl Print + AllocGlobal), shape: &str, n: &str, times: &str) -> Result<()> {
    let n = n.parse::<u32>().context("how many")?;
    let times = times.parse::<u32>().context("how many times")?;
    let yes = counted(rt.alloc(), shape, n, times)?;
    println!(rt; "{yes}")?;
    Ok(())
}

fn counted(alloc: Global, shape: &str, n: u32, times: u32) -> Result<u32> {
    let ob = obligation(alloc)?;
    asked(alloc, &ob, shape, n, times)
}

fn asked(alloc: Global, ob: &Obligation, shape: &str, n: u32, times: u32) -> Result<u32> {
    let proof = refutation(alloc, shape, n)?;
    Ok(answers(ob, &proof, times))
}

fn answers(ob: &Obligation, proof: &Refutation, times: u32) -> u32 {
    let mut yes: u32 = 0;
    for _ in 0..times {
        if refutes(ob, proof) {
            yes = yes.wrapping_add(1);
        }
    }
    yes
}

/// Makes the copies, and prints the number of their parts.
pub fn copies(rt: &(impl Print + AllocGlobal), shape: &str, n: &str, times: &str) -> Result<()> {
    let n = n.parse::<u32>().context("how many")?;
    let times = times.parse::<u32>().context("how many times")?;
    let parts = copied(rt.alloc(), shape, n, times)?;
    println!(rt; "{parts}")?;
    Ok(())
}

fn copied(alloc: Global, shape: &str, n: u32, times: u32) -> Result<u64> {
    let proof = refutation(alloc, shape, n)?;
    copied_parts(alloc, &proof, times)
}

fn copied_parts(alloc: Global, proof: &Refutation, times: u32) -> Result<u64> {
    let mut parts: u64 = 0;
    for _ in 0..times {
        let copy = proof.copy(alloc).ok().context("memory")?;
        parts = parts.wrapping_add(copy.parts().len() as u64);
    }
    Ok(parts)
}

fn refutation(alloc: Global, shape: &str, n: u32) -> Result<Refutation> {
    match shape {
        "leaf" => leaf(alloc, n),
        "first" => nested(alloc, n, true),
        "second" => nested(alloc, n, false),
        _ => bail!("{shape}: leaf, first or second is wanted"),
    }
}

fn sides(sign: bool) -> Literal {
    Literal {
        sign,
        atom: Atom::SameStore(StoreTerm::left(), StoreTerm::right()),
    }
}

fn exchanged() -> Literal {
    Literal {
        sign: true,
        atom: Atom::SameStore(StoreTerm::right(), StoreTerm::left()),
    }
}

fn left_itself() -> Literal {
    Literal {
        sign: true,
        atom: Atom::SameStore(StoreTerm::left(), StoreTerm::left()),
    }
}

fn conjunct(alloc: Global) -> Conjunct {
    Conjunct {
        when: Items::new(alloc),
        gives: Some(sides(true)),
    }
}

fn obligation(alloc: Global) -> Result<Obligation> {
    let mut ob = Obligation {
        params: Items::new(alloc),
        conditions: Items::new(alloc),
        known: Items::new(alloc),
        path: Items::new(alloc),
        goal: conjunct(alloc),
    };
    ob.known.push(conjunct(alloc))?;
    Ok(ob)
}

/// The step of this number: after the negated goal again and again what is known, that exchanged, and a chain of both.
fn step(alloc: Global, k: u32) -> Step {
    if k == 0 {
        return Step {
            gives: sides(false),
            by: By::Given,
        };
    }
    match k % 3 {
        1 => known(alloc),
        2 => Step {
            gives: exchanged(),
            by: By::Flip(k - 1),
        },
        _ => Step {
            gives: left_itself(),
            by: By::Chain(k.saturating_sub(2), k - 1),
        },
    }
}

fn known(alloc: Global) -> Step {
    Step {
        gives: sides(true),
        by: By::Known(0, Items::new(alloc)),
    }
}

/// So many steps of a leaf, at least two.
fn steps(alloc: Global, n: u32) -> Result<Items<Step>> {
    let mut steps = Items::new(alloc);
    for k in 0..n.saturating_sub(1) {
        steps.push(step(alloc, k))?;
    }
    steps.push(known(alloc))?;
    Ok(steps)
}

fn leaf(alloc: Global, n: u32) -> Result<Refutation> {
    let steps = steps(alloc, n)?;
    Refutation::leaf(alloc, steps).ok().context("memory")
}

fn short_leaf(alloc: Global) -> Result<Part> {
    Ok(Part::Leaf(steps(alloc, 2)?))
}

/// The parts of so many splits, one in another: the deep branch first or second.
fn parts(alloc: Global, n: u32, first: bool) -> Result<Items<Part>> {
    let mut parts = Items::new(alloc);
    for _ in 0..n {
        parts.push(Part::Split(exchanged()))?;
        if !first {
            parts.push(short_leaf(alloc)?)?;
        }
    }
    parts.push(short_leaf(alloc)?)?;
    if first {
        for _ in 0..n {
            parts.push(short_leaf(alloc)?)?;
        }
    }
    Ok(parts)
}

/// So many splits, one in another.
fn nested(alloc: Global, n: u32, first: bool) -> Result<Refutation> {
    let parts = parts(alloc, n, first)?;
    let read = Refutation::of_parts(alloc, parts).ok().context("memory")?;
    read.context("one refutation")
}
