//! What `check` answers of the rule with two empty sides: its one obligation is that equal stores are equal.

use cert_checker::{Certificate, Entry, ObligationAt, Proved, Spot, check, obligation};
use program_examples::rule;
use refutations::{By, Refutation, Step};
use rule_terms::{Atom, Conjunct, Literal, StoreTerm};
use sqlite_items::Items;
use std::alloc::Global;
use std::test::Fail;
use toy_imp::{Method, NoMemory};

const EMPTY: &str = "left { } right { }";

fn sides(sign: bool) -> Literal {
    Literal {
        sign,
        atom: Atom::SameStore(StoreTerm::left(), StoreTerm::right()),
    }
}

// An entry with `L = R` so many times.
fn entry(alloc: Global, point: u32, times: u32) -> Result<Entry, NoMemory> {
    let mut conjuncts = Items::new(alloc);
    for _ in 0..times {
        conjuncts.push(Conjunct {
            when: Items::new(alloc),
            gives: Some(sides(true)),
        })?;
    }
    Ok(Entry {
        left: point,
        right: point,
        conjuncts,
    })
}

fn denied() -> Step {
    Step {
        gives: sides(false),
        by: By::Given,
    }
}

fn known_step(alloc: Global) -> Step {
    Step {
        gives: sides(true),
        by: By::Known(0, Items::new(alloc)),
    }
}

// The goal is denied, and it is known.
fn leaf(alloc: Global) -> Result<Refutation, NoMemory> {
    let mut steps = Items::new(alloc);
    steps.push(denied())?;
    steps.push(known_step(alloc))?;
    Refutation::leaf(alloc, steps)
}

fn only_spot() -> Spot {
    Spot {
        entry: 0,
        left: 0,
        right: 0,
        conjunct: Some(0),
    }
}

fn entries(alloc: Global, times: u32) -> Result<Items<Entry>, NoMemory> {
    let start = entry(alloc, 0, times)?;
    let exits = entry(alloc, 1, 1)?;
    let mut all = Items::new(alloc);
    all.push(start)?;
    all.push(exits)?;
    Ok(all)
}

fn proofs(alloc: Global, used: u32) -> Result<Items<Proved>, NoMemory> {
    let proof = leaf(alloc)?;
    let mut all = Items::new(alloc);
    all.push(Proved {
        spot: only_spot(),
        used,
        proof,
    })?;
    Ok(all)
}

// The certificate whose start has `L = R` so many times, and whose proof uses so many conjuncts.
fn certificate(alloc: Global, times: u32, used: u32) -> Result<Certificate, NoMemory> {
    let entries = entries(alloc, times)?;
    let proofs = proofs(alloc, used)?;
    Ok(Certificate { entries, proofs })
}

fn is_valid(alloc: Global, times: u32, used: u32) -> Option<bool> {
    let rule = rule(alloc, EMPTY)?;
    if !rule.well_formed() || rule.method != Method::Simulate {
        return None;
    }
    let cert = certificate(alloc, times, used).ok()?;
    check(alloc, &rule, &cert).ok()
}

fn is_absent(alloc: Global) -> Option<bool> {
    let rule = rule(alloc, EMPTY)?;
    if !rule.well_formed() || rule.method != Method::Simulate {
        return None;
    }
    let found = obligation(alloc, &rule, &[], &only_spot(), 0).ok()?;
    Some(matches!(&found, ObligationAt::Absent))
}

#[test]
fn certificates_are_checked(rt: HostRuntime) -> Result<(), Fail> {
    assert_eq!(rt; is_valid(rt.alloc(), 1, 1), Some(true));
    assert_eq!(rt; is_valid(rt.alloc(), 1, 2), Some(false));
    assert_eq!(rt; is_valid(rt.alloc(), 2, 1), Some(false));
    assert_eq!(rt; is_absent(rt.alloc()), Some(true));
    Ok(())
}
