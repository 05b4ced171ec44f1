//! `pec_bench terms WHAT TIMES`: reads one obligation in the prefix notation of `term_examples` from standard
//! input, and so many times walks it, counts it or makes its universe. Prints what the answers add up to.

use anyhow::{Context, Result, bail};
use rule_terms::Obligation;
use std::alloc::Global;
use std::io;
use term_examples::obligation;
use term_universe::{counts, universe};

/// Does it, and prints the sum.
pub fn run(rt: &(impl Input + Print + AllocGlobal), what: &str, times: &str) -> Result<()> {
    let times = times.parse::<u32>().context("how many times")?;
    let text = io::read_to_string(rt.alloc(), rt.reader())?;
    let sum = sum_of(rt.alloc(), text.as_str(), what, times)?;
    println!(rt; "{sum}")?;
    Ok(())
}

/// The sum of the answers for the obligation of a text.
fn sum_of(alloc: Global, text: &str, what: &str, times: u32) -> Result<u64> {
    match obligation(alloc, text) {
        Some(ob) => repeated(alloc, &ob, what, times),
        None => bail!("no obligation"),
    }
}

fn repeated(alloc: Global, ob: &Obligation, what: &str, times: u32) -> Result<u64> {
    let mut sum: u64 = 0;
    for _ in 0..times {
        let answer = once(alloc, what, ob)?;
        sum = sum.wrapping_add(answer);
    }
    Ok(sum)
}

/// The nodes that a walk or the counts tell, or the number of terms of the universe.
fn once(alloc: Global, what: &str, ob: &Obligation) -> Result<u64> {
    match what {
        "walk" => Ok(ob.size().nodes),
        "counts" => Ok(counts(ob).nodes),
        "universe" => match universe(alloc, ob) {
            Ok(u) => Ok(terms(u.stores.len(), u.values.len(), u.tests.len())),
            Err(_) => bail!("out of memory"),
        },
        _ => bail!("{what}: walk, counts or universe is wanted"),
    }
}

fn terms(stores: usize, values: usize, tests: usize) -> u64 {
    (stores as u64)
        .wrapping_add(values as u64)
        .wrapping_add(tests as u64)
}
