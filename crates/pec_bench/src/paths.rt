//! `pec_bench paths TIMES`: standard input is the body of a rule, whose left side is walked so many times from
//! its start to its exit, with no cut point between. Prints how many paths there are, or the limit that they pass.

use crate::texts::section;
use anyhow::{Context, Result, bail};
use path_pairs::{CutPoints, PathRefusal, Side, block_points, paths};
use pec_text::SectionKind;
use rule_reader::read_rule;
use rule_terms::LimitKind;
use sqlite_items::Items;
use std::alloc::Global;
use toy_imp::{Method, NoMemory, Rule};

/// What the paths of a side come to.
#[derive(Clone, Copy)]
enum Found {
    Paths(usize),
    Limit(LimitKind),
}

/// Does it, and prints what was found.
pub fn run(rt: &HostRuntime, times: &str) -> Result<()> {
    let times = times.parse::<u32>().context("how many times")?;
    let Ok(section) = section(rt, SectionKind::Rule) else {
        bail!("no rule could be read");
    };
    let Ok(rule) = read_rule(rt.alloc(), &section) else {
        bail!("the input is no rule");
    };
    match repeated(rt.alloc(), &rule, times)? {
        Found::Paths(count) => println!(rt; "paths {count}")?,
        Found::Limit(kind) => println!(rt; "limit {kind:?}")?,
    }
    Ok(())
}

fn repeated(alloc: Global, rule: &Rule, times: u32) -> Result<Found> {
    let Ok(cuts) = ends(alloc, rule) else {
        bail!("out of memory");
    };
    let mut found = Found::Paths(0);
    for _ in 0..times {
        found = once(alloc, rule, &cuts)?;
    }
    Ok(found)
}

/// Start and exit of the left side alone.
fn ends(alloc: Global, rule: &Rule) -> Result<CutPoints, NoMemory> {
    let exit = u32::try_from(block_points(&rule.left).saturating_add(1)).unwrap_or(u32::MAX);
    let mut left = Items::new(alloc);
    left.push(0)?;
    left.push(exit)?;
    Ok(CutPoints {
        left,
        right: Items::new(alloc),
        pairs: Items::new(alloc),
    })
}

fn once(alloc: Global, rule: &Rule, cuts: &CutPoints) -> Result<Found> {
    if !rule.well_formed() || rule.method != Method::Simulate {
        bail!("no rule to be simulated");
    }
    match paths(alloc, rule, cuts, Side::Left, 0) {
        Ok(all) => Ok(Found::Paths(all.len())),
        Err(PathRefusal::Limit(kind)) => Ok(Found::Limit(kind)),
        Err(PathRefusal::NoMemory) => bail!("out of memory"),
    }
}
