//! The cut points of both sides of a rule, after Floyd, and the entries from which others are searched.
//! `specs/Cuts.antt` says which they are.

ghost use Rattle.std.specs.Prelude.{◌≡◌, ◌-◌, ◌++◌, ◌==◌, map, IfOk, OnOk};
ghost use Rattle.std.specs.List.{filter, list_any, range_with_len};
ghost use Rattle.toy_imp.specs.Points.{exit_point};
ghost use Rattle.entry_pairs.specs.Cuts.{with_ends, listed_cuts, left_cuts, right_cuts, first_entries, first_cuts};

use crate::default_cuts::default_points;
use path_pairs::{CutPoints, block_points};
use sqlite_items::Items;
use std::alloc::Global;
use toy_imp::{Block, CutList, NoMemory, Rule};

/// The number of the exit of a side; `NoMemory` where it is above 2^32 - 1.
pub fn exit_number(side: &Block) -> Result<u32, NoMemory>
    ensures { IfOk result (λ exit. exit ≡ exit_point side.now) }
{
    let points = block_points(side);
    if points >= u64::from(u32::MAX) {
        return Err(NoMemory);
    }
    Ok(points as u32 + 1)
}

/// The cut points of a rule with these exits, and the entries from which others are searched.
pub fn first_cuts(alloc: Global, rule: &Rule, exits: (u32, u32)) -> Result<CutPoints, NoMemory>
    requires left { exits.0 ≡ exit_point rule.now.left }
    requires right { exits.1 ≡ exit_point rule.now.right }
    ensures { IfOk result (λ points. points ≡ first_cuts rule.now) }
{
    let left = left_cuts(alloc, &rule.cuts, &rule.left, exits.0)?;
    let right = right_cuts(alloc, &rule.cuts, &rule.right, exits.1)?;
    let pairs = first_entries(alloc, &rule.cuts, exits)?;
    Ok(CutPoints { left, right, pairs })
}

fn left_cuts(alloc: Global, list: &CutList, side: &Block, exit: u32) -> Result<Items<u32>, NoMemory>
    requires { exit ≡ exit_point side.now }
    ensures { IfOk result (λ all. all ≡ left_cuts list.now side.now) }
{
    match list {
        CutList::Default => default_points(alloc, side, exit),
        CutList::Listed(pairs) => {
            let named = lefts(alloc, pairs.as_slice())?;
            listed_points(alloc, side, exit, named.as_slice())
        }
    }
}

fn right_cuts(
    alloc: Global,
    list: &CutList,
    side: &Block,
    exit: u32,
) -> Result<Items<u32>, NoMemory>
    requires { exit ≡ exit_point side.now }
    ensures { IfOk result (λ all. all ≡ right_cuts list.now side.now) }
{
    match list {
        CutList::Default => default_points(alloc, side, exit),
        CutList::Listed(pairs) => {
            let named = rights(alloc, pairs.as_slice())?;
            listed_points(alloc, side, exit, named.as_slice())
        }
    }
}

fn lefts(alloc: Global, pairs: &[(u32, u32)]) -> Result<Items<u32>, NoMemory>
    ensures { IfOk result (λ all. all ≡ map (λ a. a.0) pairs.now) }
{
    let mut all = Items::new(alloc);
    for a in pairs {
        all.push(a.0)?;
    }
    Ok(all)
}

fn rights(alloc: Global, pairs: &[(u32, u32)]) -> Result<Items<u32>, NoMemory>
    ensures { IfOk result (λ all. all ≡ map (λ a. a.1) pairs.now) }
{
    let mut all = Items::new(alloc);
    for a in pairs {
        all.push(a.1)?;
    }
    Ok(all)
}

// The points of a side that are named, with its ends.
fn listed_points(
    alloc: Global,
    side: &Block,
    exit: u32,
    named: &[u32],
) -> Result<Items<u32>, NoMemory>
    requires { exit ≡ exit_point side.now }
    ensures { IfOk result (λ all. all ≡ with_ends side.now (listed_cuts side.now named.now)) }
{
    let mut all = Items::new(alloc);
    all.push(0)?;
    push_named(&mut all, exit, named)?;
    all.push(exit)?;
    Ok(all)
}

// Adds the named numbers from 1 up to the exit.
fn push_named(all: &mut Items<u32>, exit: u32, named: &[u32]) -> Result<(), NoMemory>
    ensures { OnOk result (all.new ≡ all.old ++ filter (λ p. list_any (λ c. c == p) named.now) (range_with_len 1 (exit - 1))) }
{
    for p in 1..exit {
        if is_named(named, p) {
            all.push(p)?;
        }
    }
    Ok(())
}

fn is_named(named: &[u32], p: u32) -> bool
    ensures { result ≡ list_any (λ c. c == p) named.now }
{
    named.iter().any(|c| *c == p)
}

fn first_entries(
    alloc: Global,
    list: &CutList,
    exits: (u32, u32),
) -> Result<Items<(u32, u32)>, NoMemory>
    ensures { IfOk result (λ all. all ≡ first_entries list.now exits) }
{
    let mut all = Items::new(alloc);
    all.push((0, 0))?;
    all.push(exits)?;
    match list {
        CutList::Default => Ok(all),
        CutList::Listed(pairs) => {
            all.append(Items::from_slice(alloc, pairs.as_slice())?)?;
            Ok(all)
        }
    }
}
