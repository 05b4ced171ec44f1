//! Whether the entries of a certificate are a relation over the cut points of a rule.
//! `specs/Certificates.antt` says when they are.

ghost use Rattle.std.specs.Prelude.{◌≡◌, ◌↔◌, [], ◌∷◌, map, IsTrue, IfOk};
ghost use Rattle.std.specs.List.{list_all};
ghost use Rattle.toy_imp.specs.Faults.{same_pair, repeats_pair};
ghost use Rattle.path_pairs.specs.Walks.{is_cut};
ghost use Rattle.spot_obligations.specs.Owed as owed;
ghost use Rattle.cert_checker.specs.Certificates as spec;
ghost use Rattle.cert_checker.specs.Certificates.{IsRelation};
ghost use Rattle.cert_checker.specs.Beginnings.{BeginsSo, IsPlain};

use path_pairs::{CutPoints, block_points};
use rule_faults::repeats_pair;
use rule_terms::{Conjunct, sides_equal};
use spot_obligations::{Entry, is_exit};
use sqlite_items::Items;
use std::alloc::Global;
use toy_imp::{NoMemory, Rule};

/// The most conjuncts of an entry.
const MOST_CONJUNCTS: usize = 32;

// Whether this is the one conjunct.
fn is_only(conjuncts: &[Conjunct], c: &Conjunct) -> bool
    ensures { IsTrue result ↔ (conjuncts.now ≡ c.now ∷ []) }
{
    match conjuncts {
        [x] => x.same(c),
        _ => false,
    }
}

// Whether `L = R` is all that is said at the entry.
fn is_plain(alloc: Global, e: &Entry) -> bool
    ensures { IsTrue result ↔ IsPlain e.now }
{
    let equal = sides_equal(alloc);
    is_only(e.conjuncts.as_slice(), &equal)
}

fn is_start(e: &Entry) -> bool
    ensures { result ≡ same_pair (owed.pair_of e.now) (0, 0) }
{
    e.left == 0 && e.right == 0
}

// Whether the first entry is the starts and the second the exits, with `L = R` alone.
fn begins(alloc: Global, rule: &Rule, first: &Entry, second: &Entry) -> bool
    ensures { IsTrue result ↔ BeginsSo rule.now first.now second.now }
{
    is_start(first) && is_exit(rule, second) && is_plain(alloc, first) && is_plain(alloc, second)
}

// Whether both points are before their exits, and there are not too many conjuncts.
fn is_inside(rule: &Rule, e: &Entry) -> bool
    ensures { result ≡ spec.is_inside rule.now e.now }
{
    u64::from(e.left) <= block_points(&rule.left)
        && u64::from(e.right) <= block_points(&rule.right)
        && e.conjuncts.len() <= MOST_CONJUNCTS
}

fn all_are_inside(rule: &Rule, entries: &[Entry]) -> bool
    ensures { result ≡ list_all (spec.is_inside rule.now) entries.now }
{
    for e in entries {
        if !is_inside(rule, e) {
            return false;
        }
    }
    true
}

fn is_cut(points: &[u32], p: u32) -> bool
    ensures { result ≡ is_cut points.now p }
{
    points.iter().any(|c| *c == p)
}

fn is_cut_entry(points: &CutPoints, e: &Entry) -> bool
    ensures { result ≡ spec.is_cut_entry points.now e.now }
{
    is_cut(points.left.as_slice(), e.left) && is_cut(points.right.as_slice(), e.right)
}

fn all_are_cut(points: &CutPoints, entries: &[Entry]) -> bool
    ensures { result ≡ list_all (spec.is_cut_entry points.now) entries.now }
{
    for e in entries {
        if !is_cut_entry(points, e) {
            return false;
        }
    }
    true
}

fn pairs_of(alloc: Global, entries: &[Entry]) -> Result<Items<(u32, u32)>, NoMemory>
    ensures { IfOk result (λ all. all ≡ map owed.pair_of entries.now) }
{
    let mut all = Items::new(alloc);
    for e in entries {
        all.push((e.left, e.right))?;
    }
    Ok(all)
}

fn pairs_repeat(alloc: Global, entries: &[Entry]) -> Result<bool, NoMemory>
    ensures { IfOk result (λ yes. yes ≡ repeats_pair (map owed.pair_of entries.now)) }
{
    let pairs = pairs_of(alloc, entries)?;
    repeats_pair(alloc, pairs.as_slice())
}

// Whether the entries are a relation, once the first two are named.
fn is_relation_of(
    alloc: Global,
    rule: &Rule,
    points: &CutPoints,
    entries: &[Entry],
    first: &Entry,
    second: &Entry,
    others: &[Entry],
) -> Result<bool, NoMemory>
    requires parts { entries.now ≡ first.now ∷ second.now ∷ others.now }
    ensures { IfOk result (λ yes. IsTrue yes ↔ IsRelation rule.now points.now entries.now) }
{
    if !begins(alloc, rule, first, second)
        || !all_are_inside(rule, others)
        || !all_are_cut(points, entries)
    {
        return Ok(false);
    }
    let repeat = pairs_repeat(alloc, entries)?;
    Ok(!repeat)
}

/// Whether the entries are different pairs of cut points: the starts and the exits, each with `L = R`
/// alone, and others before the exits with at most 32 conjuncts.
pub fn is_relation(
    alloc: Global,
    rule: &Rule,
    points: &CutPoints,
    entries: &[Entry],
) -> Result<bool, NoMemory>
    ensures { IfOk result (λ yes. IsTrue yes ↔ IsRelation rule.now points.now entries.now) }
{
    match entries {
        [first, second, others @ ..] => {
            is_relation_of(alloc, rule, points, entries, first, second, others)
        }
        _ => Ok(false),
    }
}
