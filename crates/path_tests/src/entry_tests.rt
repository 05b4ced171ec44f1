//! What `cuts` and `paths` answer, with ample memory: cut points, entries and paths where no limit is met, and else
//! the first limit, and where.

use entry_pairs::{CutsRefusal, LimitMark, cuts};
use path_pairs::{CutPoints, PathRefusal, Side, path_count, paths};
use program_examples::rule;
use rule_terms::{LimitKind, Path};
use sqlite_items::Items;
use std::alloc::Global;
use std::test::Fail;
use toy_imp::{Method, Rule};

// A loop, and the same loop with two turns in one.
const UNROLLED: &str =
    "test B; stmt S; left { while B { S; } } right { while B { S; if B { S; } else { } } }";

// A loop that no cut point stands in.
const UNCUT: &str = "test B; cuts none; left { while B { skip; } } right { while B { skip; } }";

// So many tests in a row.
fn tests_text(alloc: Global, count: usize) -> Option<String> {
    let mut side = String::new(alloc);
    for _ in 0..count {
        side.push_str("if B { skip; } else { skip; } ").ok()?;
    }
    Some(side)
}

// .. on each side.
fn tests_in_a_row(alloc: Global, count: usize) -> Option<Rule> {
    let side = tests_text(alloc, count)?;
    let text = format!(in alloc; "test B; left {{ {side} }} right {{ {side} }}").ok()?;
    rule(alloc, text.as_str())
}

fn entries(alloc: Global, rule: Option<Rule>) -> Option<Result<CutPoints, CutsRefusal>> {
    let rule = rule?;
    if !rule.well_formed() || rule.method != Method::Simulate {
        return None;
    }
    Some(cuts(alloc, &rule))
}

fn are(
    found: Option<Result<CutPoints, CutsRefusal>>,
    left: &[u32],
    right: &[u32],
    pairs: &[(u32, u32)],
) -> bool {
    match found {
        Some(Ok(points)) => {
            points.left.as_slice() == left
                && points.right.as_slice() == right
                && points.pairs.as_slice() == pairs
        }
        _ => false,
    }
}

fn mark(found: Option<Result<CutPoints, CutsRefusal>>) -> Option<LimitMark> {
    match found {
        Some(Err(CutsRefusal::Limit(mark))) => Some(mark),
        _ => None,
    }
}

fn at_start(what: LimitKind) -> Option<LimitMark> {
    Some(LimitMark { what, entry: 0 })
}

#[test]
fn cuts_are_answered(rt: HostRuntime) -> Result<(), Fail> {
    let found = entries(rt.alloc(), rule(rt.alloc(), UNROLLED));
    assert!(rt;
        are(
            found,
            &[0, 2, 3],
            &[0, 2, 3, 4],
            &[(0, 0), (3, 4), (2, 2), (2, 3)]
        )
    );
    let found = entries(rt.alloc(), tests_in_a_row(rt.alloc(), 4));
    assert!(rt; are(found, &[0, 1], &[0, 1], &[(0, 0), (1, 1)]));
    Ok(())
}

#[test]
fn limits_of_cuts_are_answered(rt: HostRuntime) -> Result<(), Fail> {
    let found = mark(entries(rt.alloc(), tests_in_a_row(rt.alloc(), 9)));
    assert_eq!(rt; found, at_start(LimitKind::Pairs));
    let found = mark(entries(rt.alloc(), tests_in_a_row(rt.alloc(), 10)));
    assert_eq!(rt; found, at_start(LimitKind::Paths));
    let found = mark(entries(rt.alloc(), rule(rt.alloc(), UNCUT)));
    assert_eq!(rt; found, at_start(LimitKind::PathSteps));
    Ok(())
}

// The start and this point.
fn two(alloc: Global, exit: u32) -> Option<Items<u32>> {
    Items::from_slice(alloc, &[0, exit]).ok()
}

fn points(alloc: Global, left: Option<Items<u32>>, right: Option<Items<u32>>) -> Option<CutPoints> {
    Some(CutPoints {
        left: left?,
        right: right?,
        pairs: Items::new(alloc),
    })
}

// The start and this point as the cut points of both sides.
fn ends(alloc: Global, exit: u32) -> Option<CutPoints> {
    let points = points(alloc, two(alloc, exit), two(alloc, exit))?;
    points.copy(alloc).ok()
}

// The paths of the right side from its start.
fn right_paths(
    alloc: Global,
    rule: &Rule,
    points: &CutPoints,
) -> Option<Result<Items<Path>, PathRefusal>> {
    if !rule.well_formed() || rule.method != Method::Simulate {
        return None;
    }
    Some(paths(alloc, rule, points, Side::Right, 0))
}

// .. and how many they are, not built.
fn right_count(alloc: Global, rule: &Rule, points: &CutPoints) -> Option<u64> {
    if !rule.well_formed() || rule.method != Method::Simulate {
        return None;
    }
    path_count(alloc, rule, points, Side::Right, 0).ok()
}

fn from_start(
    alloc: Global,
    rule: Option<Rule>,
    exit: u32,
) -> Option<Result<Items<Path>, PathRefusal>> {
    let rule = rule?;
    let points = ends(alloc, exit)?;
    right_paths(alloc, &rule, &points)
}

fn count_from_start(alloc: Global, rule: Option<Rule>, exit: u32) -> Option<u64> {
    let rule = rule?;
    let points = ends(alloc, exit)?;
    right_count(alloc, &rule, &points)
}

fn number(found: Option<Result<Items<Path>, PathRefusal>>) -> Option<usize> {
    match found {
        Some(Ok(all)) => Some(all.len()),
        _ => None,
    }
}

fn limit(found: Option<Result<Items<Path>, PathRefusal>>) -> Option<LimitKind> {
    match found {
        Some(Err(PathRefusal::Limit(what))) => Some(what),
        _ => None,
    }
}

#[test]
fn paths_are_answered(rt: HostRuntime) -> Result<(), Fail> {
    let found = number(from_start(rt.alloc(), tests_in_a_row(rt.alloc(), 4), 1));
    assert_eq!(rt; found, Some(16));
    let found = number(from_start(rt.alloc(), tests_in_a_row(rt.alloc(), 9), 1));
    assert_eq!(rt; found, Some(512));
    let found = count_from_start(rt.alloc(), tests_in_a_row(rt.alloc(), 10), 1);
    assert_eq!(rt; found, Some(1024));
    Ok(())
}

#[test]
fn limits_of_paths_are_answered(rt: HostRuntime) -> Result<(), Fail> {
    let found = limit(from_start(rt.alloc(), tests_in_a_row(rt.alloc(), 10), 1));
    assert_eq!(rt; found, Some(LimitKind::Paths));
    let found = limit(from_start(rt.alloc(), rule(rt.alloc(), UNCUT), 2));
    assert_eq!(rt; found, Some(LimitKind::PathSteps));
    Ok(())
}
