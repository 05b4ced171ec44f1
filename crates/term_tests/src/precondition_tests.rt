//! A pair of paths with a conjunct: what it says where they stop, its precondition, and the weight of that. Worked
//! rows are lemmas of the crate that makes them; here each call is made with ample memory.

use parallel_wp::{before, goal_at, weigh};
use rule_terms::{Conjunct, Literal, Path, Stop, StoreTerm};
use sqlite_items::Items;
use std::alloc::Global;
use std::test::Fail;
use term_examples::{conjunct, literals, store};
use toy_imp::NoMemory;

fn path(literals: Option<Items<Literal>>, store: Option<StoreTerm>) -> Option<Path> {
    Some(Path {
        literals: literals?,
        store: store?,
        stop: Stop::At(1),
    })
}

fn ran(alloc: Global, ends: &str, at: &str) -> Option<Path> {
    path(literals(alloc, ends), store(alloc, at))
}

fn is(found: Result<Conjunct, NoMemory>, wanted: Option<Conjunct>) -> bool {
    match (found, wanted) {
        (Ok(found), Some(wanted)) => found.same(&wanted),
        _ => false,
    }
}

// Whether the goal of `L = R` where two paths stop is as worked out.
fn goal_is(alloc: Global, left: &Path, right: &Path, c: &Conjunct) -> bool {
    let wanted = conjunct(alloc, "+store run2 L run2 R");
    is(goal_at(alloc, left, right, c), wanted)
}

// .. and its precondition before them.
fn precondition_is(alloc: Global, left: &Path, right: &Path, c: &Conjunct) -> bool {
    let wanted = conjunct(alloc, "+ends run2 L +ends run2 R +store run2 L run2 R");
    is(before(alloc, left, right, c), wanted)
}

// Both, and the weight.
fn answered(alloc: Global, left: &Path, right: &Path) -> Option<(bool, bool, u64)> {
    let c = conjunct(alloc, "+store L R")?;
    let goal = goal_is(alloc, left, right, &c);
    let precondition = precondition_is(alloc, left, right, &c);
    Some((goal, precondition, weigh(left, right, &c)))
}

fn of_both(alloc: Global, left: Option<Path>, right: Option<Path>) -> Option<(bool, bool, u64)> {
    let left = left?;
    let right = right?;
    answered(alloc, &left, &right)
}

#[test]
fn preconditions_are_answered(rt: HostRuntime) -> Result<(), Fail> {
    let left = ran(rt.alloc(), "+ends run2 L", "run2 L");
    let right = ran(rt.alloc(), "+ends run2 R", "run2 R");
    assert_eq!(rt; of_both(rt.alloc(), left, right), Some((true, true, 11)));
    Ok(())
}
