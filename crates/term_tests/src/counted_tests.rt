//! Obligations with their four counts and the sizes of their universes, worked out by hand from the
//! definitions. Each has a copy that is the same, and so has its universe.

use rule_terms::Obligation;
use std::alloc::Global;
use std::test::Fail;
use term_examples::obligation;
use term_universe::{TermUniverse, counts, universe};
use toy_imp::NoMemory;

// Obligations; their nodes, stores, readings and depth; and how many store terms, value terms and tests
// the universe has. One for each kind of exchange: a run behind a run, a run behind a write, a write
// behind a run.
const ROWS: &str = "\
| | | +store L R => 3 2 0 1, 2 2 0
| | | => 0 0 0 0, 2 2 0
| | | +names => 1 0 0 0, 2 2 0
| +store L R | +ends run2 L | +store run2 L run2 R => 11 4 0 2, 4 2 0
commutes 2 3 | | | +ends run3 run2 L => 4 3 0 3, 6 2 0
commutes 3 2 | | | +ends run3 run2 L => 4 3 0 3, 6 2 0
commutes 2 2 | | | +ends run3 run2 L => 4 3 0 3, 4 2 0
ignores 2 0 | | | +ends run2 put0 L 7 => 5 3 1 3, 6 9 0
ignores 2 0 | | | +ends put0 run2 L 7 => 5 3 1 3, 6 9 0
ignores 2 1 | | | +ends run2 put0 L 7 => 5 3 1 3, 4 7 0
commutes 2 3, ignores 2 0 | | | +ends run3 run2 put0 L 7 => 6 4 1 4, 9 12 0
| | | +value ev4 L ev4 R => 5 2 1 2, 2 4 0
| | +holds5 L | +holds5 run2 L => 5 2 1 2, 3 2 3
| | | +holds5 L +ends R => 4 2 1 1, 2 2 2
| | | +most get0/1 ev4 L R 3 => 6 2 2 3, 2 7 0
| +store L R | | -value add 1 1 sub get0 L mul 2 2 => 13 2 1 3, 2 8 0";

fn sizes(found: Result<TermUniverse, NoMemory>) -> Option<(usize, usize, usize)> {
    let u = found.ok()?;
    Some((u.stores.len(), u.values.len(), u.tests.len()))
}

fn shown(alloc: Global, ob: &Obligation) -> Option<String> {
    let t = counts(ob);
    let (stores, values, tests) = sizes(universe(alloc, ob))?;
    let text = format!(in alloc;
        "{} {} {} {}, {stores} {values} {tests}",
        t.nodes, t.stores, t.readings, t.depth
    );
    text.ok()
}

fn same_universe(alloc: Global, found: Result<TermUniverse, NoMemory>) -> Option<bool> {
    let u = found.ok()?;
    let copy = u.copy(alloc).ok()?;
    Some(copy.same(&u))
}

fn is_copied(alloc: Global, ob: &Obligation) -> Option<bool> {
    let copy = ob.copy(alloc).ok()?;
    Some(copy.same(ob))
}

// Whether an obligation and its universe have copies that are the same.
fn are_copied(alloc: Global, ob: &Obligation) -> bool {
    is_copied(alloc, ob) == Some(true) && same_universe(alloc, universe(alloc, ob)) == Some(true)
}

// What is found of an obligation, if copies are the same.
fn found(alloc: Global, text: &str) -> Option<String> {
    let ob = obligation(alloc, text)?;
    if are_copied(alloc, &ob) {
        shown(alloc, &ob)
    } else {
        None
    }
}

#[test]
fn rows_are_as_worked_out(rt: HostRuntime) -> Result<(), Fail> {
    for line in ROWS.lines() {
        let (text, wanted) = line.split_once(" => ").unwrap_or((line, ""));
        let found = found(rt.alloc(), text).expect(&rt, text);
        assert_eq!(rt; found.as_str(), wanted, "{text}");
    }
    Ok(())
}
