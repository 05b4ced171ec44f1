//! Each row of the table is read, and its condition is asked of its instance.

use crate::rows::{LINES, SWAPS};
use program_examples::{expression, name, program, test};
use sqlite_items::Items;
use std::alloc::Global;
use std::test::Fail;
use swap_conditions::holds_by_text;
use toy_imp::{Condition, Filling, Instance, Region};

fn filling(alloc: Global, text: &str) -> Option<Filling> {
    let (kind, text) = text.split_once(" ")?;
    match kind {
        "S" => program(alloc, text).map(Filling::Stmt),
        "E" => expression(alloc, text).map(Filling::Expr),
        "B" => test(alloc, text).map(Filling::Test),
        _ => name(alloc, text).map(Filling::Name),
    }
}

fn add(by: &mut Instance, filling: Option<Filling>) -> Option<()> {
    by.fillings.push(filling?).ok()
}

fn add_all(alloc: Global, by: &mut Instance, texts: &str) -> Option<()> {
    for text in texts.split(" & ") {
        add(by, filling(alloc, text))?;
    }
    Some(())
}

fn instance(alloc: Global, texts: &str) -> Option<Instance> {
    let mut by = Instance {
        fillings: Items::new(alloc),
    };
    add_all(alloc, &mut by, texts)?;
    Some(by)
}

// The condition of a word, on the first parameters.
fn condition(word: &str) -> Option<Condition> {
    match word {
        "keeps" => Some(Condition::Keeps(0, 1)),
        "ignores" => Some(Condition::Ignores(0, 1)),
        "commutes" => Some(Condition::Commutes(0, 1)),
        "positive" => Some(Condition::Positive(0)),
        "constant" => Some(Condition::Constant(0)),
        "distinct" => Some(Condition::Distinct(0, 1)),
        "quiet" => Some(Condition::Quiet(0)),
        _ => None,
    }
}

fn region(word: &str) -> Option<Region> {
    match word {
        "distinct" => Some(Region::Distinct),
        "earlier" => Some(Region::Earlier),
        "crossing" => Some(Region::Crossing),
        _ => None,
    }
}

// `swaps` of the first two parameters over the others.
fn swaps(alloc: Global, by: &Instance, region: Region) -> Option<Condition> {
    let many = u32::try_from(by.fillings.len()).ok()?;
    let mut over = Items::new(alloc);
    for k in 2..many {
        over.push(k).ok()?;
    }
    Some(Condition::Swaps(0, 1, over, region))
}

fn line_holds(alloc: Global, word: &str, texts: &str) -> Option<bool> {
    let by = instance(alloc, texts)?;
    let c = condition(word)?;
    Some(holds_by_text(&c, &by))
}

fn swap_holds(alloc: Global, word: &str, texts: &str) -> Option<bool> {
    let by = instance(alloc, texts)?;
    let c = swaps(alloc, &by, region(word)?)?;
    Some(holds_by_text(&c, &by))
}

// Whether a row comes out as it says.
fn is_right(alloc: Global, line: &str, is_swap: bool) -> Option<bool> {
    let (word, rest) = line.split_once(" & ")?;
    let (texts, wanted) = rest.split_once(" => ")?;
    let holds = if is_swap {
        swap_holds(alloc, word, texts)?
    } else {
        line_holds(alloc, word, texts)?
    };
    Some(holds == (wanted == "yes"))
}

#[test]
fn lines_of_the_table(rt: HostRuntime) -> Result<(), Fail> {
    for line in LINES.lines() {
        assert_eq!(rt; is_right(rt.alloc(), line, false), Some(true), "{line}");
    }
    Ok(())
}

#[test]
fn swaps_region_by_region(rt: HostRuntime) -> Result<(), Fail> {
    for line in SWAPS.lines() {
        assert_eq!(rt; is_right(rt.alloc(), line, true), Some(true), "{line}");
    }
    Ok(())
}
