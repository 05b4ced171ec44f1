//! From cut point to cut point along the one path whose literals are true.

use crate::runs::{end_of, outcome, outcome_behind, run_text};
use crate::truths::{SPARE, Scene, are_true, store_text};
use entry_pairs::cuts;
use param_meaning::fill;
use path_pairs::{CutPoints, Side, block_points, paths};
use program_examples::{instance, name};
use rule_terms::{Path, Stop, StoreNode, StoreTerm};
use sqlite_items::Items;
use std::alloc::Global;
use term_run::{Run, Setting};
use toy_imp::{Filling, Instance, Method, Name, Rule};
use toy_run::Cell;

/// A rule with its cut points, and the texts of what stands for its parameters.
#[derive(Clone, Copy)]
struct Filled<'a> {
    rule: &'a Rule,
    cuts: &'a CutPoints,
    texts: &'a [&'a str],
}

/// Where a run along paths stands: at a point in the store that these assignments make, or at none, and then how it
/// came out.
#[derive(Drop)]
struct Reached {
    point: Option<u32>,
    text: String,
}

// The store terms of a path that are runs, outermost first.
fn runs_in<'a>(alloc: Global, path: &'a Path) -> Option<Vec<&'a StoreTerm>> {
    let mut found = Vec::new(alloc);
    let mut at = &path.store;
    for _ in 0..200 {
        match &at.node {
            StoreNode::Put(s, _, _) => at = s.get(),
            StoreNode::Run(_, s) => {
                found.push(at).ok()?;
                at = s.get();
            }
            _ => return Some(found),
        }
    }
    None
}

// What stands for a statement parameter, behind the assignments of a store.
fn statement_behind(alloc: Global, texts: &[&str], k: u32, store: &str) -> Option<String> {
    let statement = texts.get(k as usize)?;
    format!(in alloc; "{store}{statement}").ok()
}

fn entry(
    statement: u32,
    from: Option<Option<Items<Cell>>>,
    to: Option<Option<Items<Cell>>>,
) -> Option<Run> {
    Some(Run {
        statement,
        from: from??,
        to: to?,
    })
}

// What a statement comes to from a store.
fn run_from(alloc: Global, texts: &[&str], k: u32, store: &str) -> Option<Run> {
    let whole = statement_behind(alloc, texts, k, store)?;
    let to = end_of(run_text(alloc, whole.as_str()));
    entry(k, end_of(run_text(alloc, store)), to)
}

fn add_run(table: &mut Items<Run>, run: Option<Run>) -> Option<()> {
    table.push(run?).ok()
}

fn add_run_from(alloc: Global, scene: &mut Scene<'_>, k: u32, from: Option<String>) -> Option<()> {
    match from {
        Some(store) => {
            let run = run_from(alloc, scene.texts, k, store.as_str());
            add_run(&mut scene.setting.table, run)
        }
        None => Some(()),
    }
}

// Enters what a run comes to from its store, if there is one.
fn enter_run(alloc: Global, scene: &mut Scene<'_>, term: &StoreTerm) -> Option<()> {
    match &term.node {
        StoreNode::Run(k, s) => {
            let from = store_text(alloc, scene, s.get())?;
            add_run_from(alloc, scene, *k, from)
        }
        _ => Some(()),
    }
}

// Enters the runs of a path, the inner ones first.
fn enter_all(alloc: Global, scene: &mut Scene<'_>, path: &Path) -> Option<()> {
    let runs = runs_in(alloc, path)?;
    for term in runs.iter().rev() {
        enter_run(alloc, scene, term)?;
    }
    Some(())
}

// Whether a path's literals are true, its runs entered.
fn is_taken(alloc: Global, scene: &mut Scene<'_>, path: &Path) -> Option<bool> {
    enter_all(alloc, scene, path)?;
    are_true(alloc, scene, path.literals.as_slice())
}

// The one path that is taken; none where not just one is.
fn taken<'a>(alloc: Global, scene: &mut Scene<'_>, all: &'a [Path]) -> Option<&'a Path> {
    let mut found: Option<&'a Path> = None;
    for path in all {
        if is_taken(alloc, scene, path)? {
            if found.is_some() {
                return None;
            }
            found = Some(path);
        }
    }
    found
}

fn position(point: Option<u32>, text: Option<String>) -> Option<Reached> {
    Some(Reached { point, text: text? })
}

// How a run comes out that halts in a store.
fn halted_in(alloc: Global, store: &str) -> Option<String> {
    let whole = format!(in alloc; "{store}assert 1 < 0;").ok()?;
    outcome(alloc, run_text(alloc, whole.as_str()))
}

// How a statement comes out from a store.
fn stuck_in(alloc: Global, texts: &[&str], k: u32, store: &str) -> Option<String> {
    let whole = statement_behind(alloc, texts, k, store)?;
    outcome(alloc, run_text(alloc, whole.as_str()))
}

// What a path leads to that stops so in a store.
fn stopped(alloc: Global, texts: &[&str], stop: Stop, store: &str) -> Option<Reached> {
    match stop {
        Stop::At(q) => position(Some(q), outcome(alloc, run_text(alloc, store))),
        Stop::Halted => position(None, halted_in(alloc, store)),
        Stop::Stuck(k) => position(None, stuck_in(alloc, texts, k, store)),
    }
}

// What a path leads to.
fn arrive(alloc: Global, scene: &Scene<'_>, path: &Path) -> Option<Reached> {
    let store = store_text(alloc, scene, &path.store)??;
    stopped(alloc, scene.texts, path.stop, store.as_str())
}

// What the path that is taken leads to.
fn go_on(alloc: Global, scene: &mut Scene<'_>, all: &[Path]) -> Option<Reached> {
    let path = taken(alloc, scene, all)?;
    arrive(alloc, scene, path)
}

fn go_on_along(
    alloc: Global,
    scene: Option<Scene<'_>>,
    all: Option<Items<Path>>,
) -> Option<Reached> {
    let mut scene = scene?;
    let all = all?;
    go_on(alloc, &mut scene, all.as_slice())
}

fn push_name(by: &mut Instance, name: Option<Name>) -> Option<()> {
    by.fillings.push(Filling::Name(name?)).ok()
}

// The fillings that texts spell, and behind them a name that nothing else has.
fn instance_with_spare(alloc: Global, rule: &Rule, texts: &[&str]) -> Option<Instance> {
    let mut by = instance(alloc, rule.params.as_slice(), texts)?;
    push_name(&mut by, name(alloc, SPARE))?;
    Some(by)
}

fn scene<'a>(
    alloc: Global,
    instance: Option<Instance>,
    texts: &'a [&'a str],
    left: Option<Option<Items<Cell>>>,
) -> Option<Scene<'a>> {
    Some(Scene {
        texts,
        setting: Setting {
            instance: instance?,
            table: Items::new(alloc),
            left: left??,
            right: Items::new(alloc),
        },
    })
}

// The paths from a point of the left side.
fn left_paths(alloc: Global, rule: &Rule, cuts: &CutPoints, p: u32) -> Option<Items<Path>> {
    if !rule.well_formed()
        || rule.method != Method::Simulate
        || u64::from(p) > block_points(&rule.left)
    {
        return None;
    }
    paths(alloc, rule, cuts, Side::Left, p).ok()
}

fn left_cuts(alloc: Global, rule: &Rule) -> Option<CutPoints> {
    if !rule.well_formed() || rule.method != Method::Simulate {
        return None;
    }
    cuts(alloc, rule).ok()
}

// Where the path from a point leads in a store.
fn from_point(alloc: Global, of: Filled<'_>, p: u32, store: &str) -> Option<Reached> {
    let instance = instance_with_spare(alloc, of.rule, of.texts);
    let scene = scene(alloc, instance, of.texts, end_of(run_text(alloc, store)));
    go_on_along(alloc, scene, left_paths(alloc, of.rule, of.cuts, p))
}

// From point to point until the exit, or where no point is reached.
fn walk(alloc: Global, of: Filled<'_>, exit: u32, start: Option<Reached>) -> Option<String> {
    let mut now = start?;
    for _ in 0..50 {
        match now.point {
            Some(p) if p != exit => now = from_point(alloc, of, p, now.text.as_str())?,
            _ => return Some(now.text),
        }
    }
    None
}

/// Goes along the paths of a rule's left side from its start, with these texts for the parameters, from the
/// store that these assignments make.
pub fn run_along(alloc: Global, rule: &Rule, texts: &[&str], store: &str) -> Option<String> {
    let cuts = left_cuts(alloc, rule)?;
    let exit = *cuts.left.as_slice().last()?;
    let of = Filled {
        rule,
        cuts: &cuts,
        texts,
    };
    walk(
        alloc,
        of,
        exit,
        position(Some(0), String::from_str(alloc, store).ok()),
    )
}

/// The same by running the filled left side.
pub fn run_whole(alloc: Global, rule: &Rule, texts: &[&str], store: &str) -> Option<String> {
    let by = instance(alloc, rule.params.as_slice(), texts)?;
    outcome_behind(alloc, store, fill(alloc, &rule.left, &by))
}
