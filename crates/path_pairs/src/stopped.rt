//! The paths of walks that stop: at a point, stuck before a statement parameter, or halted by an `assert`.
//! `specs/Walks.antt` says which they are, `specs/PathAnswers.antt` what is answered.

ghost use Rattle.std.specs.Prelude.{◌≡◌, ◌+◌, nat_lt, true, false, [], ◌∷◌, ◌++◌};
ghost use Rattle.rule_terms.specs.Counts.{store_nodes, literals_nodes};
ghost use Rattle.rule_terms.specs.Term.{run};
ghost use Rattle.rule_terms.specs.declared.obligation.Atom.TheVariants.{Ends};
ghost use Rattle.rule_terms.specs.declared.path.Stop.TheVariants.{Halted, Stuck};
ghost use Rattle.path_pairs.specs.NodeCounts.{outcome_nodes};
ghost use Rattle.path_pairs.specs.Open.{test_is_open};
ghost use Rattle.path_pairs.specs.Outcomes.{outcomes};
ghost use Rattle.path_pairs.specs.PathAnswers.{Adds};
ghost use Rattle.path_pairs.specs.Walks.{halting_paths};

use crate::met::{MOST_NODES, Met};
use crate::node_counts::outcome_nodes;
use crate::refusal::PathRefusal;
use crate::test_outcome::outcomes;
use rule_terms::{LimitKind, Literal, Path, Stop};
use sqlite_items::Items;
use std::alloc::Global;
use toy_imp::Test;

/// Adds the path of a walk that stops.
pub fn add_path(all: &mut Items<Path>, met: Met, stop: Stop) -> Result<(), PathRefusal>
    ensures { Adds (record { literals = met.literals; store = met.store; stop = stop } ∷ []) all.old all.new result }
{
    let Met {
        literals,
        store,
        ..
    } = met;
    all.push(Path {
        literals,
        store,
        stop,
    })?;
    Ok(())
}

/// Adds the path of a walk that is stuck before a statement parameter.
pub fn add_stuck(alloc: Global, met: &Met, k: u32, all: &mut Items<Path>) -> Result<(), PathRefusal>
    ensures { Adds (record { literals = met.now.literals ++ record { sign = false; atom = Ends (run k met.now.store) } ∷ []; store = met.now.store; stop = Stuck k } ∷ []) all.old all.new result }
{
    match met.stuck(alloc, k) {
        Ok(stuck) => add_path(all, stuck, Stop::Stuck(k)),
        Err(e) => Err(e),
    }
}

/// Whether some outcome of a test makes a walk of too many nodes.
pub fn is_too_large(met: &Met, t: &Test, way: bool) -> bool
    ensures { result ≡ nat_lt 4096 (literals_nodes met.now.literals + store_nodes met.now.store + outcome_nodes t.now way (store_nodes met.now.store)) }
{
    let most = outcome_nodes(t, met.of_store);
    let most = if way { most.when_true } else { most.when_false };
    (met.of_literals + met.of_store).saturating_add(most) > MOST_NODES
}

/// Adds the paths that halt, one for each outcome in which the test of an `assert` is false, in order.
pub fn add_halted(
    alloc: Global,
    met: &Met,
    t: &Test,
    all: &mut Items<Path>,
) -> Result<(), PathRefusal>
    requires { test_is_open t.now ≡ true }
    ensures { Adds (halting_paths (outcomes t.now false met.now.store) met.now.literals met.now.store) all.old all.new result }
{
    if is_too_large(met, t, false) {
        return Err(PathRefusal::Limit(LimitKind::PathNodes));
    }
    let found = outcomes(alloc, t, false, &met.store)?;
    halt_each(alloc, met, found.as_slice(), all)
}

// Adds the paths that halt by each of these outcomes, in order.
fn halt_each(
    alloc: Global,
    met: &Met,
    found: &[Items<Literal>],
    all: &mut Items<Path>,
) -> Result<(), PathRefusal>
    ensures { Adds (halting_paths found.now met.now.literals met.now.store) all.old all.new result }
{
    for outcome in found {
        halt_by(alloc, met, outcome.as_slice(), all)?;
    }
    Ok(())
}

// Adds the path that halts by an outcome.
fn halt_by(
    alloc: Global,
    met: &Met,
    outcome: &[Literal],
    all: &mut Items<Path>,
) -> Result<(), PathRefusal>
    ensures { Adds (record { literals = met.now.literals ++ outcome.now; store = met.now.store; stop = Halted } ∷ []) all.old all.new result }
{
    match met.with(alloc, outcome) {
        Ok(halted) => add_path(all, halted, Stop::Halted),
        Err(e) => Err(e),
    }
}
