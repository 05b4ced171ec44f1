//! The obligation of a pair of paths and a conjunct that they owe, built, or only weighed where it has too
//! many nodes.
//! `specs/Obligations.antt` says what it is.

ghost use Rattle.std.specs.Prelude.{◌≡◌, map, Some, nat_lt, IfOk};
ghost use Rattle.rule_terms.specs.Counts.{obligation_nodes};
ghost use Rattle.rule_terms.specs.Counts as counts;
ghost use Rattle.parallel_wp.specs.Precondition.{both_literals, precondition};
ghost use Rattle.parallel_wp.specs.PreconditionLaws.{counted_with};
ghost use Rattle.spot_obligations.specs.Obligations as spec;
ghost use Rattle.spot_obligations.specs.Obligations.{obligation_of, is_heavy, weighed_of};

use crate::obligation_at::ObligationAt;
use parallel_wp::{goal_at, weigh};
use rule_terms::{
    Conjunct, Literal, Obligation, Path, copy_conditions, copy_conjuncts, copy_literals,
};
use sqlite_items::Items;
use std::alloc::Global;
use toy_imp::{Kind, NoMemory, Param, Rule};

/// The most nodes of an obligation that is built.
const MOST_NODES: u64 = 4096;

fn kinds_of(alloc: Global, params: &[Param]) -> Result<Items<Kind>, NoMemory>
    ensures { IfOk result (λ all. all ≡ map (λ p. p.kind) params.now) }
{
    let mut all = Items::new(alloc);
    for p in params {
        all.push(p.kind)?;
    }
    Ok(all)
}

fn literals_of(alloc: Global, left: &Path, right: &Path) -> Result<Items<Literal>, NoMemory>
    ensures { IfOk result (λ all. all ≡ both_literals left.now right.now) }
{
    let mut all = copy_literals(alloc, left.literals.as_slice())?;
    let others = copy_literals(alloc, right.literals.as_slice())?;
    all.append(others)?;
    Ok(all)
}

// The obligation of a rule with these parts.
#[tactic(auto, unfolding(crate::specs::Obligations::obligation_of))]
fn of_rule(
    alloc: Global,
    rule: &Rule,
    known: Items<Conjunct>,
    path: Items<Literal>,
    goal: Conjunct,
) -> Result<Obligation, NoMemory>
    ensures { IfOk result (λ ob. ob ≡ spec.of_rule rule.now known path goal) }
{
    let params = kinds_of(alloc, rule.params.as_slice())?;
    let conditions = copy_conditions(alloc, rule.conditions.as_slice())?;
    Ok(Obligation {
        params,
        conditions,
        known,
        path,
        goal,
    })
}

/// The obligation of a pair of paths and a conjunct that they owe, with these conjuncts known, whatever
/// its size.
#[tactic(auto, unfolding(crate::specs::Obligations::obligation_of))]
pub fn obligation_of(
    alloc: Global,
    rule: &Rule,
    known: &[Conjunct],
    left: &Path,
    right: &Path,
    goal: &Conjunct,
) -> Result<Obligation, NoMemory>
    ensures { IfOk result (λ ob. ob ≡ obligation_of rule.now known.now left.now right.now goal.now) }
{
    let known = copy_conjuncts(alloc, known)?;
    let path = literals_of(alloc, left, right)?;
    let goal = goal_at(alloc, left, right, goal)?;
    of_rule(alloc, rule, known, path, goal)
}

fn known_nodes(known: &[Conjunct]) -> u64
    ensures { result ≡ counts.saturated (counts.conjuncts_nodes known.now) }
{
    let mut all: u64 = 0;
    for c in known {
        all = all.saturating_add(c.size().nodes);
    }
    all
}

// Whether that obligation has more nodes than are built. Takes no memory.
#[tactic(auto, using(crate::proofs::Weighing::passes_most))]
fn is_heavy(rule: &Rule, known: &[Conjunct], left: &Path, right: &Path, goal: &Conjunct) -> bool
    ensures { result ≡ is_heavy rule.now known.now left.now right.now goal.now }
{
    known_nodes(known).saturating_add(weigh(left, right, goal)) > MOST_NODES
}

/// The obligation of a pair of paths and a conjunct that they owe, with these conjuncts known; `Heavy`,
/// and not built, where it has more than 4,096 nodes.
pub fn weighed_obligation(
    alloc: Global,
    rule: &Rule,
    known: &[Conjunct],
    left: &Path,
    right: &Path,
    goal: &Conjunct,
) -> Result<ObligationAt, NoMemory>
    ensures { IfOk result (λ a. a ≡ weighed_of rule.now known.now left.now right.now goal.now) }
{
    if is_heavy(rule, known, left, right, goal) {
        return Ok(ObligationAt::Heavy);
    }
    let ob = obligation_of(alloc, rule, known, left, right, goal)?;
    Ok(ObligationAt::Found(ob))
}
