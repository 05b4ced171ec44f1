//! The counts of an obligation by numbers, by look-up: those of the obligation for which the numbers stand.
//! `specs/RootSizes.antt` says what nodes and depth are made of; what is different is counted in what occurs.

ghost use Rattle.std.specs.Prelude.{◌≡◌, ◌+◌, true, length, IfOk};
ghost use Rattle.std.specs.List.{filter};
ghost use Rattle.rule_terms.specs.Counts.{saturated};
ghost use Rattle.term_universe.specs.Tallies.{tally};
ghost use Rattle.term_pool.specs.Numbered.{terms_of_nodes};
ghost use Rattle.term_pool.specs.Pooled.{obligation_in, obligation_numbered};
ghost use Rattle.pool_universe.specs.PooledParts.{is_store, is_reading};
ghost use Rattle.pool_universe.specs.RootSizes.{root_nodes, roots_nodes, root_depth, roots_depth, conjunct_literals, conjuncts_literals, obligation_literals};

use crate::part::PooledPart;
use crate::roots::obligation_roots;
use crate::sweep::occurring;
use rule_terms::Size;
use std::alloc::Global;
use term_pool::{Pool, PooledConjunct, PooledObligation};
use term_universe::Tally;
use toy_imp::NoMemory;

/// The counts of an obligation by numbers of the pool: nodes, different store terms, readings and
/// depth, each standing still at 2^64 - 1.
pub fn counts_of(alloc: Global, pool: &Pool, ob: &PooledObligation) -> Result<Tally, NoMemory>
    requires { obligation_in pool.now ob.now ≡ true }
    ensures { IfOk result (λ t. t ≡ tally (obligation_numbered pool.now ob.now)) }
{
    let roots = obligation_roots(alloc, ob)?;
    let size = roots_size(pool, roots.as_slice());
    let literals = obligation_literals(ob);
    let parts = occurring(alloc, pool, ob)?;
    let stores = count_stores(parts.as_slice());
    let readings = count_readings(parts.as_slice());
    Ok(Tally {
        nodes: size.nodes.saturating_add(literals),
        stores,
        readings,
        depth: size.depth,
    })
}

fn root_size(pool: &Pool, root: &PooledPart) -> Size
    ensures nodes { result.nodes ≡ saturated (root_nodes (terms_of_nodes pool.now) root.now) }
    ensures depth { result.depth ≡ saturated (root_depth (terms_of_nodes pool.now) root.now) }
{
    match root {
        PooledPart::Store(n) => pool.size(*n),
        PooledPart::Value(n) => pool.size(*n),
        PooledPart::Place(_) => Size::none(),
        PooledPart::Expr(_) => Size::none(),
        PooledPart::Test(_) => Size::none(),
    }
}

fn roots_size(pool: &Pool, roots: &[PooledPart]) -> Size
    ensures nodes { result.nodes ≡ saturated (roots_nodes (terms_of_nodes pool.now) roots.now) }
    ensures depth { result.depth ≡ saturated (roots_depth (terms_of_nodes pool.now) roots.now) }
{
    let mut all = Size::none();
    for root in roots {
        all = all.beside(root_size(pool, root));
    }
    all
}

fn conjunct_literals(c: &PooledConjunct) -> u64
    ensures { result ≡ saturated (conjunct_literals c.now) }
{
    let when = c.when.len() as u64;
    match &c.gives {
        Some(_) => when.saturating_add(1),
        None => when,
    }
}

fn conjuncts_literals(items: &[PooledConjunct]) -> u64
    ensures { result ≡ saturated (conjuncts_literals items.now) }
{
    let mut all: u64 = 0;
    for c in items {
        all = all.saturating_add(conjunct_literals(c));
    }
    all
}

fn obligation_literals(ob: &PooledObligation) -> u64
    ensures { result ≡ saturated (obligation_literals ob.now) }
{
    let path = ob.path.len() as u64;
    let behind = path.saturating_add(conjunct_literals(&ob.goal));
    conjuncts_literals(ob.known.as_slice()).saturating_add(behind)
}

fn is_store(part: &PooledPart) -> bool
    ensures { result ≡ is_store part.now }
{
    match part {
        PooledPart::Store(_) => true,
        PooledPart::Value(_) => false,
        PooledPart::Place(_) => false,
        PooledPart::Expr(_) => false,
        PooledPart::Test(_) => false,
    }
}

fn is_reading(part: &PooledPart) -> bool
    ensures { result ≡ is_reading part.now }
{
    match part {
        PooledPart::Store(_) => false,
        PooledPart::Value(_) => false,
        PooledPart::Place(_) => true,
        PooledPart::Expr(_) => true,
        PooledPart::Test(_) => true,
    }
}

#[tactic(auto, using(crate::proofs::Different::next_counted, crate::proofs::Different::all_counted))]
fn count_stores(parts: &[PooledPart]) -> u64
    ensures { result ≡ saturated (length (filter is_store parts.now)) }
{
    let mut all: u64 = 0;
    for part in parts {
        if is_store(part) {
            all = all.saturating_add(1);
        }
    }
    all
}

#[tactic(auto, using(crate::proofs::Different::next_counted, crate::proofs::Different::all_counted))]
fn count_readings(parts: &[PooledPart]) -> u64
    ensures { result ≡ saturated (length (filter is_reading parts.now)) }
{
    let mut all: u64 = 0;
    for part in parts {
        if is_reading(part) {
            all = all.saturating_add(1);
        }
    }
    all
}
