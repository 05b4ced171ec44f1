//! What a walk met so far, with the numbers of its nodes. Nothing is built of which a walk would have more
//! than 4,096: `specs/Counts.antt` of the terms says what is counted, `specs/PathAnswers.antt` what is refused.

ghost use Rattle.std.specs.Prelude.{◌≡◌, ◌+◌, ◌≤◌, ◌<◌, true, false, [], ◌∷◌, ◌++◌, IfOk, IfErr};
ghost use Rattle.toy_imp.specs.ExprView.{exprs_of};
ghost use Rattle.rule_terms.specs.Counts.{saturated, store_nodes, literals_nodes};
ghost use Rattle.rule_terms.specs.declared.obligation.Atom.TheVariants.{Ends};
ghost use Rattle.rule_terms.specs.Term.{put, run};
ghost use Rattle.rule_terms.specs.ValueAt.{is_open, names_are_open, all_names_are_open, number_of, value_at, values_at};
ghost use Rattle.path_pairs.specs.NodeCounts.{expr_nodes, exprs_nodes};
ghost use Rattle.path_pairs.specs.PathAnswers.{RefusesNodes};
ghost use Rattle.path_pairs.specs.Paths.{store_of};

use crate::cut_points::Side;
use crate::node_counts::{expr_nodes, exprs_nodes};
use crate::refusal::PathRefusal;
use crate::test_outcome::joined;
use rule_terms::{
    Atom, LimitKind, Literal, Place, StoreTerm, copy_literals, number_of, value_at, values_at,
};
use sqlite_items::Items;
use std::alloc::Global;
use toy_imp::{Expr, Name, NoMemory};

/// The most nodes that a walk may have.
pub const MOST_NODES: u64 = 4096;

/// What a walk met so far.
#[derive(Drop)]
pub struct Met {
    pub literals: Items<Literal>,
    /// The nodes of the literals.
    pub of_literals: u64,
    pub store: StoreTerm,
    /// The nodes of the store.
    pub of_store: u64,
    ghost literals_counted: { of_literals ≡ literals_nodes literals },
    ghost store_counted: { of_store ≡ store_nodes store },
    ghost within: { of_literals + of_store ≤ 4096 },
}

// The store from which walks of a side set out.
#[tactic(auto, unfolding(rule_terms::specs::Counts::store_nodes))]
fn first_store(side: Side) -> StoreTerm
    ensures store { result ≡ store_of side }
    ensures nodes { store_nodes result ≡ 1 }
{
    match side {
        Side::Left => StoreTerm::left(),
        Side::Right => StoreTerm::right(),
    }
}

// The store with the value of an expression written into a cell.
fn written(
    alloc: Global,
    s: StoreTerm,
    x: &Name,
    indices: &[Expr],
    e: &Expr,
) -> Result<StoreTerm, NoMemory>
    requires name { is_open x.now ≡ true }
    requires indices { all_names_are_open (exprs_of indices.now) ≡ true }
    requires value { names_are_open e.now ≡ true }
    ensures { IfOk result (λ t. t ≡ put s (number_of x.now) (values_at (exprs_of indices.now) s) (value_at e.now s)) }
{
    let indices = values_at(alloc, indices, &s)?;
    let value = value_at(alloc, e, &s)?;
    let place = Place {
        name: number_of(x),
        indices,
    };
    StoreTerm::put(alloc, s, place, value)
}

// The nodes of the store with the value of an expression written into a cell, of a store of `n`.
fn with_written(indices: &[Expr], e: &Expr, n: u64) -> u64
    ensures { result ≡ saturated (n + (exprs_nodes (exprs_of indices.now) n + expr_nodes e.now n) + 1) }
{
    let value = expr_nodes(e, n);
    let added = exprs_nodes(indices, n).saturating_add(value);
    n.saturating_add(added).saturating_add(1)
}

// The store in which a statement parameter ends, with a copy of the store before.
fn ended(alloc: Global, k: u32, s: &StoreTerm) -> Result<StoreTerm, NoMemory>
    ensures { IfOk result (λ t. t ≡ run k s.now) }
{
    let s = s.copy(alloc)?;
    StoreTerm::run(alloc, k, s)
}

// The literals, and that a store term means a store, or does not.
fn with_end(
    alloc: Global,
    literals: &[Literal],
    ends: bool,
    s: &StoreTerm,
) -> Result<Items<Literal>, NoMemory>
    ensures { IfOk result (λ all. all ≡ literals.now ++ record { sign = ends; atom = Ends s.now } ∷ []) }
{
    let mut all = copy_literals(alloc, literals)?;
    let s = s.copy(alloc)?;
    all.push(Literal {
        sign: ends,
        atom: Atom::Ends(s),
    })?;
    Ok(all)
}

// The nodes of literals, or 2^64 - 1 where there are more.
fn nodes_of(literals: &[Literal]) -> u64
    ensures { result ≡ saturated (literals_nodes literals.now) }
{
    let mut all: u64 = 0;
    for l in literals {
        all = all.saturating_add(l.size().nodes);
    }
    all
}

impl Met {
    /// What a walk met that made no step.
    pub fn start(alloc: Global, side: Side) -> Met
        ensures literals { result.literals ≡ [] }
        ensures store { result.store ≡ store_of side }
    {
        Met {
            literals: Items::new(alloc),
            of_literals: 0,
            store: first_store(side),
            of_store: 1,
        }
    }

    /// With the value of an expression written into a cell.
    pub fn write(
        self,
        alloc: Global,
        x: &Name,
        indices: &[Expr],
        e: &Expr,
    ) -> Result<Met, PathRefusal>
        requires name { is_open x.now ≡ true }
        requires indices { all_names_are_open (exprs_of indices.now) ≡ true }
        requires value { names_are_open e.now ≡ true }
        ensures literals { IfOk result (λ m. m.literals ≡ self.literals) }
        ensures store { IfOk result (λ m. m.store ≡ put self.store (number_of x.now) (values_at (exprs_of indices.now) self.store) (value_at e.now self.store)) }
        ensures err { IfErr result (λ r. RefusesNodes (literals_nodes self.literals + store_nodes (put self.store (number_of x.now) (values_at (exprs_of indices.now) self.store) (value_at e.now self.store))) r) }
    {
        let Met {
            literals,
            of_literals,
            store,
            of_store,
        } = self;
        let of_store = with_written(indices, e, of_store);
        let nodes = of_literals.saturating_add(of_store);
        if nodes > MOST_NODES {
            return Err(PathRefusal::Limit(LimitKind::PathNodes));
        }
        let store = written(alloc, store, x, indices, e)?;
        Ok(Met {
            literals,
            of_literals,
            store,
            of_store,
        })
    }

    /// With that a statement parameter does not end from the store, which stays.
    pub fn stuck(&self, alloc: Global, k: u32) -> Result<Met, PathRefusal>
        ensures literals { IfOk result (λ m. m.literals ≡ self.now.literals ++ record { sign = false; atom = Ends (run k self.now.store) } ∷ []) }
        ensures store { IfOk result (λ m. m.store ≡ self.now.store) }
        ensures err { IfErr result (λ r. RefusesNodes (literals_nodes (self.now.literals ++ record { sign = false; atom = Ends (run k self.now.store) } ∷ []) + store_nodes self.now.store) r) }
    {
        let of_literals = self.of_literals + (self.of_store + 2);
        let nodes = of_literals + self.of_store;
        if nodes > MOST_NODES {
            return Err(PathRefusal::Limit(LimitKind::PathNodes));
        }
        let behind = ended(alloc, k, &self.store)?;
        let literals = with_end(alloc, self.literals.as_slice(), false, &behind)?;
        let before = self.store.copy(alloc)?;
        Ok(Met {
            literals,
            of_literals,
            store: before,
            of_store: self.of_store,
        })
    }

    /// With the store in which a statement parameter ends.
    pub fn run(&self, alloc: Global, k: u32) -> Result<Met, PathRefusal>
        ensures literals { IfOk result (λ m. m.literals ≡ self.now.literals ++ record { sign = true; atom = Ends (run k self.now.store) } ∷ []) }
        ensures store { IfOk result (λ m. m.store ≡ run k self.now.store) }
        ensures err { IfErr result (λ r. RefusesNodes (literals_nodes (self.now.literals ++ record { sign = true; atom = Ends (run k self.now.store) } ∷ []) + store_nodes (run k self.now.store)) r) }
    {
        let of_store = self.of_store + 1;
        let of_literals = self.of_literals + (of_store + 1);
        let nodes = of_literals + of_store;
        if nodes > MOST_NODES {
            return Err(PathRefusal::Limit(LimitKind::PathNodes));
        }
        let store = ended(alloc, k, &self.store)?;
        let literals = with_end(alloc, self.literals.as_slice(), true, &store)?;
        Ok(Met {
            literals,
            of_literals,
            store,
            of_store,
        })
    }

    /// With the literals of an outcome.
    pub fn with(&self, alloc: Global, outcome: &[Literal]) -> Result<Met, PathRefusal>
        ensures literals { IfOk result (λ m. m.literals ≡ self.now.literals ++ outcome.now) }
        ensures store { IfOk result (λ m. m.store ≡ self.now.store) }
        ensures err { IfErr result (λ r. RefusesNodes (literals_nodes (self.now.literals ++ outcome.now) + store_nodes self.now.store) r) }
    {
        let of_literals = self.of_literals.saturating_add(nodes_of(outcome));
        let nodes = of_literals.saturating_add(self.of_store);
        if nodes > MOST_NODES {
            return Err(PathRefusal::Limit(LimitKind::PathNodes));
        }
        let literals = joined(alloc, self.literals.as_slice(), outcome)?;
        let store = self.store.copy(alloc)?;
        Ok(Met {
            literals,
            of_literals,
            store,
            of_store: self.of_store,
        })
    }
}
