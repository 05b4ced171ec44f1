//! The nodes of an obligation by numbers, by look-up: a pool keeps those of each number. A part that stands in it twice
//! counts twice, as in `rule_terms`, `specs/Counts.antt`.

ghost use Rattle.std.specs.Prelude.{◌≡◌, suc, true};
ghost use Rattle.rule_terms.specs.Counts.{saturated, conjunct_nodes, obligation_nodes};
ghost use Rattle.term_pool.specs.Numbered.{terms_of_nodes};
ghost use Rattle.term_pool.specs.Pooled.{conjunct_in, conjunct_numbered, obligation_in, obligation_numbered};
ghost use Rattle.pool_goals.specs.Nodes.{atom_found, literals_found, conjunct_found, conjuncts_found};

use term_pool::{Pool, PooledAtom, PooledConjunct, PooledLiteral, PooledObligation};

/// The nodes of an obligation by numbers of the pool, standing still at 2^64 - 1. Takes no memory.
#[tactic(auto, using(crate::proofs::Counted::obligation_counted))]
pub fn obligation_nodes(pool: &Pool, ob: &PooledObligation) -> u64
    requires { obligation_in pool.now ob.now ≡ true }
    ensures { result ≡ saturated (obligation_nodes (obligation_numbered pool.now ob.now)) }
{
    let known = conjuncts_found(pool, ob.known.as_slice());
    let path = literals_found(pool, ob.path.as_slice());
    known.saturating_add(path.saturating_add(conjunct_found(pool, &ob.goal)))
}

/// The nodes of a conjunct by numbers of the pool, standing still at 2^64 - 1. Takes no memory.
#[tactic(auto, using(crate::proofs::Counted::conjunct_counted))]
pub fn conjunct_nodes(pool: &Pool, c: &PooledConjunct) -> u64
    requires { conjunct_in (terms_of_nodes pool.now) c.now ≡ true }
    ensures { result ≡
        saturated (conjunct_nodes (conjunct_numbered (terms_of_nodes pool.now) c.now)) }
{
    conjunct_found(pool, c)
}

fn conjuncts_found(pool: &Pool, items: &[PooledConjunct]) -> u64
    ensures { result ≡ saturated (conjuncts_found (terms_of_nodes pool.now) items.now) }
{
    let mut all: u64 = 0;
    for c in items {
        all = all.saturating_add(conjunct_found(pool, c));
    }
    all
}

fn conjunct_found(pool: &Pool, c: &PooledConjunct) -> u64
    ensures { result ≡ saturated (conjunct_found (terms_of_nodes pool.now) c.now) }
{
    let when = literals_found(pool, c.when.as_slice());
    match &c.gives {
        Some(x) => when.saturating_add(literal_found(pool, x)),
        None => when,
    }
}

fn literals_found(pool: &Pool, items: &[PooledLiteral]) -> u64
    ensures { result ≡ saturated (literals_found (terms_of_nodes pool.now) items.now) }
{
    let mut all: u64 = 0;
    for x in items {
        all = all.saturating_add(literal_found(pool, x));
    }
    all
}

fn literal_found(pool: &Pool, x: &PooledLiteral) -> u64
    ensures { result ≡ saturated (suc (atom_found (terms_of_nodes pool.now) x.now.atom)) }
{
    atom_found(pool, &x.atom).saturating_add(1)
}

#[tactic(auto, unfolding(crate::specs::Nodes::atom_found))]
fn atom_found(pool: &Pool, x: &PooledAtom) -> u64
    ensures { result ≡ saturated (atom_found (terms_of_nodes pool.now) x.now) }
{
    match x {
        PooledAtom::SameName(_, _) => 0,
        PooledAtom::SameStore(a, b) => pool.nodes(*a).saturating_add(pool.nodes(*b)),
        PooledAtom::SameValue(a, b) => pool.nodes(*a).saturating_add(pool.nodes(*b)),
        PooledAtom::AtMost(a, b, _) => pool.nodes(*a).saturating_add(pool.nodes(*b)),
        PooledAtom::Ends(s) => pool.nodes(*s),
        PooledAtom::Holds(_, s) => pool.nodes(*s),
    }
}
