//! The nodes of a pool: the top of a term, whose parts are named by their numbers in the pool.
//! Two nodes are equal exactly where their constructors and their numbers are.

ghost use Rattle.std.specs.Prelude.{nat_eq, ◌++◌};
ghost use Rattle.std.proofs.Common.{rules};
ghost use Rattle.std.specs.Hash as fed;
ghost use Rattle.std.specs.Cmp.Lexicographic.{pointwise};
ghost use Rattle.std.specs.Cmp.Rules.{comparing, hashing};
ghost use Rattle.std.specs.Ordering.{on, eq_of_both};

use sqlite_items::Items;
use std::hash::{Hash, Hasher};

/// The top of a term. Its numbers are of the pool; the first of `Run` and `Ev` is a parameter.
#[derive(PartialEq, Eq, Hash, Drop)]
pub enum Node {
    /// The store of the left side.
    L,
    /// The store of the right side.
    R,
    /// A store with a value written at a place.
    Put(u32, PooledPlace, u32),
    /// The store in which a statement parameter ends from a store.
    Run(u32, u32),
    /// A constant.
    Num(i64),
    /// What a place holds in a store.
    Get(PooledPlace, u32),
    /// The value of an expression parameter in a store.
    Ev(u32, u32),
    Add(u32, u32),
    Sub(u32, u32),
    Mul(u32, u32),
}

/// A place by numbers: the number of a name parameter, and the numbers of the indices in the pool.
#[derive(Drop)]
pub struct PooledPlace {
    pub name: u32,
    pub indices: Items<u32>,
}

impl PartialEq for PooledPlace {
    ghost eq = { eq_of_both (on (λ p. p.name) nat_eq) (on (λ p. p.indices) (pointwise nat_eq)) };

    ghost laws = { Prim.search (comparing, rules) };

    fn eq(&self, other: &PooledPlace) -> bool {
        self.name == other.name && self.indices.as_slice() == other.indices.as_slice()
    }
}

impl Eq for PooledPlace {
    ghost laws = { Prim.search (comparing, rules) };
}

impl Hash for PooledPlace {
    ghost hash_input = { λ p. fed.u32 p.name ++ fed.slice fed.u32 p.indices };

    ghost respects_eq = { Prim.search (hashing, rules) };

    fn hash<H: Hasher>(&self, state: &mut H) {
        self.name.hash(state);
        self.indices.as_slice().hash(state);
    }
}
