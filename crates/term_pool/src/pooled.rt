//! Atoms, literals, conjuncts and obligations whose terms are numbers of a pool.
//! `specs/Pooled.antt` says what they stand for.

use sqlite_items::Items;
use toy_imp::{Condition, Kind};

/// A statement about terms. The first number of `Holds` is a test parameter; those of `SameName` are
/// names.
#[derive(Drop)]
pub enum PooledAtom {
    /// Two name parameters stand for the same name.
    SameName(u32, u32),
    SameStore(u32, u32),
    SameValue(u32, u32),
    /// The first value is at most the second plus the whole number.
    AtMost(u32, u32, i128),
    /// The term means a store.
    Ends(u32),
    /// The test parameter is true in a store.
    Holds(u32, u32),
}

/// An atom or its negation.
#[derive(Drop)]
pub struct PooledLiteral {
    /// Whether it is the atom itself.
    pub sign: bool,
    pub atom: PooledAtom,
}

/// Where all of `when` are true, so is what it gives; without that, some of `when` is false.
#[derive(Drop)]
pub struct PooledConjunct {
    pub when: Items<PooledLiteral>,
    pub gives: Option<PooledLiteral>,
}

/// Where the known conjuncts and the literals of the path are true, so is the goal.
#[derive(Drop)]
pub struct PooledObligation {
    /// The kinds of the rule's parameters, in order of declaration.
    pub params: Items<Kind>,
    pub conditions: Items<Condition>,
    pub known: Items<PooledConjunct>,
    pub path: Items<PooledLiteral>,
    pub goal: PooledConjunct,
}
