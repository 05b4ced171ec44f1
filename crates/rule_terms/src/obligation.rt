//! Obligations: what has to hold of the stores where two paths arrive.
//! They are made of conjuncts of literals over terms.

ghost use Rattle.std.specs.Prelude.{◌≡◌, IfOk};

use crate::term::{StoreTerm, ValueTerm};
use sqlite_items::Items;
use std::alloc::Global;
use toy_imp::{Condition, Kind, NoMemory};

/// A statement about terms that is true or false.
#[derive(Drop)]
pub enum Atom {
    /// Two name parameters stand for the same name.
    SameName(u32, u32),
    SameStore(StoreTerm, StoreTerm),
    SameValue(ValueTerm, ValueTerm),
    /// The first value is at most the second plus the number.
    AtMost(ValueTerm, ValueTerm, i128),
    /// The term means a store: no run in it goes on for ever.
    Ends(StoreTerm),
    /// The test parameter of this number is true in a store.
    Holds(u32, StoreTerm),
}

/// An atom or its negation.
#[derive(Drop)]
pub struct Literal {
    /// Whether it is the atom itself.
    pub sign: bool,
    pub atom: Atom,
}

/// Where all of `when` are true, so is what it gives; without that, some of `when` is false.
#[derive(Drop)]
pub struct Conjunct {
    pub when: Items<Literal>,
    pub gives: Option<Literal>,
}

/// Where the known conjuncts and the literals of the path are true, so is the goal.
#[derive(Drop)]
pub struct Obligation {
    /// The kinds of the rule's parameters, in order of declaration.
    pub params: Items<Kind>,
    pub conditions: Items<Condition>,
    pub known: Items<Conjunct>,
    pub path: Items<Literal>,
    pub goal: Conjunct,
}

impl Atom {
    /// An equal atom.
    pub fn copy(&self, alloc: Global) -> Result<Atom, NoMemory>
        ensures { IfOk result (λ a. a ≡ self.now) }
    {
        match self {
            Atom::SameName(x, y) => Ok(Atom::SameName(*x, *y)),
            Atom::SameStore(a, b) => {
                let a = a.copy(alloc)?;
                let b = b.copy(alloc)?;
                Ok(Atom::SameStore(a, b))
            }
            Atom::SameValue(a, b) => {
                let a = a.copy(alloc)?;
                let b = b.copy(alloc)?;
                Ok(Atom::SameValue(a, b))
            }
            Atom::AtMost(a, b, by) => {
                let a = a.copy(alloc)?;
                let b = b.copy(alloc)?;
                Ok(Atom::AtMost(a, b, *by))
            }
            Atom::Ends(s) => Ok(Atom::Ends(s.copy(alloc)?)),
            Atom::Holds(k, s) => Ok(Atom::Holds(*k, s.copy(alloc)?)),
        }
    }
}

impl Literal {
    /// An equal literal.
    pub fn copy(&self, alloc: Global) -> Result<Literal, NoMemory>
        ensures { IfOk result (λ l. l ≡ self.now) }
    {
        let atom = self.atom.copy(alloc)?;
        Ok(Literal {
            sign: self.sign,
            atom,
        })
    }
}

/// Equal literals, in the same order.
pub fn copy_literals(alloc: Global, items: &[Literal]) -> Result<Items<Literal>, NoMemory>
    ensures { IfOk result (λ all. all ≡ items.now) }
{
    let mut all = Items::new(alloc);
    for l in items {
        let copied = l.copy(alloc)?;
        all.push(copied)?;
    }
    Ok(all)
}

impl Conjunct {
    /// An equal conjunct.
    pub fn copy(&self, alloc: Global) -> Result<Conjunct, NoMemory>
        ensures { IfOk result (λ c. c ≡ self.now) }
    {
        let when = copy_literals(alloc, self.when.as_slice())?;
        let gives = match &self.gives {
            Some(l) => Some(l.copy(alloc)?),
            None => None,
        };
        Ok(Conjunct { when, gives })
    }
}

/// Equal conjuncts, in the same order.
pub fn copy_conjuncts(alloc: Global, items: &[Conjunct]) -> Result<Items<Conjunct>, NoMemory>
    ensures { IfOk result (λ all. all ≡ items.now) }
{
    let mut all = Items::new(alloc);
    for c in items {
        let copied = c.copy(alloc)?;
        all.push(copied)?;
    }
    Ok(all)
}

/// Equal conditions, in the same order.
pub fn copy_conditions(alloc: Global, items: &[Condition]) -> Result<Items<Condition>, NoMemory>
    ensures { IfOk result (λ all. all ≡ items.now) }
{
    let mut all = Items::new(alloc);
    for c in items {
        let copied = c.copy(alloc)?;
        all.push(copied)?;
    }
    Ok(all)
}

impl Obligation {
    /// An equal obligation.
    pub fn copy(&self, alloc: Global) -> Result<Obligation, NoMemory>
        ensures { IfOk result (λ ob. ob ≡ self.now) }
    {
        let known = copy_conjuncts(alloc, self.known.as_slice())?;
        let path = copy_literals(alloc, self.path.as_slice())?;
        let goal = self.goal.copy(alloc)?;
        copy_rule(alloc, self, known, path, goal)
    }
}

// The obligation with literals and conjuncts that are copied already.
fn copy_rule(
    alloc: Global,
    ob: &Obligation,
    known: Items<Conjunct>,
    path: Items<Literal>,
    goal: Conjunct,
) -> Result<Obligation, NoMemory>
    ensures { IfOk result (λ o. o ≡ record ob.now { known = known; path = path; goal = goal }) }
{
    let params = Items::from_slice(alloc, ob.params.as_slice())?;
    let conditions = copy_conditions(alloc, ob.conditions.as_slice())?;
    Ok(Obligation {
        params,
        conditions,
        known,
        path,
        goal,
    })
}
