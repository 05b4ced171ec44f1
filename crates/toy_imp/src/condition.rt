//! Side conditions of a rule. They cite parameters by number; `specs/Meets.antt` says what each means.

ghost use Rattle.std.specs.Prelude.{◌≡◌, IfOk};

use crate::no_memory::NoMemory;
use sqlite_items::Items;
use std::alloc::Global;

/// Which pairs of tuples of counters a `swaps` condition speaks of.
#[derive(Clone, Copy, Debug, PartialEq, Eq)]
pub enum Region {
    /// The tuples differ.
    Distinct,
    /// The second is before the first in lexicographic order.
    Earlier,
    /// Of two counters each, one is less and the other greater.
    Crossing,
}

/// A side condition. Each number is that of a parameter; a condition whose parameters are of other
/// kinds than are told here is met by no instance.
#[derive(Drop)]
pub enum Condition {
    /// A statement leaves an expression, a test or the variable of a name as it is.
    Keeps(u32, u32),
    /// An expression, a test or a statement has nothing to do with the cells of a name.
    Ignores(u32, u32),
    /// Two statements halt from no store, and end alike in both orders.
    Commutes(u32, u32),
    /// An expression is at least 1 in every store.
    Positive(u32),
    /// An expression is the same in every store.
    Constant(u32),
    /// Two names differ.
    Distinct(u32, u32),
    /// A statement halts from no store.
    Quiet(u32),
    /// Two statements halt from no store, and with the listed names set to tuples of the region end alike in both orders.
    /// A well formed rule lists one or two names, and two for `Crossing`.
    Swaps(u32, u32, Items<u32>, Region),
}

impl Condition {
    /// An equal condition.
    pub fn copy(&self, alloc: Global) -> Result<Condition, NoMemory>
        ensures { IfOk result (λ c. c ≡ self.now) }
    {
        match self {
            Condition::Keeps(s, o) => Ok(Condition::Keeps(*s, *o)),
            Condition::Ignores(o, x) => Ok(Condition::Ignores(*o, *x)),
            Condition::Commutes(s, t) => Ok(Condition::Commutes(*s, *t)),
            Condition::Positive(e) => Ok(Condition::Positive(*e)),
            Condition::Constant(e) => Ok(Condition::Constant(*e)),
            Condition::Distinct(x, y) => Ok(Condition::Distinct(*x, *y)),
            Condition::Quiet(s) => Ok(Condition::Quiet(*s)),
            Condition::Swaps(s, t, over, region) => {
                let over = Items::from_slice(alloc, over.as_slice())?;
                Ok(Condition::Swaps(*s, *t, over, *region))
            }
        }
    }
}

/// Equal conditions, in the same order.
pub fn copy_conditions(alloc: Global, items: &[Condition]) -> Result<Items<Condition>, NoMemory>
    ensures { IfOk result (λ all. all ≡ items.now) }
{
    let mut all = Items::new(alloc);
    for c in items {
        let copied = c.copy(alloc)?;
        all.push(copied)?;
    }
    Ok(all)
}
