//! What a rule leaves open: parameters of four kinds.
//! `specs/Fits.antt` says what may stand for each.

ghost use Rattle.std.specs.Prelude.{◌≡◌, IfOk};

use crate::no_memory::NoMemory;
use sqlite_items::Items;
use std::alloc::Global;

/// What a parameter stands for.
#[derive(Clone, Copy, Debug, PartialEq, Eq)]
pub enum Kind {
    Name,
    Expr,
    Test,
    Stmt,
}

/// A declared parameter of a rule. It is cited by its number, from 0 in order of declaration.
#[derive(Drop)]
pub struct Param {
    pub kind: Kind,
    /// The bytes of the name that the rule's text gives it.
    pub name: Items<u8>,
}

impl Param {
    /// An equal parameter.
    pub fn copy(&self, alloc: Global) -> Result<Param, NoMemory>
        ensures { IfOk result (λ p. p ≡ self.now) }
    {
        let name = Items::from_slice(alloc, self.name.as_slice())?;
        Ok(Param {
            kind: self.kind,
            name,
        })
    }
}

/// Equal parameters, in the same order.
pub fn copy_params(alloc: Global, items: &[Param]) -> Result<Items<Param>, NoMemory>
    ensures { IfOk result (λ all. all ≡ items.now) }
{
    let mut all = Items::new(alloc);
    for p in items {
        let copied = p.copy(alloc)?;
        all.push(copied)?;
    }
    Ok(all)
}
