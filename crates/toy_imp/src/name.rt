//! Names of variables and arrays, as written or left open by a rule.
//! Only names of a program have bytes; `specs/Cell.antt` says which cells a name stands for.

ghost use Rattle.std.specs.Prelude.{◌≡◌, IfOk};
ghost use Rattle.toy_imp.specs.Program.{is_own};

use crate::no_memory::NoMemory;
use sqlite_items::Items;
use std::alloc::Global;

/// A name of a program, or a name that a rule leaves open.
#[derive(Drop)]
pub enum Name {
    /// The bytes of the name.
    Own(Items<u8>),
    /// The number of a parameter of kind `Name`, from 0 in order of declaration.
    Par(u32),
}

impl Name {
    /// An equal name.
    pub fn copy(&self, alloc: Global) -> Result<Name, NoMemory>
        ensures { IfOk result (λ x. x ≡ self.now) }
    {
        match self {
            Name::Own(bytes) => Ok(Name::Own(Items::from_slice(alloc, bytes.as_slice())?)),
            Name::Par(k) => Ok(Name::Par(*k)),
        }
    }

    /// Whether it is a name of a program, and no parameter.
    pub fn is_own(&self) -> bool
        ensures { result ≡ is_own self.now }
    {
        match self {
            Name::Own(_) => true,
            Name::Par(_) => false,
        }
    }
}
