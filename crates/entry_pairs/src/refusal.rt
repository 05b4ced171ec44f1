//! Why a rule has no cut points and entries: the first limit that is met, and where.

ghost use Rattle.std.specs.Prelude.{◌≡◌};
ghost use Rattle.entry_pairs.specs.declared.refusal.CutsRefusal.TheVariants as refusal;

use rule_terms::LimitKind;
use std::alloc::AllocError;
use toy_imp::NoMemory;

/// A limit that is passed, and where.
#[derive(Clone, Copy, Debug, PartialEq, Eq)]
pub struct LimitMark {
    pub what: LimitKind,
    /// The number of the entry, from 0.
    pub entry: u32,
}

/// What `cuts` answers where it gives none.
#[derive(Clone, Copy, Debug, PartialEq, Eq)]
pub enum CutsRefusal {
    /// The first limit that is met.
    Limit(LimitMark),
    /// There was no memory, or the exit of a side has a number above 2^32 - 1.
    NoMemory,
}

impl From<AllocError> for CutsRefusal {
    ghost from_gives = { λ _ e. e ≡ refusal.NoMemory };

    fn from(_e: AllocError) -> CutsRefusal {
        CutsRefusal::NoMemory
    }
}

impl From<NoMemory> for CutsRefusal {
    ghost from_gives = { λ _ e. e ≡ refusal.NoMemory };

    fn from(_e: NoMemory) -> CutsRefusal {
        CutsRefusal::NoMemory
    }
}
