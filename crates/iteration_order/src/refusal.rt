//! Why a nest has no list of tuples.

ghost use Rattle.std.specs.Prelude.{◌≡◌};
ghost use Rattle.iteration_order.specs.declared.refusal.TuplesRefusal.TheVariants.{NoMemory};

use std::alloc::AllocError;

/// What `tuples` answers where it gives none.
#[derive(Clone, Copy, Debug, PartialEq, Eq)]
pub enum TuplesRefusal {
    /// There are more than 65,536 tuples, or the outer loop has more than 65,536 turns.
    Many,
    /// There was no memory.
    NoMemory,
}

impl From<AllocError> for TuplesRefusal {
    ghost from_gives = { λ _ e. e ≡ NoMemory };

    fn from(_e: AllocError) -> TuplesRefusal {
        TuplesRefusal::NoMemory
    }
}
