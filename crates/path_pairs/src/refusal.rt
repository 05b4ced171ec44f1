//! Why there are no paths from a point.

ghost use Rattle.std.specs.Prelude.{◌≡◌};
ghost use Rattle.path_pairs.specs.declared.refusal.PathRefusal.TheVariants.{NoMemory as NoRoom};

use rule_terms::LimitKind;
use std::alloc::{AllocError, AllocFailed};

/// Why a call that walks answers no paths.
#[derive(Clone, Copy, Debug, PartialEq, Eq)]
pub enum PathRefusal {
    /// The paths pass this limit, and none of those that are tried before it.
    Limit(LimitKind),
    /// There was no memory, or a side has more points than 32 bits number.
    NoMemory,
}

impl From<toy_imp::NoMemory> for PathRefusal {
    ghost from_gives = { λ _ e. e ≡ NoRoom };

    fn from(_error: toy_imp::NoMemory) -> PathRefusal {
        PathRefusal::NoMemory
    }
}

impl From<AllocError> for PathRefusal {
    ghost from_gives = { λ _ e. e ≡ NoRoom };

    fn from(_error: AllocError) -> PathRefusal {
        PathRefusal::NoMemory
    }
}

impl<T: Drop> From<AllocFailed<T>> for PathRefusal {
    ghost from_gives = { λ _ e. e ≡ NoRoom };

    fn from(_error: AllocFailed<T>) -> PathRefusal {
        PathRefusal::NoMemory
    }
}
