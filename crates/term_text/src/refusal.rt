//! Why tokens are not read as a term.

ghost use Rattle.std.specs.Prelude.{◌≡◌};
ghost use Rattle.term_text.specs.declared.refusal.Unread.TheVariants.{NoMemory as NoRoom};

use std::alloc::{AllocError, AllocFailed};

/// Why tokens are not read.
#[derive(Clone, Copy, Debug, PartialEq, Eq)]
pub enum Unread {
    /// They are not in the grammar.
    NotGrammar,
    NoMemory,
}

impl From<AllocError> for Unread {
    ghost from_gives = { λ _ refusal. refusal ≡ NoRoom };

    fn from(_error: AllocError) -> Unread {
        Unread::NoMemory
    }
}

impl<T: Drop> From<AllocFailed<T>> for Unread {
    ghost from_gives = { λ _ refusal. refusal ≡ NoRoom };

    fn from(_error: AllocFailed<T>) -> Unread {
        Unread::NoMemory
    }
}

impl From<toy_imp::NoMemory> for Unread {
    ghost from_gives = { λ _ refusal. refusal ≡ NoRoom };

    fn from(_error: toy_imp::NoMemory) -> Unread {
        Unread::NoMemory
    }
}
