//! Why a text is not read as a rule or a program.

ghost use Rattle.std.specs.Prelude.{◌≡◌};
ghost use Rattle.program_reader.specs.declared.refusal.Unread.TheVariants.{NoMemory as NoRoom};

use std::alloc::{AllocError, AllocFailed};
use thiserror::Error;

/// Why a section's body is not read.
#[derive(Clone, Copy, Debug, PartialEq, Eq, Error)]
pub enum ReadRule {
    /// The body is not in the grammar.
    #[error("not in the grammar")]
    NotGrammar,
    /// The body is in the grammar, and some literal's magnitude is 2^63 or more.
    #[error("number too wide")]
    Wide,
    /// The rule is not well formed: the first item that is wrong with it. Programs are never refused so.
    #[error("ill formed F{0}")]
    IllFormed(u8),
    /// There was not enough memory.
    #[error("not enough memory")]
    NoMemory,
}

/// Why tokens are not read.
#[derive(Clone, Copy, Debug, PartialEq, Eq)]
pub enum Unread {
    /// They are not in the grammar.
    NotGrammar,
    NoMemory,
}

impl From<AllocError> for Unread {
    ghost from_gives = { λ _ refusal. refusal ≡ NoRoom };

    fn from(_error: AllocError) -> Unread {
        Unread::NoMemory
    }
}

impl<T: Drop> From<AllocFailed<T>> for Unread {
    ghost from_gives = { λ _ refusal. refusal ≡ NoRoom };

    fn from(_error: AllocFailed<T>) -> Unread {
        Unread::NoMemory
    }
}

impl From<toy_imp::NoMemory> for Unread {
    ghost from_gives = { λ _ refusal. refusal ≡ NoRoom };

    fn from(_error: toy_imp::NoMemory) -> Unread {
        Unread::NoMemory
    }
}
