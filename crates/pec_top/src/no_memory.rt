//! The one answer of a call that got no memory.

use std::alloc::{AllocError, AllocFailed};

/// There was no memory; no call answers it for another reason.
#[derive(Clone, Copy, Debug, PartialEq, Eq)]
pub struct NoMemory;

impl From<AllocError> for NoMemory {
    fn from(_error: AllocError) -> NoMemory {
        NoMemory
    }
}

impl<T: Drop> From<AllocFailed<T>> for NoMemory {
    fn from(_error: AllocFailed<T>) -> NoMemory {
        NoMemory
    }
}

impl From<pec_text::NoMemory> for NoMemory {
    fn from(_error: pec_text::NoMemory) -> NoMemory {
        NoMemory
    }
}

impl From<toy_imp::NoMemory> for NoMemory {
    fn from(_error: toy_imp::NoMemory) -> NoMemory {
        NoMemory
    }
}
