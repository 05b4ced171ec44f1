//! The one answer of a call that got no memory.
//! It is the only error of this crate.

use std::alloc::{AllocError, AllocFailed};

/// There was no memory; no call answers it for another reason. What the call was lent is as before,
/// and what it took is dropped.
#[derive(Clone, Copy, Debug, PartialEq, Eq)]
pub struct NoMemory;

impl From<AllocError> for NoMemory {
    fn from(_e: AllocError) -> NoMemory {
        NoMemory
    }
}

impl<T: Drop> From<AllocFailed<T>> for NoMemory {
    fn from(_e: AllocFailed<T>) -> NoMemory {
        NoMemory
    }
}
