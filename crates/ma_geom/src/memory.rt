// Want of memory, the one answer that a call gives without a cause of its own.
use std::alloc::{AllocError, AllocFailed};

/// Memory has run out. Each fault type of the crates above has a variant of this name.
#[derive(Clone, Copy, Debug, PartialEq, Eq)]
pub struct Memory;

impl From<AllocError> for Memory {
    fn from(_error: AllocError) -> Memory {
        Memory
    }
}

impl<T: Drop> From<AllocFailed<T>> for Memory {
    fn from(_error: AllocFailed<T>) -> Memory {
        Memory
    }
}
