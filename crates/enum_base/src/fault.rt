//! Running out of memory, and faults of the outside.
use std::alloc::{AllocError, AllocFailed};

/// Out of memory.
#[derive(Clone, Copy, Debug, PartialEq, Eq)]
pub struct MemoryFault;

impl From<AllocError> for MemoryFault {
    fn from(_: AllocError) -> Self {
        MemoryFault
    }
}

impl<T: Drop> From<AllocFailed<T>> for MemoryFault {
    fn from(_: AllocFailed<T>) -> Self {
        MemoryFault
    }
}

/// An object of the outside failed, and its count of faults rose.
#[derive(Clone, Copy, Debug, PartialEq, Eq)]
pub struct Failed;
