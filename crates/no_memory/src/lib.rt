// The one error of a call whose only fault is want of memory.
// Contract: every failed allocation converts to the same value.
#![tactic(auto)]

use std::alloc::{AllocError, AllocFailed};

/// Memory was not found. It has one value, so a clause that names it names the cause.
#[derive(Clone, Copy, Debug, PartialEq, Eq)]
pub struct NoMemory;

impl From<AllocError> for NoMemory {
    fn from(_: AllocError) -> NoMemory {
        NoMemory
    }
}

impl<T: Drop> From<AllocFailed<T>> for NoMemory {
    fn from(_: AllocFailed<T>) -> NoMemory {
        NoMemory
    }
}
