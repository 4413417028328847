//! Want of memory.
use std::alloc::{AllocError, AllocFailed};

/// The answer of a call for want of memory.
#[derive(Clone, Copy, PartialEq, Eq, Debug)]
pub struct Mem;

impl From<AllocError> for Mem {
    fn from(_error: AllocError) -> Mem {
        Mem
    }
}

impl<T: Drop> From<AllocFailed<T>> for Mem {
    fn from(_error: AllocFailed<T>) -> Mem {
        Mem
    }
}
