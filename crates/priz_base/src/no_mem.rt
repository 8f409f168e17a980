use std::alloc::{AllocError, AllocFailed};

/// Want of memory: the one answer that no contract ties to a cause.
#[derive(Clone, Copy, Debug, PartialEq, Eq)]
pub struct NoMem;

impl From<AllocError> for NoMem {
    fn from(_error: AllocError) -> NoMem {
        NoMem
    }
}

impl<T: Drop> From<AllocFailed<T>> for NoMem {
    fn from(_error: AllocFailed<T>) -> NoMem {
        NoMem
    }
}
