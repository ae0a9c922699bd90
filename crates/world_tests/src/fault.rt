// Why worlds can't be tried.
use foundation::NoMemory;
use std::alloc::{AllocError, AllocFailed};

/// Why worlds can't be tried: a file can't be read; a line isn't a world, or names a base that isn't there or a file
/// that no run takes; memory was wanting.
#[derive(Clone, Copy, Debug, PartialEq, Eq, Drop)]
pub enum Fault {
    File,
    World,
    NoMemory,
}

impl From<NoMemory> for Fault {
    fn from(_: NoMemory) -> Fault {
        Fault::NoMemory
    }
}

impl From<AllocError> for Fault {
    fn from(_: AllocError) -> Fault {
        Fault::NoMemory
    }
}

impl<T: Drop> From<AllocFailed<T>> for Fault {
    fn from(_: AllocFailed<T>) -> Fault {
        Fault::NoMemory
    }
}
