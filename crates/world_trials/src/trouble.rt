use std::alloc::{AllocError, AllocFailed};

/// Why a trial ends early.
#[derive(Clone, Copy, Debug)]
pub enum Trouble {
    /// Memory ran out.
    OutOfMemory,
    /// A run that is made again isn't opened, or isn't answered as it was.
    Differs,
}

impl From<AllocError> for Trouble {
    fn from(_error: AllocError) -> Trouble {
        Trouble::OutOfMemory
    }
}

impl<T: Drop> From<AllocFailed<T>> for Trouble {
    fn from(_error: AllocFailed<T>) -> Trouble {
        Trouble::OutOfMemory
    }
}
