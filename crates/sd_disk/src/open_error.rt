use crate::file_fault::FileFault;
use std::alloc::{AllocError, AllocFailed};
use thiserror::Error;

/// Why a folder's disk was not opened.
#[derive(Clone, Copy, Debug, Error)]
pub enum OpenError {
    /// The folder or one of its files, and what the system answered.
    #[error("cannot open DIR")]
    Folder(FileFault),
    #[error("out-of-memory")]
    OutOfMemory,
}

impl From<AllocError> for OpenError {
    ghost use Rattle.std.specs.Prelude.{◌≡◌};
    ghost use Rattle.sd_disk.specs.declared.open_error.OpenError.TheVariants.{OutOfMemory};

    ghost from_gives = { λ _ error. error ≡ OutOfMemory };

    fn from(_error: AllocError) -> OpenError {
        OpenError::OutOfMemory
    }
}

impl<T: Drop> From<AllocFailed<T>> for OpenError {
    ghost use Rattle.std.specs.Prelude.{◌≡◌};
    ghost use Rattle.sd_disk.specs.declared.open_error.OpenError.TheVariants.{OutOfMemory};

    ghost from_gives = { λ _ error. error ≡ OutOfMemory };

    fn from(_error: AllocFailed<T>) -> OpenError {
        OpenError::OutOfMemory
    }
}
