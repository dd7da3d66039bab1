ghost use Rattle.std.specs.Prelude.{◌≡◌};

use std::alloc::{AllocError, AllocFailed};
use thiserror::Error;

/// Why a catalog doesn't take a serial.
#[derive(Clone, Copy, Debug, PartialEq, Eq, Hash, Error)]
pub enum CatalogError {
    /// The serial is there already. It is printed as its reason's number.
    #[error("19")]
    DoubleSerial,
    #[error("out-of-memory")]
    OutOfMemory,
}

impl From<AllocError> for CatalogError {
    ghost use Rattle.sd_chain.specs.declared.error.CatalogError.TheVariants.{OutOfMemory};

    ghost from_gives = { λ _ e. e ≡ OutOfMemory };

    fn from(_error: AllocError) -> CatalogError {
        CatalogError::OutOfMemory
    }
}

impl<T: Drop> From<AllocFailed<T>> for CatalogError {
    ghost use Rattle.sd_chain.specs.declared.error.CatalogError.TheVariants.{OutOfMemory};

    ghost from_gives = { λ _ e. e ≡ OutOfMemory };

    fn from(_error: AllocFailed<T>) -> CatalogError {
        CatalogError::OutOfMemory
    }
}
