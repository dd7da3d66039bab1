ghost use Rattle.std.specs.Prelude.{◌≡◌};

use crate::reason::Reason;
use std::alloc::{AllocError, AllocFailed};
use thiserror::Error;

/// Why a table was not read.
#[derive(Clone, Copy, Debug, PartialEq, Eq, Error)]
pub enum TableError {
    #[error("{0}")]
    Damaged(Reason),
    #[error("out-of-memory")]
    OutOfMemory,
}

impl From<Reason> for TableError {
    ghost use Rattle.sd_image.specs.declared.table_error.TableError.TheVariants.{Damaged};

    ghost from_gives = { λ reason e. e ≡ Damaged reason };

    fn from(reason: Reason) -> TableError {
        TableError::Damaged(reason)
    }
}

impl From<AllocError> for TableError {
    ghost use Rattle.sd_image.specs.declared.table_error.TableError.TheVariants.{OutOfMemory};

    ghost from_gives = { λ _ e. e ≡ OutOfMemory };

    fn from(_error: AllocError) -> TableError {
        TableError::OutOfMemory
    }
}

impl<T: Drop> From<AllocFailed<T>> for TableError {
    ghost use Rattle.sd_image.specs.declared.table_error.TableError.TheVariants.{OutOfMemory};

    ghost from_gives = { λ _ e. e ≡ OutOfMemory };

    fn from(_error: AllocFailed<T>) -> TableError {
        TableError::OutOfMemory
    }
}
