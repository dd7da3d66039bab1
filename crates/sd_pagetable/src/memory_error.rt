ghost use Rattle.std.specs.Prelude.{Some};
ghost use Rattle.sd_pagetable.specs.Refusals.{memory_error_text};

use crate::access_error::AccessError;
use crate::memory_refusal::MemoryRefusal;
use sd_areas::{AreaError, Errno};
use std::alloc::AllocError;
use std::error::Error;
use std::fmt;

/// Why a call that takes memory changed nothing.
#[derive(Clone, Copy, Debug, PartialEq, Eq, Hash)]
pub enum MemoryError {
    /// A rule forbids it.
    Denied(AccessError),
    /// A growth was refused.
    OutOfMemory,
}

/// Prints what forbids the call, or `out-of-memory`.
impl fmt::Display for MemoryError {
    ghost output = { λ error. Some (memory_error_text error) };

    fn fmt<W: fmt::Write>(&self, f: &mut fmt::Formatter<W>) -> fmt::Result {
        match self {
            MemoryError::Denied(denied) => write!(f, "{denied}"),
            MemoryError::OutOfMemory => f.write_str("out-of-memory"),
        }
    }
}

impl Error for MemoryError {}

impl From<AllocError> for MemoryError {
    ghost use Rattle.std.specs.Prelude.{◌≡◌};
    ghost use Rattle.sd_pagetable.specs.declared.memory_error.MemoryError.TheVariants.{OutOfMemory};

    ghost from_gives = { λ _ e. e ≡ OutOfMemory };

    fn from(_error: AllocError) -> MemoryError {
        MemoryError::OutOfMemory
    }
}

impl From<AccessError> for MemoryError {
    ghost use Rattle.std.specs.Prelude.{◌≡◌};
    ghost use Rattle.sd_pagetable.specs.declared.memory_error.MemoryError.TheVariants.{Denied as DeniedError};

    ghost from_gives = { λ denied e. e ≡ DeniedError denied };

    fn from(denied: AccessError) -> MemoryError {
        MemoryError::Denied(denied)
    }
}

impl From<MemoryRefusal> for MemoryError {
    ghost use Rattle.std.specs.Prelude.{◌≡◌};
    ghost use Rattle.sd_pagetable.specs.declared.access_error.AccessError.TheVariants.{Refused};
    ghost use Rattle.sd_pagetable.specs.declared.memory_error.MemoryError.TheVariants.{Denied as DeniedError};

    ghost from_gives = { λ refusal e. e ≡ DeniedError (Refused refusal) };

    fn from(refusal: MemoryRefusal) -> MemoryError {
        MemoryError::Denied(AccessError::Refused(refusal))
    }
}

impl From<AreaError> for MemoryError {
    ghost use Rattle.std.specs.Prelude.{◌≡◌};
    ghost use Rattle.sd_pagetable.specs.AreaErrors.{error_of};

    ghost from_gives = { λ area e. e ≡ error_of area };

    fn from(error: AreaError) -> MemoryError {
        match error {
            AreaError::Refused(Errno::Einval) => MemoryRefusal::Einval.into(),
            AreaError::Refused(Errno::Enomem) => MemoryRefusal::Enomem.into(),
            AreaError::OutOfMemory => MemoryError::OutOfMemory,
        }
    }
}
