use sd_disk::DeviceError;
use sd_restore::Fault;
use std::alloc::{AllocError, AllocFailed};
use std::io;

/// Why core files aren't written to their end.
#[derive(Debug, Drop)]
pub enum WriteError {
    /// The store, its device or the memory.
    Fault(Fault),
    /// A file can't be written.
    File(io::Error),
}

impl From<Fault> for WriteError {
    ghost use Rattle.std.specs.Prelude.{◌≡◌};
    ghost use Rattle.sd_elf.specs.declared.write_error.WriteError.TheVariants as write;

    ghost from_gives = { λ why error. error ≡ write.Fault why };

    fn from(fault: Fault) -> WriteError {
        WriteError::Fault(fault)
    }
}

impl From<DeviceError> for WriteError {
    fn from(_error: DeviceError) -> WriteError {
        WriteError::Fault(Fault::Device)
    }
}

impl From<io::Error> for WriteError {
    ghost use Rattle.std.specs.Prelude.{◌≡◌};
    ghost use Rattle.sd_elf.specs.declared.write_error.WriteError.TheVariants as write;

    ghost from_gives = { λ why error. error ≡ write.File why };

    fn from(error: io::Error) -> WriteError {
        WriteError::File(error)
    }
}

impl From<AllocError> for WriteError {
    fn from(_error: AllocError) -> WriteError {
        WriteError::Fault(Fault::OutOfMemory)
    }
}

impl<T: Drop> From<AllocFailed<T>> for WriteError {
    fn from(_error: AllocFailed<T>) -> WriteError {
        WriteError::Fault(Fault::OutOfMemory)
    }
}
