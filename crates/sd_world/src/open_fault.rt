use sd_disk::DeviceError;
use sd_image::Reason;
use std::alloc::{AllocError, AllocFailed};
use thiserror::Error;

/// Why a store isn't opened.
#[derive(Clone, Copy, Debug, PartialEq, Eq, Error)]
pub enum OpenFault {
    /// More pages than there are frames aren't all zeros.
    #[error("no-frame")]
    NoFrame,
    /// The store isn't in order, and this slot is the first thing that shows it.
    #[error("damaged {slot:03} {reason}")]
    Damaged { slot: usize, reason: Reason },
    /// A call of the device failed.
    #[error("device")]
    Device,
    /// Memory ran out.
    #[error("out-of-memory")]
    OutOfMemory,
}

impl From<DeviceError> for OpenFault {
    ghost use Rattle.std.specs.Prelude.{◌≡◌};
    ghost use Rattle.sd_world.specs.declared.open_fault.OpenFault.TheVariants.{Device};

    ghost from_gives = { λ _ fault. fault ≡ Device };

    fn from(_error: DeviceError) -> OpenFault {
        OpenFault::Device
    }
}

impl From<AllocError> for OpenFault {
    ghost use Rattle.std.specs.Prelude.{◌≡◌};
    ghost use Rattle.sd_world.specs.declared.open_fault.OpenFault.TheVariants.{OutOfMemory};

    ghost from_gives = { λ _ fault. fault ≡ OutOfMemory };

    fn from(_error: AllocError) -> OpenFault {
        OpenFault::OutOfMemory
    }
}

impl<T: Drop> From<AllocFailed<T>> for OpenFault {
    ghost use Rattle.std.specs.Prelude.{◌≡◌};
    ghost use Rattle.sd_world.specs.declared.open_fault.OpenFault.TheVariants.{OutOfMemory};

    ghost from_gives = { λ _ fault. fault ≡ OutOfMemory };

    fn from(_error: AllocFailed<T>) -> OpenFault {
        OpenFault::OutOfMemory
    }
}
