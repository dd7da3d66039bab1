use sd_disk::DeviceError;
use sd_image::Reason;
use std::alloc::{AllocError, AllocFailed};
use thiserror::Error;

/// Why a store isn't read to its end.
#[derive(Clone, Copy, Debug, PartialEq, Eq, Error)]
pub enum Fault {
    /// No dump and no merged image stands in an open slot.
    #[error("empty chain")]
    EmptyChain,
    /// The store isn't in order, and this slot is the first thing that shows it.
    #[error("damaged {slot:03} {reason}")]
    Damaged { slot: usize, reason: Reason },
    /// A call of the device failed.
    #[error("device")]
    Device,
    /// Memory ran out.
    #[error("out-of-memory")]
    OutOfMemory,
}

impl Fault {
    ghost use Rattle.std.specs.Prelude.{◌≡◌};
    ghost use Rattle.sd_restore.specs.Faulty.{fault_number};

    /// The number of the fault, 20 to 23, after those of the reasons.
    pub fn number(self) -> u8
        ensures { result ≡ fault_number self }
    {
        match self {
            Fault::EmptyChain => 20,
            Fault::Damaged { .. } => 21,
            Fault::Device => 22,
            Fault::OutOfMemory => 23,
        }
    }
}

impl From<DeviceError> for Fault {
    ghost use Rattle.std.specs.Prelude.{◌≡◌};
    ghost use Rattle.sd_restore.specs.declared.fault.Fault.TheVariants.{Device};

    ghost from_gives = { λ _ fault. fault ≡ Device };

    fn from(_error: DeviceError) -> Fault {
        Fault::Device
    }
}

impl From<AllocError> for Fault {
    ghost use Rattle.std.specs.Prelude.{◌≡◌};
    ghost use Rattle.sd_restore.specs.declared.fault.Fault.TheVariants.{OutOfMemory};

    ghost from_gives = { λ _ fault. fault ≡ OutOfMemory };

    fn from(_error: AllocError) -> Fault {
        Fault::OutOfMemory
    }
}

impl<T: Drop> From<AllocFailed<T>> for Fault {
    ghost use Rattle.std.specs.Prelude.{◌≡◌};
    ghost use Rattle.sd_restore.specs.declared.fault.Fault.TheVariants.{OutOfMemory};

    ghost from_gives = { λ _ fault. fault ≡ OutOfMemory };

    fn from(_error: AllocFailed<T>) -> Fault {
        Fault::OutOfMemory
    }
}
