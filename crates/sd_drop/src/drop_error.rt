//! Why an image isn't closed.

use sd_disk::DeviceError;
use sd_image::Reason;
use sd_restore::Fault;

/// Why an image isn't closed.
#[derive(Clone, Copy, Debug, PartialEq, Eq)]
pub enum DropError {
    /// The slot has no open image, or isn't there.
    Closed,
    /// The newest checkpoint needs the image, or may need it.
    Needed,
    /// Another slot is damaged, so it isn't known which images are needed.
    Damaged { slot: usize, reason: Reason },
    /// A call of the device failed.
    Device,
    /// Memory ran out.
    OutOfMemory,
}

impl DropError {
    ghost use Rattle.std.specs.Prelude.{◌≡◌};
    ghost use Rattle.sd_drop.specs.Errors.{error_of, error_without};

    /// Why an image isn't closed where the other slots weren't read. A scan has no empty chain.
    pub(crate) fn of(fault: Fault) -> DropError
        ensures { result ≡ error_of fault }
    {
        match fault {
            Fault::EmptyChain => DropError::Needed,
            Fault::Damaged { slot, reason } => DropError::Damaged { slot, reason },
            Fault::Device => DropError::Device,
            Fault::OutOfMemory => DropError::OutOfMemory,
        }
    }

    /// Why a damaged image isn't closed where the others show no memory.
    pub(crate) fn without(fault: Fault) -> DropError
        ensures { result ≡ error_without fault }
    {
        match fault {
            Fault::EmptyChain | Fault::Damaged { .. } => DropError::Needed,
            Fault::Device => DropError::Device,
            Fault::OutOfMemory => DropError::OutOfMemory,
        }
    }
}

impl From<DeviceError> for DropError {
    ghost use Rattle.std.specs.Prelude.{◌≡◌};
    ghost use Rattle.sd_drop.specs.declared.drop_error.DropError.TheVariants.{Device};

    ghost from_gives = { λ _ error. error ≡ Device };

    fn from(_error: DeviceError) -> DropError {
        DropError::Device
    }
}
