//! Why a stream isn't received.
ghost use Rattle.std.specs.Prelude.{◌≡◌};

use sd_disk::DeviceError;
use sd_image::Reason;
use sd_restore::Fault;
use sd_stream::{Base, StreamError};
use std::alloc::AllocError;
use std::io;
use thiserror::Error;

/// Why a stream isn't received, or no further. What was reported before is durable.
#[derive(Debug, Drop, Error)]
pub enum ReceiveError {
    /// The store, its device or the memory.
    #[error("{0}")]
    Fault(Fault),
    /// The stream.
    #[error("{0}")]
    Stream(StreamError),
    /// An image of the stream is none.
    #[error("image with the fault {0}")]
    Image(Reason),
    /// An image's first byte is no open gate.
    #[error("image that is closed")]
    Closed,
    /// An image's serial isn't above all serials of the store.
    #[error("serial {0} isn't above those of the store")]
    Serial(u64),
    /// What follows a dump or a merged image isn't the number of its checkpoint.
    #[error("checkpoint {0} isn't acknowledged after its image")]
    Unacknowledged(u64),
    /// A checkpoint's number follows an image that is a pre-dump.
    #[error("checkpoint {0} without a dump")]
    WithoutDump(u64),
    /// Pages of a checkpoint are in no image.
    #[error("checkpoint {0} lacks pages")]
    LacksPages(u64),
    /// No slot is free.
    #[error("no-slot")]
    NoSlot,
    /// The store doesn't show the checkpoint that the stream continues.
    #[error("base differs")]
    BaseDiffers {
        shows: Option<u64>,
        base: Option<Base>,
    },
    /// What was received can't be printed.
    #[error("{0}")]
    Output(io::Error),
}

impl From<Fault> for ReceiveError {
    ghost use Rattle.std.specs.Prelude.{◌≡◌};
    ghost use Rattle.sd_receive.specs.declared.receive_error.ReceiveError.TheVariants as receive;

    ghost from_gives = { λ fault error. error ≡ receive.Fault fault };

    fn from(fault: Fault) -> ReceiveError {
        ReceiveError::Fault(fault)
    }
}

impl From<DeviceError> for ReceiveError {
    ghost use Rattle.std.specs.Prelude.{◌≡◌};
    ghost use Rattle.sd_restore.specs.declared.fault.Fault.TheVariants.{Device};
    ghost use Rattle.sd_receive.specs.declared.receive_error.ReceiveError.TheVariants as receive;

    ghost from_gives = { λ _ error. error ≡ receive.Fault Device };

    fn from(_error: DeviceError) -> ReceiveError {
        ReceiveError::Fault(Fault::Device)
    }
}

impl From<AllocError> for ReceiveError {
    ghost use Rattle.std.specs.Prelude.{◌≡◌};
    ghost use Rattle.sd_restore.specs.declared.fault.Fault.TheVariants.{OutOfMemory};
    ghost use Rattle.sd_receive.specs.declared.receive_error.ReceiveError.TheVariants as receive;

    ghost from_gives = { λ _ error. error ≡ receive.Fault OutOfMemory };

    fn from(_error: AllocError) -> ReceiveError {
        ReceiveError::Fault(Fault::OutOfMemory)
    }
}

impl From<StreamError> for ReceiveError {
    ghost use Rattle.std.specs.Prelude.{◌≡◌};
    ghost use Rattle.sd_receive.specs.declared.receive_error.ReceiveError.TheVariants as receive;

    ghost from_gives = { λ why error. error ≡ receive.Stream why };

    fn from(error: StreamError) -> ReceiveError {
        ReceiveError::Stream(error)
    }
}

impl From<io::Error> for ReceiveError {
    ghost use Rattle.std.specs.Prelude.{◌≡◌};
    ghost use Rattle.sd_receive.specs.declared.receive_error.ReceiveError.TheVariants as receive;

    ghost from_gives = { λ why error. error ≡ receive.Output why };

    fn from(error: io::Error) -> ReceiveError {
        ReceiveError::Output(error)
    }
}
