//! Why a store isn't sent.
ghost use Rattle.std.specs.Prelude.{◌≡◌};

use sd_disk::DeviceError;
use sd_exit::Stop;
use sd_restore::Fault;
use sd_stream::WriteError;
use std::alloc::AllocError;

/// Why a store isn't sent, or no further.
#[derive(Debug, Drop)]
pub enum SendError {
    /// The store, its device or the memory.
    Fault(Fault),
    /// The store has no image of the checkpoint that the receiver has.
    NotThere,
    /// The store has no longer the checkpoint that was sent last, nor a newer one.
    Gone(u64),
    /// The stream's output failed, or the images can't stand in a stream.
    Stream(WriteError),
    /// The folder isn't opened.
    Folder(Stop),
}

impl From<Fault> for SendError {
    ghost use Rattle.std.specs.Prelude.{◌≡◌};
    ghost use Rattle.sd_send.specs.declared.send_error.SendError.TheVariants as send;

    ghost from_gives = { λ fault error. error ≡ send.Fault fault };

    fn from(fault: Fault) -> SendError {
        SendError::Fault(fault)
    }
}

impl From<DeviceError> for SendError {
    ghost use Rattle.std.specs.Prelude.{◌≡◌};
    ghost use Rattle.sd_restore.specs.declared.fault.Fault.TheVariants.{Device};
    ghost use Rattle.sd_send.specs.declared.send_error.SendError.TheVariants as send;

    ghost from_gives = { λ _ error. error ≡ send.Fault Device };

    fn from(_error: DeviceError) -> SendError {
        SendError::Fault(Fault::Device)
    }
}

impl From<AllocError> for SendError {
    ghost use Rattle.std.specs.Prelude.{◌≡◌};
    ghost use Rattle.sd_restore.specs.declared.fault.Fault.TheVariants.{OutOfMemory};
    ghost use Rattle.sd_send.specs.declared.send_error.SendError.TheVariants as send;

    ghost from_gives = { λ _ error. error ≡ send.Fault OutOfMemory };

    fn from(_error: AllocError) -> SendError {
        SendError::Fault(Fault::OutOfMemory)
    }
}

impl From<Stop> for SendError {
    ghost use Rattle.std.specs.Prelude.{◌≡◌};
    ghost use Rattle.sd_send.specs.declared.send_error.SendError.TheVariants as send;

    ghost from_gives = { λ stop error. error ≡ send.Folder stop };

    fn from(stop: Stop) -> SendError {
        SendError::Folder(stop)
    }
}

impl From<WriteError> for SendError {
    ghost use Rattle.std.specs.Prelude.{◌≡◌};
    ghost use Rattle.sd_send.specs.declared.send_error.SendError.TheVariants as send;

    ghost from_gives = { λ why error. error ≡ send.Stream why };

    fn from(error: WriteError) -> SendError {
        SendError::Stream(error)
    }
}
