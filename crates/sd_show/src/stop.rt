//! Why the showing of slots ends early.
use sd_disk::DeviceError;
use std::alloc::{AllocError, AllocFailed};
use std::io;

/// Why the showing of slots ends early. A damaged slot doesn't end it.
#[derive(Debug, Drop)]
pub enum Stop {
    /// A call of the device failed.
    Device,
    /// Memory ran out.
    OutOfMemory,
    /// Nothing more can be printed.
    Writer(io::Error),
}

impl From<DeviceError> for Stop {
    ghost use Rattle.std.specs.Prelude.{◌≡◌};
    ghost use Rattle.sd_show.specs.declared.stop.Stop.TheVariants as stop;

    ghost from_gives = { λ _ stopped. stopped ≡ stop.Device };

    fn from(_error: DeviceError) -> Stop {
        Stop::Device
    }
}

impl From<AllocError> for Stop {
    ghost use Rattle.std.specs.Prelude.{◌≡◌};
    ghost use Rattle.sd_show.specs.declared.stop.Stop.TheVariants as stop;

    ghost from_gives = { λ _ stopped. stopped ≡ stop.OutOfMemory };

    fn from(_error: AllocError) -> Stop {
        Stop::OutOfMemory
    }
}

impl<T: Drop> From<AllocFailed<T>> for Stop {
    ghost use Rattle.std.specs.Prelude.{◌≡◌};
    ghost use Rattle.sd_show.specs.declared.stop.Stop.TheVariants as stop;

    ghost from_gives = { λ _ stopped. stopped ≡ stop.OutOfMemory };

    fn from(_error: AllocFailed<T>) -> Stop {
        Stop::OutOfMemory
    }
}

impl From<io::Error> for Stop {
    ghost use Rattle.std.specs.Prelude.{◌≡◌};
    ghost use Rattle.sd_show.specs.declared.stop.Stop.TheVariants as stop;

    ghost from_gives = { λ error stopped. stopped ≡ stop.Writer error };

    fn from(error: io::Error) -> Stop {
        Stop::Writer(error)
    }
}
