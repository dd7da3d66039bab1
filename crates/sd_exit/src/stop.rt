//! Why a program ends early.
use sd_command::Refusal;
use sd_restore::Fault;
use std::alloc::AllocError;
use std::io;

/// Why a program ends early. It is printed as the program's last line, but for a refusal, which is answered before.
#[derive(Debug, Drop)]
pub enum Stop {
    /// The store, its device or the memory.
    Fault(Fault),
    /// The store shows a memory with more pages than a run has frames.
    NoFrame,
    /// The line with this number, counted from 1, doesn't fit the language.
    ScriptLine(usize),
    CannotReadScript,
    CannotOpenFolder,
    /// An image is open in a store that has to be empty.
    NotEmpty,
    /// An order was refused, as is to be printed.
    Order(Refusal),
    /// The order was refused, as its answer says, which is printed already.
    Refused,
    /// Nothing more can be printed. What the writer answered is the output's `error`.
    Writer(io::Error),
}

impl From<Fault> for Stop {
    ghost use Rattle.std.specs.Prelude.{◌≡◌};
    ghost use Rattle.sd_exit.specs.declared.stop.Stop.TheVariants as stop;

    ghost from_gives = { λ fault stopped. stopped ≡ stop.Fault fault };

    fn from(fault: Fault) -> Stop {
        Stop::Fault(fault)
    }
}

impl From<AllocError> for Stop {
    ghost use Rattle.std.specs.Prelude.{◌≡◌};
    ghost use Rattle.sd_restore.specs.declared.fault.Fault.TheVariants.{OutOfMemory};
    ghost use Rattle.sd_exit.specs.declared.stop.Stop.TheVariants as stop;

    ghost from_gives = { λ _ stopped. stopped ≡ stop.Fault OutOfMemory };

    fn from(_error: AllocError) -> Stop {
        Stop::Fault(Fault::OutOfMemory)
    }
}

impl From<io::Error> for Stop {
    ghost use Rattle.std.specs.Prelude.{◌≡◌};
    ghost use Rattle.sd_exit.specs.declared.stop.Stop.TheVariants as stop;

    ghost from_gives = { λ error stopped. stopped ≡ stop.Writer error };

    fn from(error: io::Error) -> Stop {
        Stop::Writer(error)
    }
}
