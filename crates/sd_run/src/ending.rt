//! How a run is stopped before its lines are answered.
ghost use Rattle.std.specs.Prelude.{◌≡◌};
ghost use Rattle.sd_run.specs.Ending.{unfit, unopened};

use sd_exit::Stop;
use sd_restore::Fault;
use sd_script::ScriptError;
use sd_world::OpenFault;

/// Why a script that can't be taken stops a program.
pub fn unfit(error: ScriptError) -> Stop
    ensures { result ≡ unfit error }
{
    match error {
        ScriptError::Line(number) => Stop::ScriptLine(number),
        ScriptError::OutOfMemory => Stop::Fault(Fault::OutOfMemory),
    }
}

/// Why a store that isn't opened stops a program.
pub fn unopened(fault: OpenFault) -> Stop
    ensures { result ≡ unopened fault }
{
    match fault {
        OpenFault::NoFrame => Stop::NoFrame,
        OpenFault::Damaged { slot, reason } => Stop::Fault(Fault::Damaged { slot, reason }),
        OpenFault::Device => Stop::Fault(Fault::Device),
        OpenFault::OutOfMemory => Stop::Fault(Fault::OutOfMemory),
    }
}
