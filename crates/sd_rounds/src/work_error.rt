use std::alloc::AllocError;

/// Why a step of the dumper is refused. Nothing changed.
#[derive(Clone, Copy, Debug, PartialEq, Eq)]
pub enum WorkError {
    /// A request is out: its outcome is to be handed in first. For a beginning, that a checkpoint runs.
    Busy,
    /// No checkpoint runs.
    Idle,
    OutOfMemory,
}

impl From<AllocError> for WorkError {
    ghost use Rattle.std.specs.Prelude.{◌≡◌};
    ghost use Rattle.sd_rounds.specs.declared.work_error.WorkError.TheVariants.{OutOfMemory};

    ghost from_gives = { λ _ e. e ≡ OutOfMemory };

    fn from(_error: AllocError) -> WorkError {
        WorkError::OutOfMemory
    }
}
