use std::alloc::AllocError;

/// Why a step of a merger is refused. Nothing changed.
#[derive(Clone, Copy, Debug, PartialEq, Eq)]
pub enum WorkError {
    /// A request is out, or the list of the images to close is awaited. For a beginning, that a merge runs.
    Busy,
    /// No merge runs.
    Idle,
    /// The catalog doesn't have the source's next page: it has no image of the source's serial, or one with more pages
    /// than the merge began with, or the chain of that image breaks at the page.
    Lost,
    OutOfMemory,
}

impl From<AllocError> for WorkError {
    ghost use Rattle.std.specs.Prelude.{◌≡◌};
    ghost use Rattle.sd_merge.specs.declared.work_error.WorkError.TheVariants.{OutOfMemory};

    ghost from_gives = { λ _ e. e ≡ OutOfMemory };

    fn from(_error: AllocError) -> WorkError {
        WorkError::OutOfMemory
    }
}
