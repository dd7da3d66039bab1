use sd_core::Core;
use sd_gate::Worker;

/// Sees the jobs that a line's events make, so that they can be shown while they last. A run doesn't depend on it.
pub trait Watch {
    /// A worker's job goes on.
    fn goes_on(&mut self, core: &Core, worker: Worker);

    /// A worker's next events are made, one by one.
    fn steps(&mut self, core: &Core, worker: Worker);

    /// The job has ended, or was refused.
    fn has_ended(&mut self);
}

/// Sees nothing.
#[derive(Clone, Copy, Debug, PartialEq, Eq)]
pub struct Unwatched;

impl Watch for Unwatched {
    fn goes_on(&mut self, _core: &Core, _worker: Worker) {}

    fn steps(&mut self, _core: &Core, _worker: Worker) {}

    fn has_ended(&mut self) {}
}
