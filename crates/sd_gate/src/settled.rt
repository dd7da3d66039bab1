/// What an outcome was to a plan.
#[derive(Clone, Copy, PartialEq, Eq)]
pub enum Settled {
    /// It was done, and calls are left.
    More,
    /// It was done, and was the last.
    Finished,
    /// The device failed: the plan makes no further call.
    Failed,
    /// It is of no request of the plan that is out. Nothing changed.
    Strange,
}
