/// What a call of [`World::pass_on`](crate::World::pass_on) made.
#[derive(Clone, Copy, Debug, PartialEq, Eq)]
pub struct Passed {
    /// How many steps of the pass it made.
    pub steps: u64,
    /// Why it made no more.
    pub end: PassEnd,
}

/// Why a call of [`World::pass_on`](crate::World::pass_on) made no further step.
#[derive(Clone, Copy, Debug, PartialEq, Eq)]
pub enum PassEnd {
    /// It made as many as it was asked for.
    AllMade,
    /// The dumper's next event isn't a step of a pass.
    AnotherIsNext,
    /// A growth was refused.
    OutOfMemory,
}
