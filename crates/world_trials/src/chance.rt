//! Random numbers, the same in each run.
ghost use Rattle.std.specs.Prelude.{◌<◌, ◌≤◌};

/// A row of random numbers.
#[derive(Clone, Copy)]
pub(crate) struct Chance {
    seed: u64,
}

impl Chance {
    pub(crate) fn new(seed: u64) -> Self {
        Chance { seed }
    }

    /// The next number, below a limit.
    pub(crate) fn below(&mut self, limit: u64) -> u64
        requires { 1 ≤ limit }
        ensures { result < limit }
    {
        self.seed = self
            .seed
            .wrapping_mul(6_364_136_223_846_793_005)
            .wrapping_add(1_442_695_040_888_963_407);
        (self.seed >> 33) % limit
    }
}
