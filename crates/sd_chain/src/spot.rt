/// A place in a table: that of a space, and that of a run among the space's runs.
#[derive(Clone, Copy, PartialEq, Eq)]
pub(crate) struct Spot {
    pub(crate) space: usize,
    pub(crate) run: usize,
}

impl Spot {
    /// The first run of the first space.
    pub(crate) const FIRST: Spot = Spot { space: 0, run: 0 };
}
