//! Which call fails.
ghost use Rattle.std.specs.Prelude.{◌≡◌, ◌↔◌, Some, IsTrue};

#[derive(Drop)]
pub enum Fuse {
    /// So many calls pass before the one that fails.
    Passes(u64),
    Blown,
}

impl Fuse {
    ghost use Rattle.sd_disk.specs.Fuses.{calls_before, burnt, blown};

    /// Counts a call, and returns whether it is the one that fails.
    pub(crate) fn burn(&mut self) -> bool
        ensures blows { IsTrue result ↔ (calls_before self.old ≡ Some 0) }
        ensures burnt { calls_before self.new ≡ burnt (calls_before self.old) }
    {
        match *self {
            Fuse::Passes(0) => {
                *self = Fuse::Blown;
                true
            }
            Fuse::Passes(calls) => {
                *self = Fuse::Passes(calls - 1);
                false
            }
            Fuse::Blown => false,
        }
    }

    pub(crate) fn failures(&self) -> u64
        ensures { result ≡ blown (calls_before self.now) }
    {
        match self {
            Fuse::Passes(_) => 0,
            Fuse::Blown => 1,
        }
    }
}
