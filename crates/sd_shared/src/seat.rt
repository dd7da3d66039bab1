/// The right to make commands under one number. It is moved to its thread, and isn't copied.
#[derive(Debug, Drop)]
pub struct Seat {
    pub(crate) number: usize,
    /// How many turns at the core's lock it has had, modulo 2^64.
    pub(crate) turns: u64,
}

impl Seat {
    ghost use Rattle.std.specs.Prelude.{◌≡◌};

    /// The number under which its commands stand in the journal.
    pub fn number(&self) -> usize
        ensures { result ≡ self.now.number }
    {
        self.number
    }
}
