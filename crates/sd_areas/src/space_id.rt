ghost use Rattle.std.specs.Prelude.{◌≡◌, ℕ};

use std::marker::Model;

/// The number of an address space. The spaces that can be alive have the numbers 1 to 16.
#[derive(Clone, Copy, Debug, PartialEq, Eq, PartialOrd, Ord, Hash)]
pub struct SpaceId {
    number: u64,
}

impl Model for SpaceId {
    ghost Value = { ℕ };

    ghost view = { λ s. s.number };

    ghost inverse = { λ n. record { number = n } };
}

impl SpaceId {
    /// The space with this number, also one that can't be alive.
    pub fn new(number: u64) -> Self
        ensures { result ≡ number }
    {
        SpaceId { number }
    }

    /// Its number.
    pub fn number(self) -> u64
        ensures { result ≡ self }
    {
        self.number
    }
}
