ghost use Rattle.std.specs.Prelude.{◌≡◌, ℕ, ◌<◌, ◌^◌, ◌↔◌, IsSome, IfSome};

use crate::limits::PAGE_NUMBER_LIMIT;
use std::marker::Model;

/// The number of a page in its space, below 2^35: its address divided by 4,096.
#[derive(Clone, Copy, Debug, PartialEq, Eq, PartialOrd, Ord, Hash)]
pub struct PageNo {
    number: u64,
}

impl Model for PageNo {
    ghost Value = { ℕ };

    ghost view = { λ p. p.number };

    ghost invariant = { λ p. p.number < 2 ^ 35 };

    ghost inverse = { λ n. record { number = n } };
}

impl PageNo {
    /// The page with this number, or none where it is past the last.
    pub fn new(number: u64) -> Option<Self>
        ensures within { IsSome result ↔ (number < 2 ^ 35) }
        ensures value { IfSome result (λ page. page ≡ number) }
    {
        if number < PAGE_NUMBER_LIMIT {
            Some(PageNo { number })
        } else {
            None
        }
    }

    /// Its number, below 2^35.
    pub fn number(self) -> u64
        ensures value { result ≡ self }
        ensures within { result < 2 ^ 35 }
    {
        self.number
    }
}
