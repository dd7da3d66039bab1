//! The numbers that were used.
ghost use Rattle.std.specs.Prelude.{◌≡◌, ◌<◌, ◌+◌, ◌^◌, ◌||◌, nat_le};
ghost use Rattle.sd_chain.specs.Catalog.{checkpoint_number, serial_of};
ghost use Rattle.sd_core.specs.Flags.{IsGreatestFound, ticket_after};
ghost use Rattle.sd_core.specs.Starts.{started};

use sd_chain::Catalog;

/// Numbers below this are left to be used.
const NUMBER_LIMIT: u64 = 9_223_372_036_854_775_808;

/// The numbers that were used.
#[derive(Clone, Copy, PartialEq, Eq)]
pub struct Numbers {
    /// The greatest checkpoint number that was begun in this run, or found at the last opening.
    pub checkpoint: u64,
    /// The greatest serial that was given out in this run, or found at the last opening.
    pub serial: u64,
    /// The greatest checkpoint number that was begun in this run, or the one that it started from.
    pub begun: u64,
    /// The greatest serial that was given out in this run.
    pub given: u64,
    /// The ticket of the next request.
    pub ticket: u64,
}

impl Numbers {
    /// The numbers of a run that starts from this checkpoint.
    pub(crate) fn start(base: Option<u64>) -> Numbers
        ensures { result ≡ started base }
    {
        let begun = base.unwrap_or(0);
        Numbers {
            checkpoint: begun,
            serial: 0,
            begun,
            given: 0,
            ticket: 0,
        }
    }

    /// A store was opened, whose images have these numbers.
    pub(crate) fn found(&mut self, catalog: &Catalog)
        ensures checkpoint { IsGreatestFound checkpoint_number self.old.begun catalog.now self.new.checkpoint }
        ensures serial { IsGreatestFound serial_of self.old.given catalog.now self.new.serial }
        ensures others { self.new
            ≡ record self.old { checkpoint = self.new.checkpoint; serial = self.new.serial } }
    {
        self.checkpoint = self.begun.max(catalog.greatest_checkpoint());
        self.serial = self.given.max(catalog.greatest_serial());
    }

    /// Whether the greatest checkpoint number or serial leaves none below 2^63.
    pub(crate) fn are_used_up(&self) -> bool
        ensures { result ≡ (nat_le (2 ^ 63) self.now.checkpoint || nat_le (2 ^ 63) self.now.serial) }
    {
        self.checkpoint >= NUMBER_LIMIT || self.serial >= NUMBER_LIMIT
    }

    /// Whether the greatest serial leaves none below 2^63.
    pub(crate) fn are_serials_used_up(&self) -> bool
        ensures { result ≡ nat_le (2 ^ 63) self.now.serial }
    {
        self.serial >= NUMBER_LIMIT
    }

    /// The number of the checkpoint that begins: one above all that were used.
    pub(crate) fn begin(&mut self) -> u64
        requires { self.old.checkpoint < 2 ^ 63 }
        ensures number { result ≡ self.old.checkpoint + 1 }
        ensures numbers { self.new
            ≡ record self.old { checkpoint = self.old.checkpoint + 1; begun = self.old.checkpoint + 1 } }
    {
        self.checkpoint += 1;
        self.begun = self.checkpoint;
        self.begun
    }

    /// The next serial was given out.
    pub(crate) fn give(&mut self)
        requires { self.old.serial < 2 ^ 63 + 9 }
        ensures { self.new ≡ record self.old { serial = self.old.serial + 1; given = self.old.serial + 1 } }
    {
        self.serial += 1;
        self.given = self.serial;
    }

    /// A request has the next ticket.
    pub(crate) fn tick(&mut self)
        ensures { self.new ≡ record self.old { ticket = ticket_after self.old.ticket } }
    {
        self.ticket = self.ticket.wrapping_add(1);
    }
}
