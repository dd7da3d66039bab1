//! The part of a journal that a trim took away.
ghost use Rattle.std.specs.Prelude.{◌↔◌, IsOk, IfErr};
ghost use Rattle.sd_journal.specs.Receipts.{Accounts, IsFault};

use crate::checking::check_entries;
use sd_journal::{CloseFault, Entry, Receipt};

/// Entries that were taken from the front of a journal, in order of time. Together with the memory that the run went on
/// from before, they make the one that it goes on from since.
#[derive(Debug, Drop)]
pub struct Folded {
    /// The number of the first of them.
    pub first: u64,
    pub entries: Vec<Entry>,
}

impl Folded {
    /// Tests whether these entries account for the receipts of their commands and for the numbers that they
    /// acknowledged: each receipt stands at its number, those of a seat at rising numbers in the order given, and there
    /// is no other command and no other acknowledgement.
    ///
    /// # Errors
    ///
    /// The first fault: through the receipts in the order given, for each `NotThere`, then `Differs`, then
    /// `OutOfOrder`; then `Count`; last `Acks`.
    pub fn check(&self, receipts: &[Receipt], acks: &[u64]) -> Result<(), CloseFault>
        ensures exact { IsOk result
            ↔ Accounts self.now.first self.now.entries.items receipts.now acks.now }
        ensures fault { IfErr result
            (IsFault self.now.first self.now.entries.items receipts.now acks.now) }
    {
        check_entries(self.first, &self.entries, receipts, acks)
    }
}
