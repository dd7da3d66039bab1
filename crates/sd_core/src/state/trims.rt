//! Trimming a core's journal.
ghost use Rattle.std.specs.Prelude.{◌≡◌, None, Some, Err, ℕ};
ghost use Rattle.sd_command.specs.declared.refusal.Refusal.TheVariants.{Idle};
ghost use Rattle.sd_journal.specs.History.{last};
ghost use Rattle.sd_crash_safety.specs.Calls.{StaysBelieved};
ghost use Rattle.sd_crash_safety.specs.View.{history_of};
ghost use Rattle.sd_core.specs.Flags.{KeepsFlags};
ghost use Rattle.sd_core.specs.Trims.{Trims, unfolded};

use super::Core;
use crate::trimming::{are_too_many, fold_front, unfolded};
use sd_command::Refusal;
use sd_crash_safety::trim_step;
use sd_journal::{marked_trim_laws, tracked_laws, trim_laws};
use sd_pagetable::plain_law;
use sd_receipts::Folded;

impl Core {
    /// Takes the entries from the front of the journal up to and with the one that ended the pending of the last
    /// checkpoint, and goes on from that checkpoint. Returns them with the number of the first. What is pending, the
    /// jobs, the store and the pages' bits stay as they are, and so does what a store may show.
    ///
    /// # Errors
    ///
    /// `Idle` where no checkpoint was acknowledged, or named by a reopening, since the run started or the journal was
    /// trimmed; `NumbersUsed` where over 2^62 entries would have been folded in all; `OutOfMemory` where a growth was
    /// refused. Nothing changed.
    pub fn trim(&mut self) -> Result<Folded, Refusal>
        ensures idle { unfolded (last self.old.base (history_of self.old)) self.old.base.number ≡ None
            → (result ≡ Err Idle) × (self.new ≡ self.old) }
        ensures trims { (n : ℕ) → unfolded (last self.old.base (history_of self.old)) self.old.base.number ≡ Some n
            → Trims n self.old result self.new }
        ensures flags { KeepsFlags self.old self.new }
        // It believes of its store what it believed.
        ensures goes_on { (asked : _) → StaysBelieved self.old asked self.new asked }
    {
        trim_step();
        trim_laws();
        marked_trim_laws();
        tracked_laws();
        plain_law();
        let Some(checkpoint) = unfolded(self.last, self.base.number) else {
            return Err(Refusal::Idle);
        };
        let Some(count) = self.journal.ended_at(checkpoint) else {
            unreachable!();
        };
        if are_too_many(self.base.folded, count) {
            return Err(Refusal::NumbersUsed);
        }
        let Ok(folded) = fold_front(
            self.alloc,
            &mut self.base,
            &mut self.journal,
            checkpoint,
            count,
        ) else {
            return Err(Refusal::OutOfMemory);
        };
        Ok(folded)
    }
}
