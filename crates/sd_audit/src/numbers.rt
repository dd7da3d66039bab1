//! The last and the pending checkpoint of a run.
ghost use Rattle.std.specs.Prelude.{◌≡◌, ◌↔◌, ◌⊎◌, reverse, IsTrue};
ghost use Rattle.sd_journal.specs.History.{Base, last, pending};

use sd_journal::{Entry, last_number, pending_number};

/// Whether a checkpoint is the last or the pending one.
pub(crate) fn is_last_or_pending(number: Option<u64>, entries: &[Entry], checkpoint: u64) -> bool
    ensures { (base : Base) → base.number ≡ number
        → IsTrue result ↔ ((last base (reverse entries.now) ≡ Some checkpoint)
        ⊎ (pending (reverse entries.now) ≡ Some checkpoint)) }
{
    last_number(number, entries) == Some(checkpoint) || pending_number(entries) == Some(checkpoint)
}
