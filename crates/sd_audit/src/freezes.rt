//! The memory at the freeze of a checkpoint.
ghost use Rattle.std.specs.Prelude.{◌≡◌, ◌↔◌, ◌≤◌, length, reverse, IfOk, IfSome, IsTrue};
ghost use Rattle.std.specs.Option.{option_map};
ghost use Rattle.sd_areas.specs.Memory.{memory_of};
ghost use Rattle.sd_journal.specs.History.{at_freeze};
ghost use Rattle.sd_journal.specs.Legal.{IsLegal};
ghost use Rattle.sd_audit.specs.Freezes.{IsFreezePlace};
ghost use Rattle.sd_audit.specs.ShowsOne.{base_from_snapshot};

use crate::copying::copy_of;
use sd_areas::Snapshot;
use sd_fold::replay;
use sd_journal::Entry;
use std::alloc::{AllocError, Global};

/// The memory at the freeze of a checkpoint: what the entries before its freeze make of the memory that the run started
/// from; or that memory itself, for its own number.
///
/// # Errors
///
/// Out of memory where a growth was refused.
pub fn memory_at_freeze(
    alloc: Global,
    number: Option<u64>,
    base: &Snapshot,
    entries: &[Entry],
    checkpoint: u64,
) -> Result<Option<Snapshot>, AllocError>
    requires { IsLegal (base_from_snapshot number base.now) (reverse entries.now) }
    ensures { IfOk result (λ found. option_map memory_of found
        ≡ at_freeze (base_from_snapshot number base.now) (reverse entries.now) checkpoint) }
{
    if let Some(place) = freeze_place(entries, checkpoint) {
        let start = copy_of(alloc, base)?;
        return Ok(Some(replay(alloc, start, &entries[..place])?));
    }
    if number == Some(checkpoint) {
        return Ok(Some(copy_of(alloc, base)?));
    }
    Ok(None)
}

/// Where the latest freeze of a checkpoint stands.
fn freeze_place(entries: &[Entry], checkpoint: u64) -> Option<usize>
    ensures within { IfSome result (λ place. place ≤ length entries.now) }
    ensures place { IsFreezePlace entries.now checkpoint result }
{
    let mut latest = None;
    for (place, entry) in entries.iter().enumerate() {
        if is_freeze(entry, checkpoint) {
            latest = Some(place);
        }
    }
    latest
}

/// Whether an entry is the freeze of a checkpoint.
fn is_freeze(entry: &Entry, checkpoint: u64) -> bool
    ensures { IsTrue result ↔ (entry.now ≡ Entry.Freeze checkpoint) }
{
    matches!(entry, Entry::Freeze(frozen) if *frozen == checkpoint)
}
