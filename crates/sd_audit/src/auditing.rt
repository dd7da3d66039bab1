//! Comparing what a store shows with what a journal allows.
ghost use Rattle.std.specs.Prelude.{◌≡◌, ◌≢◌, ◌↔◌, ◌⊎◌, ◌<◌, ℕ, reverse, Option, Some, IfOk, IfErr, IsErrOf, IsTrue};
ghost use Rattle.std.specs.Option.{option_map};
ghost use Rattle.sd_areas.specs.Memory.{memory_of};
ghost use Rattle.sd_areas.specs.PlainMemory.{PlainMemory};
ghost use Rattle.sd_disk.specs.Reads.{OnlyReads};
ghost use Rattle.sd_image.specs.Shows.{Shows};
ghost use Rattle.sd_journal.specs.Allowed.{IsAllowed};
ghost use Rattle.sd_journal.specs.Legal.{IsLegal};
ghost use Rattle.sd_restore.specs.Faulty.{FaultNames, IsBrokenChain, IsDamage};
ghost use Rattle.sd_audit.specs.ShowsOne.{ShowsOne, base_from_snapshot, shown_by};

use crate::freezes::memory_at_freeze;
use crate::numbers::is_last_or_pending;
use crate::same::is_same_memory;
use sd_areas::Snapshot;
use sd_disk::Disk;
use sd_image::shown_once;
use sd_journal::{Entry, last_number};
use sd_restore::{Fault, restore};
use std::alloc::{AllocError, Global};

/// Whether a disk's contents show a pair that the journal allows: the last checkpoint with the memory at its freeze, or
/// the pending one; or nothing, where nothing was saved. It only reads.
///
/// # Errors
///
/// As those of `restore`, without `EmptyChain`: a store that shows nothing is an answer. `OutOfMemory` also where the
/// memory at a freeze can't be made.
pub fn audit<D: Disk>(
    alloc: Global,
    number: Option<u64>,
    base: &Snapshot,
    entries: &[Entry],
    disk: &mut D,
) -> Result<bool, Fault>
    requires { IsLegal (base_from_snapshot number base.now) (reverse entries.now) }
    ensures exact { D.is_honest disk.new → IfOk result (λ told. IsTrue told
        ↔ ShowsOne (base_from_snapshot number base.now) (reverse entries.now) (D.contents disk.old)) }
    ensures damaged { D.is_honest disk.new
        → IfErr result (FaultNames
        (λ slot reason. IsDamage (D.contents disk.old) slot reason
        ⊎ IsBrokenChain (D.contents disk.old) slot reason)) }
    // A store that shows something is never called damaged.
    ensures good { D.is_honest disk.new → (shown : Option (ℕ × PlainMemory))
        → Shows (D.contents disk.old) shown → IfErr result (FaultNames (λ _ _. ⊥)) }
    ensures saved { result ≢ Err Fault.EmptyChain }
    ensures reads { OnlyReads D.Disk disk.old disk.new }
    ensures device { IsErrOf result Fault.Device → D.failed disk.old < D.failed disk.new }
    // A failed call ends it.
    ensures stops { D.failed disk.old < D.failed disk.new → IsErrOf result Fault.Device }
{
    shown_once();
    let found = restored(alloc, disk)?;
    Ok(is_allowed(alloc, number, base, entries, &found)?)
}

/// The memory that a store shows, or none where nothing was saved.
fn restored<D: Disk>(alloc: Global, disk: &mut D) -> Result<Option<Snapshot>, Fault>
    ensures shown { D.is_honest disk.new → IfOk result (λ found.
        Shows (D.contents disk.old) (option_map shown_by found)) }
    ensures damaged { D.is_honest disk.new
        → IfErr result (FaultNames
        (λ slot reason. IsDamage (D.contents disk.old) slot reason
        ⊎ IsBrokenChain (D.contents disk.old) slot reason)) }
    ensures good { D.is_honest disk.new → (shown : Option (ℕ × PlainMemory))
        → Shows (D.contents disk.old) shown → IfErr result (FaultNames (λ _ _. ⊥)) }
    ensures saved { result ≢ Err Fault.EmptyChain }
    ensures reads { OnlyReads D.Disk disk.old disk.new }
    ensures device { IsErrOf result Fault.Device → D.failed disk.old < D.failed disk.new }
    ensures stops { D.failed disk.old < D.failed disk.new → IsErrOf result Fault.Device }
{
    match restore(alloc, disk) {
        Ok(snapshot) => Ok(Some(snapshot)),
        Err(Fault::EmptyChain) => Ok(None),
        Err(fault) => Err(fault),
    }
}

/// Whether the journal allows what a store shows.
fn is_allowed(
    alloc: Global,
    number: Option<u64>,
    base: &Snapshot,
    entries: &[Entry],
    found: &Option<Snapshot>,
) -> Result<bool, AllocError>
    requires { IsLegal (base_from_snapshot number base.now) (reverse entries.now) }
    ensures { IfOk result (λ told. IsTrue told
        ↔ IsAllowed (base_from_snapshot number base.now) (reverse entries.now) (option_map shown_by found.now)) }
{
    let Some(snapshot) = found else {
        return Ok(last_number(number, entries).is_none());
    };
    let checkpoint = snapshot.checkpoint;
    if !is_last_or_pending(number, entries, checkpoint) {
        return Ok(false);
    }
    let Some(memory) = memory_at_freeze(alloc, number, base, entries, checkpoint)? else {
        return Ok(false);
    };
    Ok(is_same_memory(&memory, snapshot))
}
