//! Reading a store with one slot counted as closed.
ghost use Rattle.std.specs.Prelude.{◌≡◌, ◌≢◌, ◌+◌, ◌-◌, ◌^◌, ◌<◌, ◌≤◌, length, IfOk, IfErr, OnOk, IsErrOf};
ghost use Rattle.sd_disk.specs.Reads.{OnlyReads};
ghost use Rattle.sd_chain.specs.Store.{IsCatalogOf};
ghost use Rattle.sd_chain.specs.Ways.{AreImages};
ghost use Rattle.sd_restore.specs.Faulty.{FaultNames, IsDamage, IsFirstFaulty};
ghost use Rattle.sd_restore.specs.Scanned.{AreRead, IsScanned};
ghost use Rattle.sd_drop.specs.Closing.{closed_at};

use sd_chain::Catalog;
use sd_disk::Disk;
use sd_restore::{Fault, Scanned, read_slot};
use std::alloc::Global;

/// Takes in what is in the next slot, or passes it where it is the one that counts as closed.
fn take_next<D: Disk>(
    alloc: Global,
    disk: &mut D,
    slot: usize,
    next: usize,
    scanned: &mut Scanned,
) -> Result<(), Fault>
    requires next { next < length (D.contents disk.old) }
    requires room { scanned.old.images ≤ next }
    requires fits { next < 2 ^ 64 - 1 }
    ensures scanned { D.is_honest disk.new
        → OnOk result (IsScanned (closed_at (D.contents disk.old) slot) next scanned.old
        → IsScanned (closed_at (D.contents disk.old) slot) (next + 1) scanned.new) }
    ensures read { AreRead (length (D.contents disk.old)) scanned.old.catalog
        → OnOk result (AreRead (length (D.contents disk.old)) scanned.new.catalog) }
    ensures room { OnOk result (scanned.new.images ≤ next + 1) }
    ensures faulty { D.is_honest disk.new → IsScanned (closed_at (D.contents disk.old) slot) next scanned.old
        → IfErr result (FaultNames (IsFirstFaulty (closed_at (D.contents disk.old) slot))) }
    ensures reads { OnlyReads D.Disk disk.old disk.new }
    ensures device { IsErrOf result Fault.Device → D.failed disk.old < D.failed disk.new }
    ensures empty { result ≢ Err Fault.EmptyChain }
{
    if next == slot {
        scanned.skip(next);
        return Ok(());
    }
    let opened = read_slot(alloc, disk, next)?;
    scanned.take_in(alloc, next, opened)?;
    Ok(())
}

/// Reads each slot but the one that counts as closed, rising.
fn scan_others<D: Disk>(alloc: Global, disk: &mut D, slot: usize) -> Result<Scanned, Fault>
    ensures scanned { D.is_honest disk.new → IfOk result
        (IsScanned (closed_at (D.contents disk.old) slot) (length (closed_at (D.contents disk.old) slot))) }
    ensures read { IfOk result (λ scanned. AreImages scanned.catalog) }
    ensures faulty { D.is_honest disk.new
        → IfErr result (FaultNames (IsFirstFaulty (closed_at (D.contents disk.old) slot))) }
    ensures reads { OnlyReads D.Disk disk.old disk.new }
    ensures device { IsErrOf result Fault.Device → D.failed disk.old < D.failed disk.new }
    ensures empty { result ≢ Err Fault.EmptyChain }
{
    let mut scanned = Scanned::new(alloc);
    for next in 0..disk.slots() {
        take_next(alloc, disk, slot, next, &mut scanned)?;
    }
    Ok(scanned)
}

/// The catalog of a store with one slot counted as closed. It only reads.
pub(crate) fn scan_without<D: Disk>(
    alloc: Global,
    disk: &mut D,
    slot: usize,
) -> Result<Catalog, Fault>
    ensures catalog { D.is_honest disk.new
        → IfOk result (IsCatalogOf (closed_at (D.contents disk.old) slot)) }
    ensures images { IfOk result (λ catalog. AreImages catalog) }
    ensures damaged { D.is_honest disk.new
        → IfErr result (FaultNames (IsDamage (closed_at (D.contents disk.old) slot))) }
    ensures reads { OnlyReads D.Disk disk.old disk.new }
    ensures device { IsErrOf result Fault.Device → D.failed disk.old < D.failed disk.new }
    ensures empty { result ≢ Err Fault.EmptyChain }
{
    let scanned = scan_others(alloc, disk, slot)?;
    scanned.check()?;
    Ok(scanned.catalog)
}
