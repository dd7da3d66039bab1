//! The open images of a store.
ghost use Rattle.std.specs.Prelude.{◌≡◌, ◌≢◌, ◌+◌, ◌-◌, ◌^◌, ◌<◌, ◌≤◌, ℕ, List, length, filter, All, IfOk, IfErr, OnOk};
ghost use Rattle.std.specs.Prelude.{IsErrOf};
ghost use Rattle.sd_disk.specs.Contents.{file_at};
ghost use Rattle.sd_disk.specs.Reads.{OnlyReads};
ghost use Rattle.sd_image.specs.Image.{Image, is_open};
ghost use Rattle.sd_image.specs.Shows.{IsStore};
ghost use Rattle.sd_chain.specs.Catalog.{IsHeld, images};
ghost use Rattle.sd_chain.specs.Store.{IsCatalogOf};
ghost use Rattle.sd_chain.specs.Ways.{AreImages};
ghost use Rattle.sd_restore.specs.Calls.{calls_for, scan_calls};
ghost use Rattle.sd_restore.specs.Faulty.{FaultNames, IsFaulty, IsFirstFaulty, IsDamage};
ghost use Rattle.sd_restore.specs.Scanned.{AreRead, IsScanned};
ghost use Rattle.sd_restore.specs.MemoryTaken.{StoreTakesMemory, FileTakesMemory};

use crate::fault::Fault;
use crate::scanned::Scanned;
use crate::slot_reader::read_slot;
use sd_chain::Catalog;
use sd_disk::Disk;
use sd_image::{good_store_has_no_reason, one_image};
use std::alloc::Global;

/// Reads the next slot, and takes in what is in it.
fn scan_slot<D: Disk>(
    alloc: Global,
    disk: &mut D,
    slot: usize,
    scanned: &mut Scanned,
) -> Result<(), Fault>
    requires slot { slot < length (D.contents disk.old) }
    requires room { scanned.old.images ≤ slot }
    requires fits { slot < 2 ^ 64 - 1 }
    ensures scanned { D.is_honest disk.new
        → OnOk result (IsScanned (D.contents disk.old) slot scanned.old
        → IsScanned (D.contents disk.old) (slot + 1) scanned.new) }
    ensures read { AreRead (length (D.contents disk.old)) scanned.old.catalog
        → OnOk result (AreRead (length (D.contents disk.old)) scanned.new.catalog) }
    ensures room { OnOk result (scanned.new.images ≤ slot + 1) }
    ensures faulty { D.is_honest disk.new
        → IfErr result (FaultNames
        (λ s reason. (s ≡ slot) × IsFaulty (file_at (D.contents disk.old) slot) reason)) }
    ensures reads { OnlyReads D.Disk disk.old disk.new }
    ensures device { IsErrOf result Fault.Device → D.failed disk.old < D.failed disk.new }
    ensures stops { D.failed disk.old < D.failed disk.new → IsErrOf result Fault.Device }
    ensures calls { D.is_honest disk.new → D.calls disk.new
        ≤ D.calls disk.old + calls_for (file_at (D.contents disk.old) slot) }
    ensures empty { result ≢ Err Fault.EmptyChain }
    ensures wanted { D.is_honest disk.new → result ≡ Err Fault.OutOfMemory
        → FileTakesMemory (file_at (D.contents disk.old) slot) }
{
    let opened = read_slot(alloc, disk, slot)?;
    scanned.take_in(alloc, slot, opened)?;
    Ok(())
}

/// Reads each slot, rising.
fn scan_slots<D: Disk>(alloc: Global, disk: &mut D) -> Result<Scanned, Fault>
    ensures scanned { D.is_honest disk.new
        → IfOk result (IsScanned (D.contents disk.old) (length (D.contents disk.old))) }
    ensures read { IfOk result (λ scanned. AreRead (length (D.contents disk.old)) scanned.catalog) }
    ensures faulty { D.is_honest disk.new
        → IfErr result (FaultNames (IsFirstFaulty (D.contents disk.old))) }
    ensures reads { OnlyReads D.Disk disk.old disk.new }
    ensures device { IsErrOf result Fault.Device → D.failed disk.old < D.failed disk.new }
    ensures stops { D.failed disk.old < D.failed disk.new → IsErrOf result Fault.Device }
    ensures calls { D.is_honest disk.new
        → D.calls disk.new ≤ D.calls disk.old + scan_calls (D.contents disk.old) }
    ensures empty { result ≢ Err Fault.EmptyChain }
    ensures wanted { D.is_honest disk.new → result ≡ Err Fault.OutOfMemory
        → StoreTakesMemory (D.contents disk.old) }
{
    let mut scanned = Scanned::new(alloc);
    for slot in 0..disk.slots() {
        scan_slot(alloc, disk, slot, &mut scanned)?;
    }
    Ok(scanned)
}

/// Reads each slot, rising, and looks for serials that stand twice.
pub fn scan_store<D: Disk>(alloc: Global, disk: &mut D) -> Result<Scanned, Fault>
    ensures catalog { D.is_honest disk.new
        → IfOk result (λ scanned. IsCatalogOf (D.contents disk.old) scanned.catalog) }
    ensures counted { D.is_honest disk.new
        → IfOk result (λ scanned. scanned.images ≡ length (filter is_open (D.contents disk.old))) }
    ensures read { IfOk result (λ scanned. AreRead (length (D.contents disk.old)) scanned.catalog) }
    ensures damaged { D.is_honest disk.new → IfErr result (FaultNames (IsDamage (D.contents disk.old))) }
    ensures store { D.is_honest disk.new
        → IfOk result (λ _. (images : List Image) × IsStore (D.contents disk.old) images) }
    ensures good { D.is_honest disk.new → (images : List Image)
        → IsStore (D.contents disk.old) images → IfErr result (FaultNames (λ _ _. ⊥)) }
    ensures reads { OnlyReads D.Disk disk.old disk.new }
    ensures device { IsErrOf result Fault.Device → D.failed disk.old < D.failed disk.new }
    ensures stops { D.failed disk.old < D.failed disk.new → IsErrOf result Fault.Device }
    ensures calls { D.is_honest disk.new
        → D.calls disk.new ≤ D.calls disk.old + scan_calls (D.contents disk.old) }
    ensures empty { result ≢ Err Fault.EmptyChain }
    ensures wanted { D.is_honest disk.new → result ≡ Err Fault.OutOfMemory
        → StoreTakesMemory (D.contents disk.old) }
{
    good_store_has_no_reason();
    one_image();
    let scanned = scan_slots(alloc, disk)?;
    scanned.check()?;
    scanned.counts();
    Ok(scanned)
}

/// The catalog of a store: exactly its open images. It only reads: the header and the table of each open slot once, and
/// each data page of an image of version 2, for its digest. Of a table of over 2 MiB it reads fronts before.
///
/// # Errors
///
/// `Damaged` names the first slot whose header, table or digest is faulty, with its reason, or else the least slot
/// whose serial stands in an earlier open one. `Device` and `OutOfMemory` end the scan at once.
pub fn scan<D: Disk>(alloc: Global, disk: &mut D) -> Result<Catalog, Fault>
    ensures catalog { D.is_honest disk.new → IfOk result (IsCatalogOf (D.contents disk.old)) }
    ensures damaged { D.is_honest disk.new → IfErr result (FaultNames (IsDamage (D.contents disk.old))) }
    // Each open slot is then an image with a serial of its own.
    ensures store { D.is_honest disk.new
        → IfOk result (λ _. (images : List Image) × IsStore (D.contents disk.old) images) }
    // A store in which that is so is never called damaged.
    ensures good { D.is_honest disk.new → (images : List Image)
        → IsStore (D.contents disk.old) images → IfErr result (FaultNames (λ _ _. ⊥)) }
    // Also of a device that lies: the images are in its slots, their tables are tables, and their parents fall.
    ensures slots { IfOk result
        (λ catalog. All (λ i. i.slot < length (D.contents disk.old)) (images catalog)) }
    ensures images { IfOk result (λ catalog. AreImages catalog) }
    ensures none_held { IfOk result (λ catalog. (serial : ℕ) → IsHeld catalog serial → ⊥) }
    // It only reads: the contents stay, and no crash, afterwards or within it, leaves more than one before it.
    ensures reads { OnlyReads D.Disk disk.old disk.new }
    ensures device { IsErrOf result Fault.Device → D.failed disk.old < D.failed disk.new }
    // A failed call ends it, and no call is made twice.
    ensures stops { D.failed disk.old < D.failed disk.new → IsErrOf result Fault.Device }
    ensures calls { D.is_honest disk.new
        → D.calls disk.new ≤ D.calls disk.old + scan_calls (D.contents disk.old) }
    ensures empty { result ≢ Err Fault.EmptyChain }
    // Memory is taken at an open slot that has a header, after slots that are closed or images; so none of a store
    // without open slots.
    ensures wanted { D.is_honest disk.new → result ≡ Err Fault.OutOfMemory
        → StoreTakesMemory (D.contents disk.old) }
{
    let scanned = scan_store(alloc, disk)?;
    Ok(scanned.catalog)
}
