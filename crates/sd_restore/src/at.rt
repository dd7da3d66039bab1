//! The memory at a checkpoint, whether it is the newest or not.
ghost use Rattle.std.specs.Prelude.{◌≡◌, ◌≢◌, ◌⊎◌, ◌+◌, ◌<◌, ◌≤◌, ℕ, true, List, None, All, length, map, IfOk, IfErr};
ghost use Rattle.std.specs.Prelude.{IsErrOf};
ghost use Rattle.sd_areas.specs.Areas.{AreMaximal};
ghost use Rattle.sd_areas.specs.Memory.{memory_of};
ghost use Rattle.sd_areas.specs.PlainMemory.{PlainMemory};
ghost use Rattle.sd_disk.specs.Contents.{file_at};
ghost use Rattle.sd_disk.specs.Reads.{OnlyReads};
ghost use Rattle.sd_image.specs.declared.table.SpaceTable.{SpaceTable};
ghost use Rattle.sd_image.specs.Image.{is_open};
ghost use Rattle.sd_image.specs.Table.{listing_of};
ghost use Rattle.sd_chain.specs.Catalog.{Opened, images};
ghost use Rattle.sd_chain.specs.Checkpoints.{IsOfCheckpointAmong};
ghost use Rattle.sd_chain.specs.Store.{IsCatalogOf};
ghost use Rattle.sd_chain.specs.Ways.{AreImages};
ghost use Rattle.sd_restore.specs.At.{HasPagesWithinAt, IsBrokenAt, LacksAt, ShowsAt};
ghost use Rattle.sd_restore.specs.Calls.{scan_calls};
ghost use Rattle.sd_restore.specs.Faulty.{FaultNames, IsDamage};
ghost use Rattle.sd_restore.specs.Placed.{IsInSlots, IsLaidOut, IsWithin, placed_memory, placed_pages};

use crate::chosen::{place_image, restore_image};
use crate::fault::Fault;
use crate::placing::PlacedMemory;
use crate::slots::scan;
use sd_areas::Snapshot;
use sd_chain::Catalog;
use sd_disk::Disk;
use sd_image::one_store;
use std::alloc::Global;

/// The memory at a checkpoint: that for which the dump or merged image of a catalog stands that has its number and, of
/// these, the greatest serial. It reads each data page of the result once.
///
/// # Errors
///
/// `EmptyChain` where no dump and no merged image of the catalog has the number. `Damaged` names, of the image's pages,
/// rising by space and page, the first whose chain breaks, by the slot of the image that has the page in its parent.
/// `Device` and `OutOfMemory` end it at once.
pub fn restore_at_from<D: Disk>(
    alloc: Global,
    disk: &mut D,
    catalog: &Catalog,
    number: u64,
) -> Result<Snapshot, Fault>
    requires images { AreImages catalog.now }
    requires slots { All (λ i. i.slot < length (D.contents disk.old)) (images catalog.now) }
    // Where it is the catalog of the contents, what is restored is what they have at the checkpoint.
    ensures shown { D.is_honest disk.new → IsCatalogOf (D.contents disk.old) catalog.now
        → IfOk result (λ snapshot. ShowsAt (D.contents disk.old) number (memory_of snapshot)) }
    ensures number { IfOk result (λ snapshot. snapshot.checkpoint ≡ number) }
    ensures empty { IsCatalogOf (D.contents disk.old) catalog.now → IsErrOf result Fault.EmptyChain
        → LacksAt (D.contents disk.old) number }
    ensures broken { IsCatalogOf (D.contents disk.old) catalog.now
        → IfErr result (FaultNames (IsBrokenAt (D.contents disk.old) number)) }
    // Contents that have a memory at the checkpoint are never called damaged or empty, and those that lack it never
    // damaged.
    ensures good { (memory : PlainMemory) → IsCatalogOf (D.contents disk.old) catalog.now
        → ShowsAt (D.contents disk.old) number memory → IfErr result (FaultNames (λ _ _. ⊥)) }
    ensures saved { (memory : PlainMemory) → IsCatalogOf (D.contents disk.old) catalog.now
        → ShowsAt (D.contents disk.old) number memory → result ≢ Err Fault.EmptyChain }
    ensures lacking { IsCatalogOf (D.contents disk.old) catalog.now
        → LacksAt (D.contents disk.old) number → result ≡ Err Fault.EmptyChain }
    ensures reads { OnlyReads D.Disk disk.old disk.new }
    ensures device { IsErrOf result Fault.Device → D.failed disk.old < D.failed disk.new }
    // A failed call ends it, and each page is read at most once.
    ensures stops { D.failed disk.old < D.failed disk.new → IsErrOf result Fault.Device }
    ensures calls { (count : ℕ) → IsCatalogOf (D.contents disk.old) catalog.now
        → HasPagesWithinAt (D.contents disk.old) number count
        → D.calls disk.new ≤ D.calls disk.old + count }
    // Without an image of the checkpoint it takes no memory.
    ensures wanted { result ≡ Err Fault.OutOfMemory
        → (i : Opened) × IsOfCheckpointAmong (images catalog.now) number i }
{
    one_store();
    catalog.sound();
    let Some(image) = catalog.of_checkpoint(number) else {
        return Err(Fault::EmptyChain);
    };
    restore_image(alloc, disk, catalog, image)
}

/// The memory of a store at a checkpoint, whether it is the newest or not: that for which the dump or merged image
/// stands that has its number and, of these, the greatest serial. It reads what [`crate::restore`] reads.
///
/// # Errors
///
/// `EmptyChain` where no dump and no merged image with the number stands in an open slot. `Damaged` names the first
/// slot whose header, table or digest is faulty, needed or not; or else the least slot whose serial stands in an
/// earlier open one; or else, of the image's pages, rising by space and page, the first whose chain breaks, by the slot
/// of the image that has the page in its parent. `Device` and `OutOfMemory` end it at once.
pub fn restore_at<D: Disk>(alloc: Global, disk: &mut D, number: u64) -> Result<Snapshot, Fault>
    // What is restored is what the store has at the checkpoint.
    ensures shown { D.is_honest disk.new
        → IfOk result (λ snapshot. ShowsAt (D.contents disk.old) number (memory_of snapshot)) }
    ensures number { IfOk result (λ snapshot. snapshot.checkpoint ≡ number) }
    ensures empty { D.is_honest disk.new → IsErrOf result Fault.EmptyChain
        → LacksAt (D.contents disk.old) number }
    ensures damaged { D.is_honest disk.new
        → IfErr result (FaultNames
        (λ slot reason. IsDamage (D.contents disk.old) slot reason
        ⊎ IsBrokenAt (D.contents disk.old) number slot reason)) }
    // A store that has a memory at the checkpoint is never called damaged or empty, and one that lacks it never
    // damaged.
    ensures good { D.is_honest disk.new → (memory : PlainMemory)
        → ShowsAt (D.contents disk.old) number memory → IfErr result (FaultNames (λ _ _. ⊥)) }
    ensures saved { D.is_honest disk.new → (memory : PlainMemory)
        → ShowsAt (D.contents disk.old) number memory → result ≢ Err Fault.EmptyChain }
    ensures lacking { D.is_honest disk.new → LacksAt (D.contents disk.old) number
        → IfErr result (FaultNames (λ _ _. ⊥)) }
    // It only reads: the contents stay, and no crash, afterwards or within it, leaves more than one before it.
    ensures reads { OnlyReads D.Disk disk.old disk.new }
    ensures device { IsErrOf result Fault.Device → D.failed disk.old < D.failed disk.new }
    // A failed call ends it, and no call is made twice.
    ensures stops { D.failed disk.old < D.failed disk.new → IsErrOf result Fault.Device }
    ensures calls { D.is_honest disk.new → (count : ℕ)
        → HasPagesWithinAt (D.contents disk.old) number count
        → D.calls disk.new ≤ D.calls disk.old + scan_calls (D.contents disk.old) + count }
    // A store without open slots takes no memory.
    ensures wanted { D.is_honest disk.new → result ≡ Err Fault.OutOfMemory
        → (slot : ℕ) × (is_open (file_at (D.contents disk.old) slot) ≡ true) }
{
    let catalog = scan(alloc, disk)?;
    catalog.sound();
    restore_at_from(alloc, disk, &catalog, number)
}

/// Where the memory of a catalog at a checkpoint lies. It makes the checks of [`restore_at_from`], and reads no page.
///
/// # Errors
///
/// As [`restore_at_from`], but for `Device`.
pub fn place_at<'a>(
    alloc: Global,
    catalog: &'a Catalog,
    number: u64,
) -> Result<PlacedMemory<'a>, Fault>
    requires images { AreImages catalog.now }
    // Where it is the catalog of contents, the pages that lie there are the memory that these have at the checkpoint.
    ensures shown { (contents : List (List ℕ)) → IsCatalogOf contents catalog.now
        → IfOk result (λ placed. ShowsAt contents number
        (placed_memory contents (map listing_of placed.spaces.now) (placed_pages placed.runs.items))) }
    ensures number { IfOk result (λ placed. placed.checkpoint ≡ number) }
    // That memory has these spaces and areas, and these pages in them, all rising.
    ensures laid { (contents : List (List ℕ)) → IsCatalogOf contents catalog.now
        → IfOk result (λ placed. IsLaidOut contents (map listing_of placed.spaces.now)
        (placed_pages placed.runs.items)
        (placed_memory contents (map listing_of placed.spaces.now) (placed_pages placed.runs.items))) }
    ensures empty { (contents : List (List ℕ)) → IsCatalogOf contents catalog.now
        → IsErrOf result Fault.EmptyChain → LacksAt contents number }
    ensures broken { (contents : List (List ℕ)) → IsCatalogOf contents catalog.now
        → IfErr result (FaultNames (IsBrokenAt contents number)) }
    // Contents that have a memory at the checkpoint are never called damaged or empty.
    ensures good { (contents : List (List ℕ)) (memory : PlainMemory)
        → IsCatalogOf contents catalog.now → ShowsAt contents number memory
        → IfErr result (FaultNames (λ _ _. ⊥)) }
    ensures saved { (contents : List (List ℕ)) (memory : PlainMemory)
        → IsCatalogOf contents catalog.now → ShowsAt contents number memory
        → result ≢ Err Fault.EmptyChain }
    ensures slots { (count : ℕ) → All (λ i. i.slot < count) (images catalog.now)
        → IfOk result (λ placed. All (λ r. IsInSlots count r.there) placed.runs.items) }
    ensures within { IfOk result (λ placed. All IsWithin placed.runs.items) }
    ensures areas { IfOk result (λ placed.
        All (λ (s : SpaceTable). AreMaximal None s.areas.items) placed.spaces.now) }
    ensures device { result ≢ Err Fault.Device }
    // Without an image of the checkpoint it takes no memory.
    ensures wanted { result ≡ Err Fault.OutOfMemory
        → (i : Opened) × IsOfCheckpointAmong (images catalog.now) number i }
{
    one_store();
    catalog.sound();
    let Some(image) = catalog.of_checkpoint(number) else {
        return Err(Fault::EmptyChain);
    };
    place_image(alloc, catalog, image)
}
