//! Reading a store back.
ghost use Rattle.std.specs.Prelude.{◌≡◌, ◌≢◌, ◌⊎◌, ◌+◌, ◌<◌, ◌≤◌, ℕ, true, Option, Some, None, All, length, IfOk};
ghost use Rattle.std.specs.Prelude.{IfErr, IsErrOf};
ghost use Rattle.sd_areas.specs.Memory.{memory_of};
ghost use Rattle.sd_areas.specs.PlainMemory.{PlainMemory};
ghost use Rattle.sd_disk.specs.Contents.{file_at};
ghost use Rattle.sd_disk.specs.Reads.{OnlyReads};
ghost use Rattle.sd_image.specs.Image.{is_open};
ghost use Rattle.sd_image.specs.Shows.{Shows};
ghost use Rattle.sd_chain.specs.Catalog.{IsTip, Opened, images};
ghost use Rattle.sd_chain.specs.Store.{IsCatalogOf};
ghost use Rattle.sd_chain.specs.Ways.{AreImages};
ghost use Rattle.sd_restore.specs.Calls.{HasPagesWithin, scan_calls};
ghost use Rattle.sd_restore.specs.Faulty.{FaultNames, IsDamage, IsBrokenChain};

use crate::chosen::restore_image;
use crate::fault::Fault;
use crate::slots::scan;
use sd_areas::Snapshot;
use sd_chain::Catalog;
use sd_disk::Disk;
use sd_image::{one_store, shown_once, tip_once};
use std::alloc::Global;

/// The memory that the newest dump or merged image of a catalog stands for. It reads each data page of the result once.
/// Its time grows with the pages, and with the images that it passes for pages that lie in parents.
///
/// # Errors
///
/// `EmptyChain` where the catalog has no dump and no merged image. `Damaged` names, of the newest image's pages, rising
/// by space and page, the first whose chain breaks, by the slot of the image that has the page in its parent. `Device`
/// and `OutOfMemory` end it at once.
pub fn restore_from<D: Disk>(
    alloc: Global,
    disk: &mut D,
    catalog: &Catalog,
) -> Result<Snapshot, Fault>
    requires images { AreImages catalog.now }
    requires slots { All (λ i. i.slot < length (D.contents disk.old)) (images catalog.now) }
    // Where it is the catalog of the contents, what is restored is what they show.
    ensures shown { D.is_honest disk.new → IsCatalogOf (D.contents disk.old) catalog.now
        → IfOk result (λ snapshot.
        Shows (D.contents disk.old) (Some (snapshot.checkpoint, memory_of snapshot))) }
    ensures empty { IsCatalogOf (D.contents disk.old) catalog.now → IsErrOf result Fault.EmptyChain
        → Shows (D.contents disk.old) None }
    ensures broken { IsCatalogOf (D.contents disk.old) catalog.now
        → IfErr result (FaultNames (IsBrokenChain (D.contents disk.old))) }
    // Contents that show something are never called damaged, and those that show a memory are never called empty.
    ensures good { (shown : Option (ℕ × PlainMemory))
        → IsCatalogOf (D.contents disk.old) catalog.now
        → Shows (D.contents disk.old) shown → IfErr result (FaultNames (λ _ _. ⊥)) }
    ensures saved { (moment : ℕ × PlainMemory) → IsCatalogOf (D.contents disk.old) catalog.now
        → Shows (D.contents disk.old) (Some moment) → result ≢ Err Fault.EmptyChain }
    ensures reads { OnlyReads D.Disk disk.old disk.new }
    ensures device { IsErrOf result Fault.Device → D.failed disk.old < D.failed disk.new }
    // A failed call ends it, and each page is read at most once.
    ensures stops { D.failed disk.old < D.failed disk.new → IsErrOf result Fault.Device }
    ensures calls { (count : ℕ) → IsCatalogOf (D.contents disk.old) catalog.now
        → HasPagesWithin (D.contents disk.old) count
        → D.calls disk.new ≤ D.calls disk.old + count }
    // An empty chain takes no memory.
    ensures wanted { result ≡ Err Fault.OutOfMemory → (tip : Opened) × IsTip catalog.now tip }
{
    one_store();
    shown_once();
    tip_once();
    catalog.sound();
    let Some(tip) = catalog.tip() else {
        return Err(Fault::EmptyChain);
    };
    restore_image(alloc, disk, catalog, tip)
}

/// The memory that a store shows: that of its newest dump or merged image. It only reads: the header and the table of
/// each open slot once, each data page of an image of version 2 for its digest, and then each data page of the result
/// once. Its time grows with the pages, and with the images that it passes for pages that lie in parents.
///
/// # Errors
///
/// `EmptyChain` where no dump and no merged image stands in an open slot. `Damaged` names the first slot whose header,
/// table or digest is faulty; or else the least slot whose serial stands in an earlier open one; or else, of the newest
/// image's pages, rising by space and page, the first whose chain breaks, by the slot of the image that has the page in
/// its parent. `Device` and `OutOfMemory` end it at once.
pub fn restore<D: Disk>(alloc: Global, disk: &mut D) -> Result<Snapshot, Fault>
    // What is restored is what the store shows.
    ensures shown { D.is_honest disk.new
        → IfOk result (λ snapshot. Shows (D.contents disk.old)
        (Some (snapshot.checkpoint, memory_of snapshot))) }
    ensures empty { D.is_honest disk.new → IsErrOf result Fault.EmptyChain
        → Shows (D.contents disk.old) None }
    ensures damaged { D.is_honest disk.new
        → IfErr result (FaultNames
        (λ slot reason. IsDamage (D.contents disk.old) slot reason
        ⊎ IsBrokenChain (D.contents disk.old) slot reason)) }
    // A store that shows something is never called damaged, and one that shows a memory is never called empty.
    ensures good { D.is_honest disk.new → (shown : Option (ℕ × PlainMemory))
        → Shows (D.contents disk.old) shown → IfErr result (FaultNames (λ _ _. ⊥)) }
    ensures saved { D.is_honest disk.new → (moment : ℕ × PlainMemory)
        → Shows (D.contents disk.old) (Some moment) → result ≢ Err Fault.EmptyChain }
    // It only reads: the contents stay, and no crash, afterwards or within it, leaves more than one before it.
    ensures reads { OnlyReads D.Disk disk.old disk.new }
    ensures device { IsErrOf result Fault.Device → D.failed disk.old < D.failed disk.new }
    // A failed call ends it, and no call is made twice.
    ensures stops { D.failed disk.old < D.failed disk.new → IsErrOf result Fault.Device }
    ensures calls { D.is_honest disk.new → (count : ℕ)
        → HasPagesWithin (D.contents disk.old) count
        → D.calls disk.new ≤ D.calls disk.old + scan_calls (D.contents disk.old) + count }
    // A store without open slots takes no memory.
    ensures wanted { D.is_honest disk.new → result ≡ Err Fault.OutOfMemory
        → (slot : ℕ) × (is_open (file_at (D.contents disk.old) slot) ≡ true) }
{
    let catalog = scan(alloc, disk)?;
    catalog.sound();
    restore_from(alloc, disk, &catalog)
}
