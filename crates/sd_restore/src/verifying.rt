//! Telling whether a store is in order.
ghost use Rattle.std.specs.Prelude.{◌≡◌, ◌≢◌, ◌⊎◌, ◌+◌, ◌<◌, ◌≤◌, ℕ, true, List, Option, length, filter, IfOk, IfErr};
ghost use Rattle.std.specs.Prelude.{IsErrOf};
ghost use Rattle.std.specs.Option.{option_map};
ghost use Rattle.sd_areas.specs.PlainMemory.{PlainMemory};
ghost use Rattle.sd_disk.specs.Contents.{file_at};
ghost use Rattle.sd_disk.specs.Reads.{OnlyReads};
ghost use Rattle.sd_image.specs.Image.{is_open};
ghost use Rattle.sd_image.specs.Shows.{Shows};
ghost use Rattle.sd_chain.specs.Catalog.{IsTip, Opened};
ghost use Rattle.sd_chain.specs.Store.{IsCatalogOf};
ghost use Rattle.sd_chain.specs.Ways.{AreImages};
ghost use Rattle.sd_restore.specs.Calls.{scan_calls};
ghost use Rattle.sd_restore.specs.Faulty.{FaultNames, IsDamage, IsBrokenChain};

use crate::chain::place_pages;
use crate::fault::Fault;
use crate::report::Report;
use crate::scanned::Scanned;
use crate::slots::scan_store;
use sd_chain::Catalog;
use sd_disk::Disk;
use sd_image::{one_store, tip_once};
use std::alloc::Global;

/// The checkpoint of the newest dump or merged image, if there is one and the chain of each of its pages is whole.
fn shown_checkpoint(alloc: Global, catalog: &Catalog) -> Result<Option<u64>, Fault>
    requires { AreImages catalog.now }
    ensures shown { (contents : List (List ℕ)) → IsCatalogOf contents catalog.now
        → IfOk result (λ checkpoint. (shown : Option (ℕ × PlainMemory)) × Shows contents shown
        × (checkpoint ≡ option_map (λ moment. moment.0) shown)) }
    ensures broken { (contents : List (List ℕ)) → IsCatalogOf contents catalog.now
        → IfErr result (FaultNames (IsBrokenChain contents)) }
    ensures good { (contents : List (List ℕ)) (shown : Option (ℕ × PlainMemory))
        → IsCatalogOf contents catalog.now → Shows contents shown
        → IfErr result (FaultNames (λ _ _. ⊥)) }
    ensures empty { result ≢ Err Fault.EmptyChain }
    ensures device { result ≢ Err Fault.Device }
    // An empty chain takes no memory.
    ensures wanted { result ≡ Err Fault.OutOfMemory → (tip : Opened) × IsTip catalog.now tip }
{
    one_store();
    tip_once();
    catalog.sound();
    let Some(tip) = catalog.tip() else {
        return Ok(None);
    };
    place_pages(alloc, catalog, tip)?;
    Ok(Some(tip.header().checkpoint))
}

/// The checkpoint of the newest dump or merged image of a catalog, if there is one. It walks no chain, and takes no
/// memory.
pub fn newest_checkpoint(catalog: &Catalog) -> Option<u64>
    // Where it is the catalog of contents that show something, that is its checkpoint.
    ensures { (contents : List (List ℕ)) (shown : Option (ℕ × PlainMemory))
        → IsCatalogOf contents catalog.now → Shows contents shown
        → result ≡ option_map (λ moment. moment.0) shown }
{
    one_store();
    tip_once();
    let Some(tip) = catalog.tip() else {
        return None;
    };
    Some(tip.header().checkpoint)
}

/// Makes the checks of a restore, and reads no data page but those of images of version 2, for their digests: the
/// checkpoint that the store shows, and how many slots are open.
///
/// # Errors
///
/// `Damaged`, `Device` and `OutOfMemory` where [`crate::restore`] reports them. A store without a checkpoint is in
/// order.
pub fn verify<D: Disk>(alloc: Global, disk: &mut D) -> Result<Report, Fault>
    // Such a store shows something, and the report has its checkpoint.
    ensures shown { D.is_honest disk.new
        → IfOk result (λ report. (shown : Option (ℕ × PlainMemory))
        × Shows (D.contents disk.old) shown
        × (report.checkpoint ≡ option_map (λ moment. moment.0) shown)) }
    ensures images { D.is_honest disk.new
        → IfOk result (λ report. report.images ≡ length (filter is_open (D.contents disk.old))) }
    ensures damaged { D.is_honest disk.new
        → IfErr result (FaultNames
        (λ slot reason. IsDamage (D.contents disk.old) slot reason
        ⊎ IsBrokenChain (D.contents disk.old) slot reason)) }
    // A store that shows something is never called damaged.
    ensures good { D.is_honest disk.new → (shown : Option (ℕ × PlainMemory))
        → Shows (D.contents disk.old) shown → IfErr result (FaultNames (λ _ _. ⊥)) }
    ensures never_empty { result ≢ Err Fault.EmptyChain }
    // It only reads: the contents stay, and no crash, afterwards or within it, leaves more than one before it.
    ensures reads { OnlyReads D.Disk disk.old disk.new }
    ensures device { IsErrOf result Fault.Device → D.failed disk.old < D.failed disk.new }
    // A failed call ends it, and no call is made twice.
    ensures stops { D.failed disk.old < D.failed disk.new → IsErrOf result Fault.Device }
    ensures calls { D.is_honest disk.new
        → D.calls disk.new ≤ D.calls disk.old + scan_calls (D.contents disk.old) }
    // A store without open slots takes no memory.
    ensures wanted { D.is_honest disk.new → result ≡ Err Fault.OutOfMemory
        → (slot : ℕ) × (is_open (file_at (D.contents disk.old) slot) ≡ true) }
{
    let Scanned {
        catalog,
        images,
        ..
    } = scan_store(alloc, disk)?;
    catalog.sound();
    let checkpoint = shown_checkpoint(alloc, &catalog)?;
    Ok(Report { checkpoint, images })
}
