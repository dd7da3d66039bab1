//! The memory that a store shows, before its pages are read.
ghost use Rattle.std.specs.Prelude.{◌≡◌, ◌≢◌, ◌+◌, ◌*◌, ◌<◌, ◌≤◌, ℕ, List, Some, None, All, length, map, slice_range};
ghost use Rattle.std.specs.Prelude.{Option, IfOk, IfErr, OnOk, IsErrOf};
ghost use Rattle.sd_areas.specs.Areas.{AreMaximal};
ghost use Rattle.sd_areas.specs.PlainMemory.{PlainMemory};
ghost use Rattle.sd_disk.specs.Reads.{OnlyReads};
ghost use Rattle.sd_image.specs.declared.table.SpaceTable.{SpaceTable};
ghost use Rattle.sd_image.specs.Shows.{Shows};
ghost use Rattle.sd_image.specs.Table.{listing_of};
ghost use Rattle.sd_chain.specs.Catalog.{IsTip, Opened, images};
ghost use Rattle.sd_chain.specs.Chains.{found_on};
ghost use Rattle.sd_chain.specs.Store.{IsCatalogOf, bytes_at};
ghost use Rattle.sd_chain.specs.Ways.{AreImages};
ghost use Rattle.sd_restore.specs.Faulty.{FaultNames, IsBrokenChain};
ghost use Rattle.sd_restore.specs.Placed.{IsInSlots, IsLaidOut, IsWithin, placed_memory, placed_pages};

use crate::chosen::place_image;
use crate::fault::Fault;
use crate::placed_run::PlacedRun;
use sd_areas::PAGE_SIZE;
use sd_chain::{Catalog, Found};
use sd_disk::{Disk, read_file};
use sd_image::{SpaceTable, one_store, tip_once};
use std::alloc::{AllocError, Global};

/// A memory whose pages stand in the slots of a store.
#[derive(Drop)]
pub struct PlacedMemory<'a> {
    pub checkpoint: u64,
    /// The living spaces with their areas, rising.
    pub spaces: &'a [SpaceTable],
    /// The mapped pages, rising by space and page.
    pub runs: Vec<PlacedRun>,
}

/// Where the memory lies that the newest dump or merged image of a catalog stands for. It makes the checks of
/// [`crate::restore_from`], and reads no page.
///
/// # Errors
///
/// As [`crate::restore_from`], but for `Device`.
pub fn place_newest<'a>(alloc: Global, catalog: &'a Catalog) -> Result<PlacedMemory<'a>, Fault>
    requires images { AreImages catalog.now }
    // Where it is the catalog of contents, the pages that lie there are the memory that these show.
    ensures shown { (contents : List (List ℕ)) → IsCatalogOf contents catalog.now
        → IfOk result (λ placed. Shows contents
        (Some (
          placed.checkpoint,
          placed_memory contents (map listing_of placed.spaces.now) (placed_pages placed.runs.items),
        ))) }
    // That memory has these spaces and areas, and these pages in them, all rising.
    ensures laid { (contents : List (List ℕ)) → IsCatalogOf contents catalog.now
        → IfOk result (λ placed. IsLaidOut contents (map listing_of placed.spaces.now)
        (placed_pages placed.runs.items)
        (placed_memory contents (map listing_of placed.spaces.now) (placed_pages placed.runs.items))) }
    ensures empty { (contents : List (List ℕ)) → IsCatalogOf contents catalog.now
        → IsErrOf result Fault.EmptyChain → Shows contents None }
    ensures broken { (contents : List (List ℕ)) → IsCatalogOf contents catalog.now
        → IfErr result (FaultNames (IsBrokenChain contents)) }
    // Contents that show something are never called damaged.
    ensures good { (contents : List (List ℕ)) (shown : Option (ℕ × PlainMemory)) → IsCatalogOf contents catalog.now
        → Shows contents shown → IfErr result (FaultNames (λ _ _. ⊥)) }
    ensures slots { (count : ℕ) → All (λ i. i.slot < count) (images catalog.now)
        → IfOk result (λ placed. All (λ r. IsInSlots count r.there) placed.runs.items) }
    ensures within { IfOk result (λ placed. All IsWithin placed.runs.items) }
    ensures areas { IfOk result (λ placed.
        All (λ (s : SpaceTable). AreMaximal None s.areas.items) placed.spaces.now) }
    ensures device { result ≢ Err Fault.Device }
    // An empty chain takes no memory.
    ensures wanted { result ≡ Err Fault.OutOfMemory → (tip : Opened) × IsTip catalog.now tip }
{
    one_store();
    tip_once();
    catalog.sound();
    let Some(tip) = catalog.tip() else {
        return Err(Fault::EmptyChain);
    };
    place_image(alloc, catalog, tip)
}

/// Reads the bytes of pages from one that lies there on: of as many as the buffer has room for. It makes one call.
///
/// # Errors
///
/// `Device` where the disk failed: the bytes may be anything.
pub fn read_placed_pages<D: Disk>(disk: &mut D, there: Found, bytes: &mut [u8]) -> Result<(), Fault>
    requires { IsInSlots (length (D.contents disk.old)) there }
    // Each whole page of the buffer has the bytes of its page.
    ensures bytes { D.is_honest disk.new → OnOk result ((k : ℕ)
        → 4096 * k + 4096 ≤ length bytes.old
        → slice_range bytes.new (4096 * k) (4096 * k + 4096)
        ≡ bytes_at (D.contents disk.old) (found_on there k)) }
    ensures unnamed { IfErr result (FaultNames (λ _ _. ⊥)) }
    ensures reads { OnlyReads D.Disk disk.old disk.new }
    ensures device { IsErrOf result Fault.Device → D.failed disk.old < D.failed disk.new }
    ensures calls { D.calls disk.new ≤ D.calls disk.old + 1 }
    ensures empty { result ≢ Err Fault.EmptyChain }
{
    match there {
        Found::Data { slot, offset } => read_file(disk, slot, offset as usize, bytes)?,
        Found::Zero => bytes.fill(0),
    }
    Ok(())
}

/// A buffer for so many pages, of zeros.
///
/// # Errors
///
/// Out of memory.
pub fn page_buffer(alloc: Global, pages: usize) -> Result<Vec<u8>, AllocError>
    requires some { 0 < pages }
    requires few { pages ≤ 1024 }
    ensures { IfOk result (λ buffer. 4096 ≤ length buffer.items) }
{
    vec![in alloc; 0u8; pages * PAGE_SIZE]
}
