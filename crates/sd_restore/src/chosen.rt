//! The memory that one image of a catalog stands for.
ghost use Rattle.std.specs.Prelude.{◌≡◌, ◌≢◌, ◌+◌, ◌<◌, ◌≤◌, ℕ, List, Some, All, Contains, length, map, IfOk, IfErr};
ghost use Rattle.std.specs.Prelude.{IsErrOf};
ghost use Rattle.sd_areas.specs.Areas.{AreMaximal};
ghost use Rattle.sd_areas.specs.Memory.{memory_of};
ghost use Rattle.sd_disk.specs.Reads.{OnlyReads};
ghost use Rattle.sd_image.specs.declared.table.SpaceTable.{SpaceTable};
ghost use Rattle.sd_image.specs.Image.{Image};
ghost use Rattle.sd_image.specs.Table.{listing_of};
ghost use Rattle.sd_chain.specs.Catalog.{IsDumpOrMerged, images, place_of};
ghost use Rattle.sd_chain.specs.Store.{IsCatalogOf};
ghost use Rattle.sd_chain.specs.Ways.{AreImages};
ghost use Rattle.sd_restore.specs.At.{IsAmong, StandsFor};
ghost use Rattle.sd_restore.specs.Faulty.{FaultNames};
ghost use Rattle.sd_restore.specs.Mapped.{mapped_pages};
ghost use Rattle.sd_restore.specs.Placed.{IsInSlots, IsLaidOut, IsWithin, MeetsBreak, placed_memory, placed_pages};

use crate::chain::place_pages;
use crate::fault::Fault;
use crate::pages::{living_spaces, read_pages};
use crate::placing::PlacedMemory;
use sd_areas::{Snapshot, areas_law, one_list_law};
use sd_chain::{Catalog, OpenImage};
use sd_disk::Disk;
use std::alloc::Global;

/// The memory that a dump or merged image of a catalog stands for. It reads each data page of the result once.
///
/// # Errors
///
/// `Damaged` names, of the image's pages, rising by space and page, the first whose chain breaks, by the slot of the
/// image that has the page in its parent. `Device` and `OutOfMemory` end it at once.
pub fn restore_image<D: Disk>(
    alloc: Global,
    disk: &mut D,
    catalog: &Catalog,
    image: &OpenImage,
) -> Result<Snapshot, Fault>
    requires images { AreImages catalog.now }
    requires slots { All (λ i. i.slot < length (D.contents disk.old)) (images catalog.now) }
    requires own { place_of catalog.now image.now.header.serial ≡ Some (Some image.now) }
    requires member { Contains (images catalog.now) image.now }
    requires restored { IsDumpOrMerged image.now }
    ensures checkpoint { IfOk result (λ snapshot. snapshot.checkpoint ≡ image.now.header.checkpoint) }
    // Where it is the catalog of the contents, what is restored is what the image stands for.
    ensures memory { D.is_honest disk.new → IsCatalogOf (D.contents disk.old) catalog.now
        → IfOk result (λ snapshot. StandsFor (D.contents disk.old) image.now (memory_of snapshot)) }
    ensures broken { IfErr result (FaultNames
        (MeetsBreak catalog.now image.now.header.serial (mapped_pages image.now.spaces))) }
    ensures reads { OnlyReads D.Disk disk.old disk.new }
    ensures device { IsErrOf result Fault.Device → D.failed disk.old < D.failed disk.new }
    // A failed call ends it, and each page is read at most once.
    ensures stops { D.failed disk.old < D.failed disk.new → IsErrOf result Fault.Device }
    ensures calls { D.calls disk.new ≤ D.calls disk.old + length (mapped_pages image.now.spaces) }
    ensures empty { result ≢ Err Fault.EmptyChain }
{
    let runs = place_pages(alloc, catalog, image)?;
    let mut snapshot = living_spaces(alloc, image)?;
    read_pages(alloc, disk, &runs, &mut snapshot)?;
    Ok(snapshot)
}

/// Where the memory lies that a dump or merged image of a catalog stands for. It makes the checks of
/// [`restore_image`], and reads no page.
///
/// # Errors
///
/// As [`restore_image`], but for `Device`.
pub fn place_image<'a>(
    alloc: Global,
    catalog: &'a Catalog,
    image: &'a OpenImage,
) -> Result<PlacedMemory<'a>, Fault>
    requires images { AreImages catalog.now }
    requires own { place_of catalog.now image.now.header.serial ≡ Some (Some image.now) }
    requires member { Contains (images catalog.now) image.now }
    requires restored { IsDumpOrMerged image.now }
    ensures checkpoint { IfOk result (λ placed. placed.checkpoint ≡ image.now.header.checkpoint) }
    // Where it is the catalog of contents, the pages that lie there are the memory that the image stands for.
    ensures memory { (contents : List (List ℕ)) → IsCatalogOf contents catalog.now
        → IfOk result (λ placed. StandsFor contents image.now
        (placed_memory contents (map listing_of placed.spaces.now) (placed_pages placed.runs.items))) }
    // That memory has these spaces and areas, and these pages in them, all rising.
    ensures laid { (contents : List (List ℕ)) (all : List Image) (i : Image) → IsCatalogOf contents catalog.now
        → IsAmong contents all image.now i
        → IfOk result (λ placed. IsLaidOut contents (map listing_of placed.spaces.now)
        (placed_pages placed.runs.items)
        (placed_memory contents (map listing_of placed.spaces.now) (placed_pages placed.runs.items))) }
    ensures broken { IfErr result (FaultNames
        (MeetsBreak catalog.now image.now.header.serial (mapped_pages image.now.spaces))) }
    ensures slots { (count : ℕ) → All (λ i. i.slot < count) (images catalog.now)
        → IfOk result (λ placed. All (λ r. IsInSlots count r.there) placed.runs.items) }
    ensures within { IfOk result (λ placed. All IsWithin placed.runs.items) }
    ensures areas { IfOk result (λ placed.
        All (λ (s : SpaceTable). AreMaximal None s.areas.items) placed.spaces.now) }
    ensures device { result ≢ Err Fault.Device }
    ensures empty { result ≢ Err Fault.EmptyChain }
{
    areas_law();
    one_list_law();
    let runs = place_pages(alloc, catalog, image)?;
    Ok(PlacedMemory {
        checkpoint: image.header().checkpoint,
        spaces: image.table().spaces.as_slice(),
        runs,
    })
}
