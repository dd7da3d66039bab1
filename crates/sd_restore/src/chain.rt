//! Where the pages of an image lie in its chain.
ghost use Rattle.std.specs.Prelude.{◌≡◌, ◌≢◌, ◌+◌, ◌<◌, ◌≤◌, ◌^◌, ◌++◌, ℕ, List, length, Some, IfOk, IfErr, OnOk, All};
ghost use Rattle.std.specs.Prelude.{Contains, flat_map};
ghost use Rattle.sd_areas.specs.Areas.{AreMaximal, area_pages};
ghost use Rattle.sd_image.specs.Table.{listing_of};
ghost use Rattle.sd_chain.specs.Catalog.{IsDumpOrMerged, images, place_of};
ghost use Rattle.sd_chain.specs.Chains.{AreBelowLimit, IsChainOf, found_on};
ghost use Rattle.sd_chain.specs.Ways.{AreImages, BreaksBySerial, IsAbsent};
ghost use Rattle.sd_restore.specs.Mapped.{Mapped, area_mapped, space_mapped, mapped_pages};
ghost use Rattle.sd_restore.specs.Faulty.{FaultNames};
ghost use Rattle.sd_restore.specs.Placed.{ArePlaced, IsFoundAt, IsUnheld, IsWithin, MeetsBreak, placed_pages};

use crate::fault::Fault;
use crate::placed_run::PlacedRun;
use sd_areas::{Area, PageNo, SpaceId};
use sd_chain::{Catalog, Chain, Found, OpenImage, Trace};
use sd_image::{Reason, SpaceTable};
use std::alloc::Global;

/// Where the chain of an image has pages that lie one after the other.
#[derive(Clone, Copy)]
struct FoundPages {
    /// Where the first is.
    there: Found,
    /// How many pages.
    count: u64,
}

/// Where the chain of an image has pages that the image lists, from one on and at most so many, as far as they lie one
/// after the other.
fn find_pages(
    catalog: &Catalog,
    chain: &mut Chain<'_>,
    serial: u64,
    space: SpaceId,
    page: PageNo,
    count: u64,
) -> Result<FoundPages, Fault>
    requires images { AreImages catalog.now }
    requires chain { IsChainOf catalog.now serial chain.old }
    requires listed { IsAbsent catalog.now serial (space, page) → ⊥ }
    requires some { 0 < count }
    ensures some { IfOk result (λ found. 0 < found.count) }
    ensures within { IfOk result (λ found. found.count ≤ count) }
    ensures placed { IfOk result (λ found. (k : ℕ) → k < found.count
        → IsFoundAt catalog.now serial (space, page + k) (found_on found.there k)) }
    ensures below { IfOk result (λ found. AreBelowLimit found.there found.count) }
    ensures broken { IfErr result
        (FaultNames (λ slot reason. (reason ≡ Reason.Chain)
        × BreaksBySerial catalog.now serial (space, page) slot
        × IsUnheld catalog.now serial (space, page))) }
    ensures chain { chain.new ≡ chain.old }
    ensures empty { result ≢ Err Fault.EmptyChain }
    ensures device { result ≢ Err Fault.Device }
    ensures memory { result ≢ Err Fault.OutOfMemory }
{
    catalog.traced_is_held();
    let run = chain.trace(space, page, count);
    match run.trace {
        Trace::Found(there) => Ok(FoundPages {
            there,
            count: run.count,
        }),
        Trace::Broken { slot } => Err(Fault::Damaged {
            slot,
            reason: Reason::Chain,
        }),
        Trace::Absent => unreachable!(),
    }
}

/// Puts the pages of an area after the others.
fn place_area(
    catalog: &Catalog,
    chain: &mut Chain<'_>,
    serial: u64,
    space: SpaceId,
    area: &Area,
    runs: &mut Vec<PlacedRun>,
) -> Result<(), Fault>
    requires images { AreImages catalog.now }
    requires chain { IsChainOf catalog.now serial chain.old }
    requires within { area.now.first + area.now.count ≤ 2 ^ 35 }
    requires listed { (page : ℕ) → Contains (area_pages area.now) page
        → IsAbsent catalog.now serial (space, page) → ⊥ }
    ensures placed { OnOk result
        ((done : List Mapped) → ArePlaced catalog.now serial done (placed_pages runs.old.items)
        → ArePlaced catalog.now serial (done ++ area_mapped space area.now)
        (placed_pages runs.new.items)) }
    ensures broken { (done : List Mapped)
        → ArePlaced catalog.now serial done (placed_pages runs.old.items)
        → IfErr result (FaultNames
        (MeetsBreak catalog.now serial (done ++ area_mapped space area.now))) }
    ensures within { OnOk result (All IsWithin runs.old.items → All IsWithin runs.new.items) }
    ensures chain { chain.new ≡ chain.old }
    ensures empty { result ≢ Err Fault.EmptyChain }
    ensures device { result ≢ Err Fault.Device }
{
    let mut placed = 0;
    while placed < area.count {
        let first = PageNo::new(area.first.number() + placed).unwrap();
        let found = find_pages(catalog, chain, serial, space, first, area.count - placed)?;
        runs.push(PlacedRun {
            space,
            first,
            count: found.count,
            prot: area.prot,
            there: found.there,
        })?;
        placed += found.count;
    }
    Ok(())
}

/// Puts the pages of a space after the others.
fn place_space(
    catalog: &Catalog,
    chain: &mut Chain<'_>,
    serial: u64,
    space: &SpaceTable,
    runs: &mut Vec<PlacedRun>,
) -> Result<(), Fault>
    requires images { AreImages catalog.now }
    requires chain { IsChainOf catalog.now serial chain.old }
    requires maximal { AreMaximal None space.now.areas.items }
    requires listed { (page : ℕ) → Contains (flat_map area_pages space.now.areas.items) page
        → IsAbsent catalog.now serial (space.now.space, page) → ⊥ }
    ensures placed { OnOk result
        ((done : List Mapped) → ArePlaced catalog.now serial done (placed_pages runs.old.items)
        → ArePlaced catalog.now serial
        (done ++ space_mapped (listing_of space.now)) (placed_pages runs.new.items)) }
    ensures broken { (done : List Mapped)
        → ArePlaced catalog.now serial done (placed_pages runs.old.items)
        → IfErr result (FaultNames
        (MeetsBreak catalog.now serial (done ++ space_mapped (listing_of space.now)))) }
    ensures within { OnOk result (All IsWithin runs.old.items → All IsWithin runs.new.items) }
    ensures chain { chain.new ≡ chain.old }
    ensures empty { result ≢ Err Fault.EmptyChain }
    ensures device { result ≢ Err Fault.Device }
{
    for area in &space.areas {
        place_area(catalog, chain, serial, space.space, area, runs)?;
    }
    Ok(())
}

/// Where the mapped pages of a dump or merged image lie, rising by space and page. Its time grows with the runs of
/// pages that lie one after the other, each times the images that it is followed through, and not with the pages.
///
/// # Errors
///
/// `Damaged` names the slot of the image at which the chain of the first page breaks whose chain does. `OutOfMemory`
/// where the list finds no room.
pub fn place_pages(
    alloc: Global,
    catalog: &Catalog,
    image: &OpenImage,
) -> Result<Vec<PlacedRun>, Fault>
    requires images { AreImages catalog.now }
    requires own { place_of catalog.now image.now.header.serial ≡ Some (Some image.now) }
    requires member { Contains (images catalog.now) image.now }
    requires restored { IsDumpOrMerged image.now }
    ensures placed { IfOk result
        (λ runs. ArePlaced catalog.now image.now.header.serial
        (mapped_pages image.now.spaces) (placed_pages runs.items)) }
    ensures within { IfOk result (λ runs. All IsWithin runs.items) }
    ensures broken { IfErr result
        (FaultNames (MeetsBreak catalog.now image.now.header.serial (mapped_pages image.now.spaces))) }
    ensures empty { result ≢ Err Fault.EmptyChain }
    ensures device { result ≢ Err Fault.Device }
{
    let mut runs = Vec::new(alloc);
    let serial = image.header().serial;
    let mut chain = catalog.chain(serial)?;
    for space in &image.table().spaces {
        place_space(catalog, &mut chain, serial, space, &mut runs)?;
    }
    Ok(runs)
}
