//! The memory of a store's newest checkpoint, copied into one image in a free slot.
ghost use Rattle.std.specs.Prelude.{◌≡◌, ◌≢◌, ◌<◌, ◌≤◌, ℕ, true, false, List, Option, Some, All, Contains};
ghost use Rattle.std.specs.Prelude.{length, map, IfOk, OnOk};
ghost use Rattle.sd_areas.specs.PlainMemory.{PlainMemory};
ghost use Rattle.sd_disk.specs.Contents.{file_at};
ghost use Rattle.sd_disk.specs.Spans.{LeavesOnly};
ghost use Rattle.sd_image.specs.Image.{is_open};
ghost use Rattle.sd_image.specs.Shows.{Shows};
ghost use Rattle.sd_image.specs.Table.{IsTable, Listed, listing_of};
ghost use Rattle.sd_chain.specs.Catalog.{Opened, images};
ghost use Rattle.sd_chain.specs.Store.{IsCatalogOf};
ghost use Rattle.sd_chain.specs.Ways.{AreImages};
ghost use Rattle.sd_gate.specs.Sequences.{IsBody};
ghost use Rattle.sd_restore.specs.Placed.{IsWithin, placed_memory, placed_pages};
ghost use Rattle.sd_receive.specs.Arrived.{IsReady};
ghost use Rattle.sd_receive.specs.Arriving.{KeepsImages};
ghost use Rattle.sd_receive.specs.Copies.{CopiesNewest, IsFoundAsCopied};
ghost use Rattle.sd_receive.specs.Merged.{IsElsewhere, pages_seen};

use crate::arrived::Arrived;
use crate::arriving::open_gate;
use crate::copying::{PAGE_LIMIT, copy_memory};
use crate::mapped::{MappedPage, are_same, pages_of};
use crate::receive_error::ReceiveError;
use crate::slots::add;
use crate::spelling::spell;
use sd_areas::SpaceId;
use sd_chain::{Catalog, Found};
use sd_disk::Disk;
use sd_image::{Header, SpaceTable, shown_once};
use sd_restore::{PlacedMemory, place_newest};
use std::alloc::{AllocError, Global};

/// A memory that was copied, with where its copies are.
#[derive(Drop)]
pub(crate) struct CopiedMemory {
    pub(crate) checkpoint: u64,
    pub(crate) spaces: Vec<SpaceId>,
    pub(crate) pages: Vec<MappedPage>,
}

/// An image of a copied memory, but for its gate.
#[derive(Drop)]
pub(crate) struct Merged {
    pub(crate) header: Header,
    pub(crate) arrived: Arrived,
    pub(crate) memory: CopiedMemory,
}

/// Whether these bytes are zeros, or lie in one of so many slots, and not in this one.
fn is_elsewhere(there: Found, slot: usize, slots: usize) -> bool
    ensures { result ≡ true → IsElsewhere slot slots there }
{
    match there {
        Found::Zero => true,
        Found::Data { slot: from, .. } => from != slot && from < slots,
    }
}

/// Whether pages aren't more than a memory has, and the bytes of each are zeros or lie in another slot.
fn are_elsewhere(pages: &[MappedPage], slot: usize, slots: usize) -> bool
    ensures few { result ≡ true → length pages.now ≤ 65536 }
    ensures elsewhere { result ≡ true → All (λ (p : MappedPage). IsElsewhere slot slots p.there) pages.now }
{
    for page in pages {
        if !is_elsewhere(page.there, slot, slots) {
            return false;
        }
    }
    pages.len() <= PAGE_LIMIT
}

/// The numbers of spaces.
fn numbers_of(alloc: Global, spaces: &[SpaceTable]) -> Result<Vec<SpaceId>, AllocError>
    ensures { IfOk result (λ numbers. numbers.items ≡ map (λ (s : SpaceTable). s.space) spaces.now) }
{
    let mut numbers = Vec::new(alloc);
    for listed in spaces {
        numbers.push(listed.space)?;
    }
    Ok(numbers)
}

/// The memory of a catalog's newest checkpoint, and its pages one by one, which lie in other slots of so many.
fn place_pages<'a>(
    alloc: Global,
    catalog: &'a Catalog,
    slot: usize,
    slots: usize,
) -> Result<(PlacedMemory<'a>, Vec<MappedPage>), ReceiveError>
    requires { AreImages catalog.now }
    ensures shown { (contents : List (List ℕ)) → IsCatalogOf contents catalog.now
        → IfOk result (λ placed. Shows contents (Some (
          placed.0.checkpoint,
          placed_memory contents (map listing_of placed.0.spaces.now) (pages_seen placed.1.items),
        ))) }
    ensures few { IfOk result (λ placed. length placed.1.items ≤ 65536) }
    ensures elsewhere { IfOk result (λ placed.
        All (λ (p : MappedPage). IsElsewhere slot slots p.there) placed.1.items) }
{
    let placed = place_newest(alloc, catalog)?;
    let pages = pages_of(alloc, &placed.runs)?;
    if !are_elsewhere(&pages, slot, slots) {
        return Err(ReceiveError::NoSlot);
    }
    Ok((placed, pages))
}

/// What is to be found of a copied memory: its checkpoint, its spaces, and the copies of its pages.
fn copied_memory(
    alloc: Global,
    placed: &PlacedMemory<'_>,
    pages: Vec<MappedPage>,
) -> Result<CopiedMemory, AllocError>
    ensures checkpoint { IfOk result (λ memory. memory.checkpoint ≡ placed.now.checkpoint) }
    ensures numbers { IfOk result (λ memory. memory.spaces.items
        ≡ map (λ (s : Listed). s.space) (map listing_of placed.now.spaces.now)) }
    ensures pages { IfOk result (λ memory. memory.pages ≡ pages) }
{
    let spaces = numbers_of(alloc, placed.spaces)?;
    Ok(CopiedMemory {
        checkpoint: placed.checkpoint,
        spaces,
        pages,
    })
}

/// Copies the memory of an image that is a catalog's newest into a closed slot, and makes the header and the table of
/// its image.
fn copy_newest<D: Disk>(
    alloc: Global,
    disk: &mut D,
    catalog: &Catalog,
    slot: usize,
    serial: u64,
) -> Result<Merged, ReceiveError>
    requires images { AreImages catalog.now }
    requires slot { slot < length (D.contents disk.old) }
    requires under { (j : Opened) → Contains (images catalog.now) j → j.header.serial < serial }
    ensures keeps { D.is_honest disk.new
        → IsReady (D.contents disk.old) (D.may_leave disk.old) catalog.now
        → is_open (file_at (D.contents disk.old) slot) ≡ false
        → LeavesOnly D.Disk disk.old disk.new (KeepsImages (D.contents disk.old)) }
    ensures copied { D.is_honest disk.new
        → IsReady (D.contents disk.old) (D.may_leave disk.old) catalog.now
        → is_open (file_at (D.contents disk.old) slot) ≡ false
        → IfOk result (CopiesNewest (D.contents disk.old) (D.contents disk.new) (D.may_leave disk.new) slot) }
    ensures falls { IfOk result (λ merged. merged.header.parent < merged.header.stands_for) }
    ensures table { IfOk result
        (λ merged. IsTable merged.header (map listing_of merged.arrived.table.spaces.items)) }
    ensures body { IfOk result (λ merged. IsBody merged.header merged.arrived.bytes.items) }
    ensures serial { IfOk result (λ merged. merged.header.serial ≡ serial) }
    ensures count { length (D.contents disk.new) ≡ length (D.contents disk.old) }
    ensures honest { D.is_honest disk.new → D.is_honest disk.old }
{
    catalog.sound();
    let Some(tip) = catalog.tip() else {
        return Err(ReceiveError::NoSlot);
    };
    let (placed, pages) = place_pages(alloc, catalog, slot, disk.slots())?;
    let copied = copy_memory(alloc, disk, slot, &pages)?;
    let (header, arrived) = spell(alloc, tip.header(), serial, placed.spaces, &copied)?;
    let memory = copied_memory(alloc, &placed, copied.pages)?;
    Ok(Merged {
        header,
        arrived,
        memory,
    })
}

/// Whether two lists of numbers are the same.
fn are_numbers(spaces: &[SpaceId], others: &[SpaceId]) -> bool
    ensures { result ≡ true → spaces.now ≡ others.now }
{
    if spaces.len() != others.len() {
        return false;
    }
    for place in 0..spaces.len() {
        if spaces[place].number() != others[place].number() {
            return false;
        }
    }
    true
}

/// Whether a memory is one that was copied, each page where its copy is.
fn is_copied(
    alloc: Global,
    placed: &PlacedMemory<'_>,
    memory: &CopiedMemory,
) -> Result<bool, AllocError>
    requires { All IsWithin placed.now.runs.items }
    ensures checkpoint { IfOk result (λ same. same ≡ true → placed.now.checkpoint ≡ memory.now.checkpoint) }
    ensures numbers { IfOk result (λ same. same ≡ true
        → map (λ (s : Listed). s.space) (map listing_of placed.now.spaces.now) ≡ memory.now.spaces.items) }
    ensures pages { IfOk result (λ same. same ≡ true
        → placed_pages placed.now.runs.items ≡ pages_seen memory.now.pages.items) }
{
    let spaces = numbers_of(alloc, placed.spaces)?;
    let pages = pages_of(alloc, &placed.runs)?;
    if placed.checkpoint != memory.checkpoint {
        return Ok(false);
    }
    if !are_numbers(&spaces, &memory.spaces) {
        return Ok(false);
    }
    Ok(are_same(&pages, &memory.pages))
}

/// Checks that the newest checkpoint of a catalog has the memory that was copied, where its copies are.
fn check_copy(alloc: Global, catalog: &Catalog, memory: &CopiedMemory) -> Result<(), ReceiveError>
    requires { AreImages catalog.now }
    ensures { (contents : List (List ℕ)) → IsCatalogOf contents catalog.now
        → OnOk result (IsFoundAsCopied contents memory.now) }
{
    let placed = place_newest(alloc, catalog)?;
    let is_copied = is_copied(alloc, &placed, memory)?;
    if is_copied {
        return Ok(());
    }
    Err(ReceiveError::LacksPages(memory.checkpoint))
}

/// Makes one image of a catalog's newest chain, in a free slot and with a serial above all others, and adds it.
pub(crate) fn merge_newest<D: Disk>(
    alloc: Global,
    disk: &mut D,
    catalog: &mut Catalog,
    slot: usize,
    serial: u64,
) -> Result<(), ReceiveError>
    requires images { AreImages catalog.old }
    requires slot { slot < length (D.contents disk.old) }
    requires free { All (λ (i : Opened). i.slot ≢ slot) (images catalog.old) }
    requires under { (j : Opened) → Contains (images catalog.old) j → j.header.serial < serial }
    // What is shown is shown at each moment.
    ensures keeps { D.is_honest disk.new
        → IsReady (D.contents disk.old) (D.may_leave disk.old) catalog.old
        → (shown : Option (ℕ × PlainMemory)) → Shows (D.contents disk.old) shown
        → LeavesOnly D.Disk disk.old disk.new (λ c. Shows c shown) }
    ensures ready { D.is_honest disk.new
        → IsReady (D.contents disk.old) (D.may_leave disk.old) catalog.old
        → OnOk result (IsReady (D.contents disk.new) (D.may_leave disk.new) catalog.new) }
    ensures images { OnOk result (AreImages catalog.new) }
    ensures honest { D.is_honest disk.new → D.is_honest disk.old }
{
    shown_once();
    catalog.sound();
    catalog.has_the_images();
    let merged = copy_newest(alloc, disk, catalog, slot, serial)?;
    let Merged {
        header,
        arrived,
        memory,
    } = merged;
    let bytes = add(alloc, catalog, slot, header, arrived)?;
    check_copy(alloc, catalog, &memory)?;
    open_gate(disk, slot, header, bytes)?;
    Ok(())
}
