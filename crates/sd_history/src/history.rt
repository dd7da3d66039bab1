//! The history of a store, in numbers.
ghost use Rattle.std.specs.Prelude.{◌≡◌, ◌≢◌, ℕ, List, map, IfOk, IfErr};
ghost use Rattle.sd_chain.specs.Store.{IsCatalogOf};
ghost use Rattle.sd_chain.specs.Ways.{AreImages};
ghost use Rattle.sd_history.specs.Restorable.{AreRestorable};

use crate::going_back::restorable;
use sd_chain::{Catalog, OpenImage};
use sd_image::{Header, Kind, SpaceTable};
use sd_restore::Fault;
use std::alloc::{AllocError, Global};

/// A checkpoint to which a store goes back.
#[derive(Clone, Copy)]
pub struct Past {
    /// The number of the checkpoint.
    pub number: u64,
    /// The slot of its image.
    pub slot: usize,
    /// The serial of its image.
    pub serial: u64,
    /// How many images it needs: its own, and those to which its parent numbers lead.
    pub images: usize,
    /// How many mapped pages it has.
    pub pages: u64,
    /// How many bytes the files have that no other of these checkpoints needs.
    pub own_bytes: u64,
}

/// An image that none of these checkpoints needs.
#[derive(Clone, Copy)]
pub struct Spare {
    pub slot: usize,
    pub kind: Kind,
    pub serial: u64,
    pub checkpoint: u64,
}

/// What a store still has of its past.
#[derive(Drop)]
pub struct History {
    /// The checkpoints to which it goes back, newest first.
    pub past: Vec<Past>,
    /// The images that none of these needs, rising by serial.
    pub spare: Vec<Spare>,
    /// The checkpoint that the store shows, if it shows one.
    pub newest: Option<u64>,
}

/// How many bytes the file of an image has.
fn file_bytes(header: &Header) -> u64 {
    let pages = header.pages.saturating_mul(4096);
    pages.saturating_add(header.table_len).saturating_add(4096)
}

/// How many mapped pages spaces have.
fn mapped_pages(spaces: &[SpaceTable]) -> u64 {
    let mut pages: u64 = 0;
    for space in spaces {
        for area in &space.areas {
            pages = pages.saturating_add(area.count);
        }
    }
    pages
}

/// The serials of the images that a checkpoint needs.
fn needed(alloc: Global, catalog: &Catalog, number: u64) -> Result<Vec<u64>, AllocError> {
    match catalog.of_checkpoint(number) {
        Some(image) => catalog.reachable(image.header().serial),
        None => Ok(Vec::new(alloc)),
    }
}

/// The bytes of the images of one list that none of the others has.
fn own_bytes(catalog: &Catalog, needs: &[Vec<u64>], own: usize) -> u64 {
    let mut bytes: u64 = 0;
    let Some(list) = needs.get(own) else {
        return bytes;
    };
    for serial in list {
        if is_needed(needs, Some(own), *serial) {
            continue;
        }
        if let Some(image) = catalog.image(*serial) {
            bytes = bytes.saturating_add(file_bytes(image.header()));
        }
    }
    bytes
}

/// Whether one of these lists, but for one, has a serial.
fn is_needed(needs: &[Vec<u64>], but: Option<usize>, serial: u64) -> bool {
    for place in 0..needs.len() {
        if but != Some(place) && needs[place].contains(&serial) {
            return true;
        }
    }
    false
}

/// What is said of a checkpoint.
fn past_of(catalog: &Catalog, number: u64, needs: &[Vec<u64>], place: usize) -> Past
    ensures { result.number ≡ number }
{
    let (slot, serial, pages) = match catalog.of_checkpoint(number) {
        Some(image) => place_of(image),
        None => (0, 0, 0),
    };
    let images = match needs.get(place) {
        Some(list) => list.len(),
        None => 0,
    };
    Past {
        number,
        slot,
        serial,
        images,
        pages,
        own_bytes: own_bytes(catalog, needs, place),
    }
}

/// The slot, the serial and the pages of an image.
fn place_of(image: &OpenImage) -> (usize, u64, u64) {
    let serial = image.header().serial;
    (image.slot(), serial, mapped_pages(&image.table().spaces))
}

/// What is said of the checkpoints.
fn all_past(
    alloc: Global,
    catalog: &Catalog,
    numbers: &[u64],
    needs: &[Vec<u64>],
) -> Result<Vec<Past>, AllocError>
    ensures { IfOk result (λ past. map (λ p. p.number) past.items ≡ numbers.now) }
{
    let mut past = Vec::new(alloc);
    for place in 0..numbers.len() {
        past.push(past_of(catalog, numbers[place], needs, place))?;
    }
    Ok(past)
}

/// The serials that each checkpoint needs.
fn all_needed(
    alloc: Global,
    catalog: &Catalog,
    numbers: &[u64],
) -> Result<Vec<Vec<u64>>, AllocError> {
    let mut needs = Vec::new(alloc);
    for number in numbers {
        needs.push(needed(alloc, catalog, *number)?)?;
    }
    Ok(needs)
}

/// The images that none of the checkpoints needs.
fn spare_of(
    alloc: Global,
    catalog: &Catalog,
    needs: &[Vec<u64>],
) -> Result<Vec<Spare>, AllocError> {
    let mut spare = Vec::new(alloc);
    for image in &catalog.list()? {
        let header = image.header();
        if !is_needed(needs, None, header.serial) {
            spare.push(Spare {
                slot: image.slot(),
                kind: header.kind,
                serial: header.serial,
                checkpoint: header.checkpoint,
            })?;
        }
    }
    Ok(spare)
}

/// What a store with this catalog still has of its past. It reads no page.
///
/// # Errors
///
/// `OutOfMemory` alone.
pub fn history_of(alloc: Global, catalog: &Catalog) -> Result<History, Fault>
    requires { AreImages catalog.now }
    // Where it is the catalog of contents, these are exactly the checkpoints at which they have a memory.
    ensures exact { (contents : List (List ℕ)) → IsCatalogOf contents catalog.now
        → IfOk result (λ h. AreRestorable contents (map (λ p. p.number) h.past.items)) }
    ensures device { result ≢ Err Fault.Device }
    ensures empty { result ≢ Err Fault.EmptyChain }
{
    let numbers = restorable(alloc, catalog)?;
    let needs = all_needed(alloc, catalog, &numbers)?;
    let past = all_past(alloc, catalog, &numbers, &needs)?;
    let spare = spare_of(alloc, catalog, &needs)?;
    let newest = sd_restore::newest_checkpoint(catalog);
    Ok(History {
        past,
        spare,
        newest,
    })
}
