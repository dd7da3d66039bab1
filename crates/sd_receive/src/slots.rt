//! The slots of a catalog: one that is free, and an image that is added.
ghost use Rattle.std.specs.Prelude.{◌≡◌, ◌≢◌, ◌<◌, true, All, map, IfOk, IfSome, OnOk};
ghost use Rattle.std.specs.Borrow.{Bor};
ghost use Rattle.sd_image.specs.Table.{IsTable, listing_of};
ghost use Rattle.sd_chain.specs.Catalog.{Opened, images};
ghost use Rattle.sd_chain.specs.Ways.{AreImages};
ghost use Rattle.sd_receive.specs.Arrived.{AddsImage, opened_with};

use crate::arrived::Arrived;
use crate::receive_error::ReceiveError;
use sd_chain::{Catalog, CatalogError, OpenImage, PlacedTable};
use sd_image::Header;
use sd_restore::Fault;
use std::alloc::{AllocError, Global};

/// Whether none of these images stands in a slot.
fn is_free(images: &[&OpenImage], slot: usize) -> bool
    ensures { result ≡ true → All (λ (i : Bor Opened). i.now.slot ≢ slot) images.now }
{
    for image in images {
        if image.slot() == slot {
            return false;
        }
    }
    true
}

/// The first of so many slots in which no image of a catalog stands.
pub(crate) fn free_slot(catalog: &Catalog, slots: usize) -> Result<Option<usize>, AllocError>
    ensures slot { IfOk result (λ found. IfSome found (λ slot. slot < slots)) }
    ensures free { IfOk result (λ found. IfSome found (λ slot.
        All (λ (i : Opened). i.slot ≢ slot) (images catalog.now))) }
{
    let images = catalog.list()?;
    for slot in 0..slots {
        if is_free(&images, slot) {
            return Ok(Some(slot));
        }
    }
    Ok(None)
}

/// Adds an image that arrived to a catalog, and gives the bytes of its table back.
pub(crate) fn add(
    alloc: Global,
    catalog: &mut Catalog,
    slot: usize,
    header: Header,
    arrived: Arrived,
) -> Result<Vec<u8>, ReceiveError>
    ensures adds { OnOk result (AddsImage catalog.old catalog.new (opened_with slot header arrived)) }
    ensures images { AreImages catalog.old → header.parent < header.stands_for
        → IsTable header (map listing_of arrived.table.spaces.items) → OnOk result (AreImages catalog.new) }
    ensures bytes { IfOk result (λ bytes. bytes ≡ arrived.bytes) }
{
    let Arrived { bytes, table } = arrived;
    let placed = PlacedTable::new(alloc, table)?;
    match catalog.add(slot, header, placed) {
        Ok(()) => Ok(bytes),
        Err(CatalogError::DoubleSerial) => Err(ReceiveError::Serial(header.serial)),
        Err(CatalogError::OutOfMemory) => Err(ReceiveError::Fault(Fault::OutOfMemory)),
    }
}
