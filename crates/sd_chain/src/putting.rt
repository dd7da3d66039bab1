//! Putting a place into a catalog.
ghost use Rattle.std.specs.Prelude.{◌≡◌, ◌↔◌, Option, None, Some, OnOk, OnErr, IsErrOf, IsSorted, IsTrue, nat_eq};
ghost use Rattle.std.specs.List.{IsDistinct};
ghost use Rattle.std.specs.Map.{keys_of};
ghost use Rattle.std.specs.Ordering.{nat_cmp};
ghost use Rattle.indexmap.specs.IndexMap.{spare};
ghost use Rattle.sd_chain.specs.declared.error.CatalogError.TheVariants.{DoubleSerial, OutOfMemory};
ghost use Rattle.sd_chain.specs.Catalog.{Changes, Opened, place_of};

use crate::choice::Places;
use crate::error::CatalogError;
use crate::image::OpenImage;
use std::alloc::AllocError;

/// Puts a place at its serial: in the order of the serials where the serial has none yet, or else in place of the one
/// that is there.
///
/// # Errors
///
/// Out of memory only where the serial has no place and no place is free. The places stay.
pub(crate) fn put_place(
    places: &mut Places,
    serial: u64,
    place: Option<OpenImage>,
) -> Result<(), AllocError>
    ensures changed { OnOk result (Changes places.old.entries places.new.entries serial (Some place)) }
    ensures distinct { IsDistinct nat_eq (keys_of places.new.entries) }
    ensures sorted { IsSorted nat_cmp (keys_of places.old.entries)
        → IsSorted nat_cmp (keys_of places.new.entries) }
    ensures absent { OnErr result (place_of places.old.entries serial ≡ None) }
    ensures full { OnErr result (spare places.old ≡ 0) }
    ensures err { OnErr result (places.new.entries ≡ places.old.entries) }
{
    places.insert_sorted(serial, place)?;
    Ok(())
}

/// Whether a serial has an open image.
fn has_image(places: &Places, serial: u64) -> bool
    ensures { IsTrue result
        ↔ ((i : Opened) × (place_of places.now.entries serial ≡ Some (Some i))) }
{
    match places.get(&serial) {
        Some(place) => place.is_some(),
        None => false,
    }
}

/// Puts an open image at a serial.
///
/// # Errors
///
/// `DoubleSerial` where an image with that serial is there. `OutOfMemory` only where the serial has no place and no
/// place is free. The places stay.
pub(crate) fn put_image(
    places: &mut Places,
    serial: u64,
    image: OpenImage,
) -> Result<(), CatalogError>
    ensures changed { OnOk result (Changes places.old.entries places.new.entries
        serial (Some (Some image))) }
    ensures distinct { IsDistinct nat_eq (keys_of places.old.entries)
        → IsDistinct nat_eq (keys_of places.new.entries) }
    ensures sorted { IsSorted nat_cmp (keys_of places.old.entries)
        → IsSorted nat_cmp (keys_of places.new.entries) }
    ensures double { IsErrOf result DoubleSerial
        ↔ ((i : Opened) × (place_of places.old.entries serial ≡ Some (Some i))) }
    ensures absent { IsErrOf result OutOfMemory
        → place_of places.old.entries serial ≡ None }
    ensures full { IsErrOf result OutOfMemory → spare places.old ≡ 0 }
    ensures err { OnErr result (places.new.entries ≡ places.old.entries) }
{
    if has_image(places, serial) {
        return Err(CatalogError::DoubleSerial);
    }
    put_place(places, serial, Some(image))?;
    Ok(())
}
