//! Laws about the catalog of a store's slots that the layers above use.
ghost use Rattle.sd_chain.specs.Recorded.{AddedImageIsRecorded, HeldPlacesRecordNothing, RemovedSlotIsUnrecorded};
ghost use Rattle.sd_chain.specs.Recorded.{RemovedSlotWasRecorded};
ghost use Rattle.sd_chain.specs.Laws.{ClosedSlotAddsNothing, EmptyCatalog, OpenSlotAddsItsImage};

/// The catalog of no slots has no images.
pub fn empty_catalog()
    ensures { EmptyCatalog }
{}

/// A closed slot after the others leaves the catalog as it is.
pub fn closed_slot()
    ensures { ClosedSlotAddsNothing }
{}

/// An open slot after the others, with a serial that no other has, adds its image: so slots are taken in by
/// [`crate::Catalog::add`], one after the other.
pub fn open_slot()
    ensures { OpenSlotAddsItsImage }
{}

/// Holding and releasing places leave the images of a catalog.
pub fn held_places_record_nothing()
    ensures { HeldPlacesRecordNothing }
{}

/// Adding an image to a catalog adds it to its images.
pub fn added_image_is_recorded()
    ensures { AddedImageIsRecorded }
{}

/// Removing a slot leaves the images that are in other slots.
pub fn removed_slot_is_unrecorded()
    ensures { RemovedSlotIsUnrecorded }
{}

/// Where the images of a slot that was removed are recorded by some images, these and those in other slots are the
/// catalog's before.
pub fn removed_slot_was_recorded()
    ensures { RemovedSlotWasRecorded }
{}
