//! What a stream that was cut off left in a store: pre-dumps of a checkpoint that didn't arrive.
ghost use Rattle.std.specs.Prelude.{◌≡◌, ℕ, List, Option};
ghost use Rattle.sd_areas.specs.PlainMemory.{PlainMemory};
ghost use Rattle.sd_disk.specs.Crash.{Within};
ghost use Rattle.sd_disk.specs.Spans.{LeavesOnly};
ghost use Rattle.sd_image.specs.Shows.{Shows};

use sd_chain::{Catalog, OpenImage};
use sd_disk::Disk;
use sd_drop::{DropError, drop_image};
use sd_image::Kind;
use sd_receive::ReceiveError;
use sd_restore::{Fault, scan};
use std::alloc::{AllocError, Global};

/// Whether an image is a pre-dump with a serial above this one.
fn is_left(image: &OpenImage, newest: u64) -> bool {
    image.header().kind == Kind::PreDump && image.header().serial > newest
}

/// The greatest serial of the dumps and merged images, or 0.
fn newest_dump(images: &[&OpenImage]) -> u64 {
    let mut newest = 0;
    for image in images {
        if image.header().kind != Kind::PreDump {
            newest = newest.max(image.header().serial);
        }
    }
    newest
}

/// The slots of the pre-dumps with serials above those of all dumps and merged images.
fn slots_left(alloc: Global, catalog: &Catalog) -> Result<Vec<usize>, AllocError> {
    let images = catalog.list()?;
    let newest = newest_dump(&images);
    let mut slots = Vec::new(alloc);
    for image in images.iter() {
        if is_left(image, newest) {
            slots.push(image.slot())?;
        }
    }
    Ok(slots)
}

/// Closes the image of a slot, where the newest checkpoint doesn't need it.
fn close<D: Disk>(alloc: Global, disk: &mut D, slot: usize) -> Result<(), ReceiveError>
    ensures keeps { D.is_honest disk.new → (shown : Option (ℕ × PlainMemory))
        → Shows (D.contents disk.old) shown → Within (D.may_leave disk.old) (λ c. Shows c shown)
        → LeavesOnly D.Disk disk.old disk.new (λ c. Shows c shown) }
    ensures honest { D.is_honest disk.new → D.is_honest disk.old }
{
    match drop_image(alloc, disk, slot, false) {
        Ok(()) | Err(DropError::Closed | DropError::Needed) => Ok(()),
        Err(DropError::Damaged { slot, reason }) => {
            Err(ReceiveError::Fault(Fault::Damaged { slot, reason }))
        }
        Err(DropError::Device) => Err(ReceiveError::Fault(Fault::Device)),
        Err(DropError::OutOfMemory) => Err(ReceiveError::Fault(Fault::OutOfMemory)),
    }
}

/// Closes the images of these slots, where the newest checkpoint doesn't need them.
fn close_all<D: Disk>(alloc: Global, disk: &mut D, slots: &[usize]) -> Result<(), ReceiveError>
    ensures keeps { D.is_honest disk.new → (shown : Option (ℕ × PlainMemory))
        → Shows (D.contents disk.old) shown → Within (D.may_leave disk.old) (λ c. Shows c shown)
        → LeavesOnly D.Disk disk.old disk.new (λ c. Shows c shown) }
    ensures honest { D.is_honest disk.new → D.is_honest disk.old }
{
    for slot in slots {
        close(alloc, disk, *slot)?;
    }
    Ok(())
}

/// Closes the pre-dumps with serials above those of all dumps and merged images: no checkpoint needs them.
pub(crate) fn close_leftovers<D: Disk>(alloc: Global, disk: &mut D) -> Result<(), ReceiveError>
    ensures keeps { D.is_honest disk.new → (shown : Option (ℕ × PlainMemory))
        → Shows (D.contents disk.old) shown → Within (D.may_leave disk.old) (λ c. Shows c shown)
        → LeavesOnly D.Disk disk.old disk.new (λ c. Shows c shown) }
    ensures honest { D.is_honest disk.new → D.is_honest disk.old }
{
    let catalog = scan(alloc, disk)?;
    let slots = slots_left(alloc, &catalog)?;
    close_all(alloc, disk, &slots)
}
