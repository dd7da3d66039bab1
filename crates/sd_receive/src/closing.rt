//! Images that the newest checkpoint doesn't need any more, closed one after the other.
ghost use Rattle.std.specs.Prelude.{◌≡◌, ◌⊎◌, ◌<◌, true, false, ℕ, List, Option, IfSome, OnOk, length};
ghost use Rattle.sd_areas.specs.PlainMemory.{PlainMemory};
ghost use Rattle.sd_disk.specs.Contents.{file_at};
ghost use Rattle.sd_disk.specs.Spans.{LeavesOnly};
ghost use Rattle.sd_image.specs.Image.{is_open};
ghost use Rattle.sd_image.specs.Shows.{Shows};
ghost use Rattle.sd_chain.specs.Catalog.{IsSoundCatalog, place_of, without_slot};
ghost use Rattle.sd_chain.specs.Ways.{AreImages};
ghost use Rattle.sd_drop.specs.Closing.{closed_at};
ghost use Rattle.sd_drop.specs.Reached.{IsReachedIn};
ghost use Rattle.sd_receive.specs.Arrived.{IsReady};
ghost use Rattle.sd_receive.specs.Arriving.{IsSettled, KeepsImages};
ghost use Rattle.sd_receive.specs.Copies.{IsUnneededAt};

use crate::plans::run;
use crate::receive_error::ReceiveError;
use sd_chain::Catalog;
use sd_disk::{DeviceError, Disk};
use sd_drop::is_reached;
use sd_gate::{Plan, plans_take};
use std::alloc::{AllocError, Global};

/// Whether the newest checkpoint of a catalog doesn't need what stands in a slot.
fn is_unneeded(catalog: &Catalog, slot: usize) -> bool
    requires { AreImages catalog.now }
    ensures { result ≡ true → IsReachedIn catalog.now slot → ⊥ }
{
    !is_reached(catalog, slot)
}

/// The slot of the image with a serial, where it is one of so many and the newest checkpoint doesn't need the image.
fn unneeded_slot(catalog: &Catalog, serial: u64, slots: usize) -> Option<usize>
    requires { AreImages catalog.now }
    ensures slot { IfSome result (λ slot. slot < slots) }
    ensures unneeded { IfSome result (IsUnneededAt catalog.now) }
{
    catalog.sound();
    let image = catalog.image(serial)?;
    let slot = image.slot();
    if slot < slots && is_unneeded(catalog, slot) {
        return Some(slot);
    }
    None
}

/// Closes a slot that has an image.
fn close<D: Disk>(disk: &mut D, slot: usize) -> Result<(), DeviceError>
    requires { slot < length (D.contents disk.old) }
    // A crash within it leaves the image, or none, and all others.
    ensures leaves { IsSettled (D.contents disk.old) (D.may_leave disk.old)
        → is_open (file_at (D.contents disk.old) slot) ≡ true
        → LeavesOnly D.Disk disk.old disk.new (λ c. KeepsImages (D.contents disk.old) c
        ⊎ KeepsImages (closed_at (D.contents disk.old) slot) c) }
    ensures closed { IsSettled (D.contents disk.old) (D.may_leave disk.old)
        → is_open (file_at (D.contents disk.old) slot) ≡ true
        → OnOk result (IsSettled (D.contents disk.new) (D.may_leave disk.new)
        × (is_open (file_at (D.contents disk.new) slot) ≡ false)) }
    ensures honest { D.is_honest disk.new → D.is_honest disk.old }
{
    plans_take();
    run(disk, Plan::retire(slot))?;
    Ok(())
}

/// A law: what is so of every catalog.
fn is_sound(catalog: &Catalog)
    ensures { IsSoundCatalog catalog.now }
{
    catalog.sound();
}

/// Removes the image of a slot from a catalog.
fn remove(catalog: &mut Catalog, slot: usize)
    ensures removes { (serial : ℕ) → place_of catalog.new serial ≡ without_slot slot (place_of catalog.old serial) }
    ensures images { AreImages catalog.old → AreImages catalog.new }
{
    is_sound(catalog);
    catalog.remove(slot);
    catalog.sound();
}

/// Closes the image with a serial, unless the newest checkpoint needs it.
fn close_image<D: Disk>(
    disk: &mut D,
    catalog: &mut Catalog,
    serial: u64,
) -> Result<(), ReceiveError>
    requires { AreImages catalog.old }
    ensures keeps { D.is_honest disk.new
        → IsReady (D.contents disk.old) (D.may_leave disk.old) catalog.old
        → (shown : Option (ℕ × PlainMemory)) → Shows (D.contents disk.old) shown
        → LeavesOnly D.Disk disk.old disk.new (λ c. Shows c shown) }
    ensures ready { D.is_honest disk.new
        → IsReady (D.contents disk.old) (D.may_leave disk.old) catalog.old
        → OnOk result (IsReady (D.contents disk.new) (D.may_leave disk.new) catalog.new) }
    ensures images { OnOk result (AreImages catalog.new) }
    ensures honest { D.is_honest disk.new → D.is_honest disk.old }
{
    catalog.sound();
    catalog.has_the_images();
    let Some(slot) = unneeded_slot(catalog, serial, disk.slots()) else {
        return Ok(());
    };
    close(disk, slot)?;
    remove(catalog, slot);
    Ok(())
}

/// The serials of a catalog's images, up to this one.
fn serials_up_to(alloc: Global, catalog: &Catalog, newest: u64) -> Result<Vec<u64>, AllocError> {
    let mut serials = Vec::new(alloc);
    for image in catalog.list()?.iter() {
        if image.header().serial <= newest {
            serials.push(image.header().serial)?;
        }
    }
    Ok(serials)
}

/// Closes the images with serials up to this one that the newest checkpoint doesn't need.
pub(crate) fn close_unneeded<D: Disk>(
    alloc: Global,
    disk: &mut D,
    catalog: &mut Catalog,
    newest: u64,
) -> Result<(), ReceiveError>
    requires { AreImages catalog.old }
    ensures keeps { D.is_honest disk.new
        → IsReady (D.contents disk.old) (D.may_leave disk.old) catalog.old
        → (shown : Option (ℕ × PlainMemory)) → Shows (D.contents disk.old) shown
        → LeavesOnly D.Disk disk.old disk.new (λ c. Shows c shown) }
    ensures ready { D.is_honest disk.new
        → IsReady (D.contents disk.old) (D.may_leave disk.old) catalog.old
        → OnOk result (IsReady (D.contents disk.new) (D.may_leave disk.new) catalog.new) }
    ensures images { OnOk result (AreImages catalog.new) }
    ensures honest { D.is_honest disk.new → D.is_honest disk.old }
{
    let serials = serials_up_to(alloc, catalog, newest)?;
    for serial in serials.iter() {
        close_image(disk, catalog, *serial)?;
    }
    Ok(())
}
