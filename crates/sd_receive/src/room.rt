//! Room for the images that a stream still has.
ghost use Rattle.std.specs.Prelude.{◌≡◌, ◌≢◌, ◌<◌, ℕ, List, Option, All, Contains, IfOk, IfSome, OnOk, length};
ghost use Rattle.sd_areas.specs.PlainMemory.{PlainMemory};
ghost use Rattle.sd_disk.specs.Spans.{LeavesOnly};
ghost use Rattle.sd_image.specs.Shows.{Shows};
ghost use Rattle.sd_chain.specs.Catalog.{Opened, images};
ghost use Rattle.sd_chain.specs.Ways.{AreImages};
ghost use Rattle.sd_receive.specs.Arrived.{IsReady};

use crate::closing::close_unneeded;
use crate::merging::merge_newest;
use crate::receive_error::ReceiveError;
use crate::slots::free_slot;
use sd_chain::Catalog;
use sd_disk::Disk;
use std::alloc::{AllocError, Global};

/// The serial of a catalog's newest dump or merged image, or 0.
fn newest_serial(catalog: &Catalog) -> u64 {
    match catalog.tip() {
        Some(tip) => tip.header().serial,
        None => 0,
    }
}

/// The slot and the serial for a merge of a catalog's newest chain, before the image with the next serial. There is
/// none where no serial is free before that, as one is where its sender merged. Nor is there one after a pre-dump: a
/// sender that begins anew sends that again, by its serial. Nor while less than half of so many slots have an image, so
/// that old checkpoints stay; nor where no slot is free.
fn merge_place(
    catalog: &Catalog,
    next: u64,
    slots: usize,
) -> Result<Option<(usize, u64)>, AllocError>
    ensures slot { IfOk result (λ found. IfSome found (λ place. place.0 < slots)) }
    ensures free { IfOk result (λ found. IfSome found (λ place.
        All (λ (i : Opened). i.slot ≢ place.0) (images catalog.now))) }
    ensures under { IfOk result (λ found. IfSome found (λ place.
        (j : Opened) → Contains (images catalog.now) j → j.header.serial < place.1)) }
{
    let greatest = catalog.greatest_serial();
    if next <= greatest || next - greatest == 1 || newest_serial(catalog) != greatest {
        return Ok(None);
    }
    if greatest == 0 || catalog.list()?.len() < slots / 2 {
        return Ok(None);
    }
    match free_slot(catalog, slots)? {
        Some(slot) => Ok(Some((slot, greatest + 1))),
        None => Ok(None),
    }
}

/// Makes one image of a catalog's newest chain, in this slot, and closes the images that it takes the place of.
fn merge<D: Disk>(
    alloc: Global,
    disk: &mut D,
    catalog: &mut Catalog,
    slot: usize,
    serial: u64,
) -> Result<(), ReceiveError>
    requires images { AreImages catalog.old }
    requires slot { slot < length (D.contents disk.old) }
    requires free { All (λ (i : Opened). i.slot ≢ slot) (images catalog.old) }
    requires under { (j : Opened) → Contains (images catalog.old) j → j.header.serial < serial }
    ensures keeps { D.is_honest disk.new
        → IsReady (D.contents disk.old) (D.may_leave disk.old) catalog.old
        → (shown : Option (ℕ × PlainMemory)) → Shows (D.contents disk.old) shown
        → LeavesOnly D.Disk disk.old disk.new (λ c. Shows c shown) }
    ensures ready { D.is_honest disk.new
        → IsReady (D.contents disk.old) (D.may_leave disk.old) catalog.old
        → OnOk result (IsReady (D.contents disk.new) (D.may_leave disk.new) catalog.new) }
    ensures images { OnOk result (AreImages catalog.new) }
    ensures honest { D.is_honest disk.new → D.is_honest disk.old }
{
    let newest = newest_serial(catalog);
    merge_newest(alloc, disk, catalog, slot, serial)?;
    close_unneeded(alloc, disk, catalog, newest)
}

/// Where no slot is free, closes the images that the newest checkpoint doesn't need.
fn close_if_full<D: Disk>(
    alloc: Global,
    disk: &mut D,
    catalog: &mut Catalog,
) -> Result<(), ReceiveError>
    requires { AreImages catalog.old }
    ensures keeps { D.is_honest disk.new
        → IsReady (D.contents disk.old) (D.may_leave disk.old) catalog.old
        → (shown : Option (ℕ × PlainMemory)) → Shows (D.contents disk.old) shown
        → LeavesOnly D.Disk disk.old disk.new (λ c. Shows c shown) }
    ensures ready { D.is_honest disk.new
        → IsReady (D.contents disk.old) (D.may_leave disk.old) catalog.old
        → OnOk result (IsReady (D.contents disk.new) (D.may_leave disk.new) catalog.new) }
    ensures images { OnOk result (AreImages catalog.new) }
    ensures honest { D.is_honest disk.new → D.is_honest disk.old }
{
    let free = free_slot(catalog, disk.slots())?;
    match free {
        Some(_) => Ok(()),
        None => {
            let newest = newest_serial(catalog);
            close_unneeded(alloc, disk, catalog, newest)
        }
    }
}

/// Makes room before the image with this serial. Where a serial is free before it, since its sender merged there, and
/// few slots are free, the newest chain is merged; where no slot is free, images that nobody needs are closed.
pub(crate) fn make_room<D: Disk>(
    alloc: Global,
    disk: &mut D,
    catalog: &mut Catalog,
    next: u64,
) -> Result<(), ReceiveError>
    requires { AreImages catalog.old }
    ensures keeps { D.is_honest disk.new
        → IsReady (D.contents disk.old) (D.may_leave disk.old) catalog.old
        → (shown : Option (ℕ × PlainMemory)) → Shows (D.contents disk.old) shown
        → LeavesOnly D.Disk disk.old disk.new (λ c. Shows c shown) }
    ensures ready { D.is_honest disk.new
        → IsReady (D.contents disk.old) (D.may_leave disk.old) catalog.old
        → OnOk result (IsReady (D.contents disk.new) (D.may_leave disk.new) catalog.new) }
    ensures images { OnOk result (AreImages catalog.new) }
    ensures honest { D.is_honest disk.new → D.is_honest disk.old }
{
    let place = merge_place(catalog, next, disk.slots())?;
    match place {
        Some((slot, serial)) => merge(alloc, disk, catalog, slot, serial),
        None => close_if_full(alloc, disk, catalog),
    }
}
