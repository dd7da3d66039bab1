//! Dropping an image: closing it where the newest checkpoint doesn't need it.
ghost use Rattle.std.specs.Prelude.{◌≡◌, ◌≢◌, ◌⊎◌, ℕ, ◌<◌, true, false, [], ◌∷◌, Option, slice_set, length, OnOk};
ghost use Rattle.std.specs.Prelude.{IfErr, IsErrOf};
ghost use Rattle.sd_areas.specs.PlainMemory.{PlainMemory};
ghost use Rattle.sd_disk.specs.Contents.{file_at};
ghost use Rattle.sd_disk.specs.Crash.{Only, OnlyAt, Within};
ghost use Rattle.sd_disk.specs.Reads.{OnlyReads};
ghost use Rattle.sd_disk.specs.Spans.{LeavesOnly};
ghost use Rattle.sd_image.specs.Image.{is_open};
ghost use Rattle.sd_image.specs.Shows.{Shows};
ghost use Rattle.sd_drop.specs.Closing.{closed_at};
ghost use Rattle.sd_drop.specs.Errors.{ErrorSays};
ghost use Rattle.sd_drop.specs.Needed.{IsDamagedBeside, IsNeeded, IsUnneeded};

use crate::checking::check;
use crate::closing::{close, is_slot_open, sync_all};
use crate::drop_error::DropError;
use sd_disk::Disk;
use std::alloc::Global;

/// Checks that a slot has an open image.
fn check_open<D: Disk>(disk: &mut D, slot: usize) -> Result<(), DropError>
    ensures says { D.is_honest disk.new → IfErr result (ErrorSays
        (is_open (file_at (D.contents disk.old) slot) ≡ false) ⊥ (λ _ _. ⊥)) }
    ensures some { IfErr result (λ error. (error ≡ DropError.Closed) ⊎ (error ≡ DropError.Device)) }
    ensures slot { OnOk result (slot < length (D.contents disk.old)) }
    ensures opens { D.is_honest disk.new
        → OnOk result (is_open (file_at (D.contents disk.old) slot) ≡ true) }
    ensures closed { D.is_honest disk.new → is_open (file_at (D.contents disk.old) slot) ≡ false
        → IsErrOf result DropError.Closed ⊎ IsErrOf result DropError.Device }
    ensures reads { OnlyReads D.Disk disk.old disk.new }
    ensures device { IsErrOf result DropError.Device → D.failed disk.old < D.failed disk.new }
{
    if slot >= disk.slots() {
        return Err(DropError::Closed);
    }
    if !is_slot_open(disk, slot)? {
        return Err(DropError::Closed);
    }
    Ok(())
}

/// Checks that the newest checkpoint doesn't need the image of a slot, whether the image is damaged or not. It only
/// reads: [`drop_image`] would close the image where this is `Ok`.
///
/// # Errors
///
/// As [`drop_image`].
pub fn check_drop<D: Disk>(alloc: Global, disk: &mut D, slot: usize) -> Result<(), DropError>
    ensures says { D.is_honest disk.new → IfErr result (ErrorSays
        (is_open (file_at (D.contents disk.old) slot) ≡ false)
        (IsNeeded (D.contents disk.old) slot) (IsDamagedBeside (D.contents disk.old) slot)) }
    ensures slot { OnOk result (slot < length (D.contents disk.old)) }
    ensures opens { D.is_honest disk.new
        → OnOk result (is_open (file_at (D.contents disk.old) slot) ≡ true) }
    ensures closed { D.is_honest disk.new → is_open (file_at (D.contents disk.old) slot) ≡ false
        → IsErrOf result DropError.Closed ⊎ IsErrOf result DropError.Device }
    ensures unneeded { D.is_honest disk.new → OnOk result (IsUnneeded (D.contents disk.old) slot) }
    ensures reads { OnlyReads D.Disk disk.old disk.new }
    ensures device { IsErrOf result DropError.Device → D.failed disk.old < D.failed disk.new }
{
    check_open(disk, slot)?;
    check(alloc, disk, slot)
}

/// Makes the checks of [`drop_image`], and syncs each slot unless that is forced.
fn prepare<D: Disk>(alloc: Global, disk: &mut D, slot: usize, force: bool) -> Result<(), DropError>
    ensures says { D.is_honest disk.new → IfErr result (ErrorSays
        (is_open (file_at (D.contents disk.old) slot) ≡ false)
        (IsNeeded (D.contents disk.old) slot) (IsDamagedBeside (D.contents disk.old) slot)) }
    ensures forced { force ≡ true
        → IfErr result (λ error. (error ≡ DropError.Closed) ⊎ (error ≡ DropError.Device)) }
    ensures slot { OnOk result (slot < length (D.contents disk.old)) }
    ensures opens { D.is_honest disk.new
        → OnOk result (is_open (file_at (D.contents disk.old) slot) ≡ true) }
    ensures closed { D.is_honest disk.new → is_open (file_at (D.contents disk.old) slot) ≡ false
        → IsErrOf result DropError.Closed ⊎ IsErrOf result DropError.Device }
    ensures unneeded { D.is_honest disk.new → force ≡ false
        → OnOk result (IsUnneeded (D.contents disk.old) slot) }
    ensures synced { force ≡ false
        → OnOk result (Only (D.contents disk.old) (D.may_leave disk.new)) }
    ensures reads { OnlyReads D.Disk disk.old disk.new }
    ensures device { IsErrOf result DropError.Device → D.failed disk.old < D.failed disk.new }
{
    if force {
        return check_open(disk, slot);
    }
    check_drop(alloc, disk, slot)?;
    sync_all(disk)?;
    Ok(())
}

/// Closes the image of a slot, damaged or not, where the newest checkpoint doesn't need it: a 0 is written over the
/// gate and synced, and the file is cut to that byte and synced, as a merge retires an image. Before that each slot is
/// read, and synced. With `force` nothing else is asked than whether the slot is open.
///
/// # Errors
///
/// `Closed` where the slot has no open image, or isn't there. `Needed` where the newest dump or merged image stands
/// there, or leads there by parent numbers; of a damaged image, where the others show no memory. `Damaged` names
/// another slot for which the store isn't read: which images are needed isn't known then. `Device` and `OutOfMemory`
/// end it at once. But for `Device` the store is as it was.
pub fn drop_image<D: Disk>(
    alloc: Global,
    disk: &mut D,
    slot: usize,
    force: bool,
) -> Result<(), DropError>
    // What the store shows it shows at a crash at each moment, where it would at a crash before.
    ensures kept { D.is_honest disk.new → force ≡ false → (shown : Option (ℕ × PlainMemory))
        → Shows (D.contents disk.old) shown
        → Within (D.may_leave disk.old) (λ c. Shows c shown)
        → LeavesOnly D.Disk disk.old disk.new (λ c. Shows c shown) }
    // So it is, also of a damaged slot and where it is forced, of what it shows with the slot counted as closed.
    ensures counted { (shown : Option (ℕ × PlainMemory))
        → Within (D.may_leave disk.old) (λ c. Shows (closed_at c slot) shown)
        → LeavesOnly D.Disk disk.old disk.new (λ c. Shows (closed_at c slot) shown) }
    // At its end the store shows that by itself, and so it does after a crash.
    ensures shown { D.is_honest disk.new → force ≡ false → (shown : Option (ℕ × PlainMemory))
        → Shows (D.contents disk.old) shown ⊎ Shows (closed_at (D.contents disk.old) slot) shown
        → OnOk result (Within (D.may_leave disk.new) (λ c. Shows c shown)) }
    // The slot's file is one closed byte, also after a crash, and every other file stays.
    ensures dropped { OnOk result
        (D.contents disk.new ≡ slice_set (D.contents disk.old) slot (0 ∷ [])) }
    ensures durable { OnOk result (OnlyAt slot (0 ∷ []) (D.may_leave disk.new)) }
    ensures others { (other : ℕ) → other ≢ slot
        → file_at (D.contents disk.new) other ≡ file_at (D.contents disk.old) other }
    // Each error comes where its condition holds, and without force no image is closed where one does: the other slots
    // are a store then, and the image isn't needed.
    ensures says { D.is_honest disk.new → IfErr result (ErrorSays
        (is_open (file_at (D.contents disk.old) slot) ≡ false)
        (IsNeeded (D.contents disk.old) slot) (IsDamagedBeside (D.contents disk.old) slot)) }
    ensures opened { D.is_honest disk.new
        → OnOk result (is_open (file_at (D.contents disk.old) slot) ≡ true) }
    // A closed slot is reported before all else.
    ensures closed { D.is_honest disk.new → is_open (file_at (D.contents disk.old) slot) ≡ false
        → IsErrOf result DropError.Closed ⊎ IsErrOf result DropError.Device }
    ensures unneeded { D.is_honest disk.new → force ≡ false
        → OnOk result (IsUnneeded (D.contents disk.old) slot) }
    // With force it is refused for a closed slot alone.
    ensures forced { force ≡ true
        → IfErr result (λ error. (error ≡ DropError.Closed) ⊎ (error ≡ DropError.Device)) }
    // Where it is refused it only read: the contents stay, and no crash leaves more than one before it.
    ensures refused { IfErr result (λ error. error ≢ DropError.Device
        → OnlyReads D.Disk disk.old disk.new) }
    ensures device { IsErrOf result DropError.Device → D.failed disk.old < D.failed disk.new }
    ensures honest { D.is_honest disk.new → D.is_honest disk.old }
{
    prepare(alloc, disk, slot, force)?;
    close(disk, slot)?;
    Ok(())
}
