//! Closing a slot, call by call.
ghost use Rattle.std.specs.Prelude.{◌≡◌, ◌≢◌, ℕ, ◌<◌, true, List, [], ◌∷◌, Option, length, slice_set, IfOk, OnOk};
ghost use Rattle.sd_areas.specs.PlainMemory.{PlainMemory};
ghost use Rattle.sd_disk.specs.Contents.{file_at};
ghost use Rattle.sd_disk.specs.Crash.{Only, OnlyAt, Within};
ghost use Rattle.sd_disk.specs.Failures.{HasCause};
ghost use Rattle.sd_disk.specs.Reads.{OnlyReads};
ghost use Rattle.sd_disk.specs.Spans.{LeavesOnly};
ghost use Rattle.sd_image.specs.Image.{is_open};
ghost use Rattle.sd_image.specs.Shows.{Shows};
ghost use Rattle.sd_drop.specs.Closing.{IsClosing, closed_at};

use sd_disk::{DeviceError, Disk, file_len, read_file};
use sd_image::{GATE, HEADER_SIZE};

/// Whether a slot is open: its file is as long as a header, and its first byte is an open gate.
pub(crate) fn is_slot_open<D: Disk>(disk: &mut D, slot: usize) -> Result<bool, DeviceError>
    requires { slot < length (D.contents disk.old) }
    ensures opens { D.is_honest disk.new
        → IfOk result (λ opens. opens ≡ is_open (file_at (D.contents disk.old) slot)) }
    ensures reads { OnlyReads D.Disk disk.old disk.new }
    ensures cause { HasCause (D.failed disk.old) (D.failed disk.new) result }
{
    let len = file_len(disk, slot)?;
    if len < HEADER_SIZE {
        return Ok(false);
    }
    let mut gate = [0u8; 1];
    read_file(disk, slot, 0, &mut gate)?;
    Ok(gate[0] == GATE)
}

/// Waits until a slot is on the device as it reads.
fn sync_slot<D: Disk>(disk: &mut D, slot: usize) -> Result<(), DeviceError>
    requires { slot < length (D.contents disk.old) }
    ensures durable { OnOk result
        (OnlyAt slot (file_at (D.contents disk.old) slot) (D.may_leave disk.new)) }
    ensures reads { OnlyReads D.Disk disk.old disk.new }
    ensures cause { HasCause (D.failed disk.old) (D.failed disk.new) result }
{
    disk.sync(slot)
}

/// Waits until every slot is on the device as it reads.
pub(crate) fn sync_all<D: Disk>(disk: &mut D) -> Result<(), DeviceError>
    ensures synced { OnOk result (Only (D.contents disk.old) (D.may_leave disk.new)) }
    ensures reads { OnlyReads D.Disk disk.old disk.new }
    ensures cause { HasCause (D.failed disk.old) (D.failed disk.new) result }
{
    for slot in 0..disk.slots() {
        sync_slot(disk, slot)?;
    }
    Ok(())
}

/// Closes an open slot as a merge retires an image: a 0 over its gate, a sync, and a cut to that byte; and a sync.
pub(crate) fn close<D: Disk>(disk: &mut D, slot: usize) -> Result<(), DeviceError>
    requires { slot < length (D.contents disk.old) }
    // Counted as closed it leaves the same at each moment.
    ensures counted { (shown : Option (ℕ × PlainMemory))
        → Within (D.may_leave disk.old) (λ c. Shows (closed_at c slot) shown)
        → LeavesOnly D.Disk disk.old disk.new (λ c. Shows (closed_at c slot) shown) }
    // A crash within it leaves the slot closed or as it was.
    ensures closing { Only (D.contents disk.old) (D.may_leave disk.old)
        → is_open (file_at (D.contents disk.old) slot) ≡ true
        → LeavesOnly D.Disk disk.old disk.new (IsClosing (D.contents disk.old) slot) }
    ensures closed { OnOk result (D.contents disk.new ≡ slice_set (D.contents disk.old) slot (0 ∷ [])) }
    ensures durable { OnOk result (OnlyAt slot (0 ∷ []) (D.may_leave disk.new)) }
    ensures others { (other : ℕ) → other ≢ slot
        → file_at (D.contents disk.new) other ≡ file_at (D.contents disk.old) other }
    ensures honest { D.is_honest disk.new → D.is_honest disk.old }
    ensures cause { HasCause (D.failed disk.old) (D.failed disk.new) result }
{
    disk.write_at(slot, 0, &[0])?;
    disk.sync(slot)?;
    disk.cut(slot, 1)?;
    disk.sync(slot)
}
