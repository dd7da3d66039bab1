//! The calls of a device by which a store is opened: they change nothing.
ghost use Rattle.std.specs.Prelude.{◌≡◌, ◌+◌, ◌<◌, length, OnOk, IfOk, slice_range};
ghost use Rattle.sd_disk.specs.Contents.{file_at};
ghost use Rattle.sd_disk.specs.Crash.{OnlyAt};
ghost use Rattle.sd_disk.specs.Failures.{HasCause};
ghost use Rattle.sd_disk.specs.Reads.{OnlyReads};
ghost use Rattle.sd_gate.specs.Laws.{found_phase};

use sd_disk::{DeviceError, Disk, file_len, read_file};
use sd_gate::Phase;
use sd_image::{GATE, HEADER_SIZE};

/// Waits until a slot's file is on the device as it reads.
pub(crate) fn sync_slot<D: Disk>(disk: &mut D, slot: usize) -> Result<(), DeviceError>
    requires { slot < length (D.contents disk.old) }
    ensures durable { OnOk result
        (OnlyAt slot (file_at (D.contents disk.old) slot) (D.may_leave disk.new)) }
    ensures reads { OnlyReads D.Disk disk.old disk.new }
    ensures cause { HasCause (D.failed disk.old) (D.failed disk.new) result }
{
    disk.sync(slot)
}

/// The phase that a slot's file shows, by its length and its first byte.
pub(crate) fn phase_in<D: Disk>(disk: &mut D, slot: usize) -> Result<Phase, DeviceError>
    requires { slot < length (D.contents disk.old) }
    ensures phase { D.is_honest disk.new
        → IfOk result (λ phase. phase ≡ found_phase (file_at (D.contents disk.old) slot)) }
    ensures reads { OnlyReads D.Disk disk.old disk.new }
    ensures cause { HasCause (D.failed disk.old) (D.failed disk.new) result }
{
    if file_len(disk, slot)? < HEADER_SIZE {
        return Ok(Phase::Raw);
    }
    let mut first = [0];
    read_file(disk, slot, 0, &mut first)?;
    Ok(if first[0] == GATE {
        Phase::Whole
    } else {
        Phase::Shut
    })
}
