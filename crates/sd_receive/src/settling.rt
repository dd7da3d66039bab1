//! A store that is made ready for images.
ghost use Rattle.std.specs.Prelude.{◌≡◌, ℕ, ◌<◌, IfOk, OnOk, length};
ghost use Rattle.sd_disk.specs.Contents.{file_at};
ghost use Rattle.sd_disk.specs.Crash.{OnlyAt};
ghost use Rattle.sd_disk.specs.Failures.{HasCause};
ghost use Rattle.sd_disk.specs.Reads.{OnlyReads};
ghost use Rattle.sd_receive.specs.Arriving.{IsSettled};

use crate::arriving::sync;
use sd_disk::{DeviceError, Disk};
use sd_gate::all_found_fit;

/// Waits until every slot is on the device as it reads. Each is closed then, or has its image, whatever a crash leaves.
///
/// # Errors
///
/// Where a call of the device failed.
pub fn settle<D: Disk>(disk: &mut D) -> Result<(), DeviceError>
    ensures settled { OnOk result (IsSettled (D.contents disk.new) (D.may_leave disk.new)) }
    ensures reads { OnlyReads D.Disk disk.old disk.new }
    ensures cause { HasCause (D.failed disk.old) (D.failed disk.new) result }
{
    for slot in 0..disk.slots() {
        sync(disk, slot)?;
    }
    all_found_fit(disk);
    Ok(())
}
