//! Looking at a slot's file: calls that change nothing.
ghost use Rattle.std.specs.Prelude.{◌≡◌, ◌+◌, ◌<◌, ◌≤◌, length, IfOk, OnOk, slice_range};
ghost use Rattle.sd_disk.specs.Contents.{file_at};
ghost use Rattle.sd_disk.specs.Reads.{OnlyReads};
ghost use Rattle.sd_disk.specs.Failures.{HasCause};

use crate::disk::Disk;
use crate::error::DeviceError;

/// The length of a slot's file, in bytes.
///
/// # Errors
///
/// Where the call of the device failed.
pub fn file_len<D: Disk>(disk: &mut D, slot: usize) -> Result<usize, DeviceError>
    requires { slot < length (D.contents disk.old) }
    ensures length { D.is_honest disk.new
        → IfOk result (λ n. n ≡ length (file_at (D.contents disk.old) slot)) }
    ensures reads { OnlyReads D.Disk disk.old disk.new }
    ensures cause { HasCause (D.failed disk.old) (D.failed disk.new) result }
    ensures counted { D.calls disk.new ≡ D.calls disk.old + 1 }
{
    disk.len(slot)
}

/// Fills the buffer from a slot's file, from byte `at` on.
///
/// # Errors
///
/// Where the call of the device failed.
pub fn read_file<D: Disk>(
    disk: &mut D,
    slot: usize,
    at: usize,
    buffer: &mut [u8],
) -> Result<(), DeviceError>
    requires { slot < length (D.contents disk.old) }
    ensures bytes { D.is_honest disk.new
        → OnOk result (buffer.new
        ≡ slice_range (file_at (D.contents disk.old) slot) at (at + length buffer.old)) }
    ensures reads { OnlyReads D.Disk disk.old disk.new }
    ensures cause { HasCause (D.failed disk.old) (D.failed disk.new) result }
    ensures counted { D.calls disk.new ≡ D.calls disk.old + 1 }
{
    disk.read(slot, at, buffer)
}
