//! The digest of a slot's file.
ghost use Rattle.std.specs.Prelude.{◌≡◌, ◌+◌, ◌-◌, ◌<◌, ◌≤◌, ◌++◌, ℕ, List, length, drop, IfOk, OnOk, slice_range};
ghost use Rattle.std.specs.Prelude.{IsErrOf};
ghost use Rattle.sd_disk.specs.Contents.{file_at};
ghost use Rattle.sd_disk.specs.Failures.{HasCause};
ghost use Rattle.sd_disk.specs.Reads.{OnlyReads};
ghost use Rattle.sd_image.specs.Reading.{digest_of_file};
ghost use Rattle.sha2.specs.Hashers.{Holds256};
ghost use Rattle.sd_show.specs.declared.stop.Stop.TheVariants as stop;

use crate::stop::Stop;
use sd_areas::PAGE_SIZE;
use sd_disk::{DeviceError, Disk, read_file};
use sd_image::HEADER_SIZE;
use sha2::{Digest, Sha256};
use std::alloc::Global;

/// How many bytes one call reads, at most: 16 pages.
const BYTES_AT_ONCE: usize = 16 * PAGE_SIZE;

/// Reads bytes of a slot's file from a place on, as many as the buffer has room for, and gives them to a hasher.
fn feed_next<D: Disk>(
    disk: &mut D,
    slot: usize,
    at: usize,
    buffer: &mut [u8],
    hasher: &mut Sha256,
) -> Result<(), DeviceError>
    requires slot { slot < length (D.contents disk.old) }
    ensures fed { D.is_honest disk.new → OnOk result ((fed : List ℕ) → Holds256 hasher.old fed
        → Holds256 hasher.new (fed ++ slice_range (file_at (D.contents disk.old) slot)
        at (at + length buffer.old))) }
    ensures reads { OnlyReads D.Disk disk.old disk.new }
    ensures cause { HasCause (D.failed disk.old) (D.failed disk.new) result }
{
    read_file(disk, slot, at, buffer)?;
    hasher.update(&*buffer);
    Ok(())
}

/// Gives the bytes of a slot's file from the end of its header up to `len` to a hasher, some at a time.
fn feed_behind<D: Disk>(
    disk: &mut D,
    slot: usize,
    len: usize,
    buffer: &mut [u8],
    hasher: &mut Sha256,
) -> Result<(), DeviceError>
    requires slot { slot < length (D.contents disk.old) }
    requires long { 4096 ≤ len }
    requires room { length buffer.old ≡ 65536 }
    ensures fed { D.is_honest disk.new → OnOk result ((fed : List ℕ) → Holds256 hasher.old fed
        → Holds256 hasher.new (fed ++ slice_range (file_at (D.contents disk.old) slot) 4096 len)) }
    ensures reads { OnlyReads D.Disk disk.old disk.new }
    ensures cause { HasCause (D.failed disk.old) (D.failed disk.new) result }
{
    let mut at = HEADER_SIZE;
    while at < len {
        let count = BYTES_AT_ONCE.min(len - at);
        feed_next(disk, slot, at, &mut buffer[..count], hasher)?;
        at += count;
    }
    Ok(())
}

/// The digest of a file of this length, whose first page is `front`, read through a buffer.
fn hash_file<D: Disk>(
    disk: &mut D,
    slot: usize,
    len: usize,
    front: &[u8; HEADER_SIZE],
    buffer: &mut [u8],
) -> Result<[u8; 32], DeviceError>
    requires slot { slot < length (D.contents disk.old) }
    requires long { 4096 ≤ len }
    requires room { length buffer.old ≡ 65536 }
    ensures digest { D.is_honest disk.new → len ≡ length (file_at (D.contents disk.old) slot)
        → front.now ≡ slice_range (file_at (D.contents disk.old) slot) 0 4096
        → IfOk result (λ digest. digest ≡ digest_of_file (file_at (D.contents disk.old) slot)) }
    ensures reads { OnlyReads D.Disk disk.old disk.new }
    ensures cause { HasCause (D.failed disk.old) (D.failed disk.new) result }
{
    let mut hasher = Sha256::new();
    feed_behind(disk, slot, len, buffer, &mut hasher)?;
    hasher.update(&front[1..64]);
    Ok(hasher.finalize())
}

/// The digest of a slot's file of this length: of all that stands after its header, and of bytes 1 to 63. It holds 16
/// pages at a time.
///
/// # Errors
///
/// Where a call of the device fails, or the buffer finds no room.
pub(crate) fn digest_of<D: Disk>(
    alloc: Global,
    disk: &mut D,
    slot: usize,
    len: usize,
    front: &[u8; HEADER_SIZE],
) -> Result<[u8; 32], Stop>
    requires slot { slot < length (D.contents disk.old) }
    requires long { 4096 ≤ len }
    ensures digest { D.is_honest disk.new → len ≡ length (file_at (D.contents disk.old) slot)
        → front.now ≡ slice_range (file_at (D.contents disk.old) slot) 0 4096
        → IfOk result (λ digest. digest ≡ digest_of_file (file_at (D.contents disk.old) slot)) }
    ensures reads { OnlyReads D.Disk disk.old disk.new }
    ensures device { IsErrOf result stop.Device → D.failed disk.old < D.failed disk.new }
    ensures stops { D.failed disk.old < D.failed disk.new → IsErrOf result stop.Device }
{
    let mut buffer = vec![in alloc; 0u8; BYTES_AT_ONCE]?;
    Ok(hash_file(disk, slot, len, front, &mut buffer)?)
}
