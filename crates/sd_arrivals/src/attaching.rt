//! Whether a stream continues what a store shows.
ghost use Rattle.std.specs.Prelude.{◌≡◌, true, ℕ, List, Option, IfOk, OnOk, Ok};
ghost use Rattle.std.specs.Option.{option_map};
ghost use Rattle.sd_areas.specs.PlainMemory.{PlainMemory};
ghost use Rattle.sd_disk.specs.Crash.{Within};
ghost use Rattle.sd_disk.specs.Reads.{OnlyReads};
ghost use Rattle.sd_disk.specs.Spans.{LeavesOnly};
ghost use Rattle.sd_image.specs.Shows.{Shows};
ghost use Rattle.sd_chain.specs.Ways.{AreImages};
ghost use Rattle.sd_receive.specs.Arrived.{IsReady};
ghost use Rattle.sd_receive.specs.Arriving.{IsSettled};
ghost use Rattle.sd_send.specs.Sent.{IsDigestAt};
ghost use Rattle.sd_stream.specs.Progress.{started};
ghost use Rattle.sd_stream.specs.Reading.{HasRead};
ghost use Rattle.sd_arrivals.specs.Arrivals.{Continues, IsAttached};

use crate::leftovers::close_leftovers;
use sd_disk::Disk;
use sd_receive::{ReceiveError, Receiver, settle};
use sd_restore::{Fault, verify};
use sd_send::memory_digest;
use sd_stream::{Base, StreamReader};
use std::alloc::Global;
use std::io::Read;

/// Whether two digests are the same.
fn is_same_digest(one: [u8; 32], other: [u8; 32]) -> bool
    ensures { result ≡ true → one ≡ other }
{
    one == other
}

/// Whether a store has the memory of a base at its checkpoint.
fn has_memory<D: Disk>(alloc: Global, disk: &mut D, base: Base) -> Result<bool, Fault>
    ensures yes { D.is_honest disk.new → IfOk result (λ has. has ≡ true
        → IsDigestAt (D.contents disk.old) base.number base.digest) }
    ensures reads { OnlyReads D.Disk disk.old disk.new }
{
    let digest = memory_digest(alloc, disk, base.number)?;
    Ok(is_same_digest(digest, base.digest))
}

/// Checks that a store with the memory of a base shows its checkpoint.
fn check_memory<D: Disk>(
    alloc: Global,
    disk: &mut D,
    shows: Option<u64>,
    base: Base,
) -> Result<(), ReceiveError>
    ensures memory { D.is_honest disk.new
        → OnOk result (IsDigestAt (D.contents disk.old) base.number base.digest) }
    ensures reads { OnlyReads D.Disk disk.old disk.new }
{
    if has_memory(alloc, disk, base)? {
        return Ok(());
    }
    let base = Some(base);
    Err(ReceiveError::BaseDiffers { shows, base })
}

/// Checks that a store shows the checkpoint that a stream continues, or none where it continues none.
fn check_base<D: Disk>(
    alloc: Global,
    disk: &mut D,
    shows: Option<u64>,
    base: Option<Base>,
) -> Result<(), ReceiveError>
    ensures continues { D.is_honest disk.new → (shown : Option (ℕ × PlainMemory))
        → shows ≡ option_map (λ moment. moment.0) shown
        → OnOk result (Continues (D.contents disk.old) shown base) }
    ensures reads { OnlyReads D.Disk disk.old disk.new }
{
    match (shows, base) {
        (None, None) => Ok(()),
        (Some(number), Some(found)) if number == found.number => {
            check_memory(alloc, disk, shows, found)
        }
        _ => Err(ReceiveError::BaseDiffers { shows, base }),
    }
}

/// Waits until each slot is on the device, and checks that the store is in order and shows what a stream continues.
fn check_store<D: Disk>(alloc: Global, disk: &mut D, base: Option<Base>) -> Result<(), ReceiveError>
    ensures attached { D.is_honest disk.new → OnOk result (IsAttached (D.contents disk.old) base) }
    ensures reads { OnlyReads D.Disk disk.old disk.new }
{
    settle(disk)?;
    let report = verify(alloc, disk)?;
    check_base(alloc, disk, report.checkpoint, base)
}

/// Closes what streams left that were cut off, and makes a store ready for what a stream still has.
fn make_ready<D: Disk, R: Read + Drop>(
    alloc: Global,
    disk: &mut D,
    reader: StreamReader<R>,
) -> Result<Receiver<R>, ReceiveError>
    ensures keeps { D.is_honest disk.new → (shown : Option (ℕ × PlainMemory))
        → Shows (D.contents disk.old) shown → Within (D.may_leave disk.old) (λ c. Shows c shown)
        → LeavesOnly D.Disk disk.old disk.new (λ c. Shows c shown) }
    ensures ready { D.is_honest disk.new → IfOk result (λ receiver.
        IsReady (D.contents disk.new) (D.may_leave disk.new) receiver.catalog) }
    ensures images { IfOk result (λ receiver. AreImages receiver.catalog) }
    ensures reader { IfOk result (λ receiver. receiver.reader ≡ reader) }
    ensures honest { D.is_honest disk.new → D.is_honest disk.old }
{
    close_leftovers(alloc, disk)?;
    let receiver = Receiver::begin(alloc, disk, reader)?;
    Ok(receiver)
}

/// Reads the head of a stream, and makes a store ready for its images: it shows the checkpoint that the stream
/// continues, with the same memory, or none where the stream begins with a whole image. Pre-dumps that a stream left
/// which was cut off are closed.
///
/// # Errors
///
/// `Stream` where the head is none; `BaseDiffers`; `Fault`. But for `Fault` the store is as it was.
pub fn begin<D: Disk, R: Read + Drop>(
    alloc: Global,
    disk: &mut D,
    input: R,
) -> Result<Receiver<R>, ReceiveError>
    // What the store shows it shows at a crash at each moment, where it would at a crash before.
    ensures keeps { D.is_honest disk.new → (shown : Option (ℕ × PlainMemory))
        → Shows (D.contents disk.old) shown → Within (D.may_leave disk.old) (λ c. Shows c shown)
        → LeavesOnly D.Disk disk.old disk.new (λ c. Shows c shown) }
    // It is attached only where the stream's base is what the store shows.
    ensures attached { D.is_honest disk.new → IfOk result (λ receiver.
        IsAttached (D.contents disk.old) receiver.reader.base) }
    // Of the stream the head was read.
    ensures begun { IfOk result (λ receiver.
        HasRead R.remaining (R.remaining input) (started receiver.reader.base) receiver.reader) }
    ensures ready { D.is_honest disk.new → IfOk result (λ receiver.
        IsReady (D.contents disk.new) (D.may_leave disk.new) receiver.catalog) }
    ensures images { IfOk result (λ receiver. AreImages receiver.catalog) }
    ensures honest { D.is_honest disk.new → D.is_honest disk.old }
{
    let reader = StreamReader::begin(input)?;
    check_store(alloc, disk, reader.base())?;
    make_ready(alloc, disk, reader)
}
