//! Reading the table of a slot's file after its header. Of a long one the fronts are looked at first.
ghost use Rattle.std.specs.Prelude.{◌≡◌, ◌+◌, ◌<◌, ◌≤◌, length, drop, IfOk, IfSome, IsErrOf, slice_range};
ghost use Rattle.sd_disk.specs.Contents.{file_at};
ghost use Rattle.sd_disk.specs.Reads.{OnlyReads};
ghost use Rattle.sd_image.specs.Reading.{table_in};
ghost use Rattle.sd_show.specs.Slots.{IsJudged, reason_of};
ghost use Rattle.sd_show.specs.declared.stop.Stop.TheVariants as stop;

use crate::stop::Stop;
use sd_disk::{Disk, read_file};
use sd_image::{Header, Reason, TableError, decode_table, fault_of_front};
use std::alloc::{AllocError, Global};

/// The bytes of the first front, and the most that is shown of a table that is none. No table of a dump or of a merged
/// image is longer.
pub(crate) const FRONT: usize = 2_097_152;

/// How many fronts are looked at, each twice as long as the one before: no file is longer than the last.
const FRONTS: u32 = 42;

/// What was read of a table.
#[derive(Drop)]
pub(crate) struct Judged {
    /// All of its bytes; or a front of them, in which a rule breaks.
    pub(crate) bytes: Vec<u8>,
    /// Why they are no table, if they are none.
    pub(crate) fault: Option<Reason>,
}

/// Reads so many bytes of a slot's file from a place on.
pub(crate) fn read_part<D: Disk>(
    alloc: Global,
    disk: &mut D,
    slot: usize,
    at: usize,
    count: usize,
) -> Result<Vec<u8>, Stop>
    requires slot { slot < length (D.contents disk.old) }
    ensures bytes { D.is_honest disk.new
        → IfOk result (λ bytes. bytes.items ≡ slice_range (file_at (D.contents disk.old) slot) at (at + count)) }
    ensures reads { OnlyReads D.Disk disk.old disk.new }
    ensures device { IsErrOf result stop.Device → D.failed disk.old < D.failed disk.new }
    ensures stops { D.failed disk.old < D.failed disk.new → IsErrOf result stop.Device }
{
    let mut bytes = vec![in alloc; 0u8; count]?;
    if !bytes.is_empty() {
        read_file(disk, slot, at, &mut bytes)?;
    }
    Ok(bytes)
}

/// Why the bytes of a table are none after this header, if they are none.
fn table_fault(alloc: Global, header: &Header, table: &[u8]) -> Result<Option<Reason>, AllocError>
    ensures { IfOk result (λ fault. fault ≡ reason_of (table_in header.now table.now)) }
{
    match decode_table(alloc, header, table) {
        Ok(_) => Ok(None),
        Err(TableError::Damaged(reason)) => Ok(Some(reason)),
        Err(TableError::OutOfMemory) => Err(AllocError),
    }
}

/// Reads the first bytes of a table that is longer, and returns them where a rule breaks in them.
fn judge_front<D: Disk>(
    alloc: Global,
    disk: &mut D,
    slot: usize,
    header: &Header,
    at: usize,
    count: usize,
) -> Result<Option<Judged>, Stop>
    requires slot { slot < length (D.contents disk.old) }
    requires long { 2097152 ≤ count }
    ensures judged { D.is_honest disk.new → at + count < length (file_at (D.contents disk.old) slot)
        → IfOk result (λ found. IfSome found
        (IsJudged header.now (drop at (file_at (D.contents disk.old) slot)))) }
    ensures reads { OnlyReads D.Disk disk.old disk.new }
    ensures device { IsErrOf result stop.Device → D.failed disk.old < D.failed disk.new }
    ensures stops { D.failed disk.old < D.failed disk.new → IsErrOf result stop.Device }
{
    let bytes = read_part(alloc, disk, slot, at, count)?;
    match fault_of_front(alloc, header, &bytes)? {
        Some(reason) => Ok(Some(Judged {
            bytes,
            fault: Some(reason),
        })),
        None => Ok(None),
    }
}

/// Looks at the fronts of a table that ends with its file, of this length, and returns the first in which a rule
/// breaks. So memory is taken for no more than twice the items in which none does, however long the file is.
fn judge_fronts<D: Disk>(
    alloc: Global,
    disk: &mut D,
    slot: usize,
    header: &Header,
    at: usize,
    len: usize,
) -> Result<Option<Judged>, Stop>
    requires slot { slot < length (D.contents disk.old) }
    requires at { at ≤ len }
    ensures judged { D.is_honest disk.new → len ≡ length (file_at (D.contents disk.old) slot)
        → IfOk result (λ found. IfSome found
        (IsJudged header.now (drop at (file_at (D.contents disk.old) slot)))) }
    ensures reads { OnlyReads D.Disk disk.old disk.new }
    ensures device { IsErrOf result stop.Device → D.failed disk.old < D.failed disk.new }
    ensures stops { D.failed disk.old < D.failed disk.new → IsErrOf result stop.Device }
{
    let mut count = FRONT;
    for _ in 0..FRONTS {
        if len - at <= count {
            return Ok(None);
        }
        let judged = judge_front(alloc, disk, slot, header, at, count)?;
        if judged.is_some() {
            return Ok(judged);
        }
        count = count.saturating_mul(2);
    }
    Ok(None)
}

/// Reads a table that begins at a place of a slot's file, of this length, and ends with it: all of it, or a front in
/// which a rule breaks.
pub(crate) fn read_judged<D: Disk>(
    alloc: Global,
    disk: &mut D,
    slot: usize,
    header: &Header,
    at: usize,
    len: usize,
) -> Result<Judged, Stop>
    requires slot { slot < length (D.contents disk.old) }
    requires at { at ≤ len }
    ensures judged { D.is_honest disk.new → len ≡ length (file_at (D.contents disk.old) slot)
        → IfOk result (IsJudged header.now (drop at (file_at (D.contents disk.old) slot))) }
    ensures reads { OnlyReads D.Disk disk.old disk.new }
    ensures device { IsErrOf result stop.Device → D.failed disk.old < D.failed disk.new }
    ensures stops { D.failed disk.old < D.failed disk.new → IsErrOf result stop.Device }
{
    if let Some(judged) = judge_fronts(alloc, disk, slot, header, at, len)? {
        return Ok(judged);
    }
    let bytes = read_part(alloc, disk, slot, at, len - at)?;
    let fault = table_fault(alloc, header, &bytes)?;
    Ok(Judged { bytes, fault })
}
