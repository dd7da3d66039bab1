//! Reading one slot: its gate, its header, its table and its digest.
ghost use Rattle.std.specs.Prelude.{◌≡◌, ◌≢◌, ◌+◌, ◌*◌, ◌<◌, ◌≤◌, ◌^◌, ℕ, false, length, IfOk, IfSome, IfErr};
ghost use Rattle.std.specs.Prelude.{IsErrOf, IsSome, MatchOption, OnOk, slice_range};
ghost use Rattle.sd_disk.specs.Contents.{file_at};
ghost use Rattle.sd_disk.specs.Reads.{OnlyReads};
ghost use Rattle.sd_disk.specs.Failures.{HasCause};
ghost use Rattle.sd_image.specs.Header.{IsHeader};
ghost use Rattle.sd_image.specs.Image.{is_open};
ghost use Rattle.sd_restore.specs.Calls.{calls_for, fronts_read, pages_digested};
ghost use Rattle.sd_restore.specs.Faulty.{FaultNames, IsFaulty};
ghost use Rattle.sd_restore.specs.Reading.{HasHeader, IsDecodedAs, IsReading, IsSoundTable, table_bytes};
ghost use Rattle.sd_restore.specs.MemoryTaken.{FileTakesMemory};

use crate::decoded::{Decoded, decode_slot};
use crate::digests::check_digest;
use crate::fault::Fault;
use crate::fronts::read_table;
use sd_disk::{DeviceError, Disk, file_len, read_file};
use sd_image::{GATE, HEADER_SIZE, Header, decode_header};
use std::alloc::Global;

/// Reads the bytes before the data pages of a slot, and says whether its gate is open.
fn read_front<D: Disk>(
    disk: &mut D,
    slot: usize,
    bytes: &mut [u8; HEADER_SIZE],
) -> Result<bool, DeviceError>
    requires { slot < length (D.contents disk.old) }
    ensures opened { D.is_honest disk.new → 4096 ≤ length (file_at (D.contents disk.old) slot)
        → IfOk result (λ opened. is_open (file_at (D.contents disk.old) slot) ≡ opened) }
    ensures first { D.is_honest disk.new → OnOk result
        (bytes.new ≡ slice_range (file_at (D.contents disk.old) slot) 0 4096) }
    ensures reads { OnlyReads D.Disk disk.old disk.new }
    ensures cause { HasCause (D.failed disk.old) (D.failed disk.new) result }
    ensures counted { D.calls disk.new ≡ D.calls disk.old + 1 }
{
    read_file(disk, slot, 0, bytes)?;
    Ok(bytes[0] == GATE)
}

/// Reads the header of a slot whose file has `len` bytes and room for one, or none where the slot is closed. It alone
/// has room for the bytes, so that a shorter file costs none.
fn read_long_header<D: Disk>(disk: &mut D, slot: usize, len: usize) -> Result<Option<Header>, Fault>
    requires slot { slot < length (D.contents disk.old) }
    requires long { 4096 ≤ len }
    ensures header { D.is_honest disk.new → len ≡ length (file_at (D.contents disk.old) slot)
        → IfOk result (λ opened. MatchOption opened
        (is_open (file_at (D.contents disk.old) slot) ≡ false)
        (HasHeader (file_at (D.contents disk.old) slot))) }
    ensures found { IfOk result (λ opened. IfSome opened
        (λ header. (len : ℕ) × (len < 2 ^ 64) × IsHeader header len)) }
    ensures faulty { D.is_honest disk.new → len ≡ length (file_at (D.contents disk.old) slot)
        → IfErr result (FaultNames
        (λ s reason. (s ≡ slot) × IsFaulty (file_at (D.contents disk.old) slot) reason)) }
    ensures reads { OnlyReads D.Disk disk.old disk.new }
    ensures device { IsErrOf result Fault.Device → D.failed disk.old < D.failed disk.new }
    ensures stops { D.failed disk.old < D.failed disk.new → IsErrOf result Fault.Device }
    ensures counted { D.calls disk.new ≡ D.calls disk.old + 1 }
    // Of an open slot, the calls for the table and those of the digest are left, after the question for its length.
    ensures left { D.is_honest disk.new → len ≡ length (file_at (D.contents disk.old) slot)
        → IfOk result (λ opened. IfSome opened (λ header. D.calls disk.new + 1 + 1
        + (fronts_read header.table_len + pages_digested header.version header.pages)
        ≤ D.calls disk.old + calls_for (file_at (D.contents disk.old) slot))) }
    ensures empty { result ≢ Err Fault.EmptyChain }
    ensures memory { result ≢ Err Fault.OutOfMemory }
{
    let mut bytes = [0; HEADER_SIZE];
    if !read_front(disk, slot, &mut bytes)? {
        return Ok(None);
    }
    match decode_header(&bytes, len as u64) {
        Ok(header) => Ok(Some(header)),
        Err(reason) => Err(Fault::Damaged { slot, reason }),
    }
}

/// Reads the header of a slot, or none where the slot is closed.
fn read_header<D: Disk>(disk: &mut D, slot: usize) -> Result<Option<Header>, Fault>
    requires { slot < length (D.contents disk.old) }
    ensures header { D.is_honest disk.new → IfOk result (λ opened. MatchOption opened
        (is_open (file_at (D.contents disk.old) slot) ≡ false)
        (HasHeader (file_at (D.contents disk.old) slot))) }
    ensures found { IfOk result (λ opened. IfSome opened
        (λ header. (len : ℕ) × (len < 2 ^ 64) × IsHeader header len)) }
    ensures faulty { D.is_honest disk.new
        → IfErr result (FaultNames
        (λ s reason. (s ≡ slot) × IsFaulty (file_at (D.contents disk.old) slot) reason)) }
    ensures reads { OnlyReads D.Disk disk.old disk.new }
    ensures device { IsErrOf result Fault.Device → D.failed disk.old < D.failed disk.new }
    ensures stops { D.failed disk.old < D.failed disk.new → IsErrOf result Fault.Device }
    ensures calls { D.is_honest disk.new → D.calls disk.new
        ≤ D.calls disk.old + calls_for (file_at (D.contents disk.old) slot) }
    // Of an open slot, the calls for the table and those of the digest are left.
    ensures left { D.is_honest disk.new → IfOk result (λ opened. IfSome opened
        (λ header. D.calls disk.new + 1
        + (fronts_read header.table_len + pages_digested header.version header.pages)
        ≤ D.calls disk.old + calls_for (file_at (D.contents disk.old) slot))) }
    ensures empty { result ≢ Err Fault.EmptyChain }
    ensures memory { result ≢ Err Fault.OutOfMemory }
{
    let len = file_len(disk, slot)?;
    if len < HEADER_SIZE {
        return Ok(None);
    }
    read_long_header(disk, slot, len)
}

/// Reads what stands after the header of a slot: its table, and the data pages of version 2, for their digest.
fn read_behind<D: Disk>(
    alloc: Global,
    disk: &mut D,
    slot: usize,
    header: Header,
) -> Result<Decoded, Fault>
    requires slot { slot < length (D.contents disk.old) }
    requires fits { 4096 + 4096 * header.pages + header.table_len < 2 ^ 64 }
    ensures decoded { D.is_honest disk.new → HasHeader (file_at (D.contents disk.old) slot) header
        → IfOk result (IsDecodedAs (file_at (D.contents disk.old) slot)) }
    ensures sound { (len : ℕ) → IsHeader header len → IfOk result IsSoundTable }
    ensures faulty { D.is_honest disk.new → HasHeader (file_at (D.contents disk.old) slot) header
        → IfErr result (FaultNames
        (λ s reason. (s ≡ slot) × IsFaulty (file_at (D.contents disk.old) slot) reason)) }
    ensures reads { OnlyReads D.Disk disk.old disk.new }
    ensures device { IsErrOf result Fault.Device → D.failed disk.old < D.failed disk.new }
    ensures stops { D.failed disk.old < D.failed disk.new → IsErrOf result Fault.Device }
    ensures calls { D.calls disk.new ≤ D.calls disk.old + 1
        + (fronts_read header.table_len + pages_digested header.version header.pages) }
    ensures empty { result ≢ Err Fault.EmptyChain }
{
    let table = read_table(alloc, disk, slot, &header)?;
    let decoded = decode_slot(alloc, slot, header, &table)?;
    check_digest(alloc, disk, slot, &header, &table)?;
    Ok(decoded)
}

/// Reads a slot: what it says of its image, whose digest it checks, or none where it is closed. For a caller that takes
/// slots in one by one ([`Scanned::take_in`](crate::Scanned::take_in)), as [`scan`](crate::scan) does.
///
/// # Errors
///
/// `Damaged` where the slot's header, table or digest is faulty, with the reason; `Device` where a call failed; and
/// `OutOfMemory`.
pub fn read_slot<D: Disk>(
    alloc: Global,
    disk: &mut D,
    slot: usize,
) -> Result<Option<Decoded>, Fault>
    requires { slot < length (D.contents disk.old) }
    ensures reading { D.is_honest disk.new
        → IfOk result (IsReading (file_at (D.contents disk.old) slot)) }
    ensures sound { IfOk result (λ opened. IfSome opened IsSoundTable) }
    ensures faulty { D.is_honest disk.new
        → IfErr result (FaultNames
        (λ s reason. (s ≡ slot) × IsFaulty (file_at (D.contents disk.old) slot) reason)) }
    ensures reads { OnlyReads D.Disk disk.old disk.new }
    ensures device { IsErrOf result Fault.Device → D.failed disk.old < D.failed disk.new }
    ensures stops { D.failed disk.old < D.failed disk.new → IsErrOf result Fault.Device }
    ensures calls { D.is_honest disk.new → D.calls disk.new
        ≤ D.calls disk.old + calls_for (file_at (D.contents disk.old) slot) }
    ensures empty { result ≢ Err Fault.EmptyChain }
    // Memory is taken for what an open slot says, after its header.
    ensures headed { D.is_honest disk.new → IfOk result (λ opened. IsSome opened
        → FileTakesMemory (file_at (D.contents disk.old) slot)) }
    ensures wanted { D.is_honest disk.new → result ≡ Err Fault.OutOfMemory
        → FileTakesMemory (file_at (D.contents disk.old) slot) }
{
    let Some(header) = read_header(disk, slot)? else {
        return Ok(None);
    };
    let decoded = read_behind(alloc, disk, slot, header)?;
    Ok(Some(decoded))
}
