//! Reading an open slot, whatever is wrong with it.
ghost use Rattle.std.specs.Prelude.{◌≡◌, ◌<◌, ◌≤◌, ℕ, List, None, Ok, drop, take, length, IfOk, IfSome, slice_range};
ghost use Rattle.std.specs.Prelude.{IsErrOf};
ghost use Rattle.sd_disk.specs.Contents.{file_at};
ghost use Rattle.sd_disk.specs.Failures.{HasCause};
ghost use Rattle.sd_disk.specs.Reads.{OnlyReads};
ghost use Rattle.sd_image.specs.declared.header.Header.{Header as HeaderOf};
ghost use Rattle.sd_image.specs.Reading.{breaks_digest, digest_of_file, file_in, header_in, table_in};
ghost use Rattle.sd_show.specs.Slots.{BeginsTable, IsTableOf, OpenSlotIsRead, or_digest, reason_of, shown_table};
ghost use Rattle.sd_show.specs.Slots.{table_at, table_bytes};
ghost use Rattle.sd_show.specs.declared.stop.Stop.TheVariants as stop;

use crate::digest::digest_of;
use crate::judged::{FRONT, Judged, read_judged, read_part};
use crate::stop::Stop;
use sd_disk::{DeviceError, Disk, read_file};
use sd_image::{HEADER_SIZE, Header, Reason, Version, decode_header, u64_at};
use std::alloc::Global;

/// What was read of an open slot.
#[derive(Drop)]
pub(crate) struct Opened {
    /// The first bytes of its file.
    pub(crate) front: [u8; HEADER_SIZE],
    /// The bytes of its table; none where header, pages and table are not as long as the file. Where the file is no
    /// image, no more than the first 2 MiB of them.
    pub(crate) table: Vec<u8>,
    /// The digest of its file.
    pub(crate) digest: [u8; 32],
    /// Why the file is no image, if it is none.
    pub(crate) fault: Option<Reason>,
}

/// Reads the bytes before the data pages of a slot whose file has them.
fn read_front<D: Disk>(disk: &mut D, slot: usize) -> Result<[u8; HEADER_SIZE], DeviceError>
    requires { slot < length (D.contents disk.old) }
    ensures front { D.is_honest disk.new
        → IfOk result (λ front. front ≡ slice_range (file_at (D.contents disk.old) slot) 0 4096) }
    ensures reads { OnlyReads D.Disk disk.old disk.new }
    ensures cause { HasCause (D.failed disk.old) (D.failed disk.new) result }
{
    let mut front = [0; HEADER_SIZE];
    read_file(disk, slot, 0, &mut front)?;
    Ok(front)
}

/// Where the table begins in a file of this length, if header, pages and table are as long as the file.
fn table_at(front: &[u8; HEADER_SIZE], len: usize) -> Option<usize>
    ensures exact { result ≡ table_at front.now len }
    ensures within { IfSome result (λ at. at ≤ len) }
{
    let pages = u64_at(front, 48);
    let table_len = u64_at(front, 56);
    let at = pages.checked_mul(4096)?.checked_add(4096)?;
    let end = at.checked_add(table_len)?;
    if end != len as u64 {
        return None;
    }
    Some(at as usize)
}

/// Where the table begins in a file of this length, whose first bytes these are: at its end, where it has none.
fn table_start(front: &[u8; HEADER_SIZE], len: usize) -> usize
    ensures within { result ≤ len }
    ensures from { (file : List ℕ) → len ≡ length file → front.now ≡ slice_range file 0 4096
        → drop result file ≡ table_bytes file }
{
    table_at(front, len).unwrap_or(len)
}

/// Reads the table of a slot's file of this length, whose first bytes these are: what stands after its header, or
/// where that is none the first bytes where a table would stand.
fn read_table<D: Disk>(
    alloc: Global,
    disk: &mut D,
    slot: usize,
    len: usize,
    front: &[u8; HEADER_SIZE],
) -> Result<Judged, Stop>
    requires slot { slot < length (D.contents disk.old) }
    ensures table { D.is_honest disk.new → len ≡ length (file_at (D.contents disk.old) slot)
        → front.now ≡ slice_range (file_at (D.contents disk.old) slot) 0 4096
        → IfOk result (IsTableOf (file_at (D.contents disk.old) slot)) }
    ensures reads { OnlyReads D.Disk disk.old disk.new }
    ensures device { IsErrOf result stop.Device → D.failed disk.old < D.failed disk.new }
    ensures stops { D.failed disk.old < D.failed disk.new → IsErrOf result stop.Device }
{
    let at = table_start(front, len);
    match decode_header(front, len as u64) {
        Ok(header) => read_judged(alloc, disk, slot, &header, at, len),
        Err(reason) => {
            let bytes = read_part(alloc, disk, slot, at, FRONT.min(len - at))?;
            Ok(Judged {
                bytes,
                fault: Some(reason),
            })
        }
    }
}

/// Whether a header of version 2 has another digest than this one, which is its file's.
#[tactic(auto, unfolding(sd_image::specs::Reading::breaks_digest))]
fn has_other_digest(header: &Header, digest: &[u8; 32]) -> bool
    ensures { (file : List ℕ) → digest.now ≡ digest_of_file file
        → result ≡ breaks_digest header.now file }
{
    header.version == Version::Two && header.digest != *digest
}

/// The fault of a table, or else of the digest after it.
fn or_digest(fault: Option<Reason>, is_other: bool) -> Option<Reason>
    ensures { result ≡ or_digest fault is_other }
{
    match fault {
        Some(reason) => Some(reason),
        None => is_other.then_some(Reason::Digest),
    }
}

/// Why a file with these first bytes and this digest is no image, if it is none: its header first, then its table, and
/// its digest last.
fn fault_of(
    front: &[u8; HEADER_SIZE],
    len: usize,
    table: Option<Reason>,
    digest: &[u8; 32],
) -> Option<Reason>
    ensures named { (file : List ℕ) → front.now ≡ slice_range file 0 4096 → len ≡ length file
        → digest.now ≡ digest_of_file file
        → ((header : HeaderOf) → header_in (slice_range file 0 4096) (length file) ≡ Ok header
        → table ≡ reason_of (table_in header (table_bytes file)))
        → result ≡ reason_of (file_in file) }
    ensures kept { result ≡ None → table ≡ None }
{
    match decode_header(front, len as u64) {
        Ok(header) => or_digest(table, has_other_digest(&header, digest)),
        Err(reason) => Some(reason),
    }
}

/// The first 2 MiB of bytes, or all where they are fewer.
fn first_of(bytes: Vec<u8>) -> Vec<u8>
    ensures { result.items ≡ take 2097152 bytes.items }
{
    let mut bytes = bytes;
    bytes.truncate(FRONT);
    bytes
}

/// What is shown of a table that was read, by why its file is no image.
fn shown_of(judged: Judged, fault: Option<Reason>) -> Vec<u8>
    ensures { (table : List ℕ) → BeginsTable table judged.bytes.items → (fault ≡ None → judged.bytes.items ≡ table)
        → result.items ≡ shown_table fault table }
{
    match fault {
        Some(_) => first_of(judged.bytes),
        None => judged.bytes,
    }
}

/// What was read of an open slot, by its first bytes, its table and its digest.
fn opened_of(front: [u8; HEADER_SIZE], len: usize, judged: Judged, digest: [u8; 32]) -> Opened
    ensures { (file : List ℕ) → front ≡ slice_range file 0 4096 → len ≡ length file → IsTableOf file judged
        → digest ≡ digest_of_file file → OpenSlotIsRead file result }
{
    let fault = fault_of(&front, len, judged.fault, &digest);
    let table = shown_of(judged, fault);
    Opened {
        front,
        table,
        digest,
        fault,
    }
}

/// Reads an open slot, whose file has this length in bytes.
///
/// # Errors
///
/// Where a call of the device fails, or memory runs out.
pub(crate) fn read_opened<D: Disk>(
    alloc: Global,
    disk: &mut D,
    slot: usize,
    len: usize,
) -> Result<Opened, Stop>
    requires slot { slot < length (D.contents disk.old) }
    requires long { 4096 ≤ len }
    ensures opened { D.is_honest disk.new → len ≡ length (file_at (D.contents disk.old) slot)
        → IfOk result (OpenSlotIsRead (file_at (D.contents disk.old) slot)) }
    ensures reads { OnlyReads D.Disk disk.old disk.new }
    ensures device { IsErrOf result stop.Device → D.failed disk.old < D.failed disk.new }
    ensures stops { D.failed disk.old < D.failed disk.new → IsErrOf result stop.Device }
{
    let front = read_front(disk, slot)?;
    let table = read_table(alloc, disk, slot, len, &front)?;
    let digest = digest_of(alloc, disk, slot, len, &front)?;
    Ok(opened_of(front, len, table, digest))
}
