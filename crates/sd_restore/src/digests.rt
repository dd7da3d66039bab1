//! Checking the digest of an image that was read.
ghost use Rattle.std.specs.Prelude.{◌≡◌, ◌≢◌, ◌+◌, ◌*◌, ◌/◌, ◌<◌, ◌≤◌, ◌^◌, ◌++◌, ℕ, List, Ok, length, IfOk, IfErr};
ghost use Rattle.std.specs.Prelude.{OnOk, IsErrOf, slice_range};
ghost use Rattle.sd_disk.specs.Contents.{file_at};
ghost use Rattle.sd_disk.specs.Failures.{HasCause};
ghost use Rattle.sd_disk.specs.Reads.{OnlyReads};
ghost use Rattle.sd_image.specs.Digests.{HasFed};
ghost use Rattle.sd_image.specs.Reading.{digest_of_file, table_in};
ghost use Rattle.sd_image.specs.Table.{Listed};
ghost use Rattle.sd_restore.specs.Calls.{pages_digested};
ghost use Rattle.sd_restore.specs.Faulty.{FaultNames, IsFaulty};
ghost use Rattle.sd_restore.specs.Reading.{HasDigestOf, HasHeader, table_bytes};

use crate::fault::Fault;
use sd_areas::PAGE_SIZE;
use sd_disk::{DeviceError, Disk, read_file};
use sd_image::{Digester, HEADER_SIZE, Header, Reason, Version, good_header_has_no_reason};
use std::alloc::Global;

/// How many data pages one call reads, at most.
const PAGES_AT_ONCE: usize = 16;

/// Gives pages to a digester, in their order.
fn feed(digester: &mut Digester, bytes: &[u8])
    requires whole { length bytes.now ≡ length bytes.now / 4096 * 4096 }
    ensures { (fed : List ℕ) → HasFed digester.old fed → HasFed digester.new (fed ++ bytes.now) }
{
    let (pages, _) = bytes.as_chunks::<PAGE_SIZE>();
    for page in pages {
        digester.page(page);
    }
}

/// Reads the data pages of a slot's file from the page `first` on, as many as the buffer has room for, and gives them
/// to a digester.
fn digest_next<D: Disk>(
    disk: &mut D,
    slot: usize,
    first: usize,
    buffer: &mut [u8],
    digester: &mut Digester,
) -> Result<(), DeviceError>
    requires slot { slot < length (D.contents disk.old) }
    requires fits { 4096 + 4096 * first < 2 ^ 64 }
    requires whole { length buffer.old ≡ length buffer.old / 4096 * 4096 }
    ensures fed { D.is_honest disk.new → OnOk result ((fed : List ℕ) → HasFed digester.old fed
        → HasFed digester.new (fed ++ slice_range (file_at (D.contents disk.old) slot)
        (4096 + 4096 * first) (4096 + 4096 * first + length buffer.old))) }
    ensures reads { OnlyReads D.Disk disk.old disk.new }
    ensures cause { HasCause (D.failed disk.old) (D.failed disk.new) result }
    ensures counted { D.calls disk.new ≡ D.calls disk.old + 1 }
{
    read_file(disk, slot, HEADER_SIZE + PAGE_SIZE * first, buffer)?;
    feed(digester, buffer);
    Ok(())
}

/// Reads the data pages of a slot's file in their order, and gives them to a digester.
fn digest_pages<D: Disk>(
    disk: &mut D,
    slot: usize,
    pages: usize,
    buffer: &mut [u8],
    digester: &mut Digester,
) -> Result<(), DeviceError>
    requires slot { slot < length (D.contents disk.old) }
    requires fits { 4096 + 4096 * pages < 2 ^ 64 }
    requires room { length buffer.old ≡ 65536 }
    ensures fed { D.is_honest disk.new → OnOk result ((fed : List ℕ) → HasFed digester.old fed
        → HasFed digester.new (fed ++ slice_range (file_at (D.contents disk.old) slot)
        4096 (4096 + 4096 * pages))) }
    ensures reads { OnlyReads D.Disk disk.old disk.new }
    ensures cause { HasCause (D.failed disk.old) (D.failed disk.new) result }
    ensures calls { D.calls disk.new ≤ D.calls disk.old + pages }
{
    let mut done = 0;
    while done < pages {
        let count = PAGES_AT_ONCE.min(pages - done);
        digest_next(disk, slot, done, &mut buffer[..PAGE_SIZE * count], digester)?;
        done += count;
    }
    Ok(())
}

/// The digest of an image with this header, whose table has these bytes. It reads each data page once.
fn digest_of<D: Disk>(
    alloc: Global,
    disk: &mut D,
    slot: usize,
    header: &Header,
    table: &[u8],
) -> Result<[u8; 32], Fault>
    requires slot { slot < length (D.contents disk.old) }
    requires fits { 4096 + 4096 * header.now.pages < 2 ^ 64 }
    ensures digest { D.is_honest disk.new
        → HasHeader (file_at (D.contents disk.old) slot) header.now
        → table.now ≡ table_bytes header.now (file_at (D.contents disk.old) slot)
        → IfOk result (λ digest. digest ≡ digest_of_file (file_at (D.contents disk.old) slot)) }
    ensures unnamed { IfErr result (FaultNames (λ _ _. ⊥)) }
    ensures reads { OnlyReads D.Disk disk.old disk.new }
    ensures device { IsErrOf result Fault.Device → D.failed disk.old < D.failed disk.new }
    ensures stops { D.failed disk.old < D.failed disk.new → IsErrOf result Fault.Device }
    ensures calls { D.calls disk.new ≤ D.calls disk.old + header.now.pages }
    ensures empty { result ≢ Err Fault.EmptyChain }
{
    let mut buffer = vec![in alloc; 0u8; PAGE_SIZE * PAGES_AT_ONCE]?;
    let mut digester = Digester::new();
    let pages = header.pages as usize;
    digest_pages(disk, slot, pages, &mut buffer, &mut digester)?;
    digester.table(table);
    Ok(digester.finish(header))
}

/// Checks that an image of version 2 has its digest in its header, from the bytes of its table, which were read
/// already, and its data pages. It reads each of these once, and none of version 1.
///
/// # Errors
///
/// `Damaged` names the slot where the digest is another. `Device` and `OutOfMemory` end the check at once.
pub fn check_digest<D: Disk>(
    alloc: Global,
    disk: &mut D,
    slot: usize,
    header: &Header,
    table: &[u8],
) -> Result<(), Fault>
    requires slot { slot < length (D.contents disk.old) }
    requires fits { 4096 + 4096 * header.now.pages < 2 ^ 64 }
    ensures right { D.is_honest disk.new
        → HasHeader (file_at (D.contents disk.old) slot) header.now
        → table.now ≡ table_bytes header.now (file_at (D.contents disk.old) slot)
        → OnOk result (HasDigestOf (file_at (D.contents disk.old) slot) header.now) }
    // Where it is another, after a good table, the file is faulty.
    ensures wrong { D.is_honest disk.new
        → HasHeader (file_at (D.contents disk.old) slot) header.now
        → table.now ≡ table_bytes header.now (file_at (D.contents disk.old) slot)
        → (spaces : List Listed) → table_in header.now table.now ≡ Ok spaces
        → IfErr result (FaultNames
        (λ s reason. (s ≡ slot) × IsFaulty (file_at (D.contents disk.old) slot) reason)) }
    ensures reads { OnlyReads D.Disk disk.old disk.new }
    ensures device { IsErrOf result Fault.Device → D.failed disk.old < D.failed disk.new }
    ensures stops { D.failed disk.old < D.failed disk.new → IsErrOf result Fault.Device }
    ensures calls { D.calls disk.new
        ≤ D.calls disk.old + pages_digested header.now.version header.now.pages }
    ensures empty { result ≢ Err Fault.EmptyChain }
    // Version 1 takes no memory.
    ensures wanted { result ≡ Err Fault.OutOfMemory → header.now.version ≢ Version.One }
{
    good_header_has_no_reason();
    if header.version == Version::One {
        return Ok(());
    }
    let digest = digest_of(alloc, disk, slot, header, table)?;
    if digest != header.digest {
        return Err(Fault::Damaged {
            slot,
            reason: Reason::Digest,
        });
    }
    Ok(())
}
