//! Reading a table. Of a long one the fronts are looked at first.
ghost use Rattle.std.specs.Prelude.{◌≡◌, ◌≢◌, ◌+◌, ◌*◌, ◌<◌, ◌≤◌, ◌^◌, length, slice_range, IfOk, IfErr, IsErrOf};
ghost use Rattle.sd_disk.specs.Contents.{file_at};
ghost use Rattle.sd_disk.specs.Reads.{OnlyReads};
ghost use Rattle.sd_restore.specs.Calls.{fronts_read};
ghost use Rattle.sd_restore.specs.Faulty.{FaultNames, IsFaulty};
ghost use Rattle.sd_restore.specs.Reading.{HasHeader, table_bytes};

use crate::fault::Fault;
use sd_areas::PAGE_SIZE;
use sd_disk::{Disk, read_file};
use sd_image::{HEADER_SIZE, Header, fault_of_front, good_header_has_no_reason};
use std::alloc::Global;

/// The bytes of the first front: no table of a dump or of a merged image is longer.
const FRONT: usize = 2_097_152;

/// How many fronts are looked at, each twice as long as the one before: no file is longer than the last.
const FRONTS: u32 = 42;

/// Reads so many bytes after the data pages of an image with this header.
fn read_part<D: Disk>(
    alloc: Global,
    disk: &mut D,
    slot: usize,
    header: &Header,
    len: usize,
) -> Result<Vec<u8>, Fault>
    requires slot { slot < length (D.contents disk.old) }
    requires fits { 4096 + 4096 * header.now.pages + len < 2 ^ 64 }
    ensures bytes { D.is_honest disk.new
        → IfOk result (λ bytes. bytes.items ≡ slice_range (file_at (D.contents disk.old) slot)
        (4096 + 4096 * header.now.pages) (4096 + 4096 * header.now.pages + len)) }
    ensures unnamed { IfErr result (FaultNames (λ _ _. ⊥)) }
    ensures reads { OnlyReads D.Disk disk.old disk.new }
    ensures device { IsErrOf result Fault.Device → D.failed disk.old < D.failed disk.new }
    ensures stops { D.failed disk.old < D.failed disk.new → IsErrOf result Fault.Device }
    ensures calls { D.calls disk.new ≤ D.calls disk.old + 1 }
    ensures empty { result ≢ Err Fault.EmptyChain }
{
    let mut bytes = vec![in alloc; 0u8; len]?;
    let place = HEADER_SIZE + PAGE_SIZE * header.pages as usize;
    read_file(disk, slot, place, &mut bytes)?;
    Ok(bytes)
}

/// Reads the first bytes of a table that is longer, and sees that no rule breaks in them.
fn look_at_front<D: Disk>(
    alloc: Global,
    disk: &mut D,
    slot: usize,
    header: &Header,
    len: usize,
) -> Result<(), Fault>
    requires slot { slot < length (D.contents disk.old) }
    requires fits { 4096 + 4096 * header.now.pages + header.now.table_len < 2 ^ 64 }
    requires short { len < header.now.table_len }
    ensures faulty { D.is_honest disk.new
        → HasHeader (file_at (D.contents disk.old) slot) header.now → IfErr result (FaultNames
        (λ s reason. (s ≡ slot) × IsFaulty (file_at (D.contents disk.old) slot) reason)) }
    ensures reads { OnlyReads D.Disk disk.old disk.new }
    ensures device { IsErrOf result Fault.Device → D.failed disk.old < D.failed disk.new }
    ensures stops { D.failed disk.old < D.failed disk.new → IsErrOf result Fault.Device }
    ensures calls { D.calls disk.new ≤ D.calls disk.old + 1 }
    ensures empty { result ≢ Err Fault.EmptyChain }
{
    good_header_has_no_reason();
    let front = read_part(alloc, disk, slot, header, len)?;
    match fault_of_front(alloc, header, &front)? {
        Some(reason) => Err(Fault::Damaged { slot, reason }),
        None => Ok(()),
    }
}

/// Looks at the fronts of a table that is longer than any of a dump, each twice as long as the one before: so memory is
/// taken for no more than twice the items in which no rule breaks, however long the file is.
#[tactic(auto, unfolding(crate::specs::Calls::fronts_read))]
fn look_at_fronts<D: Disk>(
    alloc: Global,
    disk: &mut D,
    slot: usize,
    header: &Header,
) -> Result<(), Fault>
    requires slot { slot < length (D.contents disk.old) }
    requires fits { 4096 + 4096 * header.now.pages + header.now.table_len < 2 ^ 64 }
    ensures faulty { D.is_honest disk.new
        → HasHeader (file_at (D.contents disk.old) slot) header.now → IfErr result (FaultNames
        (λ s reason. (s ≡ slot) × IsFaulty (file_at (D.contents disk.old) slot) reason)) }
    ensures reads { OnlyReads D.Disk disk.old disk.new }
    ensures device { IsErrOf result Fault.Device → D.failed disk.old < D.failed disk.new }
    ensures stops { D.failed disk.old < D.failed disk.new → IsErrOf result Fault.Device }
    ensures calls { D.calls disk.new ≤ D.calls disk.old + fronts_read header.now.table_len }
    ensures empty { result ≢ Err Fault.EmptyChain }
{
    if header.table_len <= FRONT as u64 {
        return Ok(());
    }
    let mut len = FRONT;
    for _ in 0..FRONTS {
        if header.table_len <= len as u64 {
            return Ok(());
        }
        look_at_front(alloc, disk, slot, header, len)?;
        len = len.saturating_mul(2);
    }
    Ok(())
}

/// Reads the bytes of the table of an image with this header, unless a rule breaks in a front of it.
pub(crate) fn read_table<D: Disk>(
    alloc: Global,
    disk: &mut D,
    slot: usize,
    header: &Header,
) -> Result<Vec<u8>, Fault>
    requires slot { slot < length (D.contents disk.old) }
    requires fits { 4096 + 4096 * header.now.pages + header.now.table_len < 2 ^ 64 }
    ensures bytes { D.is_honest disk.new
        → IfOk result (λ bytes. bytes.items
        ≡ table_bytes header.now (file_at (D.contents disk.old) slot)) }
    ensures faulty { D.is_honest disk.new
        → HasHeader (file_at (D.contents disk.old) slot) header.now → IfErr result (FaultNames
        (λ s reason. (s ≡ slot) × IsFaulty (file_at (D.contents disk.old) slot) reason)) }
    ensures reads { OnlyReads D.Disk disk.old disk.new }
    ensures device { IsErrOf result Fault.Device → D.failed disk.old < D.failed disk.new }
    ensures stops { D.failed disk.old < D.failed disk.new → IsErrOf result Fault.Device }
    ensures calls { D.calls disk.new
        ≤ D.calls disk.old + 1 + fronts_read header.now.table_len }
    ensures empty { result ≢ Err Fault.EmptyChain }
{
    look_at_fronts(alloc, disk, slot, header)?;
    read_part(alloc, disk, slot, header, header.table_len as usize)
}
