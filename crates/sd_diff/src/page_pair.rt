//! Two pages, read and compared.
ghost use Rattle.std.specs.Prelude.{◌≡◌, ◌≢◌, ◌↔◌, ◌+◌, ◌*◌, ◌<◌, ◌≤◌, length, IsTrue, IfOk, IfErr, OnOk, IsErrOf};
ghost use Rattle.sd_disk.specs.Reads.{OnlyReads};
ghost use Rattle.sd_chain.specs.Store.{bytes_at};
ghost use Rattle.sd_restore.specs.Faulty.{FaultNames};
ghost use Rattle.sd_restore.specs.Placed.{IsInSlots};

use sd_areas::PAGE_SIZE;
use sd_chain::Found;
use sd_disk::Disk;
use sd_restore::{Fault, read_placed_pages};
use std::alloc::{AllocError, Global};

/// Room for a page of each of two memories.
#[derive(Drop)]
pub(crate) struct PagePair {
    old: Box<[u8; PAGE_SIZE]>,
    new: Box<[u8; PAGE_SIZE]>,
}

impl PagePair {
    /// Room for two pages.
    ///
    /// # Errors
    ///
    /// Out of memory.
    pub(crate) fn new(alloc: Global) -> Result<PagePair, AllocError> {
        let old = Box::new(alloc, [0; PAGE_SIZE])?;
        let new = Box::new(alloc, [0; PAGE_SIZE])?;
        Ok(PagePair { old, new })
    }
}

/// Reads the bytes of the page that lies there.
fn read_page<D: Disk>(disk: &mut D, there: Found, page: &mut [u8; PAGE_SIZE]) -> Result<(), Fault>
    requires { IsInSlots (length (D.contents disk.old)) there }
    ensures bytes { D.is_honest disk.new
        → OnOk result (page.new ≡ bytes_at (D.contents disk.old) there) }
    ensures unnamed { IfErr result (FaultNames (λ _ _. ⊥)) }
    ensures reads { OnlyReads D.Disk disk.old disk.new }
    ensures device { IsErrOf result Fault.Device → D.failed disk.old < D.failed disk.new }
    ensures calls { D.calls disk.new ≤ D.calls disk.old + 1 }
    ensures empty { result ≢ Err Fault.EmptyChain }
{
    read_placed_pages(disk, there, page.as_mut_slice())
}

/// Whether two pages have the same bytes.
fn are_same(old: &[u8; PAGE_SIZE], new: &[u8; PAGE_SIZE]) -> bool
    ensures { IsTrue result ↔ (old.now ≡ new.now) }
{
    old.as_slice() == new.as_slice()
}

/// Whether the pages that lie at two places have other bytes. It reads both.
pub(crate) fn differ<D: Disk>(
    disk: &mut D,
    old: Found,
    new: Found,
    pair: &mut PagePair,
) -> Result<bool, Fault>
    requires old { IsInSlots (length (D.contents disk.old)) old }
    requires new { IsInSlots (length (D.contents disk.old)) new }
    ensures exact { D.is_honest disk.new → IfOk result (λ is. IsTrue is
        ↔ (bytes_at (D.contents disk.old) old ≢ bytes_at (D.contents disk.old) new)) }
    ensures unnamed { IfErr result (FaultNames (λ _ _. ⊥)) }
    ensures reads { OnlyReads D.Disk disk.old disk.new }
    ensures device { IsErrOf result Fault.Device → D.failed disk.old < D.failed disk.new }
    ensures calls { D.calls disk.new ≤ D.calls disk.old + 2 }
    ensures empty { result ≢ Err Fault.EmptyChain }
{
    read_page(disk, old, &mut pair.old)?;
    read_page(disk, new, &mut pair.new)?;
    Ok(!are_same(&pair.old, &pair.new))
}
