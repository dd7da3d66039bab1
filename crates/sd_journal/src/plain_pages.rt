//! The pages of one space of a plain memory.
ghost use Rattle.std.specs.Prelude.{◌≡◌, OnOk, IfOk};
ghost use Rattle.std.specs.FinMap as finmap;
ghost use Rattle.sd_areas.specs.Memory.{page_of_snapshot, space_of};
ghost use Rattle.sd_pagetable.specs.Page.{zeros};

use sd_areas::{PAGE_SIZE, PageNo, Prot, SnapshotPage};
use std::alloc::{AllocError, Global};
use std::collections::BTreeMap;

/// The pages of a space by their numbers.
pub type Pages = BTreeMap<PageNo, SnapshotPage>;

/// Puts a page, in place of what was there.
fn put(pages: &mut Pages, page: PageNo, found: SnapshotPage) -> Result<(), AllocError>
    ensures { OnOk result (space_of pages.new.entries
        ≡ finmap.insert (space_of pages.old.entries) page (page_of_snapshot found)) }
{
    pages.insert(page, found)?;
    Ok(())
}

/// A page of zeros with these permissions, as a page is when it is mapped.
///
/// # Errors
///
/// Out of memory where its bytes find no room.
pub fn zero_page(alloc: Global, prot: Prot) -> Result<SnapshotPage, AllocError>
    ensures { IfOk result (λ page. page_of_snapshot page ≡ record { prot = prot; bytes = zeros }) }
{
    let bytes = Box::new(alloc, [0; PAGE_SIZE])?;
    Ok(SnapshotPage { prot, bytes })
}

/// A copy of the pages of a space, each with bytes of its own.
///
/// # Errors
///
/// Out of memory where one of them, or their map, finds no room; the pages stand as they were.
pub fn copy_of_pages(alloc: Global, pages: &Pages) -> Result<Pages, AllocError>
    ensures { IfOk result (λ copy. space_of copy.entries ≡ space_of pages.now.entries) }
{
    let mut copy = BTreeMap::new(alloc);
    for (page, found) in pages {
        put(&mut copy, *page, found.try_clone(alloc)?)?;
    }
    Ok(copy)
}
