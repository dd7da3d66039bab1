//! Pages as a checkpointer visits them: bits, sectors, words, and which comes next.
ghost use Rattle.std.specs.Prelude.{◌≡◌, ◌+◌, ◌*◌, ◌<◌, false, None, length, slice_range, is_some, IfSome};

use super::Memory;
use crate::limits::SECTOR_SIZE;
use sd_areas::{PageNo, SPACE_LIMIT, SpaceId};
use std::ops::Bound;

/// Copies a sector of a page.
fn copy_sector(page: &[u8], sector: usize, bytes: &mut [u8; SECTOR_SIZE])
    requires whole { length page.now ≡ 4096 }
    requires within { sector < 8 }
    ensures { bytes.new ≡ slice_range page.now (512 * sector) (512 * sector + 512) }
{
    let start = SECTOR_SIZE * sector;
    bytes.copy_from_slice(&page[start..start + SECTOR_SIZE]);
}

impl Memory {
    ghost use Rattle.std.specs.Option.{option_map};
    ghost use Rattle.sd_pagetable.specs.Page.{PageState};
    ghost use Rattle.sd_pagetable.specs.Contents.{page_at, plain_of, word_at, IsSound};
    ghost use Rattle.sd_pagetable.specs.Tracking.{Step, Cleared};
    ghost use Rattle.sd_pagetable.specs.Order.{IsNextPage, IsFirstPage, IsFirstIn};
    ghost use Rattle.sd_pagetable.specs.Sectors.{sector_bytes};

    /// The soft-dirty bit of a page, or none where it isn't mapped. It clears that bit and the
    /// writable bit, as writing `4` to `clear_refs` does. It takes no memory.
    pub fn test_and_clear(&mut self, space: SpaceId, page: PageNo) -> Option<bool>
        ensures bit { result
            ≡ option_map (λ (before : PageState). before.soft_dirty) (page_at self.old space page) }
        ensures step { IfSome result (λ _. Step self.old (Cleared space page) self.new) }
        ensures memory { plain_of self.new ≡ plain_of self.old }
        ensures none { result ≡ None → self.new ≡ self.old }
    {
        let entry = self.paging.entry(space, page)?;
        self.paging
            .write_protect(space, page, entry, entry.prot, false);
        Some(entry.soft_dirty)
    }

    /// Copies one of a page's eight sectors of 512 bytes, 0 to 7, and says whether the page is
    /// mapped. Where it isn't, the sector stays. It takes no memory.
    pub fn read_sector(
        &self,
        space: SpaceId,
        page: PageNo,
        sector: usize,
        bytes: &mut [u8; SECTOR_SIZE],
    ) -> bool
        requires { sector < 8 }
        ensures mapped { result ≡ is_some (page_at self.now space page) }
        ensures whole { IfSome (page_at self.now space page)
            (λ (found : PageState). length found.bytes ≡ 4096) }
        ensures bytes { IfSome (page_at self.now space page) (λ (found : PageState).
            bytes.new ≡ slice_range found.bytes (512 * sector) (512 * sector + 512)) }
        ensures none { result ≡ false → bytes.new ≡ bytes.old }
    {
        let Some(found) = self.paging.bytes(space, page) else {
            return false;
        };
        copy_sector(found, sector, bytes);
        true
    }

    /// One of a page's eight sectors of 512 bytes, 0 to 7, where the page is mapped: none inside where the page has no
    /// frame, so that the sector is zeros and needn't be looked at.
    pub fn framed_sector(
        &self,
        space: SpaceId,
        page: PageNo,
        sector: usize,
    ) -> Option<Option<&[u8]>>
        requires { sector < 8 }
        ensures mapped { is_some result ≡ is_some (page_at self.now space page) }
        ensures whole { IfSome (page_at self.now space page)
            (λ (found : PageState). length found.bytes ≡ 4096) }
        ensures bytes { IfSome result (λ part. IfSome (page_at self.now space page) (λ (found : PageState).
            sector_bytes part ≡ slice_range found.bytes (512 * sector) (512 * sector + 512))) }
        ensures length { IfSome result (λ part. length (sector_bytes part) ≡ 512) }
    {
        self.paging.whole();
        let Some(bytes) = self.paging.framed(space, page)? else {
            return Some(None);
        };
        let start = SECTOR_SIZE * sector;
        Some(Some(&bytes[start..start + SECTOR_SIZE]))
    }

    /// The word of a page, as the kernel document `pagemap` has it: bit 63 where it has a frame,
    /// bit 56 where no other page has that frame, bit 55 where it is soft-dirty; 0 where it isn't
    /// mapped. It takes no memory.
    pub fn word(&self, space: SpaceId, page: PageNo) -> u64
        ensures { result ≡ word_at self.now space page }
    {
        self.paging.word(space, page)
    }

    /// The least mapped page above another, by space and then by page; with none, the least of all.
    /// It takes no memory.
    pub fn next_page(&self, after: Option<(SpaceId, PageNo)>) -> Option<(SpaceId, PageNo)>
        ensures { IsNextPage self.now.spaces after result }
    {
        let Some((space, page)) = after else {
            return self.first_page(0);
        };
        match self.paging.first_from(space, Bound::Excluded(page)) {
            Some(next) => Some((space, next)),
            None => self.first_page(space.number()),
        }
    }

    /// The first page of the spaces above a number.
    pub(super) fn first_page(&self, above: u64) -> Option<(SpaceId, PageNo)>
        ensures first { IsFirstPage self.now.spaces above result }
        ensures sound { IsSound self.now }
    {
        for number in 1..SPACE_LIMIT + 1 {
            let found = self.first_page_of(number, above);
            if found.is_some() {
                return found;
            }
        }
        None
    }

    /// The first page of a space, if it is above a number.
    pub(super) fn first_page_of(&self, number: u64, above: u64) -> Option<(SpaceId, PageNo)>
        ensures first { IsFirstIn self.now.spaces number above result }
        ensures sound { IsSound self.now }
    {
        let space = SpaceId::new(number);
        let page = self.paging.first_in(space)?;
        (above < number).then_some((space, page))
    }
}
