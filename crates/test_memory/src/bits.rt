//! The bits of a page, and what else is read of it.
use crate::support::{CLEAN_ALONE, DIRTY_ALONE, FRESH, READ_WRITE};
use sd_areas::{PageNo, SpaceId};
use sd_pagetable::{Memory, MemoryError, StoreOutcome};

/// Whether the only page is fresh, and a store to it needs a fault, after which it is soft-dirty.
fn stores_to_fresh(memory: &mut Memory, page: PageNo) -> Result<bool, MemoryError> {
    let space = SpaceId::new(1);
    let is_fresh = memory.word(space, page) == FRESH
        && memory.framed_sector(space, page, 7) == Some(None);
    let tried = memory.try_store(space, 0x10000, &[0x61]);
    memory.store_now(space, 0x10000, &[0x61])?;
    let is_dirty = memory.word(space, page) == DIRTY_ALONE;
    Ok(is_fresh && tried == Ok(StoreOutcome::NeedsFault) && is_dirty)
}

/// Whether the page was soft-dirty, isn't any more, and a store to it needs a fault again.
fn is_cleared(memory: &mut Memory, page: PageNo) -> bool {
    let space = SpaceId::new(1);
    memory.test_and_clear(space, page) == Some(true)
        && memory.word(space, page) == CLEAN_ALONE
        && memory.try_store(space, 0x10000, &[0x62]) == Ok(StoreOutcome::NeedsFault)
}

/// Whether the page's first sector is read in both ways.
fn is_read(memory: &Memory, page: PageNo) -> bool {
    let space = SpaceId::new(1);
    let mut sector = [7; 512];
    memory.read_sector(space, page, 0, &mut sector)
        && sector[0] == 0x61
        && sector[1] == 0
        && memory.framed_sector(space, page, 0) == Some(Some(&sector[..]))
}

/// Whether a walk finds the page alone.
fn is_only(memory: &Memory, page: PageNo) -> bool {
    let place = Some((SpaceId::new(1), page));
    memory.next_page(None) == place && memory.next_page(place) == None
}

/// Whether the words of a fresh, a stored and a cleared page are exact, and so is what else is read of it.
pub(crate) fn has_exact_bits(memory: &mut Memory) -> Result<bool, MemoryError> {
    let space = SpaceId::new(1);
    let Some(page) = PageNo::new(16) else {
        return Ok(false);
    };
    let was_bare = memory.word(space, page) == 0;
    memory.mmap(space, 0x10000, 4096, READ_WRITE)?;
    memory.sound();
    let is_stored = stores_to_fresh(memory, page)?;
    Ok(
        was_bare
            && is_stored
            && is_cleared(memory, page)
            && is_read(memory, page)
            && is_only(memory, page),
    )
}
