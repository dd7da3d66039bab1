//! What `/proc` shows of a memory.
use crate::support::{READ_EXECUTE, READ_WRITE};
use sd_areas::{PageNo, SpaceId};
use sd_pagetable::{Memory, MemoryError, StoreOutcome};
use sd_procfs::{ClearError, NoSuchSpace, clear_refs, listing, pagemap};
use std::alloc::{AllocError, Global};

/// Maps a page that is stored to, and a fresh one two pages after it.
fn map_two_pages(memory: &mut Memory) -> Result<(), MemoryError> {
    let space = SpaceId::new(1);
    memory.mmap(space, 0x10000, 4096, READ_WRITE)?;
    memory.mmap(space, 0x12000, 4096, READ_WRITE)?;
    memory.store_now(space, 0x10000, &[0x61])
}

/// Whether three pages have these words.
fn has_words(memory: &Memory, first: PageNo, wanted: &[u8; 24]) -> bool {
    let mut words = [7; 24];
    pagemap(memory, SpaceId::new(1), first, 3, &mut words) == Ok(()) && &words == wanted
}

/// Whether the last page and one after it have no words.
fn has_no_words(memory: &Memory, last: PageNo) -> bool {
    let mut words = [7; 16];
    pagemap(memory, SpaceId::new(1), last, 2, &mut words) == Ok(()) && words == [0; 16]
}

/// Whether a space that isn't alive has no words.
fn is_dead(memory: &Memory, page: PageNo) -> bool {
    let mut words = [7; 8];
    pagemap(memory, SpaceId::new(2), page, 1, &mut words) == Err(NoSuchSpace) && words == [7; 8]
}

const STORED_AND_FRESH: [u8; 24] = [
    0, 0, 0, 0, 0, 0, 0x80, 0x81, 0, 0, 0, 0, 0, 0, 0, 0, 0, 0, 0, 0, 0, 0, 0x80, 0,
];

const CLEARED: [u8; 24] = [
    0, 0, 0, 0, 0, 0, 0, 0x81, 0, 0, 0, 0, 0, 0, 0, 0, 0, 0, 0, 0, 0, 0, 0, 0,
];

/// Whether a store to the stored page is this.
fn tries(memory: &mut Memory, byte: u8, outcome: StoreOutcome) -> bool {
    memory.try_store(SpaceId::new(1), 0x10000, &[byte]) == Ok(outcome)
}

/// Whether a clear takes both bits of each page, past holes, and the next store needs a fault.
fn is_cleared(memory: &mut Memory, first: PageNo) -> bool {
    tries(memory, 0x62, StoreOutcome::Done)
        && clear_refs(memory, SpaceId::new(1), b"4\n") == Ok(())
        && has_words(memory, first, &CLEARED)
        && tries(memory, 0x63, StoreOutcome::NeedsFault)
}

/// Texts that are no value of `clear_refs`.
const NOT_TAKEN: &[&[u8]] = &[b"", b"1", b"5", b"44", b"4 ", b"4\n\n", b" 4"];

/// Whether none of these texts is taken.
fn takes_none(memory: &mut Memory) -> bool {
    for text in NOT_TAKEN {
        if clear_refs(memory, SpaceId::new(1), text) != Err(ClearError::UnsupportedValue) {
            return false;
        }
    }
    true
}

/// Whether a space that isn't alive comes before a text that isn't taken, and neither changes anything.
fn refuses_clears(memory: &mut Memory, page: PageNo) -> bool {
    let space = SpaceId::new(1);
    clear_refs(memory, SpaceId::new(2), b"5") == Err(ClearError::NoSuchSpace)
        && takes_none(memory)
        && memory.word(space, page) == 0x8180_0000_0000_0000
        && clear_refs(memory, space, b"4") == Ok(())
        && memory.word(space, page) == 0x8100_0000_0000_0000
}

/// Whether the areas of space 1 are listed so.
fn lists(alloc: Global, memory: &Memory, text: &str) -> Result<bool, AllocError> {
    match memory.areas(SpaceId::new(1)) {
        Some(areas) => Ok(listing(alloc, areas)?.as_str() == text),
        None => Ok(false),
    }
}

const LISTED: &str = "area 0x0 0x1000 rw-\narea 0x10000 0x11000 r-x\narea 0x12000 0x13000 rw-\n";

/// Adds an area, and gives another one other permissions.
fn change_areas(memory: &mut Memory) -> Result<(), MemoryError> {
    memory.mmap(SpaceId::new(1), 0, 1, READ_WRITE)?;
    memory.mprotect(SpaceId::new(1), 0x10000, 1, READ_EXECUTE)
}

/// Whether the words of a stored page, of a hole and of a fresh page are shown, and clears take their bits.
fn has_each_word(memory: &mut Memory) -> Result<bool, MemoryError> {
    let (Some(first), Some(last)) = (PageNo::new(16), PageNo::new(0x7_FFFF_FFFF)) else {
        return Ok(false);
    };
    map_two_pages(memory)?;
    let are_shown = has_words(memory, first, &STORED_AND_FRESH)
        && has_no_words(memory, last)
        && is_dead(memory, first)
        && is_cleared(memory, first);
    memory.store_now(SpaceId::new(1), 0x10000, &[0x61])?;
    Ok(are_shown && refuses_clears(memory, first))
}

/// Whether words, clears and areas are shown.
pub(crate) fn is_shown(alloc: Global, memory: &mut Memory) -> Result<bool, MemoryError> {
    let has_words = has_each_word(memory)?;
    change_areas(memory)?;
    Ok(has_words && lists(alloc, memory, LISTED)?)
}
