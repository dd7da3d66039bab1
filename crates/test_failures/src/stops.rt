//! What a stop leaves of a store.
use crate::picks::Outcome;
use sd_areas::{Snapshot, SpaceId};
use sd_disk::MemDisk;
use sd_restore::{Fault, restore};
use std::alloc::{AllocError, Global};

/// The space has one page, which begins with these bytes.
fn begins_with(snapshot: &Snapshot, bytes: &[u8]) -> bool {
    match snapshot.spaces.get(&SpaceId::new(1)) {
        Some(pages) => {
            pages.len() == 1 && pages.values().all(|page| page.bytes.starts_with(bytes))
        }
        None => false,
    }
}

/// Whether its page begins with the bytes that belong to its checkpoint's number.
fn is_saved(snapshot: &Snapshot, saved: &[&[u8]]) -> bool {
    match saved.get(snapshot.checkpoint as usize) {
        Some(bytes) => begins_with(snapshot, bytes),
        None => false,
    }
}

/// The number of the checkpoint that a store shows, 0 where it shows none. Nothing where its page doesn't begin with
/// the bytes that belong to the number, or the store isn't restored.
fn shown(alloc: Global, disk: &mut MemDisk, saved: &[&[u8]]) -> Option<u64> {
    match restore(alloc, disk) {
        Ok(snapshot) if is_saved(&snapshot, saved) => Some(snapshot.checkpoint),
        Err(Fault::EmptyChain) => Some(0),
        _ => None,
    }
}

/// The same of a store that a stop leaves.
fn shown_by_stop(
    alloc: Global,
    disk: &MemDisk,
    mut pick: Outcome,
    saved: &[&[u8]],
) -> Result<Option<u64>, AllocError> {
    let mut left = disk.crash(alloc, &mut pick)?;
    Ok(shown(alloc, &mut left, saved))
}

/// The least and the greatest number that a store shows which a stop leaves; nothing where one shows none of those.
pub(crate) fn shown_by_stops(
    alloc: Global,
    disk: &MemDisk,
    picks: &[Outcome],
    saved: &[&[u8]],
) -> Result<Option<(u64, u64)>, AllocError> {
    let (mut least, mut greatest) = (u64::MAX, 0);
    for pick in picks {
        match shown_by_stop(alloc, disk, *pick, saved)? {
            Some(number) => {
                least = least.min(number);
                greatest = greatest.max(number);
            }
            None => return Ok(None),
        }
    }
    Ok(Some((least, greatest)))
}
