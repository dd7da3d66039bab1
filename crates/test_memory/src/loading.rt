//! Memories that begin with a snapshot.
use crate::support::{ENOMEM, FirstByte, NO_FRAME, READ, READ_WRITE, snapshot_of, told};
use sd_areas::{Snapshot, SpaceId};
use sd_pagetable::{Memory, MemoryError, StoreOutcome};
use std::alloc::{AllocError, Global};

/// Two pages of space 1, the second all zeros, and one of space 3.
const SAVED: &[FirstByte] = &[
    (1, 16, READ_WRITE, 0x61),
    (1, 17, READ_WRITE, 0),
    (3, 16, READ, 0x62),
];

/// Whether a store to a page that has a frame needs a fault, and no other page gets one.
fn stores_to_a_frame(memory: &mut Memory) -> Result<bool, MemoryError> {
    let one = SpaceId::new(1);
    let tried = memory.try_store(one, 0x10000, &[1]);
    memory.store_now(one, 0x10001, &[1])?;
    let refused = told(memory.store_now(one, 0x11000, &[1]))?;
    let child = memory.fork(one)?;
    Ok(
        tried == Ok(StoreOutcome::NeedsFault)
            && refused == Err(NO_FRAME)
            && child == SpaceId::new(2),
    )
}

/// Whether each page needs a fault, and only one that isn't all zeros has a frame.
fn begins_with(alloc: Global, saved: &Snapshot) -> Result<bool, MemoryError> {
    stores_to_a_frame(&mut Memory::from_snapshot(alloc, 2, saved)?)
}

fn begins_with_a_snapshot(alloc: Global) -> Result<bool, MemoryError> {
    begins_with(alloc, &snapshot_of(alloc, &[1, 3], SAVED)?)
}

const TWO_PAGES: &[FirstByte] = &[(1, 16, READ_WRITE, 1), (1, 17, READ_WRITE, 1)];

/// The frames, a space of a snapshot of two pages, and why a memory doesn't begin with it.
type Refused = (usize, u64, MemoryError);

const REFUSED: &[Refused] = &[
    (1, 1, NO_FRAME),
    (1, 17, ENOMEM),
    (2, 0, ENOMEM),
    (2, 17, ENOMEM),
];

/// Whether a memory of so many frames doesn't begin with a snapshot, for this reason.
fn is_refused(alloc: Global, frames: usize, saved: &Snapshot, wanted: MemoryError) -> bool {
    matches!(
        Memory::from_snapshot(alloc, frames.clamp(1, 65_536), saved),
        Err(error) if error == wanted
    )
}

/// Whether each row is refused.
fn are_refused(alloc: Global) -> Result<bool, AllocError> {
    for (frames, space, wanted) in REFUSED {
        if !is_refused(
            alloc,
            *frames,
            &snapshot_of(alloc, &[*space], TWO_PAGES)?,
            *wanted,
        ) {
            return Ok(false);
        }
    }
    Ok(true)
}

/// What a memory can begin with, what it can't, and in which order it is refused.
#[test]
fn begins_with_snapshots(rt: HostRuntime) -> Result<(), MemoryError> {
    assert!(rt; begins_with_a_snapshot(rt.alloc())?);
    assert!(rt; are_refused(rt.alloc())?);
    Ok(())
}
