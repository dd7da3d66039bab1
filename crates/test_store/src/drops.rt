//! What a crash leaves of a store after each call that closes an image.
use crate::arrivals::leaves;
use crate::builders::{FIRST, SECOND, THIRD_MERGED, store};
use sd_disk::{Disk, Fused, MemDisk};
use sd_drop::drop_image;
use std::alloc::{AllocError, Global};
use std::mem::forget;

/// How many calls a drop makes before it writes: two for the gate, four to read each of the two images with a data page
/// and three for the other, one to measure the closed slot, and a sync of each slot. Four calls close the slot then.
const FIRST_CALL: u64 = 2 + 2 * 4 + 3 + 1 + 4;

/// Whether the first slot is one byte, and no call failed.
fn is_closed(disk: &mut MemDisk) -> bool {
    disk.failures() == 0 && disk.slots() == 4 && disk.len(0) == Ok(1)
}

/// Whether a drop of the first image that is cut off after so many calls stands crashes, which leave the second
/// checkpoint, and whether the image is closed then. The merged image stands for the first, so the second leads to it
/// and not to the first.
fn is_cut_off_so(alloc: Global, calls: u64) -> Result<bool, AllocError> {
    let mut fused = Fused::new(store(alloc, &[FIRST, SECOND, THIRD_MERGED])?, calls);
    let ended = drop_image(alloc, &mut fused, 0, false).is_ok();
    let mut disk = fused.into_inner();
    let all = FIRST_CALL + 4 <= calls;
    let is_so = ended == all && (!all || is_closed(&mut disk));
    let stands = leaves(alloc, &disk, 2, 2);
    forget(disk);
    Ok(is_so && stands?)
}

/// Whether it is so after each call that closes the slot.
fn are_cut_off_so(alloc: Global) -> Result<bool, AllocError> {
    for calls in FIRST_CALL..FIRST_CALL + 5 {
        if !is_cut_off_so(alloc, calls)? {
            return Ok(false);
        }
    }
    Ok(true)
}

#[test]
fn drops_stand_crashes(rt: HostRuntime) -> Result<(), AllocError> {
    assert!(rt; are_cut_off_so(rt.alloc())?);
    Ok(())
}
