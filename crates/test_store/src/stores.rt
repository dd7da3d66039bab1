//! Stores that are read: how many reads that takes, and what is found where a call fails.
use crate::builders::{DATA, DUMP, FIRST, Image, SECOND, THIRD_MERGED, store};
use sd_disk::{Fused, MemDisk};
use sd_image::{Header, Version};
use sd_restore::{Fault, restore, verify};
use std::alloc::{AllocError, Global};
use std::mem::forget;

const TWO: &[Image] = &[FIRST, SECOND];

/// The merged image stands for the first.
const ALL: &[Image] = &[FIRST, SECOND, THIRD_MERGED];

/// Version 1 has no digest to be checked.
const OLD: &[Image] = &[
    (
        Header {
            version: Version::One,
            ..DUMP
        },
        DATA,
        7,
    ),
    SECOND,
];

/// A dump with one run of sixteen data pages.
const SIXTEEN: &[Image] = &[(
    Header { pages: 16, ..DUMP },
    [
        1, 0, 0, 0, 0, 0, 0, 0, //
        1, 0, 0, 0, 1, 0, 0, 0, 1, 0, 0, 0, 0, 0, 0, 0, //
        0x10, 0, 0, 0, 0, 0, 0, 0, 16, 0, 0, 0, 0, 0, 0, 0, 3, 0, 0, 0, 0, 0, 0, 0, //
        0x10, 0, 0, 0, 0, 0, 0, 0, 16, 0, 0, 0, 0, 0, 0, 0, 1, 0, 0, 0, 0, 0, 0, 0,
    ],
    6,
)];

/// Restores a store. Returns what is found.
fn restore_fault(alloc: Global, disk: &mut Fused<MemDisk>) -> Option<Fault> {
    match restore(alloc, disk) {
        Ok(snapshot) => {
            forget(snapshot);
            None
        }
        Err(fault) => Some(fault),
    }
}

/// Reads a store of which a call fails after so many: restores it, or else verifies it. Returns what is found, and how
/// many reads there were.
fn read(
    alloc: Global,
    images: &[Image],
    calls: u64,
    restores: bool,
) -> Result<(Option<Fault>, u64), AllocError> {
    let mut disk = Fused::new(store(alloc, images)?, calls);
    let fault = if restores {
        restore_fault(alloc, &mut disk)
    } else {
        verify(alloc, &mut disk).err()
    };
    let disk = disk.into_inner();
    let reads = disk.reads();
    forget(disk);
    Ok((fault, reads))
}

/// Stores, and how many reads a restore and a verification take. There are two reads for each open slot, one more for
/// each data page of version 2, and for a restore one more for its page. Sixteen data pages are read with one call for
/// their digest, and then one by one.
const READS: &[(&[Image], u64, u64)] = &[(ALL, 9, 8), (TWO, 6, 5), (OLD, 5, 4), (SIXTEEN, 19, 3)];

/// Whether a store is read so.
fn takes(
    alloc: Global,
    images: &[Image],
    restored: u64,
    verified: u64,
) -> Result<bool, AllocError> {
    Ok(
        read(alloc, images, u64::MAX, true)? == (None, restored)
            && read(alloc, images, u64::MAX, false)? == (None, verified),
    )
}

/// Whether each store is.
fn are_counted(alloc: Global) -> Result<bool, AllocError> {
    for (images, restored, verified) in READS {
        if !takes(alloc, images, *restored, *verified)? {
            return Ok(false);
        }
    }
    Ok(true)
}

/// What is found where the device fails after so many calls, if there are more than that.
fn fault_after(calls: u64, all: u64) -> Option<Fault> {
    if calls < all {
        Some(Fault::Device)
    } else {
        None
    }
}

/// Whether restoring and verifying fail as they should, where the device fails after so many calls.
fn fail_so(alloc: Global, calls: u64) -> Result<bool, AllocError> {
    let (restored, _) = read(alloc, TWO, calls, true)?;
    let (verified, _) = read(alloc, TWO, calls, false)?;
    Ok(restored == fault_after(calls, 10) && verified == fault_after(calls, 9))
}

/// Two open slots of four are asked with four lengths, four reads, and one of the data page for its digest, and a
/// restore reads that page besides. Whether the report is that, whichever of them fails.
fn each_fails_so(alloc: Global) -> Result<bool, AllocError> {
    for calls in 0..11u64 {
        if !fail_so(alloc, calls)? {
            return Ok(false);
        }
    }
    Ok(true)
}

#[test]
fn reads_are_counted_and_may_fail(rt: HostRuntime) -> Result<(), AllocError> {
    assert!(rt; are_counted(rt.alloc())?);
    assert!(rt; each_fails_so(rt.alloc())?);
    Ok(())
}
