//! What a crash leaves of a store after each call by which an image arrives in a closed slot.
use crate::builders::{DATA, DUMP, FIRST, Image, store, with_digest};
use crate::picks::{RULES, Rule};
use sd_areas::PAGE_SIZE;
use sd_disk::{Disk, Fused, MemDisk};
use sd_image::Header;
use sd_receive::{format, open_gate, put_page};
use sd_restore::{newest_checkpoint, scan};
use std::alloc::{AllocError, Global};
use std::mem::forget;

/// A dump of checkpoint 2 with a page of its own.
const NEXT: Image = (
    Header {
        serial: 2,
        stands_for: 2,
        parent: 1,
        checkpoint: 2,
        ..DUMP
    },
    DATA,
    9,
);

/// The slot that it arrives in.
const SLOT: usize = 2;

/// How many calls that takes: a sync, a length and three to format an empty file, one for the page, and five for the
/// table, the header and the gate.
const CALLS: u64 = 2 + 3 + 1 + 5;

/// Puts the image into its slot. Returns whether each call was done.
fn arrives(alloc: Global, disk: &mut Fused<MemDisk>) -> Result<bool, AllocError> {
    let page = vec![in alloc; NEXT.2; PAGE_SIZE]?;
    let mut table = Vec::new(alloc);
    table.extend_from_slice(&NEXT.1)?;
    let header = with_digest(&NEXT);
    if header.pages != 1 || table.is_empty() {
        return Ok(false);
    }
    if disk.slots() <= SLOT || format(disk, SLOT).is_err() {
        return Ok(false);
    }
    if disk.slots() <= SLOT || put_page(disk, SLOT, 0, page).is_err() {
        return Ok(false);
    }
    Ok(disk.slots() > SLOT && open_gate(disk, SLOT, header, table).is_ok())
}

/// A store with one image that is on its device.
fn synced(alloc: Global) -> Result<MemDisk, AllocError> {
    let mut disk = store(alloc, &[FIRST])?;
    for slot in 0..4 {
        if slot < disk.slots() {
            let _ = disk.sync(slot);
        }
    }
    Ok(disk)
}

/// The checkpoint that a disk shows, or 0.
fn newest(alloc: Global, disk: &mut MemDisk) -> u64 {
    let Ok(catalog) = scan(alloc, disk) else {
        return 0;
    };
    let newest = newest_checkpoint(&catalog);
    forget(catalog);
    newest.unwrap_or(0)
}

/// The checkpoint that a crash of a disk by a rule leaves, or 0.
fn left(alloc: Global, disk: &MemDisk, mut rule: Rule) -> Result<u64, AllocError> {
    let mut crashed = disk.crash(alloc, &mut rule)?;
    let newest = newest(alloc, &mut crashed);
    forget(crashed);
    Ok(newest)
}

/// Whether a crash of a disk by each rule leaves one of these checkpoints.
pub(crate) fn leaves(
    alloc: Global,
    disk: &MemDisk,
    least: u64,
    greatest: u64,
) -> Result<bool, AllocError> {
    for rule in RULES {
        let newest = left(alloc, disk, *rule)?;
        if newest < least || greatest < newest {
            return Ok(false);
        }
    }
    Ok(true)
}

/// Whether after so many calls a crash leaves the first checkpoint, or the next one where it may be there, and has to
/// be at the end.
fn is_cut_off_so(alloc: Global, calls: u64) -> Result<bool, AllocError> {
    let mut fused = Fused::new(synced(alloc)?, calls);
    let all = arrives(alloc, &mut fused)?;
    let disk = fused.into_inner();
    let leaves = leaves(alloc, &disk, if all { 2 } else { 1 }, 2);
    forget(disk);
    Ok(all == (calls >= CALLS) && leaves?)
}

/// Whether it is so after any number of calls.
fn are_cut_off_so(alloc: Global) -> Result<bool, AllocError> {
    for calls in 0..CALLS + 2 {
        if !is_cut_off_so(alloc, calls)? {
            return Ok(false);
        }
    }
    Ok(true)
}

#[test]
fn images_arrive_whole_or_not(rt: HostRuntime) -> Result<(), AllocError> {
    assert!(rt; are_cut_off_so(rt.alloc())?);
    Ok(())
}
