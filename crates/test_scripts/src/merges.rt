//! Merges of the chain in a store, also where its device fails.
use crate::run::{CHAIN, CHAIN_SHOWN, ROOM, answers, fresh, is_printed};
use sd_disk::{Disk, Fused, MemDisk};
use sd_exit::Output;
use sd_run::{Unwatched, merge_to};
use std::process::Abort;
use std::str;
use std::test::Fail;

/// Merges a store, which prints this and ends with this status, and gives the disk back.
fn merges<D: Disk>(rt: &(impl Abort + AllocGlobal), disk: D, printed: &str, status: u8) -> D {
    let mut out = Output::new(Vec::new(rt.alloc()));
    let (disk, ended) = merge_to(rt.alloc(), disk, &mut out, &mut Unwatched);
    assert_eq!(rt; str::from_utf8(&out.into_writer()).ok(), Some(printed));
    assert_eq!(rt; ended, status);
    disk
}

const CHAIN_MERGED: &str = "slot 002 merged serial 3 stands 2 parent 0 checkpoint 2 pages 1
tip 3
";

#[test]
fn a_chain_is_merged(rt: HostRuntime) -> Result<(), Fail> {
    let mut disk = merges(&rt, fresh(&rt, CHAIN)?, "merged 3\n", 0);
    is_printed(&rt, &mut disk, "list", CHAIN_MERGED);
    is_printed(&rt, &mut disk, "restore", CHAIN_SHOWN);
    let mut disk = merges(&rt, disk, "merged 4\n", 0);
    is_printed(&rt, &mut disk, "restore", CHAIN_SHOWN);
    Ok(())
}

/// The opening makes as many calls.
const OPENING: u64 = 8 * 4;

/// A device that fails is the answer.
#[test]
fn a_store_that_fails_is_not_merged(rt: HostRuntime) -> Result<(), Fail> {
    let disk = Fused::new(fresh(&rt, CHAIN)?, OPENING);
    merges(&rt, disk, "refused 22 device\n", 1);
    Ok(())
}

/// The chain in a store of four slots.
fn chain_of_four(rt: &(impl Abort + AllocGlobal)) -> Result<MemDisk, Fail> {
    let disk = MemDisk::new(rt.alloc(), 4, ROOM, 1_000)?;
    answers(rt, disk, "reopened none", CHAIN)
}

/// A store whose merge failed, or came to its end, shows what it did before, and is merged then.
fn is_merged_afterwards(
    rt: &(impl Abort + AllocGlobal),
    mut disk: MemDisk,
    status: u8,
) -> Result<bool, Fail> {
    is_printed(rt, &mut disk, "restore", CHAIN_SHOWN);
    let mut out = Output::new(Vec::new(rt.alloc()));
    let (mut disk, ended) = merge_to(rt.alloc(), disk, &mut out, &mut Unwatched);
    assert_eq!(rt; ended, 0, "{:?}", str::from_utf8(&out.into_writer()).ok());
    is_printed(rt, &mut disk, "restore", CHAIN_SHOWN);
    Ok(status == 0)
}

/// Merges a chain while this call of the device fails, with its write made or dropped. Whether the call came after
/// the end.
fn merges_past_failure(
    rt: &(impl Abort + AllocGlobal),
    call: u64,
    is_dropped: bool,
) -> Result<bool, Fail> {
    let chain = chain_of_four(rt)?;
    let disk = if is_dropped {
        Fused::dropping(chain, call)
    } else {
        Fused::new(chain, call)
    };
    let mut out = Output::new(Vec::new(rt.alloc()));
    let (disk, status) = merge_to(rt.alloc(), disk, &mut out, &mut Unwatched);
    is_merged_afterwards(rt, disk.into_inner(), status)
}

/// Each call of the device fails in turn.
fn merges_past_failures(rt: &(impl Abort + AllocGlobal), is_dropped: bool) -> Result<(), Fail> {
    for call in 0..200 {
        if merges_past_failure(rt, call, is_dropped)? {
            assert!(rt; call >= 48);
            return Ok(());
        }
    }
    Err("a call that isn't made".into())
}

#[test]
fn a_merge_whose_device_fails(rt: HostRuntime) -> Result<(), Fail> {
    merges_past_failures(&rt, false)
}

#[test]
fn a_merge_whose_device_drops_a_call(rt: HostRuntime) -> Result<(), Fail> {
    merges_past_failures(&rt, true)
}
