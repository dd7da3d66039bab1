//! A trim while the store is down.
use crate::run::{answers, empty, is_printed};
use sd_disk::Fused;
use std::test::Fail;

/// The sync after the gate of checkpoint 2 fails: the store is down, and the checkpoint stays pending. A trim folds
/// up to the one before it; after the reopening, which finds it, up to that.
const WHILE_DOWN: &str = "mmap 1 0x10000 4096 rw => done
store 1 0x10000 68656c6c6f => done
checkpoint 0 => acked 1
checkpoint 0 => refused 22 device
work dumper => refused 13 store-down
trim => trimmed 5
trim => refused 14 idle
load 1 0x10000 1 => refused 6 frozen
reopen => reopened 2
trim => trimmed 3
load 1 0x10000 5 => bytes 68656c6c6f
checkpoint 0 => acked 3";

const SHOWN: &str = "checkpoint 3
space 1
area 0x10000 0x11000 rw-
bytes 0x10000 68656c6c6f000000000000000000000000000000000000000000000000000000
";

/// How many calls come before that sync: those of the opening, of the opener over eight empty slots, of checkpoint
/// 1, and of checkpoint 2 before its last.
const CALLS: u64 = 24 + 16 + 9 + 7;

#[test]
fn a_store_that_is_down_is_trimmed(rt: HostRuntime) -> Result<(), Fail> {
    let disk = Fused::new(empty(rt.alloc())?, CALLS);
    let mut disk = answers(&rt, disk, "reopened none", WHILE_DOWN)?.into_inner();
    is_printed(&rt, &mut disk, "restore", SHOWN);
    Ok(())
}
