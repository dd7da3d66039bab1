//! Crashes after a run, and a gate whose sync fails.
use crate::run::{FIRST_SHOWN, answers, empty, fresh, is_printed, printed};
use sd_disk::{Disk, Fused, MemDisk, Pick};
use std::process::Abort;
use std::test::Fail;

/// What reads now, and a byte for the gate of slot 1.
#[derive(Clone, Copy)]
struct Torn {
    gate: u8,
}

impl Pick for Torn {
    ghost aims = { λ _ _. ⊥ };

    fn len(&mut self, _slot: usize, _least: u64, _greatest: u64, _synced: u64, now: u64) -> u64 {
        now
    }

    fn byte(&mut self, slot: usize, at: u64, _synced: Option<u8>, now: Option<u8>) -> u8 {
        if slot == 1 && at == 0 {
            self.gate
        } else {
            now.unwrap_or(0)
        }
    }
}

/// The last event writes the gate of checkpoint 2: nine events format its slot, one freezes, one finds the page
/// clean, and nine write the table and the header and sync them.
const GATE_WRITTEN: &str = "mmap 1 0x10000 4096 rw => done
store 1 0x10000 68656c6c6f => done
checkpoint 0 => acked 1
begin 0 => begun 2
step dumper 22 => worked";

/// What a store is restored to begins so.
fn shows_first<D: Disk>(rt: &(impl Abort + AllocGlobal), disk: &mut D, first: &str) {
    let (out, _) = printed(rt.alloc(), disk, "restore");
    assert!(rt; out.starts_with(first.as_bytes()), "{first}");
}

/// A crash that leaves this byte as the gate of checkpoint 2.
fn is_torn(
    rt: &(impl Abort + AllocGlobal),
    disk: &MemDisk,
    gate: u8,
    first: &str,
) -> Result<(), Fail> {
    let mut crashed = disk.crash(rt.alloc(), &mut Torn { gate })?;
    shows_first(rt, &mut crashed, first);
    Ok(())
}

fn is_torn_or_open(rt: &(impl Abort + AllocGlobal), disk: &MemDisk) -> Result<(), Fail> {
    is_torn(rt, disk, 0xA5, "checkpoint 2\n")?;
    is_torn(rt, disk, 0x3C, "checkpoint 1\n")
}

#[test]
fn torn_gate(rt: HostRuntime) -> Result<(), Fail> {
    let disk = fresh(&rt, GATE_WRITTEN)?;
    is_torn_or_open(&rt, &disk)
}

/// The sync after the gate of checkpoint 2 fails.
const DOUBTFUL: &str = "mmap 1 0x10000 4096 rw => done
store 1 0x10000 68656c6c6f => done
checkpoint 0 => acked 1
checkpoint 0 => refused 22 device
work dumper => refused 13 store-down
load 1 0x10000 1 => refused 6 frozen
cancel => refused 11 busy
begin 0 => refused 13 store-down
reopen => reopened 2
load 1 0x10000 5 => bytes 68656c6c6f
checkpoint 0 => acked 3";

const LISTED: &str = "slot 000 dump serial 1 stands 1 parent 0 checkpoint 1 pages 1
slot 001 dump serial 2 stands 2 parent 1 checkpoint 2 pages 0
slot 002 dump serial 3 stands 3 parent 0 checkpoint 3 pages 1
tip 3
";

/// How many calls come before that sync: those of the opening, of the opener over eight empty slots, of checkpoint
/// 1, and of checkpoint 2 before its last.
const CALLS: u64 = 24 + 16 + 9 + 7;

#[test]
fn doubtful_commit(rt: HostRuntime) -> Result<(), Fail> {
    let disk = Fused::new(empty(rt.alloc())?, CALLS);
    let mut disk = answers(&rt, disk, "reopened none", DOUBTFUL)?;
    is_printed(&rt, &mut disk, "list", LISTED);
    Ok(())
}

/// A crash that leaves what reads now.
#[derive(Clone, Copy)]
struct Now;

impl Pick for Now {
    ghost aims = { λ _ _. ⊥ };

    fn len(&mut self, _slot: usize, _least: u64, _greatest: u64, _synced: u64, now: u64) -> u64 {
        now
    }

    fn byte(&mut self, _slot: usize, _at: u64, _synced: Option<u8>, now: Option<u8>) -> u8 {
        now.unwrap_or(0)
    }
}

/// The merged image is open beside the round of a checkpoint, and slot 0 isn't closed yet: all but the nine events
/// that close it are made.
const OPENED_BESIDE_ROUND: &str = "mmap 1 0x10000 4096 rw => done
store 1 0x10000 68656c6c6f => done
checkpoint 0 => acked 1
store 1 0x10000 62 => done
begin 1 => begun 2
step dumper 36 => worked
begin-merge => worked
step merger 30 => worked";

const BOTH_LISTED: &str = "slot 000 dump serial 1 stands 1 parent 0 checkpoint 1 pages 1
slot 001 pre-dump serial 2 stands 2 parent 1 checkpoint 2 pages 1
slot 003 merged serial 3 stands 1 parent 0 checkpoint 1 pages 1
tip 3
";

/// Two images stand for number 1 after the crash, and both hold the memory of checkpoint 1.
fn shows_both(rt: &(impl Abort + AllocGlobal), disk: &MemDisk) -> Result<(), Fail> {
    let mut crashed = disk.crash(rt.alloc(), &mut Now)?;
    is_printed(rt, &mut crashed, "list", BOTH_LISTED);
    is_printed(rt, &mut crashed, "restore", FIRST_SHOWN);
    Ok(())
}

#[test]
fn a_crash_between_the_merged_gate_and_the_closing(rt: HostRuntime) -> Result<(), Fail> {
    let disk = fresh(&rt, OPENED_BESIDE_ROUND)?;
    shows_both(&rt, &disk)
}
