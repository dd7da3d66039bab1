//! Disks in memory: what their calls do, and what a crash leaves, rule by rule.
use crate::cases::{CALLS, Case, DONE_CALLS, FAILED_CALLS, Left};
use crate::picks::{Asked, Byte, GREATEST, NO_BYTE, Question, Rule};
use crate::steps::{Call, Step, first_wrong, holds};
use sd_disk::{Disk, Fused, MemDisk};
use std::alloc::{AllocError, Global};
use std::mem::forget;

/// The greatest files, with one byte at each place that may hold any.
const LONG: Rule = Rule {
    length: GREATEST,
    byte: Byte::All(0x5A),
};

/// Whether a crash of a crashed disk leaves the same of the first slot.
fn stays(alloc: Global, crashed: &MemDisk, want: &[u8]) -> Result<bool, AllocError> {
    let mut again = crashed.crash(alloc, &mut { LONG })?;
    let stays = holds(&mut again, 0, want);
    forget(again);
    Ok(stays)
}

/// Whether a crash by a rule leaves this of the first slot, and a further crash leaves that.
fn leaves(alloc: Global, disk: &MemDisk, left: Left) -> Result<bool, AllocError> {
    let (length, byte, want) = left;
    let mut crashed = disk.crash(alloc, &mut Rule { length, byte })?;
    let is_left = holds(&mut crashed, 0, want);
    let stays = stays(alloc, &crashed, want);
    forget(crashed);
    Ok(is_left && stays?)
}

/// Whether a disk has made these reads and has had these failures, has the file, and a crash leaves of it what it may.
fn is_as_told(alloc: Global, disk: &mut MemDisk, case: &Case) -> Result<bool, AllocError> {
    let counts = (disk.reads(), disk.failures());
    if counts != case.counts || !holds(disk, 0, case.file) {
        return Ok(false);
    }
    for left in case.left {
        if !leaves(alloc, disk, *left)? {
            return Ok(false);
        }
    }
    Ok(true)
}

/// Whether a case is as it says.
fn passes(alloc: Global, case: &Case) -> Result<bool, AllocError> {
    let (slots, bytes, calls) = case.room;
    let disk = MemDisk::new(alloc, slots.max(1).min(4), bytes, calls)?;
    let mut fused = if case.drops {
        Fused::dropping(disk, case.passes)
    } else {
        Fused::new(disk, case.passes)
    };
    let wrong = first_wrong(&mut fused, case.steps);
    let mut disk = fused.into_inner();
    let is = is_as_told(alloc, &mut disk, case);
    forget(disk);
    Ok(wrong.is_none() && is?)
}

/// Whether these cases are as they say.
fn all_pass(alloc: Global, cases: &[Case]) -> Result<bool, AllocError> {
    for case in cases {
        if !passes(alloc, case)? {
            return Ok(false);
        }
    }
    Ok(true)
}

fn calls_pass(alloc: Global) -> Result<bool, AllocError> {
    all_pass(alloc, CALLS)
}

fn done_calls_pass(alloc: Global) -> Result<bool, AllocError> {
    all_pass(alloc, DONE_CALLS)
}

fn failed_calls_pass(alloc: Global) -> Result<bool, AllocError> {
    all_pass(alloc, FAILED_CALLS)
}

/// Two slots, of which the first is synced and then written twice.
const TWO_SLOTS: &[Step] = &[
    (0, Call::Write(0, b"abcd"), true),
    (1, Call::Write(0, b"k"), true),
    (0, Call::Sync, true),
    (0, Call::Write(1, b"X"), true),
    (0, Call::Write(5, b"Y"), true),
];

/// What a crash of them asks.
const QUESTIONS: [Question; 6] = [
    (true, 0, [4, 6, 4, 6]),
    (false, 0, [1, 0x62, 0x58, 0]),
    (false, 0, [4, NO_BYTE, 0, 0]),
    (false, 0, [5, NO_BYTE, 0x59, 0]),
    (true, 1, [0, 1, 0, 1]),
    (false, 1, [0, NO_BYTE, 0x6B, 0]),
];

/// A disk after a crash has what is read now, and has counted nothing but these reads.
const AFTER: &[Step] = &[
    (0, Call::Holds(b"aXcd\0Y"), true),
    (1, Call::Holds(b"k"), true),
    (0, Call::Failures(0), true),
];

/// Whether a crash of a disk asks these questions, and leaves what is read now.
fn asks_in_order(alloc: Global, disk: &MemDisk) -> Result<bool, AllocError> {
    let mut asked = Asked {
        questions: &QUESTIONS,
        count: 0,
        is_right: true,
    };
    let mut crashed = disk.crash(alloc, &mut asked)?;
    let is_left = first_wrong(&mut crashed, AFTER).is_none() && crashed.reads() == 2;
    forget(crashed);
    Ok(is_left && asked.is_right && asked.count == QUESTIONS.len())
}

/// Whether a crash of two slots asks of the first one first.
fn are_asked_in_order(alloc: Global) -> Result<bool, AllocError> {
    let mut disk = MemDisk::new(alloc, 2, 8, 16)?;
    let is_made = first_wrong(&mut disk, TWO_SLOTS).is_none();
    let asks = asks_in_order(alloc, &disk);
    forget(disk);
    Ok(is_made && asks?)
}

#[test]
fn calls_do_and_crashes_leave_what_they_may(rt: HostRuntime) -> Result<(), AllocError> {
    assert!(rt; calls_pass(rt.alloc())?);
    assert!(rt; done_calls_pass(rt.alloc())?);
    assert!(rt; failed_calls_pass(rt.alloc())?);
    assert!(rt; are_asked_in_order(rt.alloc())?);
    Ok(())
}
