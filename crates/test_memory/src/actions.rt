//! What is done with memories, one after the other.
use crate::line::Line;
use crate::memories::{TestAction, runs};
use crate::support::{CLEAN_ALONE, CLEAN_SHARED, DIRTY_ALONE, DIRTY_SHARED, FRESH, READ_WRITE};
use sd_pagetable::{AccessError, MemoryError, MemoryRefusal, Segv};
use std::alloc::Global;

/// A pool of one frame: a second page gets it once the first is unmapped.
const POOL_OF_ONE_FRAME: &[Line] = &[
    Line::Mmap(1, 0x1000, 4096, READ_WRITE),
    Line::Mmap(1, 0x3000, 4096, READ_WRITE),
    Line::StoreNow(1, 0x1000, &[1]),
    Line::StoreNowRefused(1, 0x3000, &[2], MemoryRefusal::NoFrame),
    Line::Munmap(1, 0x1000, 4096),
    Line::StoreNow(1, 0x3000, &[2]),
];

/// A page that is alone in its frame takes no frame, whether it is writable or was cleared, or was shared.
const FAULT_WITHOUT_A_FRAME: &[Line] = &[
    Line::Mmap(1, 0x1000, 8192, READ_WRITE),
    Line::Fault(1, 0x1000),
    Line::Fault(1, 0x1000),
    Line::StoreNow(1, 0x1000, &[0x61]),
    Line::FaultRefused(1, 0x2000, MemoryRefusal::NoFrame),
    Line::Clear(1),
    Line::Fault(1, 0x1000),
    Line::Load(1, 0x1000, &[0x61]),
    Line::LoadFails(1, 0x3000, 1, AccessError::Segv(Segv::Maperr)),
    Line::Fork(1, 2),
    Line::FaultRefused(1, 0x1000, MemoryRefusal::NoFrame),
    Line::StoreNowRefused(2, 0x1000, &[0x62], MemoryRefusal::NoFrame),
    Line::Exit(2),
    Line::LoadFails(
        2,
        0x1000,
        2,
        AccessError::Refused(MemoryRefusal::NoSuchSpace),
    ),
    Line::Fault(1, 0x1000),
];

/// A clear of one side leaves the other. This and the next are scripts that ran on a Linux kernel, as those of
/// `tests/rows/kernel_forks.ckpt`; a script of the program can't clear one space of several.
const CLEAR_AFTER_FORK: &[Line] = &[
    Line::Mmap(1, 0x1_0000_0000, 8192, READ_WRITE),
    Line::Store(1, 0x1_0000_0000, &[0x61]),
    Line::Fork(1, 2),
    Line::Clear(1),
    Line::Words(1, 0x1_0000_0000, &[CLEAN_SHARED, 0]),
    Line::Words(2, 0x1_0000_0000, &[DIRTY_SHARED, FRESH]),
    Line::Clear(2),
    Line::Words(2, 0x1_0000_0000, &[CLEAN_SHARED, 0]),
];

/// The child cleared, the parent stores.
const CLEAR_CHILD_ONLY: &[Line] = &[
    Line::Mmap(1, 0x1_0000_0000, 4096, READ_WRITE),
    Line::Store(1, 0x1_0000_0000, &[0x61]),
    Line::Fork(1, 2),
    Line::Clear(2),
    Line::Store(1, 0x1_0000_0000, &[0x62]),
    Line::Words(1, 0x1_0000_0000, &[DIRTY_ALONE]),
    Line::Words(2, 0x1_0000_0000, &[CLEAN_ALONE]),
];

/// The frames of each memory, and what is done with it.
const ACTIONS: &[(usize, TestAction)] = &[
    (1, TestAction::Script(POOL_OF_ONE_FRAME)),
    (1, TestAction::Script(FAULT_WITHOUT_A_FRAME)),
    (65_536, TestAction::Script(CLEAR_AFTER_FORK)),
    (65_536, TestAction::Script(CLEAR_CHILD_ONLY)),
    (16, TestAction::Bits),
    (16, TestAction::Procfs),
];

/// Whether each memory does what it should.
fn runs_each(alloc: Global) -> Result<bool, MemoryError> {
    for (frames, action) in ACTIONS {
        if !runs(alloc, *frames, *action)? {
            return Ok(false);
        }
    }
    Ok(true)
}

#[test]
fn memories_do_what_they_should(rt: HostRuntime) -> Result<(), MemoryError> {
    assert!(rt; runs_each(rt.alloc())?);
    Ok(())
}
