//! An opener driven by hand over a disk in memory.
use sd_disk::{Disk, MemDisk};
use sd_gate::{Phase, Request, perform};
use sd_opener::{Opened, Opener, OpenerProgress, OpenerStep};
use std::alloc::{AllocError, Global};

/// What a step of the opener came to.
#[derive(Clone, Copy, PartialEq, Eq)]
enum Stepped {
    /// A device call was made.
    Call,
    /// Every slot was read.
    AllRead,
    /// Anything else.
    Other,
}

/// Makes a device call of the opener.
fn call<D: Disk>(opener: &mut Opener, disk: &mut D, request: Request) -> Stepped {
    if request.id().slot >= disk.slots() {
        return Stepped::Other;
    }
    match opener.hand_in(perform(disk, request)) {
        OpenerProgress::More => Stepped::Call,
        _ => Stepped::Other,
    }
}

/// Makes a step of the opener, with its device call.
fn step<D: Disk>(opener: &mut Opener, disk: &mut D, calls: u64) -> Stepped {
    match opener.work(calls) {
        Ok(OpenerStep::AllRead) => Stepped::AllRead,
        Ok(OpenerStep::Call(request)) => call(opener, disk, request),
        _ => Stepped::Other,
    }
}

/// Whether each of so many steps of the opener makes a device call, and the one after them says that every slot was
/// read.
fn reads_all<D: Disk>(opener: &mut Opener, disk: &mut D, most: u64) -> bool {
    for calls in 0..most {
        if step(opener, disk, calls) != Stepped::Call {
            return false;
        }
    }
    step(opener, disk, most) == Stepped::AllRead
}

/// Whether an opener reads three slots, each synced and asked for its length.
fn reads_three_slots(alloc: Global, opener: &mut Opener) -> Result<bool, AllocError> {
    let mut disk = MemDisk::new(alloc, 3, 10_000, 100)?;
    Ok(reads_all(opener, &mut disk, 6))
}

/// Whether an opener that is done found an empty store of three slots.
fn finds_nothing(opened: &Opened) -> bool {
    opened.phases.len() == 3
        && opened
            .phases
            .iter()
            .all(|phase| matches!(phase, Phase::Raw))
        && opened.catalog.tip().is_none()
}

/// Finishes the opener. Returns whether it wasn't damaged, and found nothing.
fn finishes(opener: Opener) -> bool {
    match opener.finish() {
        Ok(opened) => finds_nothing(&opened),
        Err(_) => false,
    }
}

/// Whether an opener reads an empty store.
fn is_read(alloc: Global) -> Result<bool, AllocError> {
    let mut opener = Opener::new(alloc, 3)?;
    let is_read = reads_three_slots(alloc, &mut opener) == Ok(true);
    Ok(finishes(opener) && is_read)
}

#[test]
fn an_empty_store_is_read(rt: HostRuntime) -> Result<(), AllocError> {
    assert!(rt; is_read(rt.alloc())?);
    Ok(())
}
