//! What a crash leaves of a store after each call by which a receiver merges.
use crate::arrivals::leaves;
use crate::builders::{FIRST, FOURTH, SECOND, store};
use crate::receipts::write;
use sd_disk::{Fused, MemDisk};
use sd_receive::{Received, Receiver, settle};
use sd_stream::{StreamReader, StreamWriter, WriteError};
use std::alloc::{AllocError, Global};
use std::mem::forget;
use std::thread::Threads;

/// More calls than it takes.
const LIMIT: u64 = 100;

/// A stream of the third checkpoint, whose sender merged before it.
fn third_checkpoint(alloc: Global) -> Result<Vec<u8>, WriteError> {
    let mut writer = StreamWriter::begin(Vec::new(alloc), None)?;
    match write(alloc, &mut writer, &FOURTH) {
        Ok(()) => writer.end(),
        Err(why) => Err(why),
    }
}

/// A synced store of four slots, with two checkpoints.
fn two_checkpoints(alloc: Global) -> Result<MemDisk, AllocError> {
    let mut disk = store(alloc, &[FIRST, SECOND])?;
    let _ = settle(&mut disk);
    Ok(disk)
}

/// Receives the third checkpoint. Returns whether that was received.
fn receives<T: Threads>(
    threads: &T,
    alloc: Global,
    disk: &mut Fused<MemDisk>,
    stream: &[u8],
) -> bool {
    let Ok(reader) = StreamReader::begin(stream) else {
        return false;
    };
    let Ok(mut receiver) = Receiver::begin(alloc, disk, reader) else {
        return false;
    };
    let received = matches!(
        receiver.next(threads, alloc, disk),
        Ok(Received::Checkpoint(3))
    );
    forget(receiver);
    received
}

/// Whether the third checkpoint is received in so many calls. None where a crash after them leaves an older one than
/// the second, or than the third once that is received.
fn received_in<T: Threads>(
    threads: &T,
    alloc: Global,
    calls: u64,
    stream: &[u8],
) -> Result<Option<bool>, AllocError> {
    let mut fused = Fused::new(two_checkpoints(alloc)?, calls);
    let all = receives(threads, alloc, &mut fused, stream);
    let disk = fused.into_inner();
    let leaves = leaves(alloc, &disk, if all { 3 } else { 2 }, 3);
    forget(disk);
    Ok(leaves?.then_some(all))
}

/// Whether a crash leaves one of these, after each number of calls up to those that receive the third.
fn are_received_so<T: Threads>(
    threads: &T,
    alloc: Global,
    stream: &[u8],
) -> Result<bool, AllocError> {
    for calls in 0..LIMIT {
        match received_in(threads, alloc, calls, stream)? {
            Some(false) => {}
            Some(true) => return Ok(true),
            None => return Ok(false),
        }
    }
    Ok(false)
}

/// Whether a receiver that merges stands crashes.
fn stands<T: Threads>(threads: &T, alloc: Global) -> Result<bool, AllocError> {
    match third_checkpoint(alloc) {
        Ok(stream) => are_received_so(threads, alloc, &stream),
        Err(_) => Ok(false),
    }
}

#[test]
fn a_merge_of_a_receiver_stands_crashes(rt: HostRuntime) -> Result<(), AllocError> {
    assert!(rt; stands(&rt, rt.alloc())?);
    Ok(())
}
