//! What a crash leaves of a store after each call by which a stream is received.
use crate::arrivals::leaves;
use crate::builders::{FIRST, Image, SECOND, image_file, store};
use sd_disk::{Fused, MemDisk};
use sd_receive::{Received, Receiver, settle};
use sd_stream::{StreamReader, StreamWriter, WriteError};
use std::alloc::{AllocError, Global};
use std::mem::forget;
use std::thread::Threads;

/// How many calls it takes: to sync and look at four empty slots, and to take in two images.
const CALLS: u64 = 29;

fn write_file(writer: &mut StreamWriter<Vec<u8>>, file: &[u8]) -> Result<(), WriteError> {
    writer.image(file.len() as u64)?;
    writer.bytes(file)
}

/// Writes an image and its checkpoint.
pub(crate) fn write(
    alloc: Global,
    writer: &mut StreamWriter<Vec<u8>>,
    image: &Image,
) -> Result<(), WriteError> {
    match image_file(alloc, image) {
        Ok(file) => write_file(writer, &file)?,
        Err(_) => {}
    }
    writer.acknowledged(image.0.checkpoint)
}

fn write_both(alloc: Global, writer: &mut StreamWriter<Vec<u8>>) -> Result<(), WriteError> {
    write(alloc, writer, &FIRST)?;
    write(alloc, writer, &SECOND)
}

/// A stream of two checkpoints.
fn two_checkpoints(alloc: Global) -> Result<Vec<u8>, WriteError> {
    let mut writer = StreamWriter::begin(Vec::new(alloc), None)?;
    match write_both(alloc, &mut writer) {
        Ok(()) => writer.end(),
        Err(why) => Err(why),
    }
}

/// Receives two checkpoints, as far as it comes. Returns the last that was received, or 0.
fn receive<T: Threads>(
    threads: &T,
    alloc: Global,
    disk: &mut Fused<MemDisk>,
    stream: &[u8],
) -> u64 {
    let Ok(reader) = StreamReader::begin(stream) else {
        return 0;
    };
    let Ok(mut receiver) = Receiver::begin(alloc, disk, reader) else {
        return 0;
    };
    let mut last = 0;
    if let Ok(Received::Checkpoint(number)) = receiver.next(threads, alloc, disk) {
        last = number;
        if let Ok(Received::Checkpoint(number)) = receiver.next(threads, alloc, disk) {
            last = number;
        }
    }
    forget(receiver);
    last
}

/// Whether after so many calls a crash leaves the last checkpoint that was received, or the next.
fn is_cut_off_so<T: Threads>(
    threads: &T,
    alloc: Global,
    calls: u64,
    stream: &[u8],
) -> Result<bool, AllocError> {
    let mut fused = Fused::new(store(alloc, &[])?, calls);
    let last = receive(threads, alloc, &mut fused, stream);
    let disk = fused.into_inner();
    let leaves = leaves(alloc, &disk, last, last.saturating_add(1).min(2));
    forget(disk);
    Ok((last == 2) == (calls >= CALLS) && leaves?)
}

/// Whether it is so after any number of calls.
fn are_cut_off_so<T: Threads>(
    threads: &T,
    alloc: Global,
    stream: &[u8],
) -> Result<bool, AllocError> {
    for calls in 0..CALLS + 2 {
        if !is_cut_off_so(threads, alloc, calls, stream)? {
            return Ok(false);
        }
    }
    Ok(true)
}

/// Whether a stream of two checkpoints stands crashes.
fn stands<T: Threads>(threads: &T, alloc: Global) -> Result<bool, AllocError> {
    match two_checkpoints(alloc) {
        Ok(stream) => are_cut_off_so(threads, alloc, &stream),
        Err(_) => Ok(false),
    }
}

/// Whether a store with an image is settled.
fn is_settled(alloc: Global) -> Result<bool, AllocError> {
    let mut disk = store(alloc, &[FIRST])?;
    let settled = settle(&mut disk).is_ok();
    forget(disk);
    Ok(settled)
}

#[test]
fn what_was_received_stands_crashes(rt: HostRuntime) -> Result<(), AllocError> {
    assert!(rt; stands(&rt, rt.alloc())?);
    assert!(rt; is_settled(rt.alloc())?);
    Ok(())
}
