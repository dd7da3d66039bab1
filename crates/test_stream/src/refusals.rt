//! Streams that were changed.
use crate::streams::{is_shown, read_all, two_checkpoints};
use sd_stream::{Item, StreamReader};
use std::alloc::{AllocError, Global};

/// What a stream is said to be that is read to its end.
const READ: &str = "read";

/// Whether bytes aren't read as a stream for this reason, or are read.
fn ends_so(alloc: Global, bytes: &[u8], wanted: &str) -> Result<bool, AllocError> {
    match read_all(alloc, bytes).0 {
        Some(why) => is_shown(alloc, &why, wanted),
        None => Ok(wanted == READ),
    }
}

/// Another byte at a place of a stream of two checkpoints, and why that isn't read.
type Change = (usize, u8, &'static str);

const CHANGES: &[Change] = &[
    (0, b'C', "not a stream of ckpt send"),
    (8, 2, "stream of version 2, not 1"),
    (16, 0, "digest of a base without a number"),
    (17, 1, "checkpoint 4 isn't above the one before"),
    (24, 8, "digest differs"),
    (56, 0, "record of kind 0"),
    (56, 4, "record of kind 4"),
    (57, 1, "record of kind 257"),
    (64, 0, "image of 0 bytes"),
    (68, 1, "image of 4294967299 bytes"),
    (56, 2, "checkpoint 3 without an image"),
    (56, 3, "end with the value 3"),
    (72, b'x', "digest differs"),
    (75, 3, "images without a checkpoint"),
    (104, 3, "checkpoint 3 isn't above the one before"),
    (140, 4, "checkpoint 4 isn't above the one before"),
    (140, 10, "digest differs"),
    (156, 1, "end with the value 1"),
    (164, 0, "digest differs"),
];

/// Whether a changed stream isn't read for this reason.
fn is_named(alloc: Global, change: &Change) -> Result<bool, AllocError> {
    let (place, byte, wanted) = *change;
    let mut stream = two_checkpoints(alloc);
    if let Some(old) = stream.get_mut(place) {
        *old = byte;
    }
    ends_so(alloc, &stream, wanted)
}

#[test]
fn each_change_has_its_name(rt: HostRuntime) -> Result<(), AllocError> {
    for change in CHANGES {
        assert!(rt; is_named(rt.alloc(), change)?, "at {}", change.0);
    }
    Ok(())
}

/// Whether another byte at a place is noticed. It is put back.
fn is_noticed(alloc: Global, stream: &mut [u8], place: usize) -> bool {
    let Some(byte) = stream.get(place).copied() else {
        return false;
    };
    stream[place] = byte ^ 32;
    let is_read = read_all(alloc, &*stream).0.is_none();
    stream[place] = byte;
    !is_read
}

/// Whether that is so at each place, and the stream is read.
fn each_is_noticed(alloc: Global, stream: &mut [u8]) -> Result<bool, AllocError> {
    for place in 0..stream.len() {
        if !is_noticed(alloc, stream, place) {
            return Ok(false);
        }
    }
    ends_so(alloc, stream, READ)
}

/// Whether a stream ends early that is cut at any place.
fn each_cut_ends_early(alloc: Global, stream: &[u8]) -> Result<bool, AllocError> {
    for len in 0..stream.len() {
        if !ends_so(alloc, &stream[..len], "stream ends early")? {
            return Ok(false);
        }
    }
    Ok(true)
}

/// Whether nothing comes after the end.
fn ends_at_its_end(alloc: Global, stream: &mut Vec<u8>) -> Result<bool, AllocError> {
    stream.push(0)?;
    ends_so(alloc, stream, "bytes after the end")
}

/// Whether a reader of a stream that is cut before its first image's bytes reads nothing after the failure. These bytes
/// come before the next item.
fn is_over(alloc: Global, reader: &mut StreamReader<&[u8]>) -> Result<bool, AllocError> {
    let is_cut = matches!(reader.next(), Ok(Item::Image(3)))
        && reader.next().is_err()
        && reader.bytes(&mut [0; 3]).is_err();
    match reader.next() {
        Ok(_) => Ok(false),
        Err(why) => Ok(is_cut && is_shown(alloc, &why, "the stream was read")?),
    }
}

fn stays_over(alloc: Global, stream: &[u8]) -> Result<bool, AllocError> {
    match StreamReader::begin(&stream[..72.min(stream.len())]) {
        Ok(mut reader) => is_over(alloc, &mut reader),
        Err(_) => Ok(false),
    }
}

#[test]
fn a_stream_is_read_whole(rt: HostRuntime) -> Result<(), AllocError> {
    let mut stream = two_checkpoints(rt.alloc());
    assert!(rt; each_is_noticed(rt.alloc(), &mut stream)?);
    assert!(rt; each_cut_ends_early(rt.alloc(), &stream)? && stays_over(rt.alloc(), &stream)?);
    assert!(rt; ends_at_its_end(rt.alloc(), &mut stream)?);
    Ok(())
}
