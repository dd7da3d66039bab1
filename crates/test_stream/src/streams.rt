//! Streams that are written and read.
use sd_stream::{Base, Item, StreamError, StreamReader, StreamWriter, WriteError};
use std::alloc::{AllocError, Global};
use std::fmt::Display;
use std::io::Read;

/// The base of the streams here.
pub(crate) const BASE: Base = Base {
    number: 3,
    digest: [7; 32],
};

/// Whether a value prints this text.
pub(crate) fn is_shown<T: Display>(
    alloc: Global,
    value: &T,
    text: &str,
) -> Result<bool, AllocError> {
    Ok(format!(in alloc; "{value}")?.as_str() == text)
}

/// A call of a writer.
#[derive(Clone, Copy)]
pub(crate) enum Call {
    Image(u64),
    Bytes(&'static [u8]),
    Acknowledged(u64),
    Flush,
}

/// Makes a call.
pub(crate) fn make(writer: &mut StreamWriter<Vec<u8>>, call: Call) -> Result<(), WriteError> {
    match call {
        Call::Image(len) => writer.image(len),
        Call::Bytes(bytes) => writer.bytes(bytes),
        Call::Acknowledged(number) => writer.acknowledged(number),
        Call::Flush => writer.flush(),
    }
}

fn make_each(writer: &mut StreamWriter<Vec<u8>>, calls: &[Call]) -> Result<(), WriteError> {
    for call in calls {
        make(writer, *call)?;
    }
    Ok(())
}

/// Writes a stream by these calls.
fn written(alloc: Global, base: Option<Base>, calls: &[Call]) -> Result<Vec<u8>, WriteError> {
    let mut writer = StreamWriter::begin(Vec::new(alloc), base)?;
    match make_each(&mut writer, calls) {
        Ok(()) => writer.end(),
        Err(why) => Err(why),
    }
}

/// The stream of these calls, without a byte where one is refused.
fn stream_of(alloc: Global, base: Option<Base>, calls: &[Call]) -> Vec<u8> {
    match written(alloc, base, calls) {
        Ok(stream) => stream,
        Err(_) => Vec::new(alloc),
    }
}

const TWO: &[Call] = &[
    Call::Image(3),
    Call::Bytes(b"abc"),
    Call::Image(5),
    Call::Bytes(b"de"),
    Call::Bytes(b""),
    Call::Bytes(b"fgh"),
    Call::Acknowledged(4),
    Call::Flush,
    Call::Image(4),
    Call::Bytes(b"ijkl"),
    Call::Acknowledged(9),
];

/// A stream of two checkpoints: 4, of images of 3 and 5 bytes, and 9, of one of 4 bytes. It has 196 bytes.
pub(crate) fn two_checkpoints(alloc: Global) -> Vec<u8> {
    stream_of(alloc, Some(BASE), TWO)
}

/// A checkpoint, of an image of 3 bytes.
const ONE: &[Call] = &[Call::Image(3), Call::Bytes(b"abc"), Call::Acknowledged(4)];

/// What a stream says: its items, and the bytes of all images, read two at a time.
#[derive(Drop)]
pub(crate) struct Said {
    base: Option<Base>,
    items: Vec<Item>,
    bytes: Vec<u8>,
}

impl Said {
    fn new(alloc: Global) -> Said {
        Said {
            base: None,
            items: Vec::new(alloc),
            bytes: Vec::new(alloc),
        }
    }

    /// Whether the end was read.
    pub(crate) fn is_ended(&self) -> bool {
        self.items.last() == Some(&Item::End)
    }

    fn has_said(&self, base: Option<Base>, items: &[Item], bytes: &[u8]) -> bool {
        self.base == base && self.items.as_slice() == items && self.bytes.as_slice() == bytes
    }
}

/// Reads bytes of an image. Returns how many.
fn read_bytes<R: Read>(
    reader: &mut StreamReader<R>,
    bytes: &mut Vec<u8>,
) -> Result<usize, StreamError> {
    let mut buffer = [0; 2];
    let count = reader.bytes(&mut buffer)?.min(2);
    let _ = bytes.extend_from_slice(&buffer[..count]);
    Ok(count)
}

/// Reads the next item, and the bytes of an image.
fn read_next<R: Read>(reader: &mut StreamReader<R>, said: &mut Said) -> Result<Item, StreamError> {
    let item = reader.next()?;
    let _ = said.items.push(item);
    if let Item::Image(_) = item {
        for _ in 0..1000 {
            if read_bytes(reader, &mut said.bytes)? == 0 {
                return Ok(item);
            }
        }
    }
    Ok(item)
}

/// Reads the items. Returns why no more is read, where that isn't the end.
fn read_items<R: Read>(reader: &mut StreamReader<R>, said: &mut Said) -> Option<StreamError> {
    for _ in 0..1000 {
        match read_next(reader, said) {
            Ok(Item::End) => return None,
            Ok(_) => {}
            Err(why) => return Some(why),
        }
    }
    None
}

/// Reads a stream as far as it goes, of which what is said is kept. A growth that is refused leaves something out.
/// Returns why it isn't read to its end, if so.
pub(crate) fn read_into<R: Read + Drop>(said: &mut Said, input: R) -> Option<StreamError> {
    match StreamReader::begin(input) {
        Ok(mut reader) => {
            said.base = reader.base();
            read_items(&mut reader, said)
        }
        Err(why) => Some(why),
    }
}

/// Reads a stream as far as it goes. Returns why it isn't read to its end, if so, and whether its end was read.
pub(crate) fn read_all<R: Read + Drop>(alloc: Global, input: R) -> (Option<StreamError>, bool) {
    let mut said = Said::new(alloc);
    let why = read_into(&mut said, input);
    (why, said.is_ended())
}

/// Whether a stream says this, and no more.
fn says(alloc: Global, stream: &[u8], base: Option<Base>, items: &[Item], bytes: &[u8]) -> bool {
    let mut said = Said::new(alloc);
    read_into(&mut said, stream).is_none() && said.has_said(base, items, bytes)
}

const ITEMS: &[Item] = &[
    Item::Image(3),
    Item::Image(5),
    Item::Acknowledged(4),
    Item::Image(4),
    Item::Acknowledged(9),
    Item::End,
];

/// Whether a stream of two checkpoints says what was written.
fn two_are_read(alloc: Global) -> bool {
    let stream = two_checkpoints(alloc);
    stream.len() == 196 && says(alloc, &stream, Some(BASE), ITEMS, b"abcdefghijkl")
}

/// A stream of one checkpoint. Its last 32 bytes are the SHA-256 of the others, as sha256sum has it.
const ONE_STREAM: &[u8] = b"ckptsend\x01\0\0\0\0\0\0\0\x03\0\0\0\0\0\0\0\
    \x07\x07\x07\x07\x07\x07\x07\x07\x07\x07\x07\x07\x07\x07\x07\x07\
    \x07\x07\x07\x07\x07\x07\x07\x07\x07\x07\x07\x07\x07\x07\x07\x07\
    \x01\0\0\0\0\0\0\0\x03\0\0\0\0\0\0\0abc\
    \x02\0\0\0\0\0\0\0\x04\0\0\0\0\0\0\0\
    \x03\0\0\0\0\0\0\0\0\0\0\0\0\0\0\0\
    \xa8\xc0\x28\x62\x01\xda\x0e\x95\x3e\x0a\x58\x76\x50\x33\x04\x3a\
    \x4c\xb4\x62\xc1\x53\xe1\xd5\x81\x43\xd9\x4b\x85\x70\x08\x94\x48";

fn is_one_stream(alloc: Global) -> bool {
    stream_of(alloc, Some(BASE), ONE).as_slice() == ONE_STREAM
}

/// Whether a stream without a checkpoint says nothing. Its digest begins with these bytes.
fn nothing_is_read(alloc: Global) -> bool {
    let stream = stream_of(alloc, None, &[]);
    stream.len() == 104
        && stream[72..].starts_with(b"\x77\xcf\xc5\x7d")
        && says(alloc, &stream, None, &[Item::End], b"")
}

#[test]
fn what_is_written_is_read(rt: HostRuntime) {
    let alloc = rt.alloc();
    assert!(rt; two_are_read(alloc) && is_one_stream(alloc) && nothing_is_read(alloc));
}
