//! Outputs and inputs that fail, or are interrupted.
use crate::streams::{BASE, is_shown, read_all, two_checkpoints};
use sd_stream::StreamWriter;
use std::alloc::{AllocError, Global};
use std::io;
use std::io::{ErrorKind, Read, Write};

/// An input that gives a byte a call, is interrupted before each, and fails after so many.
#[derive(Drop)]
struct Halting {
    bytes: Vec<u8>,
    place: usize,
    fails_at: usize,
    is_interrupted: bool,
}

impl Read for Halting {
    fn read(&mut self, buffer: &mut [u8]) -> io::Result<usize> {
        self.is_interrupted = !self.is_interrupted;
        if self.is_interrupted {
            return Err(ErrorKind::Interrupted.into());
        }
        if self.place >= self.fails_at {
            return Err(ErrorKind::BrokenPipe.into());
        }
        if buffer.is_empty() || self.place >= self.bytes.len() {
            return Ok(0);
        }
        buffer[0] = self.bytes[self.place];
        self.place += 1;
        Ok(1)
    }
}

/// After how many bytes the input fails.
const HALTS: &[usize] = &[0, 10, 56, 60, 73, 100, 150, 164, 195, 196, 197];

/// Whether the end is read of an input that fails after so many bytes.
fn is_read(alloc: Global, fails_at: usize) -> (bool, bool) {
    let input = Halting {
        bytes: two_checkpoints(alloc),
        place: 0,
        fails_at,
        is_interrupted: false,
    };
    let (why, is_ended) = read_all(alloc, input);
    (why.is_none(), is_ended)
}

#[test]
fn an_input_that_halts_is_read(rt: HostRuntime) {
    for fails_at in HALTS {
        // Only at the end of the input it is known that nothing comes after the end.
        let is_whole = *fails_at == 197;
        assert!(rt;
            is_read(rt.alloc(), *fails_at) == (is_whole, is_whole),
            "at {fails_at}"
        );
    }
}

/// An output that takes so many bytes.
#[derive(Drop)]
struct Full {
    room: usize,
}

impl Write for Full {
    fn write(&mut self, bytes: &[u8]) -> io::Result<usize> {
        let count = bytes.len().min(self.room);
        self.room -= count;
        Ok(count)
    }

    fn flush(&mut self) -> io::Result<()> {
        Ok(())
    }
}

/// Whether an image is refused with this text.
fn refuses_image(
    alloc: Global,
    writer: &mut StreamWriter<Full>,
    text: &str,
) -> Result<bool, AllocError> {
    match writer.image(3) {
        Ok(()) => Ok(false),
        Err(why) => is_shown(alloc, &why, text),
    }
}

/// Whether nothing is written after the output was full.
fn stays_full(alloc: Global, writer: &mut StreamWriter<Full>) -> Result<bool, AllocError> {
    let is_full = writer.image(3).is_err() && refuses_image(alloc, writer, "the output failed")?;
    Ok(is_full && writer.bytes(b"").is_err() && writer.flush().is_err())
}

/// Whether that is so of an output with room for the head, and a stream without an end.
fn is_full(alloc: Global) -> Result<bool, AllocError> {
    let Ok(mut writer) = StreamWriter::begin(Full { room: 70 }, Some(BASE)) else {
        return Ok(false);
    };
    let stays = stays_full(alloc, &mut writer);
    Ok(writer.end().is_err() && stays?)
}

#[test]
fn a_full_output_is_told(rt: HostRuntime) -> Result<(), AllocError> {
    assert!(rt; StreamWriter::begin(Full { room: 55 }, Some(BASE)).is_err());
    assert!(rt; is_full(rt.alloc())?);
    Ok(())
}
