//! Writers that take little at a time, are interrupted, or fail in several ways.
use sd_exit::Output;
use std::alloc::Global;
use std::io;
use std::io::{ErrorKind, Write};
use std::test::Fail;

/// A writer that takes one byte a call, and is interrupted before each.
#[derive(Drop)]
struct Halting {
    taken: Vec<u8>,
    is_interrupted: bool,
}

impl Write for Halting {
    fn write(&mut self, bytes: &[u8]) -> io::Result<usize> {
        self.is_interrupted = !self.is_interrupted;
        if self.is_interrupted {
            return Err(ErrorKind::Interrupted.into());
        }
        match bytes.first() {
            Some(byte) => {
                self.taken.push(*byte)?;
                Ok(1)
            }
            None => Ok(0),
        }
    }

    fn flush(&mut self) -> io::Result<()> {
        Ok(())
    }
}

/// Prints a text to a halting writer, and returns whether anything was refused, and what it took.
fn printed_halting(alloc: Global, text: &str) -> (bool, Vec<u8>) {
    let mut out = Output::new(Halting {
        taken: Vec::new(alloc),
        is_interrupted: false,
    });
    let ended = out.write_all(text.as_bytes());
    let refuses = ended.is_err() || out.is_refused() || out.error().is_some();
    (refuses, out.into_writer().taken)
}

#[test]
fn a_writer_that_halts_takes_all(rt: HostRuntime) -> Result<(), Fail> {
    let text = "a writer is called as often as it needs";
    let (refuses, taken) = printed_halting(rt.alloc(), text);
    assert!(rt; !refuses);
    assert_eq!(rt; taken.as_slice(), text.as_bytes());
    Ok(())
}

/// A writer that fails in one way and then in another.
#[derive(Drop)]
struct FailingAnew {
    calls: usize,
}

impl Write for FailingAnew {
    fn write(&mut self, _bytes: &[u8]) -> io::Result<usize> {
        self.calls = self.calls.saturating_add(1);
        if self.calls == 1 {
            return Err(ErrorKind::BrokenPipe.into());
        }
        Err(ErrorKind::InvalidData.into())
    }

    fn flush(&mut self) -> io::Result<()> {
        Err(ErrorKind::NotFound.into())
    }
}

#[test]
fn the_first_error_is_kept(rt: HostRuntime) -> Result<(), Fail> {
    let mut out = Output::new(FailingAnew { calls: 0 });
    let refused = out.write_all(b"first").is_err() && out.write_all(b"second").is_err();
    let status = out.finish(0);
    let kind = out.error().map(|error| error.kind());
    assert!(rt; refused && status == 1 && kind == Some(ErrorKind::BrokenPipe));
    Ok(())
}
