//! A writer that notes what the one below it took.
ghost use Rattle.std.specs.Prelude.{◌≡◌, [], Some};

use crate::trace::ByteTrace;
use std::io;
use std::io::Write;

/// A writer over one of which nothing is known, as the standard output. For clauses alone it has the bytes that the
/// writer below reported as taken, in order: it takes no memory for them. What a clause says of them is so of what was
/// printed as far as the writer below prints what it reports.
#[derive(Drop)]
pub struct Taken<W> {
    writer: W,
    trace: ByteTrace,
}

impl<W: Write> Taken<W> {
    /// Nothing was taken yet.
    pub fn new(writer: W) -> Taken<W>
        ensures writer { result.writer ≡ writer }
        ensures nothing { result.trace.bytes ≡ [] }
    {
        Taken {
            writer,
            trace: ByteTrace::new(),
        }
    }
}

impl<W: Write> Write for Taken<W> {
    ghost contents = { λ taken. Some taken.trace.bytes };

    fn write(&mut self, bytes: &[u8]) -> io::Result<usize> {
        match self.writer.write(bytes) {
            Ok(count) => {
                self.trace.note(&bytes[..count]);
                Ok(count)
            }
            Err(error) => Err(error),
        }
    }

    fn flush(&mut self) -> io::Result<()> {
        self.writer.flush()
    }
}
