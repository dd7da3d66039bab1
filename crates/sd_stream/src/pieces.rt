//! Pieces of a stream, written to an output or read from an input, in as many calls as it needs.
ghost use Rattle.std.specs.Prelude.{◌≡◌, ◌≤◌, ◌<◌, ◌+◌, ℕ, List, [], length, take, drop, IfErr, IfOk, IfSome};
ghost use Rattle.std.specs.Prelude.{OnOk, OnErr};
ghost use Rattle.std.specs.Io.KnownBytes.{Appends, Consumes, IsAtEnd, Keeps};
ghost use Rattle.sd_stream.specs.Pieces.{IsCutOff, IsNoEnd, WritesBeginning};

use crate::stream_error::StreamError;
use std::io;
use std::io::{ErrorKind, Read, Write};

/// Writes the bytes. It fails only where a call failed, and wasn't interrupted, or took nothing.
pub(crate) fn write_piece<W: Write>(out: &mut W, bytes: &[u8]) -> io::Result<()>
    ensures bytes { OnOk result (Appends (W.contents out.old) (W.contents out.new) bytes.now) }
    ensures begins { WritesBeginning (W.contents out.old) (W.contents out.new) bytes.now }
{
    let mut rest = bytes;
    for _ in 0..u64::MAX {
        if rest.is_empty() {
            return Ok(());
        }
        let count = write_some(out, rest)?;
        rest = &rest[count..];
    }
    Err(io::Error::from(ErrorKind::WriteZero))
}

/// Writes the first of the bytes, and returns how many; none where the call was interrupted.
#[tactic(auto, using(crate::proofs::PieceLemmas::nothing_more))]
fn write_some<W: Write>(out: &mut W, bytes: &[u8]) -> io::Result<usize>
    ensures few { IfOk result (λ count. count ≤ length bytes.now) }
    ensures some { IfOk result (λ count.
        Appends (W.contents out.old) (W.contents out.new) (take count bytes.now)) }
    ensures none { OnErr result (Appends (W.contents out.old) (W.contents out.new) []) }
{
    match out.write(bytes) {
        Ok(0) => Err(io::Error::from(ErrorKind::WriteZero)),
        Ok(count) => Ok(count),
        Err(error) if error.kind() == ErrorKind::Interrupted => Ok(0),
        Err(error) => Err(error),
    }
}

/// Reads into the whole buffer.
pub(crate) fn read_piece<R: Read>(input: &mut R, buffer: &mut [u8]) -> Result<(), StreamError>
    ensures len { length buffer.new ≡ length buffer.old }
    ensures bytes { OnOk result
        (Consumes (R.remaining input.old) (R.remaining input.new) buffer.new) }
    ensures err { IfErr result
        (IsCutOff (R.remaining input.old) (R.remaining input.new) (length buffer.old)) }
{
    let len = buffer.len();
    let mut done = 0;
    for _ in 0..u64::MAX {
        if done == len {
            return Ok(());
        }
        done += read_more(input, buffer, done)?;
    }
    Err(StreamError::Input(io::Error::from(ErrorKind::TimedOut)))
}

/// Reads into the buffer from a place on, and returns how many bytes; none where the call was interrupted.
fn read_more<R: Read>(input: &mut R, buffer: &mut [u8], done: usize) -> Result<usize, StreamError>
    requires { done < length buffer.old }
    ensures len { length buffer.new ≡ length buffer.old }
    ensures front { take done buffer.new ≡ take done buffer.old }
    ensures fits { IfOk result (λ count. done + count ≤ length buffer.old) }
    ensures bytes { IfOk result (λ count.
        Consumes (R.remaining input.old) (R.remaining input.new) (take count (drop done buffer.new))) }
    ensures err { IfErr result (IsCutOff (R.remaining input.old) (R.remaining input.new) 1) }
{
    match input.read(&mut buffer[done..]) {
        Ok(0) => Err(StreamError::EndsEarly),
        Ok(count) => Ok(count),
        Err(error) if error.kind() == ErrorKind::Interrupted => Ok(0),
        Err(error) => Err(StreamError::Input(error)),
    }
}

/// Whether the input has no more bytes.
pub(crate) fn check_end<R: Read>(input: &mut R) -> Result<(), StreamError>
    ensures end { OnOk result (IsAtEnd (R.remaining input.new)) }
    ensures none { OnOk result (Keeps (R.remaining input.old) (R.remaining input.new)) }
    ensures err { IfSome (R.remaining input.old) (λ rest. IfErr result (IsNoEnd rest)) }
{
    let mut byte = [0];
    match read_piece(input, &mut byte) {
        Ok(()) => Err(StreamError::BytesAfterEnd),
        Err(StreamError::EndsEarly) => Ok(()),
        Err(error) => Err(error),
    }
}
