//! A stream, received to its end.
ghost use Rattle.std.specs.Prelude.{◌≡◌, ◌≢◌, ℕ, true, false, List, Option, IfOk, OnOk};
ghost use Rattle.std.specs.Io.KnownBytes.{Appends};
ghost use Rattle.sd_areas.specs.PlainMemory.{PlainMemory};
ghost use Rattle.sd_disk.specs.Crash.{Within};
ghost use Rattle.sd_image.specs.Shows.{Shows};
ghost use Rattle.sd_chain.specs.Ways.{AreImages};
ghost use Rattle.sd_receive.specs.Arrived.{IsReady, ReadsNext, Receives};
ghost use Rattle.sd_receive.specs.declared.receiver.Received.TheVariants as received;
ghost use Rattle.sd_arrivals.specs.Arrivals.{AreOfStream, IsReceived, ReadsOn, UnlessUnprinted, lines_with};
ghost use Rattle.sd_arrivals.specs.Arrivals.{received_line};

use crate::attaching::begin;
use sd_disk::Disk;
use sd_exit::Output;
use sd_receive::{ReceiveError, Received, Receiver};
use sd_stream::StreamError;
use std::alloc::Global;
use std::io;
use std::io::{Read, Write};
use std::thread::Threads;

/// Prints that a checkpoint was received, and flushes it.
fn report<W: Write>(out: &mut Output<W>, number: u64) -> io::Result<()>
    ensures { OnOk result (Appends (W.contents out.old.writer) (W.contents out.new.writer)
        (received_line number)) }
{
    writeln!(out, "received {number}")?;
    out.flush()
}

/// Receives the next image, and reports its checkpoint once that is durable.
fn receive_next<D: Disk, R: Read + Send, W: Write, T: Threads>(
    threads: &T,
    alloc: Global,
    disk: &mut D,
    receiver: &mut Receiver<R>,
    out: &mut Output<W>,
) -> Result<Received, ReceiveError>
    requires { AreImages receiver.old.catalog }
    ensures keeps { D.is_honest disk.new
        → IsReady (D.contents disk.old) (D.may_leave disk.old) receiver.old.catalog
        → (shown : Option (ℕ × PlainMemory)) → Shows (D.contents disk.old) shown
        → (memory : PlainMemory) × Receives D.Disk disk.old disk.new shown receiver.new.last memory result }
    ensures printed { UnlessUnprinted result
        (Appends (W.contents out.old.writer) (W.contents out.new.writer) (lines_with result)) }
    ensures reads { IfOk result (ReadsNext R.remaining receiver.old.reader receiver.new.reader) }
    ensures ready { D.is_honest disk.new
        → IsReady (D.contents disk.old) (D.may_leave disk.old) receiver.old.catalog
        → OnOk result (IsReady (D.contents disk.new) (D.may_leave disk.new) receiver.new.catalog) }
    ensures images { OnOk result (AreImages receiver.new.catalog) }
    ensures honest { D.is_honest disk.new → D.is_honest disk.old }
{
    let received = receiver.next(threads, alloc, disk)?;
    if let Received::Checkpoint(number) = received {
        report(out, number)?;
    }
    Ok(received)
}

/// Whether the stream is received to its end.
fn is_end(found: Received) -> bool
    ensures yes { result ≡ true → found ≡ received.End }
    ensures no { result ≡ false → found ≢ received.End }
{
    matches!(found, Received::End)
}

/// Receives what a stream still has, and returns how many images that is.
fn receive_all<D: Disk, R: Read + Send, W: Write, T: Threads>(
    threads: &T,
    alloc: Global,
    disk: &mut D,
    receiver: &mut Receiver<R>,
    out: &mut Output<W>,
) -> Result<u64, ReceiveError>
    requires { AreImages receiver.old.catalog }
    ensures keeps { D.is_honest disk.new
        → IsReady (D.contents disk.old) (D.may_leave disk.old) receiver.old.catalog
        → (shown : Option (ℕ × PlainMemory)) → Shows (D.contents disk.old) shown
        → (numbers : List ℕ) × IsReceived D.Disk disk.old disk.new shown numbers
        (W.contents out.old.writer) (W.contents out.new.writer) result
        × ReadsOn R.remaining receiver.old.reader receiver.new.reader numbers result }
    ensures honest { D.is_honest disk.new → D.is_honest disk.old }
{
    for count in 0..u64::MAX {
        let received = receive_next(threads, alloc, disk, receiver, out)?;
        if is_end(received) {
            return Ok(count);
        }
    }
    Err(ReceiveError::Stream(StreamError::Over))
}

/// Takes the images of a stream into a store, and prints `received N` after each checkpoint, once it is durable.
/// Returns how many images were received.
///
/// # Errors
///
/// Those of [`begin`] and of [`Receiver::next`]; `Output` where the printing failed. What was received stays.
pub fn receive<D: Disk, R: Read + Drop + Send, W: Write, T: Threads>(
    threads: &T,
    alloc: Global,
    disk: &mut D,
    input: R,
    out: &mut Output<W>,
) -> Result<u64, ReceiveError>
    // At each moment a crash leaves the last checkpoint that was received, or what was shown before where none was, or
    // the next; a line is printed for each that was received. They are the first of a stream that continues the store,
    // and at a good end all of it. So it is where a crash before leaves what is shown.
    ensures keeps { D.is_honest disk.new → (shown : Option (ℕ × PlainMemory))
        → Shows (D.contents disk.old) shown → Within (D.may_leave disk.old) (λ c. Shows c shown)
        → (numbers : List ℕ) × IsReceived D.Disk disk.old disk.new shown numbers
        (W.contents out.old.writer) (W.contents out.new.writer) result
        × AreOfStream (D.contents disk.old) (R.remaining input) numbers result }
    ensures honest { D.is_honest disk.new → D.is_honest disk.old }
{
    let mut receiver = begin(alloc, disk, input)?;
    receive_all(threads, alloc, disk, &mut receiver, out)
}
