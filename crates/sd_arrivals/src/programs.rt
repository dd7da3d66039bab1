//! `ckpt receive`: a stream from the standard input, taken into a store.
ghost use Rattle.std.specs.Prelude.{◌≡◌, ◌++◌, true, List, ℕ, IfOk, OnErr, OnOk};
ghost use Rattle.std.specs.Io.KnownBytes.{Appends};
ghost use Rattle.sd_disk.specs.Folder.{outside_of};
ghost use Rattle.sd_disk.specs.Reads.{OnlyReads};
ghost use Rattle.sd_arrivals.specs.Programs.{EndsAs, EndsEarlier, IsTipOf, Receives, TipsFiles, fault_in, tip_text};
ghost use Rattle.sd_arrivals.specs.Programs.{why_front};

use crate::receiving::receive;
use sd_disk::{DirDisk, Disk};
use sd_exit::{Output, Stop, exit};
use sd_program::{Called, Causes, SeenDisk, unseen};
use sd_receive::ReceiveError;
use sd_restore::{Fault, newest_checkpoint, scan};
use sd_send::memory_digest;
use sd_stream::{Base, StreamError};
use std::alloc::{AllocError, Global};
use std::io::{IsTerminal, Write};
use std::sync::Wait;
use std::thread::Threads;
use std::time::Clock;
use std::{fmt, io};

/// The exit status where a stream isn't received, or not all.
const FAILED: u8 = 1;

/// What is reported of an input on a terminal.
const IS_TERMINAL: &str = "a stream isn't read from a terminal: lead one into the standard input";

/// What is reported where no slot is free.
const IS_FULL: &str =
    "no slot is free, and a merge needs one: receive the whole into another folder";

/// A checkpoint by its number, or none.
#[derive(Clone, Copy)]
struct Shown(Option<u64>);

impl fmt::Display for Shown {
    fn fmt<W: fmt::Write>(&self, f: &mut fmt::Formatter<W>) -> fmt::Result {
        match self.0 {
            Some(number) => write!(f, "{number}"),
            None => f.write_str("no checkpoint"),
        }
    }
}

/// Where a stream begins that continues a checkpoint, or none.
#[derive(Clone, Copy)]
struct Begins(Option<Base>);

impl fmt::Display for Begins {
    fn fmt<W: fmt::Write>(&self, f: &mut fmt::Formatter<W>) -> fmt::Result {
        match self.0 {
            Some(base) => write!(f, "at {}", base.number),
            None => f.write_str("with a whole image"),
        }
    }
}

/// How the line begins that says why no more is received.
fn front_of(error: &ReceiveError) -> &'static [u8]
    ensures { result.now ≡ why_front error.now }
{
    match error {
        ReceiveError::Fault(_) | ReceiveError::Output(_) => b"",
        ReceiveError::BaseDiffers { .. } => b"base differs: ",
        ReceiveError::NoSlot => b"no-slot",
        ReceiveError::Stream(StreamError::EndsEarly) => b"stream ends early",
        _ => b"damaged stream ",
    }
}

/// What a store shows, and where the stream begins that doesn't continue it.
fn base_text(
    called: Called<'_>,
    shows: Option<u64>,
    base: Option<Base>,
) -> Result<String, AllocError> {
    let folder = called.folder;
    let other = matches!((shows, base), (Some(number), Some(base)) if number == base.number);
    let which = if other { "another memory at " } else { "" };
    let (shows, begins) = (Shown(shows), Begins(base));
    format!(in called.rt.alloc(); "{folder} shows {which}{shows}, the stream begins {begins}\n")
}

/// How the line goes on that says why no more is received.
fn rest_of(called: Called<'_>, error: ReceiveError) -> Result<String, AllocError> {
    let alloc = called.rt.alloc();
    match error {
        ReceiveError::Fault(_) | ReceiveError::Output(_) => Ok(String::new(alloc)),
        ReceiveError::BaseDiffers { shows, base } => base_text(called, shows, base),
        ReceiveError::NoSlot | ReceiveError::Stream(StreamError::EndsEarly) => {
            format!(in alloc; "\n")
        }
        error => format!(in alloc; "{error}\n"),
    }
}

/// Prints why a stream isn't received, or no further. What is wrong with a store or its device is printed later, and
/// where the printing failed nothing more is.
fn print_why<W: Write>(
    called: Called<'_>,
    error: ReceiveError,
    out: &mut Output<W>,
) -> io::Result<()>
    ensures line { OnOk result ((rest : List ℕ) × Appends (W.contents out.old.writer) (W.contents out.new.writer)
        (why_front error ++ rest)) }
    ensures refused { OnErr result (out.new.refused ≡ true) }
{
    if matches!(error, ReceiveError::NoSlot) {
        called.tell(&IS_FULL);
    }
    out.write_all(front_of(&error))?;
    match rest_of(called, error) {
        Ok(rest) => out.write_all(rest.as_bytes()),
        Err(_) => out.write_all(b"out-of-memory\n"),
    }
}

/// Reports how many images were received.
fn tell_received(called: Called<'_>, as_json: bool, images: u64) {
    if called.causes != Causes::Told {
        return;
    }
    if as_json {
        let _ = eprintln!(called.rt; "{{\"images\":{images}}}");
    } else {
        let _ = eprintln!(called.rt; "received {images} images");
    }
}

/// What is wrong with a store, its device or the memory, where no more is received for that.
fn fault_of(error: &ReceiveError) -> Option<Fault>
    ensures { result ≡ fault_in error.now }
{
    match error {
        ReceiveError::Fault(fault) => Some(*fault),
        _ => None,
    }
}

/// Prints why a stream isn't received, or no further, and returns the exit status.
fn end_early<W: Write>(called: Called<'_>, error: ReceiveError, out: &mut Output<W>) -> u8
    ensures ends { EndsEarlier (fault_in error) error (W.contents out.old.writer) (W.contents out.new.writer)
        out.new.refused result }
{
    if let Some(fault) = fault_of(&error) {
        return exit(&Err(Stop::Fault(fault)), out);
    }
    let _ = print_why(called, error, out);
    out.finish(FAILED)
}

/// Prints how a receipt ended, and returns the exit status.
fn end<W: Write>(
    called: Called<'_>,
    as_json: bool,
    ended: Result<u64, ReceiveError>,
    out: &mut Output<W>,
) -> u8
    ensures ends { EndsAs ended (W.contents out.old.writer) (W.contents out.new.writer) out.new.refused result }
{
    match ended {
        Ok(images) => {
            tell_received(called, as_json, images);
            exit(&Ok(()), out)
        }
        Err(error) => end_early(called, error, out),
    }
}

/// `ckpt receive`. The folder is made where it is missing.
///
/// # Errors
///
/// Those of a folder that isn't opened.
pub fn receive_program<R: Clock + Threads + Wait, W: Write>(
    called: Called<'_>,
    threads: &R,
    as_json: bool,
    out: &mut Output<W>,
) -> Result<u8, Stop>
    // A stream is received into the files that are found, but from a terminal: at each moment a crash leaves the last
    // checkpoint that was received, or what was shown before, or the next; a line was printed for each, and then why no
    // more is received, with the exit status.
    ensures receives { IfOk result (Receives ⟦<SeenDisk<'static> as Disk>⟧ (outside_of called.entry.found.now).found
        (W.contents out.old.writer) (W.contents out.new.writer) out.new.refused) }
{
    if called.rt.stdin().is_terminal() {
        called.tell(&IS_TERMINAL);
        return Ok(FAILED);
    }
    let log = called.logger();
    let seen = called.seen(&log, false);
    let mut disk = seen.disk("receive", called.make_store(threads)?);
    let ended = receive(
        threads,
        called.rt.alloc(),
        &mut disk,
        called.rt.stdin(),
        out,
    );
    called.report_device(&unseen(disk));
    Ok(end(called, as_json, ended, out))
}

/// Prints the number and the digest of a store's newest checkpoint, and returns the exit status.
fn print_tip<W: Write>(
    as_json: bool,
    number: u64,
    digest: &str,
    out: &mut Output<W>,
) -> io::Result<()>
    ensures line { OnOk result (Appends (W.contents out.old.writer) (W.contents out.new.writer)
        (tip_text as_json number digest.now)) }
{
    if as_json {
        writeln!(out, "{{\"digest\":\"{digest}\",\"tip\":{number}}}")
    } else {
        writeln!(out, "tip {number} {digest}")
    }
}

/// The number of a store's newest checkpoint, and the digest of its memory.
fn read_tip<D: Disk>(alloc: Global, disk: &mut D) -> Result<(u64, [u8; 32]), Fault>
    ensures tip { D.is_honest disk.new → IfOk result (λ tip. IsTipOf (D.contents disk.old) tip.0 tip.1) }
    ensures reads { OnlyReads D.Disk disk.old disk.new }
{
    let catalog = scan(alloc, disk)?;
    let Some(number) = newest_checkpoint(&catalog) else {
        return Err(Fault::EmptyChain);
    };
    let digest = memory_digest(alloc, disk, number)?;
    Ok((number, digest))
}

/// `ckpt receive --tip`: the number that `send --since` needs, and the digest of the memory.
///
/// # Errors
///
/// Those of a folder that isn't opened, of the store, and of the printing.
pub fn tip_program<W: Write>(
    called: Called<'_>,
    as_json: bool,
    out: &mut Output<W>,
) -> Result<u8, Stop>
    // The files that are found are only read. The line has the number of the checkpoint that they show, and the digest
    // of its memory.
    ensures tips { IfOk result (TipsFiles ⟦<DirDisk as Disk>⟧ (outside_of called.entry.found.now).found as_json
        (W.contents out.old.writer) (W.contents out.new.writer) out.new.refused) }
{
    let mut disk = called.open_store()?;
    let (number, digest) = read_tip(called.rt.alloc(), &mut disk)?;
    let digest = hex::encode(called.rt.alloc(), digest)?;
    print_tip(as_json, number, &digest, out)?;
    Ok(out.finish(0))
}
