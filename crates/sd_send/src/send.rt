//! `ckpt send`: the images of a store, as a stream on the standard output.
ghost use Rattle.std.specs.Prelude.{◌≡◌, ◌≢◌, IfOk, OnOk};
ghost use Rattle.sd_disk.specs.Folder.{outside_of};
ghost use Rattle.sd_send.specs.Sending.{SendsFiles};
ghost use Rattle.sd_send.specs.Asked.{SendsAsked};

use crate::follow::follow;
use crate::send_error::SendError;
use crate::sending::send_to;
use crate::sent::Sent;
use sd_disk::Disk;
use sd_exit::{Output, Stop, exit_with_fault};
use sd_program::{Called, Causes, NOT_THERE, SeenDisk, unseen};
use sd_restore::Fault;
use sd_stream::WriteError;
use std::io::{IsTerminal, Write};
use std::sync::Wait;
use std::time::Clock;

/// The exit status where nothing is sent, or not all.
const FAILED: u8 = 1;

/// What is said of an output on a terminal.
const IS_TERMINAL: &str = "a stream isn't written to a terminal: lead it into a pipe or a file";

/// What is asked of a sender.
#[derive(Clone, Copy)]
pub struct SendAsked {
    /// The checkpoint that the receiver has.
    pub since: Option<u64>,
    /// Whether it goes on beside a run that writes the store.
    pub follow: bool,
    /// Whether it reports a document.
    pub as_json: bool,
}

/// Reports how much was sent.
fn tell_sent(called: Called<'_>, asked: SendAsked, sent: Sent) {
    if called.causes != Causes::Told {
        return;
    }
    if asked.as_json {
        let Sent { images, bytes } = sent;
        let _ = eprintln!(called.rt; "{{\"bytes\":{bytes},\"images\":{images}}}");
    } else {
        let _ = eprintln!(called.rt; "{sent}");
    }
}

/// Reports that a store has no checkpoint of a number, and which it has.
fn tell_not_there(called: Called<'_>, since: u64) {
    called.tell(&format_args!("no checkpoint {since}"));
    if let Ok(disk) = called.open_store() {
        called.report_numbers(disk);
    }
}

/// Reports why a store isn't sent, and returns the exit status. Nothing is printed: what was written is a stream.
fn told<W: Write>(
    called: Called<'_>,
    since: u64,
    error: SendError,
    out: &mut Output<W>,
) -> Result<u8, Stop>
    ensures failed { IfOk result (λ status. status ≢ 0) }
{
    match error {
        SendError::NotThere => {
            tell_not_there(called, since);
            Ok(out.finish(NOT_THERE))
        }
        SendError::Gone(number) => {
            called.tell(&format_args!("checkpoint {number} is gone, which was sent last"));
            Ok(out.finish(FAILED))
        }
        SendError::Folder(_) => Ok(FAILED),
        SendError::Stream(WriteError::Output(error)) => Err(Stop::Writer(error)),
        SendError::Stream(error) => {
            called.tell(&error);
            Ok(out.finish(FAILED))
        }
        SendError::Fault(fault) => {
            tell_fault(called, fault);
            Ok(exit_with_fault(fault, out))
        }
    }
}

/// Reports the fault of a store, but for what every program reports at its end.
fn tell_fault(called: Called<'_>, fault: Fault) {
    match fault {
        Fault::Device | Fault::Damaged { .. } => called.report_beside(),
        Fault::OutOfMemory => called.tell(&fault),
        Fault::EmptyChain => {}
    }
}

/// Sends a store as it is, and gives the output back.
fn send_once<W: Write + Drop>(
    called: Called<'_>,
    since: Option<u64>,
    out: W,
) -> Result<(W, Sent), SendError>
    ensures sends { IfOk result (λ sent. SendsFiles ⟦<SeenDisk<'static> as Disk>⟧
        (outside_of called.entry.found.now).found since (W.contents out) (W.contents sent.0)) }
{
    let log = called.logger();
    let seen = called.seen(&log, called.is_watched());
    let mut disk = seen.disk("send", called.open_store()?);
    let ended = send_to(called.rt.alloc(), &mut disk, since, out);
    called.report_device(&unseen(disk));
    ended
}

/// Sends a store as it is asked for, and says how much was sent.
fn send_by<R: Clock + Wait, W: Write>(
    called: Called<'_>,
    clock: &R,
    asked: SendAsked,
    out: &mut Output<W>,
) -> Result<Sent, SendError>
    ensures sends { OnOk result (SendsAsked ⟦<SeenDisk<'static> as Disk>⟧ (outside_of called.entry.found.now).found
        asked (W.contents out.old.writer)) }
{
    if asked.follow {
        return follow(called, clock, asked.since, out);
    }
    let (_, sent) = send_once(called, asked.since, out)?;
    Ok(sent)
}

/// `ckpt send`. It only reads the store, and writes the stream to the standard output, which is no terminal.
///
/// # Errors
///
/// Where the folder isn't opened, whose cause is reported, and where the stream can't be written.
pub fn send_program<R: Clock + Wait, W: Write>(
    called: Called<'_>,
    clock: &R,
    asked: SendAsked,
    out: &mut Output<W>,
) -> Result<u8, Stop>
    // With status 0 the writer that was lent was given back with all of the stream of the files that are found.
    ensures sends { IfOk result (λ status. status ≡ 0 → SendsAsked ⟦<SeenDisk<'static> as Disk>⟧
        (outside_of called.entry.found.now).found asked (W.contents out.old.writer)) }
{
    if called.rt.stdout().is_terminal() {
        called.tell(&IS_TERMINAL);
        return Ok(FAILED);
    }
    match send_by(called, clock, asked, out) {
        Ok(sent) => {
            tell_sent(called, asked, sent);
            Ok(out.finish(0))
        }
        Err(error) => told(called, asked.since.unwrap_or(0), error, out),
    }
}
