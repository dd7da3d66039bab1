//! How a program ends: what it prints last, and its exit status.
ghost use Rattle.std.specs.Prelude.{◌≡◌, true, [], Some, Err, OnOk, OnErr};
ghost use Rattle.std.specs.Io.KnownBytes.{Appends};
ghost use Rattle.sd_exit.specs.Ending.{Exits, IsWrittenLast, end_status, end_text, fault_printed, status_of, stop_text};
ghost use Rattle.sd_exit.specs.Texts.{fault_line};
ghost use Rattle.sd_restore.specs.declared.fault.Fault.TheVariants.{Damaged};

use crate::output::Output;
use crate::stop::Stop;
use sd_image::Reason;
use sd_restore::Fault;
use std::io;
use std::io::Write;

/// The exit status of a program that was refused or stopped.
const FAILED: u8 = 1;

/// The exit status where the script doesn't fit the language.
const UNFIT: u8 = 2;

/// The exit status where the store shows that nothing was saved.
const NOTHING_SAVED: u8 = 3;

/// Prints why a program ended early, if it did, flushes, and returns its exit status: 0 at its end, 3 for a store
/// without a checkpoint, 2 for a script that doesn't fit the language, and else 1. It is 1 also where anything was ever
/// refused; what the writer answered then is the output's `error`.
pub fn exit<W: Write>(ended: &Result<(), Stop>, out: &mut Output<W>) -> u8
    // The writer took all, the last line too, and the status is that of the end; or something was refused, and it is 1.
    // What the writer itself keeps back has no clause: of a flush std says only that no byte is lost by it.
    ensures exits { Exits (W.contents out.old.writer) (W.contents out.new.writer) out.new.refused
        (end_text ended.now) (end_status ended.now) result }
    // What was refused before is not forgotten.
    ensures kept { out.old.refused ≡ true → out.new.refused ≡ true }
    ensures fault { out.new.fault ≡ fault_printed out.old.fault ended.now }
{
    match ended {
        Ok(()) => out.finish(0),
        Err(stop) => {
            let wanted = status_of_stop(stop, out);
            out.finish(wanted)
        }
    }
}

/// Flushes after a document that named a fault, and returns the exit status that the fault's line has, or 1 where
/// anything was refused.
pub fn exit_with_fault<W: Write>(fault: Fault, out: &mut Output<W>) -> u8
    ensures exits { Exits (W.contents out.old.writer) (W.contents out.new.writer) out.new.refused
        [] (status_of (Stop.Fault fault)) result }
    ensures fault { out.new.fault ≡ Some fault }
{
    out.keep_fault(fault);
    out.finish(fault_status(fault))
}

/// Prints why a program ended early, and returns its exit status, or 1 where the line is refused.
fn status_of_stop<W: Write>(stop: &Stop, out: &mut Output<W>) -> u8
    ensures told { IsWrittenLast (W.contents out.old.writer) (W.contents out.new.writer) out.new.refused
        (stop_text stop.now) (status_of stop.now) result }
    ensures kept { out.old.refused ≡ true → out.new.refused ≡ true }
    ensures fault { out.new.fault ≡ fault_printed out.old.fault (Err stop.now) }
{
    match print_stop(stop, out) {
        Ok(()) => stop_status(stop),
        Err(_) => FAILED,
    }
}

/// Prints why a program ended early. A refusal is answered before, and where nothing more can be printed, nothing is.
fn print_stop<W: Write>(stop: &Stop, out: &mut Output<W>) -> io::Result<()>
    ensures line { OnOk result
        (Appends (W.contents out.old.writer) (W.contents out.new.writer) (stop_text stop.now)) }
    ensures refused { OnErr result (out.new.refused ≡ true) }
    ensures kept { out.old.refused ≡ true → out.new.refused ≡ true }
    ensures fault { out.new.fault ≡ fault_printed out.old.fault (Err stop.now) }
{
    match stop {
        Stop::Fault(fault) => print_fault(fault, out),
        Stop::NoFrame => out.write_all(b"no-frame\n"),
        Stop::ScriptLine(number) => writeln!(out, "script line {number}"),
        Stop::CannotReadScript => out.write_all(b"cannot read SCRIPT\n"),
        Stop::CannotOpenFolder => out.write_all(b"cannot open DIR\n"),
        Stop::NotEmpty => out.write_all(b"store not empty\n"),
        Stop::Order(why) => writeln!(out, "refused {why}"),
        Stop::Refused | Stop::Writer(_) => Ok(()),
    }
}

/// Prints a fault's line.
fn print_fault<W: Write>(fault: &Fault, out: &mut Output<W>) -> io::Result<()>
    ensures line { OnOk result
        (Appends (W.contents out.old.writer) (W.contents out.new.writer) (fault_line fault.now)) }
    ensures refused { OnErr result (out.new.refused ≡ true) }
    ensures kept { out.old.refused ≡ true → out.new.refused ≡ true }
    ensures fault { out.new.fault ≡ Some fault.now }
{
    out.keep_fault(*fault);
    match fault {
        Fault::EmptyChain => out.write_all(b"empty chain\n"),
        Fault::Damaged { slot, reason } => print_damaged(*slot, *reason, out),
        Fault::Device => out.write_all(b"device\n"),
        Fault::OutOfMemory => out.write_all(b"out-of-memory\n"),
    }
}

/// Prints which slot is damaged, and why.
fn print_damaged<W: Write>(slot: usize, reason: Reason, out: &mut Output<W>) -> io::Result<()>
    ensures line { OnOk result (Appends (W.contents out.old.writer) (W.contents out.new.writer)
        (fault_line (Damaged slot reason))) }
    ensures refused { OnErr result (out.new.refused ≡ true) }
    ensures kept { out.old.refused ≡ true → out.new.refused ≡ true }
    ensures fault { out.new.fault ≡ out.old.fault }
{
    writeln!(out, "damaged {slot:03} {}", reason.number())
}

/// The exit status of a program that printed why it stopped.
fn stop_status(stop: &Stop) -> u8
    ensures { result ≡ status_of stop.now }
{
    match stop {
        Stop::Fault(fault) => fault_status(*fault),
        Stop::ScriptLine(_) => UNFIT,
        _ => FAILED,
    }
}

/// The exit status of a program that printed a fault's line.
fn fault_status(fault: Fault) -> u8
    ensures { result ≡ status_of (Stop.Fault fault) }
{
    match fault {
        Fault::EmptyChain => NOTHING_SAVED,
        _ => FAILED,
    }
}
