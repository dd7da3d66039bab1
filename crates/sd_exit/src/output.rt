//! What a program prints to.
ghost use Rattle.std.specs.Prelude.{◌≡◌, ◌≤◌, ℕ, true, false, [], None, Some, length, take, if◌then◌else◌, IfOk};
ghost use Rattle.std.specs.Prelude.{IfSome, IfErr, IsOk, IsSome};
ghost use Rattle.std.specs.Prelude.{OnOk, OnErr};
ghost use Rattle.std.specs.Option.{option_copied};
ghost use Rattle.std.specs.Io.KnownBytes.{Appends, Keeps};
ghost use Rattle.sd_exit.specs.Texts.{PrintsBeginning};

use sd_restore::Fault;
use std::fmt::Display;
use std::io;
use std::io::{ErrorKind, Write};

/// The exit status of a program whose output was refused.
const REFUSED: u8 = 1;

/// A writer that notes whether it refused anything: to write bytes, or to flush them.
#[derive(Drop)]
pub struct Output<W> {
    writer: W,
    refused: bool,
    error: Option<io::Error>,
    fault: Option<Fault>,
}

impl<W: Write> Output<W> {
    pub fn new(writer: W) -> Output<W>
        ensures writer { result.writer ≡ writer }
        ensures none { result.refused ≡ false }
        ensures error { result.error ≡ None }
        ensures fault { result.fault ≡ None }
    {
        Output {
            writer,
            refused: false,
            error: None,
            fault: None,
        }
    }

    pub fn into_writer(self) -> W
    where
        W: Drop,
        ensures { result ≡ self.writer }
    {
        self.writer
    }

    /// Whether anything was refused.
    pub fn is_refused(&self) -> bool
        ensures { result ≡ self.now.refused }
    {
        self.refused
    }

    /// What the writer answered where it first refused something. None where it refused nothing.
    pub fn error(&self) -> Option<&io::Error>
        ensures { option_copied result ≡ self.now.error }
    {
        self.error.as_ref()
    }

    /// The fault of a store, its device or the memory that a program's last line named. None where it named none.
    pub fn fault(&self) -> Option<Fault>
        ensures { result ≡ self.now.fault }
    {
        self.fault
    }

    /// Keeps the fault that is being printed.
    pub(crate) fn keep_fault(&mut self, fault: Fault)
        ensures writer { self.new.writer ≡ self.old.writer }
        ensures refused { self.new.refused ≡ self.old.refused }
        ensures fault { self.new.fault ≡ Some fault }
    {
        self.fault = Some(fault);
    }

    /// Keeps the first error of the writer.
    fn keep(&mut self, error: io::Error)
        ensures writer { self.new.writer ≡ self.old.writer }
        ensures refused { self.new.refused ≡ true }
        ensures error { self.old.error ≡ None → self.new.error ≡ Some error }
        ensures first { IsSome self.old.error → self.new.error ≡ self.old.error }
        ensures fault { self.new.fault ≡ self.old.fault }
    {
        self.refused = true;
        if self.error.is_none() {
            self.error = Some(error);
        }
    }

    /// Notes how a call of the writer ended, and returns the same, with the kind of the error alone.
    fn note(&mut self, ended: io::Result<()>) -> io::Result<()>
        ensures same { OnOk result (IsOk ended) }
        ensures writer { self.new.writer ≡ self.old.writer }
        ensures ok { OnOk result (self.new.refused ≡ self.old.refused) }
        ensures refused { OnErr result (self.new.refused ≡ true) }
        ensures error { IfErr ended (λ error. self.old.error ≡ None → self.new.error ≡ Some error) }
        ensures kept { OnOk result (self.new.error ≡ self.old.error) }
        ensures first { IsSome self.old.error → self.new.error ≡ self.old.error }
        ensures fault { self.new.fault ≡ self.old.fault }
    {
        match ended {
            Ok(()) => Ok(()),
            Err(error) => {
                let kind = error.kind();
                self.keep(error);
                Err(io::Error::from(kind))
            }
        }
    }

    /// Prints all of the bytes. What the writer took is a beginning of them, also where it then refuses the rest.
    pub fn write_all(&mut self, bytes: &[u8]) -> io::Result<()>
        ensures bytes { OnOk result
            (Appends (W.contents self.old.writer) (W.contents self.new.writer) bytes.now) }
        ensures begins { PrintsBeginning (W.contents self.old.writer) (W.contents self.new.writer) bytes.now }
        ensures ok { OnOk result (self.new.refused ≡ self.old.refused) }
        ensures refused { OnErr result (self.new.refused ≡ true) }
        // The first error is kept.
        ensures kept { OnOk result (self.new.error ≡ self.old.error) }
        ensures first { IsSome self.old.error → self.new.error ≡ self.old.error }
        ensures fault { self.new.fault ≡ self.old.fault }
    {
        match write_from(&mut self.writer, bytes) {
            Ok(()) => Ok(()),
            Err(error) => self.note(Err(error)),
        }
    }

    /// Prints a text, as `writeln!` makes it.
    pub fn write_fmt<D: Display + Drop>(&mut self, text: D) -> io::Result<()>
        ensures bytes { OnOk result (IfSome (D.output text)
            (Appends (W.contents self.old.writer) (W.contents self.new.writer))) }
        ensures ok { OnOk result (self.new.refused ≡ self.old.refused) }
        ensures refused { OnErr result (self.new.refused ≡ true) }
        // The first error is kept.
        ensures kept { OnOk result (self.new.error ≡ self.old.error) }
        ensures first { IsSome self.old.error → self.new.error ≡ self.old.error }
        ensures fault { self.new.fault ≡ self.old.fault }
    {
        let ended = self.writer.write_fmt(text);
        self.note(ended)
    }

    /// Prints what the writer still holds.
    pub fn flush(&mut self) -> io::Result<()>
        ensures bytes { Keeps (W.contents self.old.writer) (W.contents self.new.writer) }
        ensures ok { OnOk result (self.new.refused ≡ self.old.refused) }
        ensures refused { OnErr result (self.new.refused ≡ true) }
        // The first error is kept.
        ensures kept { OnOk result (self.new.error ≡ self.old.error) }
        ensures first { IsSome self.old.error → self.new.error ≡ self.old.error }
        ensures fault { self.new.fault ≡ self.old.fault }
    {
        let ended = self.writer.flush();
        self.note(ended)
    }

    /// Flushes, and returns the exit status where that is to be this one, or 1 where something was refused, by the
    /// flush or before it.
    pub fn finish(&mut self, wanted: u8) -> u8
        ensures bytes { Keeps (W.contents self.old.writer) (W.contents self.new.writer) }
        ensures refused { self.old.refused ≡ true → self.new.refused ≡ true }
        ensures status { result ≡ (if self.new.refused then 1 else wanted) }
        ensures first { IsSome self.old.error → self.new.error ≡ self.old.error }
        ensures fault { self.new.fault ≡ self.old.fault }
    {
        let _ = self.flush();
        if self.refused { REFUSED } else { wanted }
    }
}

/// Writes the bytes, in as many calls as the writer needs. It fails only where a call failed, and wasn't interrupted,
/// or took nothing.
fn write_from<W: Write>(writer: &mut W, bytes: &[u8]) -> io::Result<()>
    ensures bytes { OnOk result (Appends (W.contents writer.old) (W.contents writer.new) bytes.now) }
    ensures begins { PrintsBeginning (W.contents writer.old) (W.contents writer.new) bytes.now }
{
    let mut rest = bytes;
    for _ in 0..u64::MAX {
        if rest.is_empty() {
            return Ok(());
        }
        let count = write_some(writer, rest)?;
        rest = &rest[count..];
    }
    Err(io::Error::from(ErrorKind::WriteZero))
}

/// Writes the first of the bytes, and returns how many; none where the call was interrupted.
#[tactic(auto, using(crate::proofs::WriteLemmas::nothing_more))]
fn write_some<W: Write>(writer: &mut W, bytes: &[u8]) -> io::Result<usize>
    ensures few { IfOk result (λ count. count ≤ length bytes.now) }
    ensures some { IfOk result (λ count.
        Appends (W.contents writer.old) (W.contents writer.new) (take count bytes.now)) }
    ensures none { OnErr result (Appends (W.contents writer.old) (W.contents writer.new) []) }
{
    match writer.write(bytes) {
        Ok(0) => Err(io::Error::from(ErrorKind::WriteZero)),
        Ok(count) => Ok(count),
        Err(error) if error.kind() == ErrorKind::Interrupted => Ok(0),
        Err(error) => Err(error),
    }
}

impl<W: Write> Write for Output<W> {
    ghost contents = { λ out. W.contents out.writer };

    /// A write that was interrupted is made again, and isn't refused.
    fn write(&mut self, bytes: &[u8]) -> io::Result<usize> {
        match self.writer.write(bytes) {
            Ok(count) => Ok(count),
            Err(error) => {
                let kind = error.kind();
                if kind != ErrorKind::Interrupted {
                    self.keep(error);
                }
                Err(io::Error::from(kind))
            }
        }
    }

    fn write_all(&mut self, bytes: &[u8]) -> io::Result<()> {
        Output::write_all(self, bytes)
    }

    fn flush(&mut self) -> io::Result<()> {
        Output::flush(self)
    }
}
