//! A stream, written.
ghost use Rattle.std.specs.Prelude.{◌≡◌, ◌+◌, ℕ, List, Option, length, true, false};
ghost use Rattle.std.specs.Prelude.{IfErr, IfOk, IsTrue, OnErr, OnOk};
ghost use Rattle.std.specs.Io.KnownBytes.{Appends, Keeps};
ghost use Rattle.sd_stream.specs.Stream.{IsStream, record_text, stream_text};
ghost use Rattle.sd_stream.specs.Progress.{Progress, started, with_acknowledged, with_bytes, with_image};
ghost use Rattle.sd_stream.specs.Pieces.{WritesBeginning};
ghost use Rattle.sd_stream.specs.Writing.{HasNumber, HasWritten, IsOutput, IsUnready, LacksNumber, OnRefusal};
ghost use Rattle.sd_stream.specs.Writing.{RefusesBase, RefusesBytes, RefusesEnd, RefusesFlush, RefusesImage};
ghost use Rattle.sd_stream.specs.Writing.{RefusesNumber};

use crate::base::Base;
use crate::pieces::write_piece;
use crate::records::{ACKNOWLEDGED, END, IMAGE, head_bytes, is_file_length, record_bytes};
use crate::tally::Tally;
use crate::write_error::WriteError;
use std::io::Write;

/// Writes a stream. Calls that are out of order are refused, and write nothing.
#[derive(Drop)]
pub struct StreamWriter<W> {
    out: W,
    tally: Tally,
    /// Whether the output failed.
    failed: bool,
}

/// Whether a base has the number 0.
fn lacks_number(base: &Option<Base>) -> bool
    ensures yes { IsTrue result → LacksNumber base.now }
    ensures no { result ≡ false → HasNumber base.now }
{
    match base {
        Some(base) => base.number == 0,
        None => false,
    }
}

impl<W: Write> StreamWriter<W> {
    /// Writes the head of a stream, whose images continue this checkpoint, or none.
    ///
    /// # Errors
    ///
    /// `BaseWithoutNumber` where the base's number is 0; `Output`.
    pub fn begin(out: W, base: Option<Base>) -> Result<Self, WriteError>
    where
        W: Drop,
        ensures begun { IfOk result
            (λ writer. HasWritten W.contents (W.contents out) (started base) writer) }
        ensures refused { IfErr result (RefusesBase base) }
    {
        if lacks_number(&base) {
            return Err(WriteError::BaseWithoutNumber);
        }
        let mut writer = StreamWriter {
            out,
            tally: Tally::new(&base),
            failed: false,
        };
        writer.put(&head_bytes(&base))?;
        Ok(writer)
    }

    /// Writes a piece of the stream.
    fn put(&mut self, piece: &[u8]) -> Result<(), WriteError>
        ensures bytes { OnOk result
            (Appends (W.contents self.old.out) (W.contents self.new.out) piece.now) }
        ensures begins { WritesBeginning (W.contents self.old.out) (W.contents self.new.out)
            piece.now }
        ensures tally { self.new.tally ≡ self.old.tally }
        ensures ok { OnOk result (self.new.failed ≡ self.old.failed) }
        ensures failed { OnErr result (self.new.failed ≡ true) }
        ensures output { IfErr result IsOutput }
    {
        match write_piece(&mut self.out, piece) {
            Ok(()) => Ok(()),
            Err(error) => {
                self.failed = true;
                Err(WriteError::Output(error))
            }
        }
    }

    /// Whether the output failed, or bytes of an image are left.
    fn check(&self) -> Result<(), WriteError>
        ensures ok { OnOk result ((self.now.failed ≡ false) × (self.now.tally.left ≡ 0)) }
        ensures err { IfErr result (IsUnready self.now.failed self.now.tally) }
    {
        if self.failed {
            return Err(WriteError::Failed);
        }
        if self.tally.left > 0 {
            return Err(WriteError::BytesLeft);
        }
        Ok(())
    }

    /// Writes the head of an image of so many bytes, which `bytes` writes then.
    ///
    /// # Errors
    ///
    /// `Length` where the image has no bytes or more than `MAX_FILE_LEN`; `BytesLeft` where bytes of the image before
    /// are left; `Output`, and after it `Failed`.
    pub fn image(&mut self, len: u64) -> Result<(), WriteError>
        ensures written { OnOk result ((before : Option (List ℕ)) (p : Progress)
            → HasWritten W.contents before p self.old
            → HasWritten W.contents before (with_image p) self.new) }
        ensures begins { WritesBeginning (W.contents self.old.out) (W.contents self.new.out)
            (record_text 1 len) }
        ensures left { OnOk result (self.new.tally.left ≡ len) }
        ensures refused { IfErr result (OnRefusal self.old self.new
            (RefusesImage self.old.failed self.old.tally len)) }
    {
        self.check()?;
        if !is_file_length(len) {
            return Err(WriteError::Length(len));
        }
        self.put(&record_bytes(IMAGE, len))?;
        self.tally.image(len);
        Ok(())
    }

    /// Writes the next bytes of the image.
    ///
    /// # Errors
    ///
    /// `TooManyBytes` where the image hasn't so many left; `Output`, and after it `Failed`.
    pub fn bytes(&mut self, bytes: &[u8]) -> Result<(), WriteError>
        ensures written { OnOk result ((before : Option (List ℕ)) (p : Progress)
            → HasWritten W.contents before p self.old
            → HasWritten W.contents before (with_bytes p bytes.now) self.new) }
        ensures begins { WritesBeginning (W.contents self.old.out) (W.contents self.new.out)
            bytes.now }
        ensures left { OnOk result (self.new.tally.left + length bytes.now ≡ self.old.tally.left) }
        ensures refused { IfErr result (OnRefusal self.old self.new
            (RefusesBytes self.old.failed self.old.tally (length bytes.now))) }
    {
        if self.failed {
            return Err(WriteError::Failed);
        }
        if bytes.len() as u64 > self.tally.left {
            return Err(WriteError::TooManyBytes);
        }
        self.put(bytes)?;
        self.tally.bytes(bytes);
        Ok(())
    }

    /// Writes that the images since the last of these make the checkpoint of this number.
    ///
    /// # Errors
    ///
    /// `WithoutImages` where there is none; `NotAbove` where the number isn't above the one before, or the base's;
    /// `BytesLeft` where bytes of an image are left; `Output`, and after it `Failed`.
    pub fn acknowledged(&mut self, number: u64) -> Result<(), WriteError>
        ensures written { OnOk result ((before : Option (List ℕ)) (p : Progress)
            → HasWritten W.contents before p self.old
            → HasWritten W.contents before (with_acknowledged p number) self.new) }
        ensures begins { WritesBeginning (W.contents self.old.out) (W.contents self.new.out)
            (record_text 2 number) }
        ensures refused { IfErr result (OnRefusal self.old self.new
            (RefusesNumber self.old.failed self.old.tally number)) }
    {
        self.check()?;
        if !self.tally.waiting {
            return Err(WriteError::WithoutImages(number));
        }
        if number <= self.tally.last {
            return Err(WriteError::NotAbove(number));
        }
        self.put(&record_bytes(ACKNOWLEDGED, number))?;
        self.tally.acknowledged(number);
        Ok(())
    }

    /// Writes the end of the stream, flushes, and gives the output back.
    ///
    /// # Errors
    ///
    /// `ImagesLeft` where images came that no checkpoint's number followed; `BytesLeft` where bytes of an image are
    /// left; `Output`, or after an earlier one `Failed`.
    pub fn end(mut self) -> Result<W, WriteError>
    where
        W: Drop,
        ensures stream { IfOk result (λ out. (before : Option (List ℕ)) (p : Progress)
            → HasWritten W.contents before p self
            → Appends before (W.contents out) (stream_text p.base p.groups)
            × IsStream p.base p.groups) }
        ensures refused { IfErr result (RefusesEnd self.failed self.tally) }
    {
        self.check()?;
        if self.tally.waiting {
            return Err(WriteError::ImagesLeft);
        }
        self.put(&record_bytes(END, 0))?;
        let digest = self.tally.digest();
        self.put(&digest)?;
        self.flush()?;
        Ok(self.out)
    }

    /// Writes what the output still holds.
    ///
    /// # Errors
    ///
    /// `Output`, and after it `Failed`.
    pub fn flush(&mut self) -> Result<(), WriteError>
        ensures bytes { Keeps (W.contents self.old.out) (W.contents self.new.out) }
        ensures tally { self.new.tally ≡ self.old.tally }
        ensures ok { OnOk result (self.new.failed ≡ self.old.failed) }
        ensures refused { IfErr result (OnRefusal self.old self.new
            (RefusesFlush self.old.failed)) }
    {
        if self.failed {
            return Err(WriteError::Failed);
        }
        match self.out.flush() {
            Ok(()) => Ok(()),
            Err(error) => {
                self.failed = true;
                Err(WriteError::Output(error))
            }
        }
    }
}
