//! A stream, read.
ghost use Rattle.std.specs.Prelude.{◌≡◌, ◌+◌, ◌++◌, ◌⊎◌, ℕ, List, Option, Ok, length, take, min};
ghost use Rattle.std.specs.Prelude.{true, false};
ghost use Rattle.std.specs.Prelude.{IfErr, IfOk, IfSome, IsErrOf, OnErr, OnOk};
ghost use Rattle.std.specs.Io.KnownBytes.{Consumes};
ghost use Rattle.sd_stream.specs.Stream.{IsBase, record_text};
ghost use Rattle.sd_stream.specs.Progress.{Progress, progress_text, started, with_bytes};
ghost use Rattle.sd_stream.specs.Tallies.{HasTaken};
ghost use Rattle.sd_stream.specs.Reading.{HasRead, HasReadAll, IsBytesFault, IsEndFault, IsHeadFault, IsItemFault};
ghost use Rattle.sd_stream.specs.Reading.{IsNext, IsRecordFault};

use crate::base::Base;
use crate::head::read_head;
use crate::item::Item;
use crate::pieces::{check_end, read_piece};
use crate::records::{RECORD_SIZE, are_same, record_in};
use crate::stream_error::StreamError;
use crate::taking::take_record;
use crate::tally::Tally;
use std::io::Read;

/// Reads a stream. After an error of the stream or its input, and after its end, it reads nothing more.
#[derive(Drop)]
pub struct StreamReader<R> {
    input: R,
    base: Option<Base>,
    tally: Tally,
    /// Whether nothing more is read.
    over: bool,
}

impl<R: Read> StreamReader<R> {
    /// Reads the head of a stream.
    ///
    /// # Errors
    ///
    /// `NotAStream`, `Version`, `BaseWithoutNumber`, `EndsEarly`, `Input`.
    pub fn begin(mut input: R) -> Result<Self, StreamError>
    where
        R: Drop,
        ensures begun { IfOk result (λ reader. IsBase reader.base
            × HasRead R.remaining (R.remaining input) (started reader.base) reader) }
        ensures fault { IfSome (R.remaining input) (λ rest. IfErr result (IsHeadFault rest)) }
    {
        let base = read_head(&mut input)?;
        let tally = Tally::new(&base);
        Ok(StreamReader {
            input,
            base,
            tally,
            over: false,
        })
    }

    /// The checkpoint that the stream continues. None where it begins with a whole image.
    pub fn base(&self) -> Option<Base>
        ensures { result ≡ self.now.base }
    {
        self.base
    }

    /// Reads what comes next. The bytes of an image have to be taken by `bytes` before.
    ///
    /// # Errors
    ///
    /// `BytesLeft` where bytes of an image weren't taken; what is wrong with the stream; `EndsEarly`, `Input`; `Over`
    /// after the end and after an error.
    pub fn next(&mut self) -> Result<Item, StreamError>
        ensures read { IfOk result (λ item. (before : Option (List ℕ)) (p : Progress)
            → HasRead R.remaining before p self.old
            → IsNext R.remaining before p item self.new) }
        ensures fault { IfSome (R.remaining self.old.input) (λ rest.
            IfErr result (IsItemFault self.old.over self.old.tally rest)) }
        // After the end and after an error, nothing more is read.
        ensures ended { result ≡ Ok Item.End → self.new.over ≡ true }
        ensures over { self.old.over ≡ true
            → IsErrOf result StreamError.Over × (self.new ≡ self.old) }
        ensures failed { OnErr result ((self.new.over ≡ true) ⊎ (self.new ≡ self.old)) }
    {
        if self.over {
            return Err(StreamError::Over);
        }
        if self.tally.left > 0 {
            return Err(StreamError::BytesLeft);
        }
        self.over = true;
        let item = self.read_item()?;
        self.over = matches!(item, Item::End);
        Ok(item)
    }

    /// Reads the next record.
    fn read_item(&mut self) -> Result<Item, StreamError>
        requires { self.old.tally.left ≡ 0 }
        ensures read { IfOk result (λ item. (before : Option (List ℕ)) (p : Progress)
            → HasRead R.remaining before p self.old
            → IsNext R.remaining before p item self.new) }
        ensures fault { IfSome (R.remaining self.old.input) (λ rest.
            IfErr result (IsRecordFault self.old.tally rest)) }
        ensures over { self.new.over ≡ self.old.over }
    {
        let mut head = [0; RECORD_SIZE];
        read_piece(&mut self.input, &mut head)?;
        let (kind, value) = record_in(&head);
        match take_record(&mut self.tally, kind, value)? {
            Item::End => self.read_end(),
            item => Ok(item),
        }
    }

    /// Reads the digest at the end, and that nothing comes after it.
    fn read_end(&mut self) -> Result<Item, StreamError>
        requires left { self.old.tally.left ≡ 0 }
        requires waiting { self.old.tally.waiting ≡ false }
        ensures item { IfOk result (λ item. item ≡ Item.End) }
        ensures read { OnOk result ((before : Option (List ℕ)) (p : Progress)
            → HasTaken self.old.tally p
            → Consumes before (R.remaining self.old.input)
            (progress_text p 0 ++ record_text 3 0)
            → HasReadAll R.remaining before p self.new) }
        ensures fault { IfSome (R.remaining self.old.input) (λ rest.
            IfErr result (IsEndFault self.old.tally rest)) }
        ensures over { self.new.over ≡ self.old.over }
    {
        let mut digest = [0; 32];
        read_piece(&mut self.input, &mut digest)?;
        let due = self.tally.digest();
        if !are_same(&digest, &due) {
            return Err(StreamError::DigestDiffers);
        }
        check_end(&mut self.input)?;
        Ok(Item::End)
    }

    /// Reads the next bytes of the image, as many as the buffer takes and the image has left, and returns how many.
    ///
    /// # Errors
    ///
    /// `EndsEarly`, `Input`; `Over` after the end and after an error.
    pub fn bytes(&mut self, buffer: &mut [u8]) -> Result<usize, StreamError>
        ensures count { IfOk result (λ count. count ≡ min self.old.tally.left (length buffer.old)) }
        ensures len { length buffer.new ≡ length buffer.old }
        ensures left { IfOk result (λ count. self.new.tally.left + count ≡ self.old.tally.left) }
        ensures read { IfOk result (λ count. (before : Option (List ℕ)) (p : Progress)
            → HasRead R.remaining before p self.old
            → HasRead R.remaining before (with_bytes p (take count buffer.new)) self.new) }
        ensures fault { IfSome (R.remaining self.old.input) (λ rest. IfErr result
            (IsBytesFault self.old.over (min self.old.tally.left (length buffer.old)) rest)) }
        ensures failed { OnErr result (self.new.over ≡ true) }
        ensures over { self.old.over ≡ true
            → IsErrOf result StreamError.Over × (self.new ≡ self.old) }
    {
        if self.over {
            return Err(StreamError::Over);
        }
        let count = self.tally.left.min(buffer.len() as u64) as usize;
        self.over = true;
        read_piece(&mut self.input, &mut buffer[..count])?;
        self.tally.bytes(&buffer[..count]);
        self.over = false;
        Ok(count)
    }
}
