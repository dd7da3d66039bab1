//! The head of a record, taken.
ghost use Rattle.std.specs.Prelude.{◌≡◌, ℕ, IfErr, IfOk};
ghost use Rattle.sd_stream.specs.Reading.{IsRefused, Takes};

use crate::item::Item;
use crate::records::{ACKNOWLEDGED, END, IMAGE, is_file_length};
use crate::stream_error::StreamError;
use crate::tally::Tally;

/// Takes the head of a record, after which nothing is left of an image.
pub(crate) fn take_record(tally: &mut Tally, kind: u64, value: u64) -> Result<Item, StreamError>
    requires { tally.old.left ≡ 0 }
    ensures taken { IfOk result (Takes tally.old tally.new kind value) }
    ensures refused { IfErr result (IsRefused tally.old kind value) }
{
    match kind {
        IMAGE => take_image(tally, value),
        ACKNOWLEDGED => take_acknowledged(tally, value),
        END => take_end(tally, value),
        _ => Err(StreamError::UnknownKind(kind)),
    }
}

/// Takes the head of an image.
fn take_image(tally: &mut Tally, len: u64) -> Result<Item, StreamError>
    requires { tally.old.left ≡ 0 }
    ensures taken { IfOk result (Takes tally.old tally.new 1 len) }
    ensures refused { IfErr result (IsRefused tally.old 1 len) }
{
    if !is_file_length(len) {
        return Err(StreamError::Length(len));
    }
    tally.image(len);
    Ok(Item::Image(len))
}

/// Takes the number of a checkpoint.
fn take_acknowledged(tally: &mut Tally, number: u64) -> Result<Item, StreamError>
    requires { tally.old.left ≡ 0 }
    ensures taken { IfOk result (Takes tally.old tally.new 2 number) }
    ensures refused { IfErr result (IsRefused tally.old 2 number) }
{
    if !tally.waiting {
        return Err(StreamError::WithoutImages(number));
    }
    if number <= tally.last {
        return Err(StreamError::NotAbove(number));
    }
    tally.acknowledged(number);
    Ok(Item::Acknowledged(number))
}

/// Takes the record of the end.
fn take_end(tally: &Tally, value: u64) -> Result<Item, StreamError>
    ensures taken { IfOk result (Takes tally.now tally.now 3 value) }
    ensures refused { IfErr result (IsRefused tally.now 3 value) }
{
    if tally.waiting {
        return Err(StreamError::ImagesLeft);
    }
    if value != 0 {
        return Err(StreamError::EndValue(value));
    }
    Ok(Item::End)
}
