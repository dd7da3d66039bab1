//! The head of a stream, read.
ghost use Rattle.std.specs.Prelude.{◌≡◌, ◌++◌, length, IfErr, IfOk, IfSome, OnOk};
ghost use Rattle.std.specs.Io.KnownBytes.{Consumes};
ghost use Rattle.sd_stream.specs.Stream.{IsBase, base_text, head_text, magic_text, number_text};
ghost use Rattle.sd_stream.specs.Reading.{IsFrontFault, IsHeadFault, IsNumberless};

use crate::base::Base;
use crate::pieces::read_piece;
use crate::records::{MAGIC, VERSION, are_same, number_in};
use crate::stream_error::StreamError;
use std::io::Read;

/// Reads the head of a stream.
pub(crate) fn read_head<R: Read>(input: &mut R) -> Result<Option<Base>, StreamError>
    ensures base { IfOk result IsBase }
    ensures text { IfOk result (λ base.
        Consumes (R.remaining input.old) (R.remaining input.new) (head_text base)) }
    ensures fault { IfSome (R.remaining input.old) (λ rest. IfErr result (IsHeadFault rest)) }
{
    let mut front = [0; 16];
    read_piece(input, &mut front)?;
    check_front(&front)?;
    let mut text = [0; 40];
    read_piece(input, &mut text)?;
    let base = base_in(&text)?;
    Ok(base)
}

/// Whether the bytes are those of a stream of this version.
fn check_front(front: &[u8]) -> Result<(), StreamError>
    requires { length front.now ≡ 16 }
    ensures ok { OnOk result (front.now ≡ magic_text ++ number_text 1) }
    ensures fault { IfErr result (IsFrontFault front.now) }
{
    let (magic, version) = front.split_at(8);
    if !are_same(magic, &MAGIC) {
        return Err(StreamError::NotAStream);
    }
    let version = number_in(version);
    if version != VERSION {
        return Err(StreamError::Version(version));
    }
    Ok(())
}

/// The base, as a head has it.
fn base_in(text: &[u8]) -> Result<Option<Base>, StreamError>
    requires { length text.now ≡ 40 }
    ensures base { IfOk result (λ base. IsBase base × (text.now ≡ base_text base)) }
    ensures fault { IfErr result (IsNumberless text.now) }
{
    let (number, text) = text.split_at(8);
    let number = number_in(number);
    let mut digest = [0; 32];
    digest.copy_from_slice(text);
    if number > 0 {
        return Ok(Some(Base { number, digest }));
    }
    if !are_same(&digest, &[0; 32]) {
        return Err(StreamError::BaseWithoutNumber);
    }
    Ok(None)
}
