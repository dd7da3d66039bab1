//! The parts of an image, as they come in a stream.
ghost use Rattle.std.specs.Prelude.{◌≡◌, ◌≤◌, ◌<◌, ◌^◌, [], length, IfOk, OnOk};
ghost use Rattle.sd_image.specs.Header.{IsHeader};
ghost use Rattle.sd_receive.specs.Arrived.{GoesOn};

use crate::receive_error::ReceiveError;
use sd_image::{GATE, HEADER_SIZE, Header, Reason, decode_header};
use sd_stream::{MAX_FILE_LEN, StreamError, StreamReader};
use std::alloc::Global;
use std::io::Read;

/// Fills a buffer with the next bytes of an image.
pub(crate) fn take_bytes<R: Read>(
    reader: &mut StreamReader<R>,
    buffer: &mut [u8],
) -> Result<(), ReceiveError>
    ensures len { length buffer.new ≡ length buffer.old }
    ensures reads { OnOk result (GoesOn R.remaining reader.old [] reader.new) }
{
    let count = reader.bytes(buffer)?;
    if count < buffer.len() {
        return Err(ReceiveError::Image(Reason::Length));
    }
    Ok(())
}

/// The header of an image of so many bytes.
pub(crate) fn take_header<R: Read>(
    reader: &mut StreamReader<R>,
    len: u64,
) -> Result<Header, ReceiveError>
    ensures header { IfOk result (λ header. IsHeader header len) }
    ensures few { IfOk result (λ header. header.pages ≤ 2 ^ 39) }
    ensures reads { OnOk result (GoesOn R.remaining reader.old [] reader.new) }
{
    if len > MAX_FILE_LEN {
        return Err(ReceiveError::Stream(StreamError::Length(len)));
    }
    let mut bytes = [0; HEADER_SIZE];
    take_bytes(reader, &mut bytes)?;
    if bytes[0] != GATE {
        return Err(ReceiveError::Closed);
    }
    match decode_header(&bytes, len) {
        Ok(header) => Ok(header),
        Err(reason) => Err(ReceiveError::Image(reason)),
    }
}

/// The bytes of an image's table.
pub(crate) fn take_table<R: Read>(
    alloc: Global,
    reader: &mut StreamReader<R>,
    len: usize,
) -> Result<Vec<u8>, ReceiveError>
    ensures some { OnOk result (0 < len) }
    ensures len { IfOk result (λ bytes. length bytes.items ≡ len) }
    ensures reads { OnOk result (GoesOn R.remaining reader.old [] reader.new) }
{
    if len == 0 {
        return Err(ReceiveError::Image(Reason::PastEnd));
    }
    let mut bytes = vec![in alloc; 0u8; len]?;
    take_bytes(reader, &mut bytes)?;
    Ok(bytes)
}
