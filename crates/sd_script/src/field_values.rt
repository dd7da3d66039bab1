//! What the fields of a line say: workers, numbers, permissions, bytes.
ghost use Rattle.std.specs.Prelude.{◌≡◌, ◌≤◌, ◌*◌, length};
ghost use Rattle.std.specs.Result.{result_ok};
ghost use Rattle.hex.specs.Hex.{decode_pairs};
ghost use Rattle.sd_script.specs.Line.{GivesBytes, hex_of, number_of, numeral_of, prot_of, worker_by_name};

use crate::digits::{decode_into, digit};
use crate::line_error::LineError;
use sd_areas::Prot;
use sd_command::Bytes;
use sd_gate::Worker;
use std::alloc::Global;

/// The most bytes of a store.
const STORED: usize = 64;

/// The worker of this name.
pub(crate) fn worker_named(name: &str) -> Option<Worker>
    ensures { result ≡ worker_by_name name.now }
{
    match name {
        "dumper" => Some(Worker::Dumper),
        "merger" => Some(Worker::Merger),
        "opener" => Some(Worker::Opener),
        _ => None,
    }
}

/// A number below 2^64, decimal or `0x` and hexadecimal digits in either case, with leading zeros or without.
pub(crate) fn number(text: &str) -> Option<u64>
    ensures { result ≡ number_of text.now }
{
    match text.as_bytes() {
        [b'0', b'x', digits @ ..] => numeral(digits, 16),
        digits => numeral(digits, 10),
    }
}

/// A number below 2^64 in digits, without a sign.
#[inline]
fn numeral(digits: &[u8], radix: u64) -> Option<u64>
    requires low { 2 ≤ radix }
    requires high { radix ≤ 16 }
    ensures { result ≡ numeral_of radix digits.now }
{
    if digits.is_empty() {
        return None;
    }
    let most = u64::MAX / radix;
    let mut number: u64 = 0;
    for byte in digits {
        let value = digit(*byte) as u64;
        if value >= radix || number > most {
            return None;
        }
        number = (number * radix).checked_add(value)?;
    }
    Some(number)
}

/// `none`, or some of the letters r, w, x in this order.
pub(crate) fn permissions(text: &str) -> Option<Prot>
    ensures { result ≡ prot_of text.now }
{
    let (read, write, execute) = match text {
        "none" => (false, false, false),
        "r" => (true, false, false),
        "w" => (false, true, false),
        "x" => (false, false, true),
        "rw" => (true, true, false),
        "rx" => (true, false, true),
        "wx" => (false, true, true),
        "rwx" => (true, true, true),
        _ => return None,
    };
    Some(Prot {
        read,
        write,
        execute,
    })
}

/// An even number of hexadecimal digits, at least 2, as bytes. Those of a store that isn't refused for its length are
/// decoded on the stack.
pub(crate) fn hex_bytes(alloc: Global, text: &str) -> Result<Bytes, LineError>
    ensures { GivesBytes result (hex_of text.now) }
{
    if text.is_empty() {
        return Err(LineError::Unfit);
    }
    let digits = text.as_bytes();
    if digits.len() % 2 == 1 {
        return Err(LineError::Unfit);
    }
    let count = digits.len() / 2;
    if count <= STORED {
        let mut room = [0; STORED];
        return decoded(alloc, digits, &mut room[..count]);
    }
    let mut room = vec![in alloc; 0; count]?;
    decoded(alloc, digits, &mut room)
}

/// The bytes of so many pairs of digits, decoded in room of its caller's.
fn decoded(alloc: Global, digits: &[u8], room: &mut [u8]) -> Result<Bytes, LineError>
    requires { length digits.now ≡ 2 * length room.old }
    ensures { GivesBytes result (result_ok (decode_pairs 0 digits.now)) }
{
    if decode_into(digits, &mut *room) {
        Ok(Bytes::from_slice(alloc, room)?)
    } else {
        Err(LineError::Unfit)
    }
}
