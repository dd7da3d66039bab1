//! The numbers of the format, lowest byte first.

ghost use Rattle.std.specs.Prelude.{◌≡◌, ◌+◌, ◌≤◌, ◌++◌, length, OnOk};
ghost use Rattle.sd_image.specs.Reading.{number_at, are_zero};
ghost use Rattle.sd_image.specs.Words.{number_bytes};

use byteorder::{ByteOrder, LittleEndian};
use std::alloc::AllocError;

/// The number in the two bytes from a place on.
#[tactic(auto, unfolding(crate::specs::Reading::number_at))]
pub fn u16_at(bytes: &[u8], place: usize) -> u16
    requires { place + 2 ≤ length bytes.now }
    ensures { result ≡ number_at 2 place bytes.now }
{
    let (_, field) = bytes.split_at(place);
    LittleEndian::read_u16(field)
}

/// The number in the four bytes from a place on.
#[tactic(auto, unfolding(crate::specs::Reading::number_at))]
pub fn u32_at(bytes: &[u8], place: usize) -> u32
    requires { place + 4 ≤ length bytes.now }
    ensures { result ≡ number_at 4 place bytes.now }
{
    let (_, field) = bytes.split_at(place);
    LittleEndian::read_u32(field)
}

/// The number in the eight bytes from a place on.
#[tactic(auto, unfolding(crate::specs::Reading::number_at))]
pub fn u64_at(bytes: &[u8], place: usize) -> u64
    requires { place + 8 ≤ length bytes.now }
    ensures { result ≡ number_at 8 place bytes.now }
{
    let (_, field) = bytes.split_at(place);
    LittleEndian::read_u64(field)
}

/// Whether all of the bytes are zero.
#[tactic(auto, unfolding(crate::specs::Reading::are_zero))]
pub(crate) fn are_zero(bytes: &[u8]) -> bool
    ensures { result ≡ are_zero bytes.now }
{
    bytes.iter().all(|b| *b == 0)
}

/// Writes the lowest four bytes of a number.
#[tactic(auto, unfolding(crate::specs::Words::number_bytes))]
pub(crate) fn put_u32(out: &mut Vec<u8>, number: u64) -> Result<(), AllocError>
    ensures { OnOk result (out.new.items ≡ out.old.items ++ number_bytes 4 number) }
{
    out.extend_from_slice(&number.to_le_bytes()[..4])
}

/// Writes the eight bytes of a number.
#[tactic(auto, unfolding(crate::specs::Words::number_bytes))]
pub(crate) fn put_u64(out: &mut Vec<u8>, number: u64) -> Result<(), AllocError>
    ensures { OnOk result (out.new.items ≡ out.old.items ++ number_bytes 8 number) }
{
    out.extend_from_slice(&number.to_le_bytes())
}
