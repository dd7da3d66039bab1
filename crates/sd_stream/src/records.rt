//! The head of a stream, and of its records.
ghost use Rattle.std.specs.Prelude.{◌≡◌, ◌≢◌, ◌<◌, ◌≤◌, ◌^◌, ◌+◌, ◌++◌, length, take, drop, IsTrue, false};
ghost use Rattle.sd_stream.specs.Stream.{IsFileLength, base_digest, base_number, head_text, number_text, record_text};

use crate::base::Base;
use byteorder::{ByteOrder, LittleEndian};

/// The greatest length of an image's file in a stream, in bytes: 512 MiB.
pub const MAX_FILE_LEN: u64 = 536_870_912;

/// The first bytes of a stream.
pub(crate) const MAGIC: [u8; 8] = *b"ckptsend";

/// The version of the format.
pub(crate) const VERSION: u64 = 1;

/// The length of a record's head, in bytes.
pub(crate) const RECORD_SIZE: usize = 16;

/// The kind of a record: an image.
pub(crate) const IMAGE: u64 = 1;

/// The kind of a record: the images before it make a checkpoint.
pub(crate) const ACKNOWLEDGED: u64 = 2;

/// The kind of a record: the end.
pub(crate) const END: u64 = 3;

/// Whether an image's file may have so many bytes.
pub(crate) fn is_file_length(len: u64) -> bool
    ensures yes { IsTrue result → IsFileLength len }
    ensures no { result ≡ false → IsFileLength len → ⊥ }
{
    0 < len && len <= MAX_FILE_LEN
}

/// Whether the bytes are the same.
pub(crate) fn are_same(these: &[u8], those: &[u8]) -> bool
    ensures yes { IsTrue result → these.now ≡ those.now }
    ensures no { result ≡ false → these.now ≢ those.now }
{
    these == those
}

/// Writes a field at its place.
fn put(text: &mut [u8], place: usize, field: &[u8])
    requires { place + length field.now ≤ length text.old }
    ensures text { text.new
        ≡ take place text.old ++ field.now ++ drop (place + length field.now) text.old }
    ensures length { length text.new ≡ length text.old }
{
    text[place..place + field.len()].copy_from_slice(field);
}

/// The head of a record.
pub(crate) fn record_bytes(kind: u64, value: u64) -> [u8; RECORD_SIZE]
    ensures { result ≡ record_text kind value }
{
    let mut text = [0; RECORD_SIZE];
    put(&mut text, 0, &kind.to_le_bytes());
    put(&mut text, 8, &value.to_le_bytes());
    text
}

/// The base's number, or 0.
pub(crate) fn number_of(base: &Option<Base>) -> u64
    ensures { result ≡ base_number base.now }
{
    match base {
        Some(base) => base.number,
        None => 0,
    }
}

/// The digest of the base's memory, or zeros.
fn digest_of(base: &Option<Base>) -> [u8; 32]
    ensures digest { result ≡ base_digest base.now }
    ensures length { length result ≡ 32 }
{
    match base {
        Some(base) => owned(base.digest),
        None => [0; 32],
    }
}

/// The digest itself, which has 32 bytes.
fn owned(digest: [u8; 32]) -> [u8; 32]
    ensures digest { result ≡ digest }
    ensures length { length result ≡ 32 }
{
    digest
}

/// The head of a stream.
pub(crate) fn head_bytes(base: &Option<Base>) -> [u8; 56]
    ensures text { result ≡ head_text base.now }
    ensures number { base_number base.now < 2 ^ 64 }
    ensures digest { length (base_digest base.now) ≡ 32 }
{
    let mut text = [0; 56];
    put(&mut text, 0, &MAGIC);
    put(&mut text, 8, &VERSION.to_le_bytes());
    put(&mut text, 16, &number_of(base).to_le_bytes());
    put(&mut text, 24, &digest_of(base));
    text
}

/// The number in the first eight bytes.
pub(crate) fn number_in(bytes: &[u8]) -> u64
    requires { 8 ≤ length bytes.now }
    ensures { take 8 bytes.now ≡ number_text result }
{
    LittleEndian::read_u64(bytes)
}

/// The kind and the value in the head of a record.
pub(crate) fn record_in(head: &[u8]) -> (u64, u64)
    requires { length head.now ≡ 16 }
    ensures { head.now ≡ record_text result.0 result.1 }
{
    let (kind, value) = head.split_at(8);
    (number_in(kind), number_in(value))
}
