//! The first 4,096 bytes of an image.

ghost use Rattle.std.specs.Prelude.{◌≡◌, ℕ, ◌<◌, ◌≤◌, ◌+◌, ◌*◌, ◌⊎◌, ◌∷◌, ◌++◌, length, take, drop, IfOk, MatchOption};
ghost use Rattle.std.specs.Prelude.{Ok};
ghost use Rattle.sd_image.specs.declared.header.Header.{Header};
ghost use Rattle.sd_image.specs.Header.{header_text, IsHeader};
ghost use Rattle.sd_image.specs.Reading.{Reads, form_in, has_no_digest, kind_of_number, version_of, fields_of};
ghost use Rattle.sd_image.specs.Reading.{fields_kept};
ghost use Rattle.sd_image.specs.Reading.{stands_rightly, parent_rightly, header_in};

use crate::fields::{are_zero, u16_at, u64_at};
use crate::header::{Header, Kind, Version};
use crate::layout::HEADER_SIZE;
use crate::reason::Reason;

const MAGIC: &[u8; 7] = b"SDCHAIN";

/// The version with this number, or none.
fn version_with(number: u16) -> Option<Version>
    ensures { MatchOption result (number < 1 ⊎ 2 < number)
        (λ version. (1 ≤ number) × (number ≤ 2) × (version ≡ version_of number)) }
{
    match number {
        1 => Some(Version::One),
        2 => Some(Version::Two),
        _ => None,
    }
}

/// The kind with this number, or none.
fn kind_with(number: u16) -> Option<Kind>
    ensures { MatchOption result (number < 1 ⊎ 3 < number)
        (λ kind. (1 ≤ number) × (number ≤ 3) × (kind ≡ kind_of_number number)) }
{
    match number {
        1 => Some(Kind::PreDump),
        2 => Some(Kind::Dump),
        3 => Some(Kind::Merged),
        _ => None,
    }
}

/// Writes a field at its place in the bytes after the gate.
fn put(text: &mut [u8; 4095], place: usize, field: &[u8])
    requires { place + length field.now ≤ 4095 }
    ensures { text.new
        ≡ take place text.old ++ field.now ++ drop (place + length field.now) text.old }
{
    text[place..place + field.len()].copy_from_slice(field);
}

/// Writes the digest after the numbers.
fn put_digest(text: &mut [u8; 4095], digest: [u8; 32])
    ensures text { text.new ≡ take 63 text.old ++ digest ++ drop 95 text.old }
    ensures length { length digest ≡ 32 }
{
    text[63..95].copy_from_slice(&digest);
}

/// Bytes 1 to 4,095 of an image with this header.
pub fn encode_header(header: &Header) -> [u8; 4095]
    ensures text { result ≡ header_text header.now }
    ensures length { length result ≡ 4095 }
    // What is written is read back, after any gate.
    ensures read_back { (gate len : ℕ) → IsHeader header.now len
        → header_in (gate ∷ result) len ≡ Ok header.now }
{
    let mut text = [0; 4095];
    put(&mut text, 0, MAGIC);
    put(&mut text, 7, &header.version.number().to_le_bytes());
    put(&mut text, 9, &header.kind.number().to_le_bytes());
    put(&mut text, 15, &header.serial.to_le_bytes());
    put(&mut text, 23, &header.stands_for.to_le_bytes());
    put(&mut text, 31, &header.parent.to_le_bytes());
    put(&mut text, 39, &header.checkpoint.to_le_bytes());
    put(&mut text, 47, &header.pages.to_le_bytes());
    put(&mut text, 55, &header.table_len.to_le_bytes());
    put_digest(&mut text, header.digest);
    text
}

/// Whether a header of this version has no digest where it may have none.
fn has_no_digest(version: Version, bytes: &[u8]) -> bool
    ensures { result ≡ has_no_digest version bytes.now }
{
    match version {
        Version::One => are_zero(bytes),
        Version::Two => true,
    }
}

/// What the bytes themselves have to be, whatever the fields say.
#[tactic(auto, unfolding(crate::specs::Reading::form_in, crate::specs::Reading::bytes_kept))]
fn check_bytes(bytes: &[u8]) -> Result<(Version, Kind), Reason>
    requires { length bytes.now ≡ 4096 }
    ensures { Reads (λ form. form) result (form_in bytes.now) }
{
    if bytes[1..8] != MAGIC[..] {
        return Err(Reason::Magic);
    }
    let version = version_with(u16_at(bytes, 8)).ok_or(Reason::Version)?;
    let kind = kind_with(u16_at(bytes, 10)).ok_or(Reason::Kind)?;
    if !are_zero(&bytes[12..16])
        || !has_no_digest(version, &bytes[64..96])
        || !are_zero(&bytes[96..HEADER_SIZE])
    {
        return Err(Reason::Reserved);
    }
    Ok((version, kind))
}

/// Whether an image of this kind and number may stand for that number.
fn stands_rightly(kind: Kind, serial: u64, stands_for: u64) -> bool
    ensures { result ≡ stands_rightly kind serial stands_for }
{
    match kind {
        Kind::PreDump | Kind::Dump => stands_for == serial,
        Kind::Merged => 0 < stands_for && stands_for < serial,
    }
}

/// Whether an image of this kind and number may have that parent.
fn parent_rightly(kind: Kind, serial: u64, parent: u64) -> bool
    ensures { result ≡ parent_rightly kind serial parent }
{
    match kind {
        Kind::PreDump | Kind::Dump => parent < serial,
        Kind::Merged => parent == 0,
    }
}

/// How long a file with this header is.
fn file_len(header: &Header) -> u128
    ensures { result ≡ 4096 + 4096 * header.now.pages + header.now.table_len }
{
    4096 + 4096 * u128::from(header.pages) + u128::from(header.table_len)
}

/// What the fields have to be, in a file of this length.
#[tactic(auto, unfolding(crate::specs::Reading::fields_kept))]
fn check_fields(header: &Header, len: u64) -> Result<(), Reason>
    ensures { Reads (λ _. tt) result (fields_kept header.now len) }
{
    if header.serial == 0 {
        return Err(Reason::Serial);
    }
    if !stands_rightly(header.kind, header.serial, header.stands_for) {
        return Err(Reason::StandsFor);
    }
    if !parent_rightly(header.kind, header.serial, header.parent) {
        return Err(Reason::Parent);
    }
    if header.checkpoint == 0 {
        return Err(Reason::Checkpoint);
    }
    if file_len(header) != u128::from(len) {
        return Err(Reason::Length);
    }
    Ok(())
}

/// The fields, where the bytes are what they have to be.
#[tactic(auto, unfolding(crate::specs::Reading::fields_of))]
fn fields(bytes: &[u8], version: Version, kind: Kind) -> Header
    requires { length bytes.now ≡ 4096 }
    ensures { result ≡ fields_of (version, kind) bytes.now }
{
    let mut digest = [0; 32];
    digest.copy_from_slice(&bytes[64..96]);
    Header {
        version,
        kind,
        serial: u64_at(bytes, 16),
        stands_for: u64_at(bytes, 24),
        parent: u64_at(bytes, 32),
        checkpoint: u64_at(bytes, 40),
        pages: u64_at(bytes, 48),
        table_len: u64_at(bytes, 56),
        digest,
    }
}

/// The header of a file of this length: the reading of its first bytes, and nothing else.
#[tactic(auto, unfolding(crate::specs::Reading::header_in))]
fn header_of(bytes: &[u8], len: u64) -> Result<Header, Reason>
    requires { length bytes.now ≡ 4096 }
    ensures { result ≡ header_in bytes.now len }
{
    let (version, kind) = check_bytes(bytes)?;
    let header = fields(bytes, version, kind);
    check_fields(&header, len)?;
    Ok(header)
}

/// The header in the first 4,096 bytes of a file of this length, or the least reason why it is none. Its gate
/// may be open or closed.
pub fn decode_header(bytes: &[u8], len: u64) -> Result<Header, Reason>
    requires { length bytes.now ≡ 4096 }
    // What is read is spelled so, and is a header.
    ensures found { IfOk result (λ h. (drop 1 bytes.now ≡ header_text h) × IsHeader h len) }
    // What is spelled so is read.
    ensures only { (h : Header) → drop 1 bytes.now ≡ header_text h → IsHeader h len
        → result ≡ Ok h }
    // Which reason it is.
    ensures exact { result ≡ header_in bytes.now len }
{
    header_of(bytes, len)
}
