//! The lines that `restore` prints of a page.

ghost use Rattle.std.specs.Prelude.{◌≡◌, ◌+◌, ◌≤◌, ◌<◌, ◌^◌, ◌==◌, ◌++◌, [], ◌∷◌, codes, length, take, drop, true};
ghost use Rattle.std.specs.Prelude.{OnOk, OnErr};
ghost use Rattle.std.specs.List.{list_all};
ghost use Rattle.std.specs.Io.KnownBytes.{Appends};
ghost use Rattle.sd_readers.specs.Texts.{bytes_line, line_text, page_text};
ghost use Rattle.sd_readers.specs.Digits.{IsZeroCount};

use sd_areas::PAGE_SIZE;
use sd_exit::Output;
use std::io;
use std::io::Write;

/// How many bytes one line shows.
const LINE_BYTES: usize = 32;

/// How many lines a page can have.
const LINES: usize = PAGE_SIZE / LINE_BYTES;

/// Where the digits of the address begin, when it has all 16 of them.
const DIGITS: usize = 8;

/// Where the digits of the bytes begin.
const BYTES: usize = DIGITS + 17;

/// The length of a line with an address of 16 digits.
const LINE_LEN: usize = BYTES + 2 * LINE_BYTES + 1;

/// The length of the lines of a page that has no zeros, with addresses of 16 digits.
const PAGE_LEN: usize = LINES * LINE_LEN;

/// Prints the lines of a page that aren't all zeros, in one piece: `bytes 0x10000 6865..`.
pub fn print_page<W: Write>(address: u64, page: &[u8], out: &mut Output<W>) -> io::Result<()>
    requires fits { address + 4096 ≤ 2 ^ 48 }
    requires page { length page.now ≡ 4096 }
    ensures text { OnOk result
        (Appends (W.contents out.old.writer) (W.contents out.new.writer) (page_text address page.now)) }
    ensures refused { OnErr result (out.new.refused ≡ true) }
{
    let mut text = [0; PAGE_LEN];
    let length = put_page(&mut text, address, page);
    out.write_all(&text[..length])
}

/// Puts the lines of a page that aren't all zeros at the start of a text, and returns where they end.
fn put_page(text: &mut [u8; PAGE_LEN], address: u64, page: &[u8]) -> usize
    requires fits { address + 4096 ≤ 2 ^ 48 }
    requires page { length page.now ≡ 4096 }
    ensures within { result ≤ 11520 }
    ensures text { take result text.new ≡ page_text address page.now }
{
    let mut end = 0;
    for number in 0..LINES {
        let place = LINE_BYTES * number;
        end = put_part(
            text,
            end,
            address + place as u64,
            &page[place..place + LINE_BYTES],
        );
    }
    end
}

/// Puts the line of bytes at a place of a text, unless they are all zeros, and returns where it ends.
fn put_part(text: &mut [u8; PAGE_LEN], place: usize, address: u64, bytes: &[u8]) -> usize
    requires bytes { length bytes.now ≡ 32 }
    requires room { place + 90 ≤ 11520 }
    ensures within { result ≤ place + 90 }
    ensures text { take result text.new ≡ take place text.old ++ bytes_line address bytes.now }
{
    if are_zeros(bytes) {
        return place;
    }
    put_line(text, place, address, bytes)
}

/// Whether bytes are zeros alone. It passes over all of them, some at a time.
fn are_zeros(bytes: &[u8]) -> bool
    ensures { result ≡ list_all (λ byte. byte == 0) bytes.now }
{
    let mut ones = 0;
    for byte in bytes {
        ones |= *byte;
    }
    ones == 0
}

/// Puts a line at a place of a text, and returns where it ends. Its address is put after the place of the zeros before
/// it, and those are left out.
fn put_line(text: &mut [u8; PAGE_LEN], place: usize, address: u64, bytes: &[u8]) -> usize
    requires bytes { length bytes.now ≡ 32 }
    requires room { place + 90 ≤ 11520 }
    ensures within { result ≤ place + 90 }
    ensures text { take result text.new ≡ take place text.old ++ line_text address bytes.now }
{
    let mut digits = [0; 16];
    hex::encode_to_slice(&address.to_be_bytes(), digits.as_mut_slice()).unwrap();
    let mut shown = [0; 2 * LINE_BYTES];
    hex::encode_to_slice(bytes, shown.as_mut_slice()).unwrap();
    let zeros = zero_digits(address);
    let line = line_from(zeros, &digits, &shown);
    put_at(text, place, &line[zeros..])
}

/// Puts bytes at a place of a text, and returns where they end.
fn put_at(text: &mut [u8; PAGE_LEN], place: usize, bytes: &[u8]) -> usize
    requires { place + length bytes.now ≤ 11520 }
    ensures end { result ≡ place + length bytes.now }
    ensures text { take result text.new ≡ take place text.old ++ bytes.now }
{
    let end = place + bytes.len();
    text[place..end].copy_from_slice(bytes);
    end
}

/// The text of a line, after so many bytes that are left out as the address has zeros before its digits.
fn line_from(zeros: usize, digits: &[u8; 16], shown: &[u8; 2 * LINE_BYTES]) -> [u8; LINE_LEN]
    requires { zeros ≤ 15 }
    ensures { drop zeros result
        ≡ codes "bytes 0x" ++ drop zeros digits.now ++ codes " " ++ shown.now ++ 10 ∷ [] }
{
    let mut text = [b' '; LINE_LEN];
    put(&mut text, DIGITS, digits.as_slice());
    put(&mut text, BYTES, shown.as_slice());
    put(&mut text, LINE_LEN - 1, b"\n");
    put(&mut text, zeros, b"bytes 0x");
    text
}

/// Puts bytes in place of others of a text.
fn put(text: &mut [u8; LINE_LEN], place: usize, bytes: &[u8])
    requires { place + length bytes.now ≤ 90 }
    ensures { text.new
        ≡ take place text.old ++ bytes.now ++ drop (place + length bytes.now) text.old }
{
    text[place..place + bytes.len()].copy_from_slice(bytes);
}

/// How many of the 16 digits of an address are zeros before the others.
fn zero_digits(address: u64) -> usize
    ensures { IsZeroCount address result }
{
    (address.leading_zeros() / 4).min(15) as usize
}
