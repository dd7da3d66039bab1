//! The lines of a header.
ghost use Rattle.std.specs.Prelude.{◌≡◌, ◌⊎◌, ◌<◌, ◌≤◌, length, MatchOption, OnOk};
ghost use Rattle.std.specs.Io.KnownBytes.{Appends};
ghost use Rattle.sd_show.specs.Texts.{digest_line, digest_word, field_line, form_lines, header_lines, kind_line};
ghost use Rattle.sd_show.specs.Texts.{kind_word, place_lines, size_lines};

use sd_image::{HEADER_SIZE, u16_at, u64_at};
use std::io;
use std::io::Write;

/// Prints a field: its name and its number.
#[tactic(auto, unfolding(crate::specs::Texts::field_line))]
fn print_field<W: Write>(name: &str, number: u64, out: &mut W) -> io::Result<()>
    ensures { OnOk result
        (Appends (W.contents out.old) (W.contents out.new) (field_line name.now number)) }
{
    writeln!(out, "{name} {number}")
}

/// The word for the kind with this number, or none.
pub(crate) fn kind_word(number: u16) -> Option<&'static str>
    ensures { MatchOption result (number < 1 ⊎ 3 < number)
        (λ word. (1 ≤ number) × (number ≤ 3) × (word.now ≡ kind_word number)) }
{
    match number {
        1 => Some("pre-dump"),
        2 => Some("dump"),
        3 => Some("merged"),
        _ => None,
    }
}

/// Prints the kind of an image: its word, or its number where it has none.
#[tactic(auto, unfolding(crate::specs::Texts::kind_line))]
fn print_kind<W: Write>(number: u16, out: &mut W) -> io::Result<()>
    ensures { OnOk result (Appends (W.contents out.old) (W.contents out.new) (kind_line number)) }
{
    match kind_word(number) {
        Some(word) => writeln!(out, "kind {word}"),
        None => print_field("kind", u64::from(number), out),
    }
}

/// Whether the digest in a header is the file's, or that it has none.
#[tactic(auto, unfolding(crate::specs::Texts::digest_word))]
pub(crate) fn digest_word(front: &[u8; HEADER_SIZE], digest: &[u8; 32]) -> &'static str
    ensures { result.now ≡ digest_word front.now digest.now }
{
    if u16_at(front, 8) != 2 {
        "none"
    } else if front[64..96] == digest[..] {
        "right"
    } else {
        "wrong"
    }
}

/// Prints whether the digest in a header is the file's, and its bytes.
#[tactic(auto, unfolding(crate::specs::Texts::digest_line))]
fn print_digest<W: Write>(
    front: &[u8; HEADER_SIZE],
    digest: &[u8; 32],
    out: &mut W,
) -> io::Result<()>
    ensures { OnOk result
        (Appends (W.contents out.old) (W.contents out.new) (digest_line front.now digest.now)) }
{
    let mut shown = [0; 64];
    hex::encode_to_slice(&front[64..96], shown.as_mut_slice()).unwrap();
    write!(out, "digest {} ", digest_word(front, digest))?;
    out.write_all(&shown)?;
    out.write_all(b"\n")
}

/// Prints the version and the kind of an image.
#[tactic(auto, unfolding(crate::specs::Texts::form_lines))]
fn print_form<W: Write>(front: &[u8; HEADER_SIZE], out: &mut W) -> io::Result<()>
    ensures { OnOk result
        (Appends (W.contents out.old) (W.contents out.new) (form_lines front.now)) }
{
    print_field("version", u64::from(u16_at(front, 8)), out)?;
    print_kind(u16_at(front, 10), out)
}

/// Prints the place of an image among the others.
#[tactic(auto, unfolding(crate::specs::Texts::place_lines))]
fn print_place<W: Write>(front: &[u8; HEADER_SIZE], out: &mut W) -> io::Result<()>
    ensures { OnOk result
        (Appends (W.contents out.old) (W.contents out.new) (place_lines front.now)) }
{
    print_field("serial", u64_at(front, 16), out)?;
    print_field("stands_for", u64_at(front, 24), out)?;
    print_field("parent", u64_at(front, 32), out)
}

/// Prints the checkpoint of an image, and what it has.
#[tactic(auto, unfolding(crate::specs::Texts::size_lines))]
fn print_sizes<W: Write>(front: &[u8; HEADER_SIZE], out: &mut W) -> io::Result<()>
    ensures { OnOk result
        (Appends (W.contents out.old) (W.contents out.new) (size_lines front.now)) }
{
    print_field("checkpoint", u64_at(front, 40), out)?;
    print_field("pages", u64_at(front, 48), out)?;
    print_field("table_len", u64_at(front, 56), out)
}

/// Prints the fields of a header, in the order in which they stand.
#[tactic(auto, unfolding(crate::specs::Texts::header_lines))]
pub(crate) fn print_header<W: Write>(
    front: &[u8; HEADER_SIZE],
    digest: &[u8; 32],
    out: &mut W,
) -> io::Result<()>
    ensures { OnOk result
        (Appends (W.contents out.old) (W.contents out.new) (header_lines front.now digest.now)) }
{
    print_form(front, out)?;
    print_place(front, out)?;
    print_sizes(front, out)?;
    print_digest(front, digest, out)
}
