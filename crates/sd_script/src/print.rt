//! Printing the line of an answer.
ghost use Rattle.std.specs.Prelude.{◌≡◌, ◌≤◌, ◌<◌, ◌+◌, ◌*◌, ◌++◌, [], ◌∷◌, length, take, codes, OnOk, MatchOption};
ghost use Rattle.std.specs.List.{flat_map};
ghost use Rattle.std.specs.Io.KnownBytes.{Appends};
ghost use Rattle.hex.specs.Hex.{encode_lower};
ghost use Rattle.sd_script.specs.Texts.{HasNoShortLine, answer_line, reply_line, word_text};

use crate::answer::Answer;
use sd_command::Reply;
use std::io;
use std::io::Write;

/// How many bytes are turned into digits at a time.
const PART: usize = 64;

/// The length of the longest line that [`put_short_line`] makes: that of a load of 64 bytes.
pub const SHORT_LINE: usize = 2 * PART + 7;

/// Puts the line of an answer into room of its caller's, and returns how long it is: that of a load, of a command that
/// was done, or of a store that needs a fault. None for another answer, whose line [`print_answer`] makes.
pub fn put_short_line(answer: &Answer, room: &mut [u8; SHORT_LINE]) -> Option<usize>
    ensures { MatchOption result (HasNoShortLine answer.now)
        (λ count. (count ≤ 135) × (take count room.new ≡ answer_line answer.now)) }
{
    let Answer::Reply(reply) = answer else {
        return None;
    };
    match reply {
        Reply::Done => Some(put_text(b"done\n", room)),
        Reply::NeedsFault => Some(put_text(b"needs-fault\n", room)),
        Reply::Bytes(bytes) => put_few_bytes(bytes.as_slice(), room),
        _ => None,
    }
}

/// Puts a text at the front of the room, and returns its length.
fn put_text(text: &[u8], room: &mut [u8; SHORT_LINE]) -> usize
    requires { length text.now ≤ 135 }
    ensures length { result ≡ length text.now }
    ensures text { take result room.new ≡ text.now }
{
    room[..text.len()].copy_from_slice(text);
    text.len()
}

/// Puts the line of so few bytes as a load has at the front of the room, and returns its length. None for more bytes.
fn put_few_bytes(bytes: &[u8], room: &mut [u8; SHORT_LINE]) -> Option<usize>
    ensures { MatchOption result (64 < length bytes.now) (λ count. (count ≤ 135)
        × (take count room.new ≡ codes "bytes " ++ encode_lower bytes.now ++ 10 ∷ [])) }
{
    if bytes.len() > PART {
        return None;
    }
    let count = 2 * bytes.len() + 7;
    put_bytes(bytes, &mut room[..count]);
    Some(count)
}

/// Prints an answer as one line.
///
/// # Errors
///
/// Those of the writer.
pub fn print_answer<W: Write>(answer: &Answer, out: &mut W) -> io::Result<()>
    ensures { OnOk result
        (Appends (W.contents out.old) (W.contents out.new) (answer_line answer.now)) }
{
    match answer {
        Answer::Reply(reply) => print_reply(reply, out),
        Answer::Words(words) => print_words(words, out),
    }
}

fn print_reply<W: Write>(reply: &Reply, out: &mut W) -> io::Result<()>
    ensures { OnOk result
        (Appends (W.contents out.old) (W.contents out.new) (reply_line reply.now)) }
{
    match reply {
        Reply::Done => out.write_all(b"done\n"),
        Reply::Bytes(bytes) => print_bytes(bytes.as_slice(), out),
        Reply::Child(space) => writeln!(out, "child {}", space.number()),
        Reply::NeedsFault => out.write_all(b"needs-fault\n"),
        Reply::Segv(segv) => writeln!(out, "segv {segv}"),
        Reply::Begun(number) => writeln!(out, "begun {number}"),
        Reply::Worked => out.write_all(b"worked\n"),
        Reply::Acked(number) => writeln!(out, "acked {number}"),
        Reply::Cancelled(number) => writeln!(out, "cancelled {number}"),
        Reply::Merged(serial) => writeln!(out, "merged {serial}"),
        Reply::Trimmed(count) => writeln!(out, "trimmed {count}"),
        Reply::Reopened(Some(number)) => writeln!(out, "reopened {number}"),
        Reply::Reopened(None) => out.write_all(b"reopened none\n"),
        Reply::Refused(refusal) => writeln!(out, "refused {refusal}"),
    }
}

fn print_bytes<W: Write>(bytes: &[u8], out: &mut W) -> io::Result<()>
    ensures { OnOk result (Appends (W.contents out.old) (W.contents out.new)
        (codes "bytes " ++ encode_lower bytes.now ++ 10 ∷ [])) }
{
    if bytes.len() <= PART {
        return print_few_bytes(bytes, out);
    }
    out.write_all(b"bytes ")?;
    print_digits(bytes, out)?;
    out.write_all(b"\n")
}

/// The line of so few bytes as a load has, printed by one call.
fn print_few_bytes<W: Write>(bytes: &[u8], out: &mut W) -> io::Result<()>
    requires { length bytes.now ≤ 64 }
    ensures { OnOk result (Appends (W.contents out.old) (W.contents out.new)
        (codes "bytes " ++ encode_lower bytes.now ++ 10 ∷ [])) }
{
    let mut text = [0; 2 * PART + 7];
    let line = &mut text[..2 * bytes.len() + 7];
    put_bytes(bytes, &mut *line);
    out.write_all(line)
}

/// Puts the line of bytes into a text of its length.
fn put_bytes(bytes: &[u8], text: &mut [u8])
    requires few { length bytes.now ≤ 64 }
    requires fits { length text.old ≡ 2 * length bytes.now + 7 }
    ensures { text.new ≡ codes "bytes " ++ encode_lower bytes.now ++ 10 ∷ [] }
{
    let (word, rest) = text.split_at_mut(6);
    let (digits, end) = rest.split_at_mut(2 * bytes.len());
    word.copy_from_slice(b"bytes ");
    hex::encode_to_slice(bytes, &mut *digits).unwrap();
    end.copy_from_slice(b"\n");
}

/// The digits of bytes, some bytes at a time.
fn print_digits<W: Write>(bytes: &[u8], out: &mut W) -> io::Result<()>
    ensures { OnOk result
        (Appends (W.contents out.old) (W.contents out.new) (encode_lower bytes.now)) }
{
    let mut rest = bytes;
    while !rest.is_empty() {
        let (part, others) = rest.split_at(rest.len().min(PART));
        print_part(part, out)?;
        rest = others;
    }
    Ok(())
}

fn print_part<W: Write>(bytes: &[u8], out: &mut W) -> io::Result<()>
    requires { length bytes.now ≤ 64 }
    ensures { OnOk result
        (Appends (W.contents out.old) (W.contents out.new) (encode_lower bytes.now)) }
{
    let mut text = [0; 2 * PART];
    let digits = &mut text[..2 * bytes.len()];
    hex::encode_to_slice(bytes, &mut *digits).unwrap();
    out.write_all(digits)
}

fn print_words<W: Write>(words: &[u64], out: &mut W) -> io::Result<()>
    ensures { OnOk result (Appends (W.contents out.old) (W.contents out.new)
        (codes "words" ++ flat_map word_text words.now ++ 10 ∷ [])) }
{
    out.write_all(b"words")?;
    for word in words {
        print_word(*word, out)?;
    }
    out.write_all(b"\n")
}

fn print_word<W: Write>(word: u64, out: &mut W) -> io::Result<()>
    ensures { OnOk result
        (Appends (W.contents out.old) (W.contents out.new) (word_text word)) }
{
    out.write_all(b" ")?;
    print_part(&word.to_be_bytes(), out)
}
