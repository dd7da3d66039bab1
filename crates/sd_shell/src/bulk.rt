//! `put` and `get` of a shell: requests for bytes in bulk, which the language of scripts doesn't have.
ghost use Rattle.sd_world.specs.Goes.{GoesOn};

use sd_command::Command;
use sd_disk::Disk;
use sd_exit::{Output, Stop};
use sd_restore::Fault;
use sd_run::{Halt, Place, get_bytes, put_bytes};
use sd_script::{
    Answer, Blame, FieldKind, Line, LineFault, Script, ScriptError, blame_line, print_answer,
};
use sd_world::World;
use std::alloc::{AllocError, Global};
use std::io::Write;

/// The most bytes that a `put` or a `get` has.
pub(crate) const MOST_BYTES: usize = 1_048_576;

/// Which way the bytes go.
#[derive(Clone, Copy, PartialEq, Eq)]
pub(crate) enum Way {
    Put,
    Get,
}

/// A request for bytes in bulk. Its length is 1 at least.
#[derive(Clone, Copy)]
pub(crate) struct Bulk {
    pub(crate) way: Way,
    pub(crate) place: Place,
    pub(crate) length: u64,
}

/// What a line asks for that has the word `put` or `get`.
#[derive(Clone, Copy)]
pub(crate) enum BulkLine {
    Fits(Bulk),
    /// It doesn't fit, or asks for no byte.
    Unfit,
}

/// The word of a request and what it asks for.
const WORDS: [(&[u8], Way); 2] = [(b"put", Way::Put), (b"get", Way::Get)];

/// The word of the request that has the same fields: a space, an address, and how many bytes.
const SAME_FIELDS: &[u8] = b"load";

/// The fields of a line after the word `put` or `get`, with the space before them, if it has one of these words.
fn split_word(line: &[u8]) -> Option<(Way, &[u8])> {
    for (word, way) in WORDS {
        if let Some(fields) = line.strip_prefix(word)
            && (fields.is_empty() || fields.starts_with(b" "))
        {
            return Some((way, fields));
        }
    }
    None
}

/// The line of a load with these fields.
fn load_line(alloc: Global, fields: &[u8]) -> Result<Vec<u8>, AllocError> {
    let mut line = Vec::from_slice(alloc, SAME_FIELDS)?;
    line.extend_from_slice(fields)?;
    Ok(line)
}

/// Where a load begins, and how many bytes it has, if a line is one.
fn load_of(line: &Line) -> Option<(Place, u64)> {
    match line {
        Line::Command(
            Command::Load {
                space,
                address,
                count,
            },
        ) => Some((
            Place {
                space: *space,
                address: *address,
            },
            *count,
        )),
        _ => None,
    }
}

/// The request for bytes in bulk that has the fields of a load.
fn bulk_of(way: Way, script: &Script) -> BulkLine {
    let Some(line) = script.lines.first() else {
        return BulkLine::Unfit;
    };
    match load_of(line) {
        Some((place, length)) if length > 0 => BulkLine::Fits(Bulk { way, place, length }),
        _ => BulkLine::Unfit,
    }
}

/// What a line asks for, if it has the word `put` or `get`. Its fields are read as those of a `load`.
pub(crate) fn parse_bulk(alloc: Global, line: &[u8]) -> Result<Option<BulkLine>, AllocError> {
    let Some((way, fields)) = split_word(line) else {
        return Ok(None);
    };
    let load = load_line(alloc, fields)?;
    match Script::parse(alloc, &load) {
        Ok(script) => Ok(Some(bulk_of(way, &script))),
        Err(ScriptError::Line(_)) => Ok(Some(BulkLine::Unfit)),
        Err(ScriptError::OutOfMemory) => Err(AllocError),
    }
}

/// The line of the language that a line of a shell is explained by: a `load` in place of a `put` or a `get`.
pub(crate) fn explained_by(alloc: Global, line: &[u8]) -> Result<Vec<u8>, AllocError> {
    match split_word(line) {
        Some((_, fields)) => load_line(alloc, fields),
        None => Vec::from_slice(alloc, line),
    }
}

/// What doesn't fit in a line of a shell that is explained by this line. Only a `put` or a `get` of no bytes is
/// explained by a line that fits.
pub(crate) fn blame_explained(alloc: Global, line: &[u8]) -> Result<Blame<'_>, AllocError> {
    let blame = blame_line(alloc, line)?;
    match blame.fault {
        LineFault::FieldCount { found, wanted } if found == wanted => Ok(Blame {
            fault: NO_BYTES,
            ..blame
        }),
        _ => Ok(blame),
    }
}

/// The fault of a `put` or a `get` of no bytes.
const NO_BYTES: LineFault = LineFault::Field {
    number: 4,
    wanted: FieldKind::Positive,
};

/// Prints how a store or load was answered that wasn't done, and at which address.
fn print_halt<W: Write>(alloc: Global, halt: Halt, out: &mut Output<W>) -> Result<(), Stop> {
    let Halt { address, reply } = halt;
    let mut line = Vec::new(alloc);
    if print_answer(&Answer::Reply(reply), &mut line).is_err() {
        return Err(Stop::Fault(Fault::OutOfMemory));
    }
    line.pop();
    if writeln!(line, " {address:#x}").is_err() {
        return Err(Stop::Fault(Fault::OutOfMemory));
    }
    out.write_all(&line)?;
    Ok(())
}

/// Stores the bytes of a `put`, and prints how that ended.
pub(crate) fn answer_put<D: Disk, W: Write>(
    alloc: Global,
    world: &mut World<D>,
    place: Place,
    bytes: &[u8],
    out: &mut Output<W>,
) -> Result<(), Stop>
    ensures goes_on { GoesOn D.Disk world.old world.new }
{
    match put_bytes(alloc, world, place, bytes)? {
        Some(halt) => print_halt(alloc, halt, out),
        None => {
            writeln!(out, "done")?;
            Ok(())
        }
    }
}

/// Loads the bytes of a `get`, and prints their number and the bytes themselves, or how that ended.
pub(crate) fn answer_get<D: Disk, W: Write>(
    alloc: Global,
    world: &mut World<D>,
    place: Place,
    length: usize,
    out: &mut Output<W>,
) -> Result<(), Stop>
    ensures goes_on { GoesOn D.Disk world.old world.new }
{
    world.sound();
    let mut bytes = Vec::with_capacity(alloc, length)?;
    match get_bytes(world, place, length, &mut bytes)? {
        Some(halt) => print_halt(alloc, halt, out),
        None => print_bytes(&bytes, out),
    }
}

/// Prints how many bytes were loaded, and the bytes themselves.
fn print_bytes<W: Write>(bytes: &[u8], out: &mut Output<W>) -> Result<(), Stop> {
    writeln!(out, "bytes {}", bytes.len())?;
    out.write_all(bytes)?;
    Ok(())
}
