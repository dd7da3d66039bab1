//! Core files that are read: their memory, and their notes.
ghost use Rattle.std.specs.Prelude.{◌≡◌, IfErr, IfOk};
ghost use Rattle.sd_cores.specs.Cores.{EndsUnread, IsSaid, IsUnopened};
ghost use Rattle.sd_cores.specs.Texts.{core_fault_text};

use sd_elf::{
    Core, CoreFault, NotesError, NotesFault, ReadError, idle_thread, read_core, read_notes,
};
use sd_exit::{Output, Stop};
use sd_program::{Causes, tell};
use sd_restore::Fault;
use std::fs::File;
use std::io::Write;
use std::os::unix::fs::FileTypeExt;
use std::{fs, io};

/// What is said of a core without a segment of memory.
const NO_MEMORY: &str = "no memory in it: it has no segment that is loaded";

/// What is said of a core that is to be read from a pipe.
const IS_PIPE: &str = "a pipe, of which no place can be read twice: write the core into a file";

/// A core file whose headers were read.
#[derive(Drop)]
pub struct Source<'a> {
    pub name: &'a str,
    pub file: File,
    pub core: Core,
}

/// Opens a core file. A pipe isn't opened: it would be waited for, and is read at no place.
fn open_file(rt: &HostRuntime, name: &str) -> io::Result<File> {
    if fs::metadata(rt, name)?.file_type().is_fifo() {
        return Err(io::Error::new(io::ErrorKind::Unsupported, IS_PIPE));
    }
    File::open(rt, name)
}

/// Opens a core file, and reads its headers.
fn open_core<'a>(rt: &HostRuntime, name: &'a str) -> Result<Source<'a>, ReadError>
    ensures { IfOk result (λ source. source.name ≡ name.entry) }
{
    let file = open_file(rt, name)?;
    let core = read_core(rt.alloc(), &file)?;
    Ok(Source { name, file, core })
}

/// Opens a core file, or prints why it isn't one that a space can have.
fn source_of<'a, W: Write>(
    rt: &HostRuntime,
    causes: Causes,
    name: &'a str,
    out: &mut Output<W>,
) -> Result<Source<'a>, Stop>
    ensures name { IfOk result (λ source. source.name ≡ name.entry) }
    ensures same { IfOk result (λ _. out.new ≡ out.old) }
    ensures stopped { IfErr result (IsUnopened out.new.refused) }
{
    match open_core(rt, name) {
        Ok(source) if source.core.segments.is_empty() => {
            tell(rt, causes, name, &NO_MEMORY);
            Err(end_after(NO_CORE, out))
        }
        Ok(source) => Ok(source),
        Err(error) => Err(unread(rt, causes, name, error, out)),
    }
}

/// Opens core files, up to the first that isn't one.
pub fn open_cores<'a, W: Write>(
    rt: &HostRuntime,
    causes: Causes,
    names: &[&'a str],
    out: &mut Output<W>,
) -> Result<Vec<Source<'a>>, Stop>
    // Where all are opened, nothing is printed.
    ensures same { IfOk result (λ _. out.new ≡ out.old) }
    // Else one is no core, which is printed, or memory ran out.
    ensures stopped { IfErr result (IsUnopened out.new.refused) }
{
    let mut sources = Vec::new(rt.alloc());
    for name in names {
        let source = source_of(rt, causes, name, out)?;
        if sources.push(source).is_err() {
            return Err(Stop::Fault(Fault::OutOfMemory));
        }
    }
    Ok(sources)
}

/// Reads the notes of a core file.
fn notes_in(rt: &HostRuntime, name: &str) -> Result<Vec<u8>, NotesError> {
    let file = open_file(rt, name)?;
    read_notes(rt.alloc(), &file)
}

/// The notes of threads that an export is to have: those of the core with this name, and else those of a thread whose
/// state is zeros.
pub(crate) fn threads_of<W: Write>(
    rt: &HostRuntime,
    causes: Causes,
    name: Option<&str>,
    out: &mut Output<W>,
) -> Result<Vec<u8>, Stop>
    ensures same { IfOk result (λ _. out.new ≡ out.old) }
    ensures stopped { IfErr result (IsUnopened out.new.refused) }
{
    let Some(name) = name else {
        return Ok(idle_thread(rt.alloc())?);
    };
    match notes_in(rt, name) {
        Ok(notes) => Ok(notes),
        Err(NotesError::Read(error)) => Err(unread(rt, causes, name, error, out)),
        Err(NotesError::Fault(fault)) => {
            tell(rt, causes, name, &fault);
            Err(end_after(line_of(fault), out))
        }
    }
}

/// The line that is printed of a core whose notes aren't read.
fn line_of(fault: NotesFault) -> &'static [u8] {
    match fault {
        NotesFault::TooLong => TOO_LARGE,
        NotesFault::None | NotesFault::PastEnd => NO_CORE,
    }
}

/// Prints the last line of a program that can't go on, and returns how it ends.
pub fn end_after<W: Write>(line: &[u8], out: &mut Output<W>) -> Stop
    ensures { IsSaid line.now (W.contents out.old.writer) (W.contents out.new.writer) out.new.refused result }
{
    match out.write_all(line) {
        Ok(()) => Stop::Refused,
        Err(error) => Stop::Writer(error),
    }
}

/// What is printed of a file that is no core that a space can have.
const NO_CORE: &[u8] = b"not a core\n";

/// What is printed of a core that has more than a space can have.
const TOO_LARGE: &[u8] = b"core too large\n";

/// Prints why a core isn't read, and says its cause.
pub fn unread<W: Write>(
    rt: &impl Eprint,
    causes: Causes,
    name: &str,
    error: ReadError,
    out: &mut Output<W>,
) -> Stop
    ensures { EndsUnread error (W.contents out.old.writer) (W.contents out.new.writer) out.new.refused result }
{
    match error {
        ReadError::Fault(fault) => {
            tell(rt, causes, name, &fault);
            end_after(line_of_core(fault), out)
        }
        ReadError::File(error) => {
            tell(rt, causes, name, &error);
            end_after(b"cannot read CORE\n", out)
        }
        ReadError::OutOfMemory => Stop::Fault(Fault::OutOfMemory),
    }
}

/// The line that is printed of a core whose bytes a space can't have.
fn line_of_core(fault: CoreFault) -> &'static [u8]
    ensures { result.now ≡ core_fault_text fault }
{
    if fault.is_too_large() {
        TOO_LARGE
    } else {
        NO_CORE
    }
}
