//! `--stats` and `--summary`: what is done with the records of what each image, checkpoint and merge took.
ghost use Rattle.std.specs.Prelude.{◌≡◌, IfOk};

use sd_exit::{Output, Stop};
use sd_program::{Advised, Called, Inputs, is_same_file, open_beside_slots, tell};
use sd_stats::{Record, print_record};
use std::fs::File;
use std::io::Write;
use std::rt::Files;
use std::{fs, io};

/// The name of the standard error, as a file of counts.
const STANDARD_ERROR: &str = "-";

/// What is reported of a file of counts that can't be made since its folder is missing.
const IS_IN_NO_FOLDER: &str = "; the folder in which it is to stand has to be there";

/// The file to which the standard output goes, by the name that the system has for it.
const OUTPUT_FILE: &str = "/proc/self/fd/1";

/// What is reported of a file of counts to which the answers go too.
const IS_OUTPUT: &str = "the standard output goes there: name another";

/// Which counts are asked for.
#[derive(Clone, Copy)]
pub struct CountsAsked<'a> {
    /// The file that gets a line for each record.
    pub stats: Option<&'a str>,
    /// Whether a table is printed at the end.
    pub summary: bool,
}

impl CountsAsked<'_> {
    /// No counts.
    pub const NONE: CountsAsked<'static> = CountsAsked {
        stats: None,
        summary: false,
    };

    /// Whether any are asked for.
    pub(crate) fn are_any(self) -> bool {
        self.summary || self.stats.is_some()
    }
}

/// Where a line for each record goes.
#[derive(Drop)]
enum Lines {
    Nowhere,
    StandardError,
    File(File),
}

/// What is to be done with the records of a run.
#[derive(Drop)]
pub(crate) struct Counts {
    lines: Lines,
    pub(crate) summary: bool,
}

/// Whether a path leads to a regular file.
fn is_regular(rt: &impl Files, path: &str) -> bool {
    fs::metadata(rt, path).is_ok_and(|found| found.is_file())
}

/// Opens the file of counts.
///
/// # Errors
///
/// Those of [`open_beside_slots`]; `InvalidInput` where an input or the answers stand in that file, whose bytes stay.
fn open_counts(rt: &HostRuntime, folder: &str, inputs: Inputs<'_>, name: &str) -> io::Result<File> {
    if is_regular(rt, name) && is_same_file(rt, name, OUTPUT_FILE) {
        return Err(io::Error::new(io::ErrorKind::InvalidInput, IS_OUTPUT));
    }
    if inputs.has(rt, name) {
        return Err(io::Error::new(io::ErrorKind::InvalidInput, inputs.cause));
    }
    open_beside_slots(rt, folder, name)
}

/// Where the lines go. A file that can't be made is reported, and so is one of a slot of the store. What stands in it
/// stays until the run begins.
fn lines_to<W: Write>(
    called: Called<'_>,
    inputs: Inputs<'_>,
    name: Option<&str>,
    out: &mut Output<W>,
) -> Result<Lines, Stop>
    ensures quiet { IfOk result (λ _. out.new ≡ out.old) }
{
    let Some(name) = name else {
        return Ok(Lines::Nowhere);
    };
    if name == STANDARD_ERROR {
        return Ok(Lines::StandardError);
    }
    match open_counts(called.rt, called.folder, inputs, name) {
        Ok(file) => Ok(Lines::File(file)),
        Err(error) => {
            let advice = match error.kind() {
                io::ErrorKind::NotFound => IS_IN_NO_FOLDER,
                _ => "",
            };
            let cause = &error;
            tell(called.rt, called.causes, name, &Advised { cause, advice });
            out.write_all(b"cannot write FILE\n")?;
            Err(Stop::Refused)
        }
    }
}

impl Counts {
    /// Whether the records are asked for, as lines or as a table.
    pub(crate) fn are_asked(&self) -> bool {
        self.summary || !matches!(self.lines, Lines::Nowhere)
    }

    /// Writes the line of a record.
    pub(crate) fn write(&mut self, rt: &HostRuntime, record: &Record) -> io::Result<()> {
        let mut line = Vec::new(rt.alloc());
        match &mut self.lines {
            Lines::Nowhere => Ok(()),
            Lines::StandardError => {
                print_record(rt.alloc(), record, &mut line)?;
                rt.stderr().write_all(&line)
            }
            Lines::File(file) => {
                print_record(rt.alloc(), record, &mut line)?;
                file.write_all(&line)
            }
        }
    }

    /// Empties the file of counts, once the store is open. What can't be emptied, as a pipe, is written to as it is.
    pub(crate) fn begin(&self) {
        if let Lines::File(file) = &self.lines {
            let _ = file.set_len(0);
        }
    }
}

/// What is to be done with the records of a run. The file of counts is made.
pub(crate) fn counts_asked<W: Write>(
    called: Called<'_>,
    asked: CountsAsked<'_>,
    inputs: Inputs<'_>,
    out: &mut Output<W>,
) -> Result<Counts, Stop>
    ensures quiet { IfOk result (λ _. out.new ≡ out.old) }
{
    let lines = lines_to(called, inputs, asked.stats, out)?;
    let summary = asked.summary;
    Ok(Counts { lines, summary })
}
