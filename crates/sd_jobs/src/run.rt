//! `ckpt run`: a script over a store.

ghost use Rattle.std.specs.Prelude.{◌≡◌, ◌∷◌, ℕ, List, None, IfErr, IfOk, OnOk};
ghost use Rattle.sd_disk.specs.Folder.{outside_of};
ghost use Rattle.sd_disk.specs.Reads.{OnlyReads};
ghost use Rattle.sd_script.specs.declared.line.Line.TheVariants as asked;
ghost use Rattle.sd_script.specs.Script.{first_unfit_line, requests_of};
ghost use Rattle.sd_readers.specs.declared.steady.Reader.TheVariants as reader;
ghost use Rattle.sd_readers.specs.Reading.{ReaderEnds};
ghost use Rattle.sd_jobs.specs.Folders.{BlamesFirst, ChecksBytes, RunsBytes};
ghost use Rattle.sd_jobs.specs.Running.{RunsScript};

use sd_disk::Disk;
use sd_exit::{Output, Stop, exit};
use sd_program::{Called, Causes, FewSlots, Inputs, read_script};
use sd_readers::restore_to;
use sd_run::{Rule, RunWatch, run_lines, unfit};
use sd_script::{QuotedLine, Script, ScriptError, blame_line};
use sd_watching::{CountedDisk, CountsAsked, Course, Failure, Session, line_of, slots_for};
use std::alloc::Global;
use std::io::{IsTerminal, Write};
use std::sync::Wait;
use std::time::Clock;
use std::{fmt, str};

/// Prints the memory that a store shows, and gives the store back with the exit status.
fn restore_over<D: Disk, W: Write>(alloc: Global, disk: D, out: &mut Output<W>) -> (D, u8)
    ensures answers { ReaderEnds reader.Restore (D.is_honest result.0) (D.contents disk)
        (D.failed disk) (D.failed result.0) (W.contents out.old.writer)
        (W.contents out.new.writer) out.new.refused result.1 }
    ensures reads { OnlyReads D.Disk disk result.0 }
{
    let mut disk = disk;
    let status = restore_to(alloc, &mut disk, out);
    (disk, status)
}

/// Runs a script over a store, up to the first answer that ends it by its rule, and returns the store with the exit
/// status. With `restores` the memory that the store then shows is printed after the answers of a run that came to its
/// end.
fn run_over<D: Disk, W: Write, S: RunWatch>(
    alloc: Global,
    disk: D,
    script: Script,
    rule: Rule,
    restores: bool,
    out: &mut Output<W>,
    watch: &mut S,
) -> (D, u8)
    // The answers of the script's lines are printed, or a beginning of them; and then the text of the memory that the
    // store shows, or a beginning of it; and why the program was stopped, if it was.
    ensures runs { RunsScript D.Disk rule restores (asked.Reopen ∷ script.lines.items) disk result.0
        (W.contents out.old.writer) (W.contents out.new.writer) out.new.refused result.1 }
{
    let (disk, ended) = run_lines(alloc, disk, script, rule, out, watch);
    if restores && ended.is_ok() {
        return restore_over(alloc, disk, out);
    }
    (disk, exit(&ended, out))
}

/// How a script is run.
#[derive(Clone, Copy)]
pub struct RunAsked<'a> {
    /// The file of the script, or `-` for the standard input.
    pub script: &'a str,
    pub counts: CountsAsked<'a>,
    pub rule: Rule,
    /// Whether the memory is printed that the store shows afterwards.
    pub restores: bool,
}

/// Reports which field of a script's line doesn't fit. Lines are counted from 1.
fn report_line(called: Called<'_>, script: &str, bytes: &[u8], number: usize) {
    let Some(line) = line_of(bytes, number) else {
        return;
    };
    if let (Causes::Told, Ok(blame)) = (called.causes, blame_line(called.rt.alloc(), line)) {
        let _ = eprintln!(called.rt; "ckpt: {script}: line {number}: {blame}");
    }
}

/// Parses a script.
fn parse_script(called: Called<'_>, script: &str, bytes: &[u8]) -> Result<Script, Stop>
    ensures fits { OnOk result (first_unfit_line bytes.now ≡ None) }
    ensures requests { IfOk result (λ script. script.lines.items ≡ requests_of bytes.now) }
    ensures blames { IfErr result (BlamesFirst bytes.now) }
{
    let parsed = Script::parse(called.rt.alloc(), bytes);
    if let Err(ScriptError::Line(number)) = parsed {
        report_line(called, script, bytes, number);
    }
    match parsed {
        Ok(script) => Ok(script),
        Err(error) => Err(unfit(error)),
    }
}

/// Prints how many requests the script of these bytes has, and returns the exit status.
fn check_bytes<W: Write>(
    called: Called<'_>,
    name: &str,
    bytes: &[u8],
    out: &mut Output<W>,
) -> Result<u8, Stop>
    ensures checks { IfOk result (ChecksBytes bytes.now (W.contents out.old.writer) (W.contents out.new.writer)
        out.new.refused) }
    ensures blames { IfErr result (BlamesFirst bytes.now) }
{
    let script = parse_script(called, name, bytes)?;
    writeln!(out, "ok {} requests", script.lines.len())?;
    Ok(out.finish(0))
}

/// `ckpt run --check`: whether a script fits the language.
///
/// # Errors
///
/// Those of a script that isn't read, or doesn't fit.
pub fn check_program<W: Write>(
    called: Called<'_>,
    name: &str,
    out: &mut Output<W>,
) -> Result<u8, Stop>
    // Of the bytes that were read all are checked.
    ensures checks { IfOk result (λ status. (bytes : List ℕ) × ChecksBytes bytes (W.contents out.old.writer)
        (W.contents out.new.writer) out.new.refused status) }
{
    let bytes = read_script(called.rt, called.causes, name)?;
    check_bytes(called, name, &bytes, out)
}

/// Runs the script of these bytes over the store of the folder, and returns the exit status, which is 1 where counts
/// are missing.
fn run_bytes<R: Clock + Wait, W: Write>(
    called: Called<'_>,
    clock: &R,
    asked: RunAsked<'_>,
    bytes: &[u8],
    out: &mut Output<W>,
) -> Result<u8, Stop>
    ensures runs { IfOk result (RunsBytes ⟦<CountedDisk<'static> as Disk>⟧ asked.entry.rule asked.entry.restores
        bytes.now (outside_of called.entry.found.now).found (W.contents out.old.writer) (W.contents out.new.writer)
        out.new.refused) }
{
    let names = [asked.script];
    let script = parse_script(called, asked.script, bytes)?;
    let shows = called.is_watched() && !called.rt.stdout().is_terminal();
    let course = Course::new(called.rt, bytes, shows);
    let session = Session::new(called);
    let inputs = Inputs::of_script(&names);
    let (disk, mut watch) = session.open(clock, asked.counts, inputs, course, out)?;
    let (rule, restores) = (asked.rule, asked.restores);
    let alloc = called.rt.alloc();
    let (disk, status) = run_over(alloc, disk, script, rule, restores, out, &mut watch);
    report_course(called, rule, bytes, watch.course());
    Ok(session.close(disk, watch, status))
}

/// `ckpt run`: a script that can't be taken makes no file.
///
/// # Errors
///
/// Those of a script that isn't read, or doesn't fit, and of a store that isn't opened.
pub fn run_program<R: Clock + Wait, W: Write>(
    called: Called<'_>,
    clock: &R,
    asked: RunAsked<'_>,
    out: &mut Output<W>,
) -> Result<u8, Stop>
    // Of the bytes that were read all are run, over the files that are found in the folder of the command line, by the
    // rule that is asked for; and the memory is printed where that is asked for.
    ensures runs { IfOk result (λ status. (bytes : List ℕ) × RunsBytes ⟦<CountedDisk<'static> as Disk>⟧
        asked.entry.rule asked.entry.restores bytes (outside_of called.entry.found.now).found
        (W.contents out.old.writer) (W.contents out.new.writer) out.new.refused status) }
{
    let bytes = read_script(called.rt, called.causes, asked.script)?;
    run_bytes(called, clock, asked, &bytes, out)
}

/// Reports after a run at which request it ended, where it is strict, and which found too few free slots.
fn report_course(called: Called<'_>, rule: Rule, script: &[u8], course: &Course<'_>) {
    course.clear();
    if let (Rule::Strict, Some(failure)) = (rule, course.failure()) {
        report_failure(called, script, course, failure);
    }
    report_few(called, script, course);
}

/// Reports at which request a strict run ended: its line, and how it was answered.
fn report_failure(called: Called<'_>, script: &[u8], course: &Course<'_>, failure: &Failure) {
    if called.causes == Causes::Kept {
        return;
    }
    let answer = str::from_utf8(&failure.answer).unwrap_or("").trim_end();
    let Some(number) = course.line_of_request(failure.request) else {
        let _ = eprintln!(called.rt; "opening: {answer}");
        return;
    };
    let line = str::from_utf8(line_of(script, number).unwrap_or(b"")).unwrap_or("");
    let _ = eprintln!(called.rt; "script line {number}: {}: {answer}", QuotedLine(line));
}

/// Too few free slots for the request of a script's line.
#[derive(Clone, Copy)]
struct FewSlotsAt {
    line: usize,
    slots: FewSlots,
}

impl fmt::Display for FewSlotsAt {
    fn fmt<W: fmt::Write>(&self, f: &mut fmt::Formatter<W>) -> fmt::Result {
        write!(f, "script line {}: {}", self.line, self.slots)
    }
}

/// How many slots are free where the request of a script's line needs some.
fn few_slots(alloc: Global, line: &[u8], free: usize) -> Option<FewSlots> {
    let asked = Script::parse(alloc, line).ok()?;
    slots_for(asked.lines.first()?, free)
}

/// The first request of a script that found too few free slots, if one did.
fn few_at(alloc: Global, script: &[u8], course: &Course<'_>) -> Option<FewSlotsAt> {
    let few = course.few()?;
    let line = course.line_of_request(few.request)?;
    let slots = few_slots(alloc, line_of(script, line)?, few.free)?;
    Some(FewSlotsAt { line, slots })
}

/// Reports the first request of a script that found too few free slots, if one did.
fn report_few(called: Called<'_>, script: &[u8], course: &Course<'_>) {
    if let Some(few) = few_at(called.rt.alloc(), script, course)
        && few.slots.are_few()
    {
        called.tell(&few);
    }
}
