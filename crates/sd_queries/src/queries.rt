//! What is asked of a store that is only read, and its answer.
ghost use Rattle.std.specs.Prelude.{◌≡◌, ◌≢◌, ℕ, false, if◌then◌else◌, Err, IfErr, IfOk, MatchResult, OnOk, Option};
ghost use Rattle.std.specs.Prelude.{Some};
ghost use Rattle.std.specs.Option.{option_map};
ghost use Rattle.sd_areas.specs.PlainMemory.{PlainMemory};
ghost use Rattle.sd_disk.specs.Reads.{OnlyReads};
ghost use Rattle.sd_exit.specs.Ending.{ExitsAs, status_of};
ghost use Rattle.sd_image.specs.Shows.{Shows};
ghost use Rattle.sd_readers.specs.At.{PrintsAt};
ghost use Rattle.sd_readers.specs.Reading.{ReaderEnds};
ghost use Rattle.sd_queries.specs.Printing.{Answers, PrintsDocument, ShowsAtLeast};
ghost use Rattle.sd_queries.specs.Asked.{has_document, names_one_checkpoint, reader_at_verb, reader_verb, verb_text};

use crate::difference::{Compared, print_compared};
use sd_disk::Disk;
use sd_exit::{Output, Stop, exit, exit_with_fault};
use sd_history::{History, history_json, history_of, history_text};
use sd_json::{Document, document_text, fault_text, lacks_text};
use sd_program::{NOT_THERE, print_not_there};
use sd_readers::{
    Reader, ReaderAt, fronts, list_to, print_at, print_verdict, restore_to, verify_to,
};
use sd_restore::{Fault, Report, scan, verify};
use std::alloc::{AllocError, Global};
use std::io::Write;

/// What is asked of a store.
#[derive(Clone, Copy)]
pub enum Query {
    /// What a program prints of the newest checkpoint.
    Newest(Reader),
    /// What a program prints of the checkpoint with this number.
    At(ReaderAt, u64),
    /// Whether the newest checkpoint has this number or a greater one.
    AtLeast(u64),
    /// Which checkpoints can be restored, as lines.
    History,
    /// The same as one JSON document.
    HistoryDocument,
    /// What differs between two checkpoints.
    Difference(Compared),
    /// Another document.
    Document(Document),
}

/// What is done with a store by a program that reads it.
fn verb_of(reader: Reader) -> &'static str
    ensures { result.now ≡ reader_verb reader }
{
    match reader {
        Reader::Restore => "restore",
        Reader::List => "list",
        Reader::Verify => "verify",
    }
}

/// What is done with a store by a program that reads a checkpoint of it.
fn verb_at(reader: ReaderAt) -> &'static str
    ensures { result.now ≡ reader_at_verb reader }
{
    match reader {
        ReaderAt::Restore => "restore",
        ReaderAt::Verify => "verify",
    }
}

impl Query {
    /// What is done with the store.
    pub fn verb(self) -> &'static str
        ensures { result.now ≡ verb_text self }
    {
        match self {
            Query::Newest(reader) | Query::Document(Document::Newest(reader)) => verb_of(reader),
            Query::At(reader, _) | Query::Document(Document::At(reader, _)) => verb_at(reader),
            Query::AtLeast(_) => "verify",
            Query::History | Query::HistoryDocument => "history",
            Query::Difference(_) => "diff",
        }
    }

    /// Whether it is reported which checkpoints there are, where the one that is asked for isn't.
    pub fn names_one(self) -> bool
        ensures { result ≡ names_one_checkpoint self }
    {
        match self {
            Query::At(_, _) | Query::Document(Document::At(_, _)) => true,
            Query::Difference(compared) => !compared.is_document,
            _ => false,
        }
    }

    /// Whether the answer is one JSON document, which has a fault too.
    pub fn is_document(self) -> bool
        ensures { result ≡ has_document self }
    {
        match self {
            Query::HistoryDocument | Query::Document(_) => true,
            Query::Difference(compared) => compared.is_document,
            _ => false,
        }
    }

    /// Prints what is asked of a store, or why there is no answer, flushes, and returns the exit status.
    pub fn answer<D: Disk, W: Write>(self, alloc: Global, disk: &mut D, out: &mut Output<W>) -> u8
        // With status 0 the answer is printed, as the files have it, and nothing else.
        ensures answers { Answers self (D.is_honest disk.new) (D.contents disk.old) (D.failed disk.old)
            (D.failed disk.new) (W.contents out.old.writer) (W.contents out.new.writer) out.new.refused result }
        // Whatever is asked, it only reads.
        ensures reads { OnlyReads D.Disk disk.old disk.new }
    {
        match self {
            Query::Newest(reader) => read_to(alloc, reader, disk, out),
            Query::At(reader, number) => print_one(alloc, reader, disk, number, out),
            Query::AtLeast(least) => exit(&print_at_least(alloc, disk, least, out), out),
            Query::History => exit(&print_history(alloc, disk, false, out), out),
            Query::HistoryDocument => {
                let ended = print_history(alloc, disk, true, out);
                end_document(alloc, ended, out)
            }
            Query::Difference(compared) => print_compared(alloc, compared, disk, out),
            Query::Document(document) => print_other(alloc, document, disk, out),
        }
    }
}

/// Reads a store, and prints what it shows.
fn read_to<D: Disk, W: Write>(
    alloc: Global,
    reader: Reader,
    disk: &mut D,
    out: &mut Output<W>,
) -> u8
    ensures answers { ReaderEnds reader (D.is_honest disk.new) (D.contents disk.old)
        (D.failed disk.old) (D.failed disk.new) (W.contents out.old.writer)
        (W.contents out.new.writer) out.new.refused result }
    ensures reads { OnlyReads D.Disk disk.old disk.new }
{
    match reader {
        Reader::Restore => restore_to(alloc, disk, out),
        Reader::List => list_to(alloc, disk, out),
        Reader::Verify => verify_to(alloc, disk, out),
    }
}

/// The fault of the store with which an answer ended, if it did.
fn fault_of(ended: &Result<(), Stop>) -> Option<Fault> {
    match ended {
        Err(Stop::Fault(fault)) => Some(*fault),
        _ => None,
    }
}

/// The exit status of an answer, or of why there is none, which is printed then.
pub(crate) fn status_or<W: Write>(ended: Result<u8, Stop>, out: &mut Output<W>) -> u8
    ensures { MatchResult ended (λ status. (result ≡ status) × (out.new ≡ out.old)) (λ why. ExitsAs (Err why)
        (W.contents out.old.writer) (W.contents out.new.writer) out.new.refused result) }
{
    match ended {
        Ok(status) => status,
        Err(stop) => exit(&Err(stop), out),
    }
}

/// Prints what a program prints of one checkpoint, or that there is none.
fn print_one<D: Disk, W: Write>(
    alloc: Global,
    reader: ReaderAt,
    disk: &mut D,
    number: u64,
    out: &mut Output<W>,
) -> u8
    ensures text { D.is_honest disk.new → result ≡ 0 → PrintsAt reader (D.contents disk.old) number
        (W.contents out.old.writer) (W.contents out.new.writer) }
    ensures reads { OnlyReads D.Disk disk.old disk.new }
{
    let ended = print_at(alloc, reader, disk, number, out);
    match fault_of(&ended) {
        Some(Fault::EmptyChain) => print_not_there(number, out),
        _ => exit(&ended, out),
    }
}

/// Ends a document: where a fault kept it from being printed, that of the fault stands in its place.
fn end_document<W: Write>(alloc: Global, ended: Result<(), Stop>, out: &mut Output<W>) -> u8 {
    match fault_of(&ended) {
        Some(fault) => status_or(print_fault(alloc, fault, out), out),
        None => exit(&ended, out),
    }
}

/// Prints the document of a fault, and returns the exit status that the fault's line has.
pub(crate) fn print_fault<W: Write>(
    alloc: Global,
    fault: Fault,
    out: &mut Output<W>,
) -> Result<u8, Stop>
    ensures status { IfOk result (λ status.
        status ≡ (if out.new.refused then 1 else status_of (Stop.Fault fault))) }
    ensures fault { IfOk result (λ _. out.new.fault ≡ Some fault) }
    ensures stopped { IfErr result (λ why. status_of why ≡ 1) }
{
    writeln!(out, "{}", fault_text(alloc, &fault)?)?;
    Ok(exit_with_fault(fault, out))
}

/// Prints a document of a store on one line.
fn print_document<D: Disk, W: Write>(
    alloc: Global,
    document: Document,
    disk: &mut D,
    out: &mut Output<W>,
) -> Result<(), Stop>
    ensures printed { D.is_honest disk.new → OnOk result (PrintsDocument document (D.contents disk.old)
        (W.contents out.old.writer) (W.contents out.new.writer)) }
    ensures reads { OnlyReads D.Disk disk.old disk.new }
{
    let text = document_text(alloc, document, disk)?;
    writeln!(out, "{text}")?;
    Ok(())
}

/// Ends a document that a fault kept from being printed: that of the fault, or of a checkpoint that isn't there, stands
/// in its place.
fn end_without<W: Write>(alloc: Global, document: Document, fault: Fault, out: &mut Output<W>) -> u8
    ensures { result ≢ 0 }
{
    if let (Document::At(_, number), Fault::EmptyChain) = (document, fault) {
        return status_or(lacks_printed(alloc, number, out), out);
    }
    status_or(print_fault(alloc, fault, out), out)
}

/// Prints another document of a store, or that of why there is none.
fn print_other<D: Disk, W: Write>(
    alloc: Global,
    document: Document,
    disk: &mut D,
    out: &mut Output<W>,
) -> u8
    ensures document { D.is_honest disk.new → result ≡ 0 → PrintsDocument document (D.contents disk.old)
        (W.contents out.old.writer) (W.contents out.new.writer) }
    ensures reads { OnlyReads D.Disk disk.old disk.new }
{
    let ended = print_document(alloc, document, disk, out);
    match fault_of(&ended) {
        Some(fault) => end_without(alloc, document, fault, out),
        None => exit(&ended, out),
    }
}

/// Prints the document of a store without an image of a checkpoint, and returns the exit status.
pub(crate) fn lacks_printed<W: Write>(
    alloc: Global,
    number: u64,
    out: &mut Output<W>,
) -> Result<u8, Stop>
    ensures status { IfOk result (λ status. status ≡ (if out.new.refused then 1 else 3)) }
    ensures stopped { IfErr result (λ why. status_of why ≡ 1) }
{
    writeln!(out, "{}", lacks_text(alloc, number)?)?;
    Ok(out.finish(NOT_THERE))
}

/// The history of a store that is read once.
fn read_history<D: Disk>(alloc: Global, disk: &mut D) -> Result<History, Fault>
    ensures reads { OnlyReads D.Disk disk.old disk.new }
{
    let catalog = scan(alloc, disk)?;
    Ok(history_of(alloc, &catalog)?)
}

/// The history of a store, of one moment.
fn steady_history<D: Disk>(alloc: Global, disk: &mut D) -> Result<History, Fault>
    ensures reads { OnlyReads D.Disk disk.old disk.new }
{
    let before = fronts(alloc, disk)?;
    let history = read_history(alloc, disk)?;
    if fronts(alloc, disk)? == before {
        Ok(history)
    } else {
        Err(Fault::Device)
    }
}

/// A history as text, or as a document.
fn text_of(alloc: Global, history: &History, is_document: bool) -> Result<String, AllocError> {
    if is_document {
        history_json(alloc, history)
    } else {
        history_text(alloc, history)
    }
}

/// Prints the history of a store.
fn print_history<D: Disk, W: Write>(
    alloc: Global,
    disk: &mut D,
    is_document: bool,
    out: &mut Output<W>,
) -> Result<(), Stop>
    ensures reads { OnlyReads D.Disk disk.old disk.new }
{
    let history = steady_history(alloc, disk)?;
    let text = text_of(alloc, &history, is_document)?;
    out.write_all(text.as_bytes())?;
    Ok(())
}

/// What `verify` finds in a store, of one moment.
fn steady_report<D: Disk>(alloc: Global, disk: &mut D) -> Result<Report, Fault>
    ensures shown { D.is_honest disk.new → IfOk result (λ report. (shown : Option (ℕ × PlainMemory))
        × Shows (D.contents disk.old) shown × (report.checkpoint ≡ option_map (λ moment. moment.0) shown)) }
    ensures reads { OnlyReads D.Disk disk.old disk.new }
{
    let before = fronts(alloc, disk)?;
    let report = verify(alloc, disk)?;
    if fronts(alloc, disk)? == before {
        Ok(report)
    } else {
        Err(Fault::Device)
    }
}

/// Prints what `verify` prints. It is refused where the newest checkpoint is below a number, or there is none.
fn print_at_least<D: Disk, W: Write>(
    alloc: Global,
    disk: &mut D,
    least: u64,
    out: &mut Output<W>,
) -> Result<(), Stop>
    ensures shown { D.is_honest disk.new → OnOk result (ShowsAtLeast (D.contents disk.old) least) }
    ensures reads { OnlyReads D.Disk disk.old disk.new }
{
    let report = steady_report(alloc, disk)?;
    print_verdict(report, out)?;
    match report.checkpoint {
        Some(newest) if newest >= least => Ok(()),
        _ => Err(Stop::Refused),
    }
}
