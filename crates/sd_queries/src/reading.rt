//! Programs that only read a store, also while a run writes it.
ghost use Rattle.std.specs.Prelude.{false, [], Some, IfOk};
ghost use Rattle.sd_queries.specs.Reading.{AnswersFound, EndsReading};

use crate::queries::Query;
use sd_disk::{DirDisk, Disk};
use sd_exit::{Output, Stop, exit_with_fault};
use sd_program::{BESIDE, Called, NOT_THERE, Seen, may_change, read_until_steady, unseen};
use sd_readers::print_held;
use sd_restore::Fault;
use std::io::Write;
use std::sync::Wait;
use std::time::Clock;

/// The exit status of an answer that says no.
const FAILED: u8 = 1;

/// The disk that was read at last, and the exit status.
type Reading = (DirDisk, u8);

/// What was printed of a store into a vector, with the exit status.
#[derive(Drop)]
struct Tried {
    disk: DirDisk,
    text: Vec<u8>,
    status: u8,
    fault: Option<Fault>,
}

/// What is asked, of which store, and what is to be seen of it.
#[derive(Clone, Copy)]
struct ReadAsked<'a> {
    called: Called<'a>,
    seen: Seen<'a>,
    query: Query,
}

impl ReadAsked<'_> {
    /// Reads the store once, and prints what is asked of it. The error is a folder that isn't opened.
    #[tactic(auto, using(crate::proofs::ReadingLemmas::answers_folder))]
    fn read_once<W: Write>(self, out: &mut Output<W>) -> Result<Reading, Stop>
        ensures answers { IfOk result (λ read. AnswersFound self.entry.called.found.now self.entry.query read
            (W.contents out.old.writer) (W.contents out.new.writer) out.new.refused) }
    {
        let disk = self.called.open_store()?;
        let mut disk = self.seen.disk(self.query.verb(), disk);
        let status = self.query.answer(self.called.rt.alloc(), &mut disk, out);
        Ok((unseen(disk), status))
    }

    /// Reads the store once, and keeps what is printed.
    fn try_once(self) -> Result<Tried, Stop>
        ensures answers { IfOk result (λ tried. AnswersFound self.entry.called.found.now self.entry.query
            (tried.disk, tried.status) (Some []) (Some tried.text.items) false) }
    {
        let mut out = Output::new(Vec::new(self.called.rt.alloc()));
        let (disk, status) = self.read_once(&mut out)?;
        if out.is_refused() {
            return Err(Stop::Fault(Fault::OutOfMemory));
        }
        let fault = out.fault();
        let text = out.into_writer();
        Ok(Tried {
            disk,
            text,
            status,
            fault,
        })
    }

    /// Reads the store while a run writes it: again where the run may have come between.
    fn try_often<R: Clock + Wait>(self, clock: &R) -> Result<Tried, Stop>
        ensures answers { IfOk result (λ tried. AnswersFound self.entry.called.found.now self.entry.query
            (tried.disk, tried.status) (Some []) (Some tried.text.items) false) }
    {
        read_until_steady(clock, || self.try_once(), |tried| may_change(tried.fault))
    }

    /// Ends a reading with a fault that was found beside a run: it stands alone, but where the answer is a document,
    /// which has it.
    #[tactic(auto, using(crate::proofs::ReadingLemmas::answers_faulty))]
    fn end_with<W: Write>(
        self,
        tried: Tried,
        fault: Fault,
        out: &mut Output<W>,
    ) -> Result<Reading, Stop>
        ensures answers { AnswersFound self.entry.called.found.now self.entry.query (tried.disk, tried.status) (Some [])
            (Some tried.text.items) false → IfOk result (λ read. AnswersFound self.entry.called.found.now
            self.entry.query read (W.contents out.old.writer) (W.contents out.new.writer) out.new.refused) }
    {
        if may_change(Some(fault)) {
            self.called.tell(&BESIDE);
        }
        if !self.query.is_document() {
            return Err(Stop::Fault(fault));
        }
        out.write_all(&tried.text)?;
        Ok((tried.disk, exit_with_fault(fault, out)))
    }

    /// Reads the store while a run writes it. What is printed is whole, or why there is nothing.
    fn read_beside<R: Clock + Wait, W: Write>(
        self,
        clock: &R,
        out: &mut Output<W>,
    ) -> Result<Reading, Stop>
        ensures answers { IfOk result (λ read. AnswersFound self.entry.called.found.now self.entry.query read
            (W.contents out.old.writer) (W.contents out.new.writer) out.new.refused) }
    {
        let tried = self.try_often(clock)?;
        if let Some(fault) = tried.fault {
            return self.end_with(tried, fault, out);
        }
        let Tried {
            disk,
            text,
            status,
            ..
        } = tried;
        let status = print_held(&text, status, out);
        Ok((disk, status))
    }

    /// Reads the store that no run is writing.
    fn read_alone<W: Write>(self, out: &mut Output<W>) -> Result<Reading, Stop>
        ensures answers { IfOk result (λ read. AnswersFound self.entry.called.found.now self.entry.query read
            (W.contents out.old.writer) (W.contents out.new.writer) out.new.refused) }
    {
        let (disk, status) = self.read_once(out)?;
        self.called.report_device(&disk);
        if may_change(out.fault()) {
            self.called.report_beside();
        }
        Ok((disk, status))
    }

    /// Reports why an answer says no: which checkpoints there are, or that the newest is too old.
    fn report_lack<W: Write>(self, disk: DirDisk, status: u8, out: &Output<W>) {
        if status == NOT_THERE && self.query.names_one() {
            self.called.report_numbers(disk);
        } else if let (Query::AtLeast(least), FAILED, None) = (self.query, status, out.fault())
            && !out.is_refused()
        {
            let short = format_args!("its newest checkpoint isn't {least} or a later one");
            self.called.tell(&short);
        }
    }
}

/// Reads the store once, or while a run writes it again and again.
///
/// # Errors
///
/// Where the store can't be opened; and while a run writes it also the fault of the store, which then stands alone, and
/// where there is no room for what is held back.
fn read_store<R: Clock + Wait, W: Write>(
    asked: ReadAsked<'_>,
    clock: &R,
    out: &mut Output<W>,
) -> Result<Reading, Stop>
    // The files are those that are found. With status 0 what they answer is written, and nothing else; of the newest
    // checkpoint else a beginning of it, with the last line and the exit status.
    ensures answers { IfOk result (λ read. AnswersFound asked.entry.called.found.now asked.entry.query read
        (W.contents out.old.writer) (W.contents out.new.writer) out.new.refused) }
{
    if asked.called.is_beside() {
        asked.read_beside(clock, out)
    } else {
        asked.read_alone(out)
    }
}

/// The programs that only read a store: `restore`, `list`, `verify`, `history` and `diff`. Returns the exit status.
///
/// # Errors
///
/// Those of a folder that isn't opened; and while a run writes the store its fault.
pub fn reader_program<R: Clock + Wait, W: Write>(
    called: Called<'_>,
    clock: &R,
    question: Query,
    out: &mut Output<W>,
) -> Result<u8, Stop>
    // The folder of the command line is read: what is found there. With status 0 its answer is written, and nothing
    // else.
    ensures answers { IfOk result (λ status. EndsReading called.entry.found.now question status
        (W.contents out.old.writer) (W.contents out.new.writer) out.new.refused) }
{
    let log = called.logger();
    let asked = ReadAsked {
        called,
        seen: called.seen(&log, called.is_watched()),
        query: question,
    };
    let (disk, status) = read_store(asked, clock, out)?;
    asked.report_lack(disk, status, out);
    Ok(status)
}
