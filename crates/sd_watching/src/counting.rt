//! What each image, checkpoint and merge of a run took, as its meter saw it: logged, as lines, and as a table.

use crate::counts::Counts;
use sd_core::Core;
use sd_gate::Worker;
use sd_program::{Logger, log_info};
use sd_stats::{CheckpointRecord, ImageRecord, MergeRecord, Meter, Record, print_table};
use std::cell::RefCell;
use std::io::Write;
use std::time::Clock;
use std::{fmt, io};

/// The meter of a run, where its counts are asked for.
pub(crate) type Metered = RefCell<Option<Meter>>;

/// What is missing in the counts of a run.
#[derive(Clone, Copy)]
pub(crate) struct MissingCounts {
    /// Why the first line that wasn't written wasn't.
    pub(crate) fault: Option<io::Error>,
    /// How many records found no room.
    pub(crate) left_out: u64,
}

/// So many records found no room.
#[derive(Clone, Copy)]
pub(crate) struct LeftOut(pub(crate) u64);

impl fmt::Display for LeftOut {
    fn fmt<W: fmt::Write>(&self, f: &mut fmt::Formatter<W>) -> fmt::Result {
        let LeftOut(count) = self;
        write!(f, "records left out for lack of memory: {count}")
    }
}

/// The records of a run.
#[derive(Drop)]
pub(crate) struct Counting<'a> {
    rt: &'a HostRuntime,
    log: &'a Logger<'a>,
    meter: &'a Metered,
    counts: Counts,
    /// The records for the table.
    rows: Vec<Record>,
    /// Whether a line found no room, or wasn't written.
    fault: Option<io::Error>,
}

impl<'a> Counting<'a> {
    pub(crate) fn new(
        rt: &'a HostRuntime,
        log: &'a Logger<'a>,
        meter: &'a Metered,
        counts: Counts,
    ) -> Self {
        Counting {
            rt,
            log,
            meter,
            counts,
            rows: Vec::new(rt.alloc()),
            fault: None,
        }
    }

    /// Has the meter see a moment of the run, from which on a worker goes on.
    pub(crate) fn see(&self, core: &Core, worker: Worker) {
        if let Ok(mut found) = self.meter.try_borrow_mut()
            && let Some(meter) = found.as_mut()
        {
            meter.see_worker(worker);
            if let Ok(now) = self.rt.monotonic() {
                meter.see_frozen(core.is_frozen(), now);
            }
            if core.is_idle(Worker::Merger) {
                meter.end_merge();
            }
        }
    }

    /// The records that are new.
    fn take(&self, ends_merge: bool) -> Vec<Record> {
        if let Ok(mut found) = self.meter.try_borrow_mut()
            && let Some(meter) = found.as_mut()
        {
            if ends_merge {
                meter.end_merge();
            }
            return meter.take();
        }
        Vec::new(self.rt.alloc())
    }

    /// Writes the line of a record, and keeps the record for the table.
    fn write(&mut self, record: &Record) -> io::Result<()> {
        log_record(self.log, record);
        if self.counts.summary {
            self.rows.push(*record)?;
        }
        self.counts.write(self.rt, record)
    }

    /// Prints the records that are new. The first line that isn't written is noted.
    pub(crate) fn drain(&mut self, ends_merge: bool) {
        for record in self.take(ends_merge) {
            if let Err(error) = self.write(&record) {
                self.fault.get_or_insert(error);
            }
        }
    }

    /// Prints the table, if it is asked for.
    fn print_summary(&self) -> io::Result<()> {
        if self.counts.summary {
            let mut table = Vec::new(self.rt.alloc());
            print_table(&self.rows, &mut table)?;
            self.rt.stderr().write_all(&table)?;
        }
        Ok(())
    }

    /// How many records found no room.
    fn left_out(&self) -> u64 {
        match self.meter.try_borrow() {
            Ok(found) => found.as_ref().map_or(0, |meter| meter.left_out()),
            Err(_) => 0,
        }
    }

    /// Prints what is left after a run, and the table if it is asked for, and returns what is missing there.
    pub(crate) fn finish(&mut self) -> MissingCounts {
        self.drain(true);
        if let Err(error) = self.print_summary() {
            self.fault.get_or_insert(error);
        }
        let left_out = self.left_out();
        log_left_out(self.log, left_out);
        MissingCounts {
            fault: self.fault,
            left_out: if self.counts.are_asked() { left_out } else { 0 },
        }
    }
}

/// The name of a worker.
fn name_of(worker: Worker) -> &'static str {
    match worker {
        Worker::Dumper => "dumper",
        Worker::Merger => "merger",
        Worker::Opener => "opener",
    }
}

/// Logs that a worker has begun a job.
pub(crate) fn log_job(log: &Logger<'_>, worker: Worker) {
    log_info(log, &format_args!("{}: a job has begun", name_of(worker)));
}

/// Logs that the job has ended.
pub(crate) fn log_end(log: &Logger<'_>, worker: Option<Worker>) {
    if let Some(worker) = worker {
        log_info(log, &format_args!("{}: the job has ended", name_of(worker)));
    }
}

/// Logs an image that is there.
fn log_image(log: &Logger<'_>, image: &ImageRecord) {
    let (slot, serial, pages) = (image.slot, image.serial, image.pages);
    log_info(
        log,
        &format_args!(
            "img-{slot:03}: image {serial} is there: {} pages, {} as data, {} bytes, {} device calls",
            pages.all(),
            pages.data,
            image.bytes,
            image.calls
        ),
    );
}

/// Logs a checkpoint that is there.
fn log_checkpoint(log: &Logger<'_>, checkpoint: &CheckpointRecord) {
    log_info(
        log,
        &format_args!(
            "checkpoint {} is there: {} rounds, {} device calls, of them {} while frozen",
            checkpoint.number, checkpoint.rounds, checkpoint.calls, checkpoint.frozen_calls
        ),
    );
}

/// Logs a merge that is done.
fn log_merge(log: &Logger<'_>, merge: &MergeRecord) {
    let (serial, read, closed) = (merge.serial, merge.read, merge.closed);
    log_info(
        log,
        &format_args!("merge {serial} is done: {read} images read, {closed} closed"),
    );
}

/// Logs what was made.
fn log_record(log: &Logger<'_>, record: &Record) {
    match record {
        Record::Image(image) => log_image(log, image),
        Record::Checkpoint(checkpoint) => log_checkpoint(log, checkpoint),
        Record::Merge(merge) => log_merge(log, merge),
    }
}

/// Logs how many records found no room, if any did.
fn log_left_out(log: &Logger<'_>, count: u64) {
    if count > 0 {
        log_info(
            log,
            &format_args!("records left out for lack of memory: {count}"),
        );
    }
}
