//! A store that a program changes: opened with what watches the run, and left.
ghost use Rattle.std.specs.Prelude.{◌≡◌, ◌⊎◌, IfOk};
ghost use Rattle.sd_disk.specs.Folder.{folder_files, outside_of};

use crate::counting::{Counting, LeftOut, Metered, MissingCounts};
use crate::counts::{CountsAsked, counts_asked};
use crate::course::Course;
use crate::progress::ProgressLine;
use crate::watching::Watching;
use sd_disk::FOLDER_SLOTS;
use sd_exit::{Output, Stop};
use sd_program::{Called, Inputs, Logger, SeenDisk, tell, unseen};
use sd_stats::{Meter, Metered as Meters, Metering};
use std::cell::RefCell;
use std::io::Write;
use std::sync::Wait;
use std::time::Clock;

/// The disk of a store whose calls are counted, logged, and shown while it is opened.
pub type CountedDisk<'a> = Meters<'a, HostRuntime, SeenDisk<'a>>;

/// Where missing counts are met, as their cause says.
const COUNTS: &str = "the counts";

/// The exit status where counts are missing.
const FAILED: u8 = 1;

/// What a run over a store lends to its disk and to what watches it.
#[derive(Drop)]
pub struct Session<'a> {
    called: Called<'a>,
    log: Logger<'a>,
    meter: Metered,
}

/// A store that is open, and what watches the run.
pub type Opened<'a> = (CountedDisk<'a>, Watching<'a>);

impl<'a> Session<'a> {
    /// A run of which nothing was opened.
    pub fn new(called: Called<'a>) -> Session<'a>
        ensures called { result.called ≡ called.entry }
    {
        Session {
            called,
            log: called.logger(),
            meter: RefCell::new(None),
        }
    }

    /// Begins to count the calls on the disk of a folder.
    fn begin_meter(&self) -> Result<(), Stop> {
        let meter = Meter::new(self.called.rt.alloc(), FOLDER_SLOTS)?;
        if let Ok(mut place) = self.meter.try_borrow_mut() {
            *place = Some(meter);
        }
        Ok(())
    }

    /// Opens the store of the folder, whose missing files are made. What is to be seen of the run is shown, and what
    /// its images, checkpoints and merges took is counted where that is asked for.
    ///
    /// # Errors
    ///
    /// Those of a folder that isn't opened; `Refused` where the file of counts can't be made, which is printed; and
    /// where memory runs out.
    pub fn open<R: Clock + Wait, W: Write>(
        &'a self,
        clock: &R,
        asked: CountsAsked<'_>,
        inputs: Inputs<'_>,
        course: Course<'a>,
        out: &mut Output<W>,
    ) -> Result<Opened<'a>, Stop>
        // The files are what is found in the folder.
        ensures files { IfOk result (λ opened.
            folder_files opened.0.disk.disk.disk ≡ (outside_of self.now.called.found.now).found) }
        // Nothing was printed.
        ensures quiet { IfOk result (λ _. out.new ≡ out.old) }
    {
        let called = self.called;
        let seen = called.seen(&self.log, called.is_watched());
        if asked.are_any() || seen.is_asked() {
            self.begin_meter()?;
        }
        let counts = counts_asked(called, asked, inputs, out)?;
        let disk = called.make_store(clock)?;
        counts.begin();
        let line = ProgressLine::new(called.rt, seen.shows);
        let counting = Counting::new(called.rt, &self.log, &self.meter, counts);
        let metering = Metering::new(called.rt, &self.meter);
        let disk = Meters::new(metering, seen.disk("opening", disk));
        Ok((disk, Watching::new(&self.log, course, line, counting)))
    }

    /// Leaves a store after a run: prints what is left of the counts, reports what the system answered to a call that
    /// failed, and returns the exit status, which is 1 where counts are missing.
    pub fn close(&self, disk: CountedDisk<'_>, watch: Watching<'_>, status: u8) -> u8
        // It is that of the run, or 1.
        ensures status { (result ≡ status) ⊎ (result ≡ 1) }
    {
        let mut watch = watch;
        let untold = watch.finish();
        let (_, seen) = disk.into_parts();
        let disk = unseen(seen);
        let status = self.report_counts(status, untold);
        self.called.report_device(&disk);
        status
    }

    /// The exit status of a run whose counts were reported; and 1 where not all of them were, with why.
    fn report_counts(&self, status: u8, untold: MissingCounts) -> u8
        ensures status { (result ≡ status) ⊎ (result ≡ 1) }
    {
        let Called { rt, causes, .. } = self.called;
        let MissingCounts { fault, left_out } = untold;
        if let Some(error) = &fault {
            tell(rt, causes, COUNTS, error);
        }
        if left_out > 0 {
            tell(rt, causes, COUNTS, &LeftOut(left_out));
        }
        if fault.is_some() || left_out > 0 {
            FAILED
        } else {
            status
        }
    }
}
