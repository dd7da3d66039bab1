//! What watches the jobs and answers of a run.
ghost use Rattle.std.specs.Prelude.{◌≡◌};

use crate::counting::{Counting, MissingCounts, log_end, log_job};
use crate::course::Course;
use crate::progress::ProgressLine;
use sd_command::Refusal;
use sd_core::Core;
use sd_gate::Worker;
use sd_program::Logger;
use sd_run::{RunWatch, Watch};
use sd_script::Answer;

/// Watches a run: its line of progress is written, what it made is counted, and its refusals are kept.
#[derive(Drop)]
pub struct Watching<'a> {
    log: &'a Logger<'a>,
    course: Course<'a>,
    line: ProgressLine<'a>,
    counting: Counting<'a>,
    worker: Option<Worker>,
}

impl<'a> Watching<'a> {
    pub(crate) fn new(
        log: &'a Logger<'a>,
        course: Course<'a>,
        line: ProgressLine<'a>,
        counting: Counting<'a>,
    ) -> Self {
        Watching {
            log,
            course,
            line,
            counting,
            worker: None,
        }
    }

    /// How far the run is.
    pub fn course(&self) -> &Course<'a>
        ensures { result.now ≡ self.now.course }
    {
        &self.course
    }

    /// Prints what is left of the counts, and returns what is missing there.
    pub(crate) fn finish(&mut self) -> MissingCounts {
        self.counting.finish()
    }
}

impl Watch for Watching<'_> {
    fn goes_on(&mut self, core: &Core, worker: Worker) {
        self.line.goes_on(&self.course, core, worker);
        if self.worker != Some(worker) {
            log_job(self.log, worker);
        }
        self.worker = Some(worker);
        self.counting.see(core, worker);
    }

    fn steps(&mut self, core: &Core, worker: Worker) {
        self.counting.see(core, worker);
    }

    fn has_ended(&mut self) {
        self.line.end();
        self.counting.drain(self.worker == Some(Worker::Merger));
        log_end(self.log, self.worker);
        self.worker = None;
    }
}

impl RunWatch for Watching<'_> {
    fn answered(&mut self, core: &Core, given: &Answer) {
        self.course.answered(core, given);
    }

    fn refused(&mut self, core: &Core, why: Refusal) {
        self.course.refused(core, why);
    }
}
