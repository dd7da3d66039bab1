//! How far a job is that takes long: one line, which is written over and over and cleared at the job's end.

use crate::course::Course;
use sd_areas::{Area, AreaMap, SPACE_LIMIT, SpaceId};
use sd_core::Core;
use sd_gate::Worker;
use sd_program::{CLEAR, Done, Pace};
use std::io;
use std::io::Write;
use std::time::Duration;

/// The line of a job that takes over a second.
#[derive(Drop)]
pub(crate) struct ProgressLine<'a> {
    rt: &'a HostRuntime,
    is_on: bool,
    is_begun: bool,
    pace: Pace,
    /// How many steps were left at the job's first turn.
    first_left: u128,
    is_shown: bool,
}

impl<'a> ProgressLine<'a> {
    /// A line that is written only where it is on.
    pub(crate) fn new(rt: &'a HostRuntime, is_on: bool) -> Self {
        ProgressLine {
            rt,
            is_on,
            is_begun: false,
            pace: Pace::IDLE,
            first_left: 0,
            is_shown: false,
        }
    }

    /// How far a worker's job is.
    fn done(&self, core: &Core, worker: Worker, took: Duration) -> Done {
        let left = core.left(worker);
        Done {
            done: self.first_left.saturating_sub(left),
            of: self.first_left.max(left),
            took,
        }
    }

    /// Writes the line over the one that stands there.
    fn write(
        &self,
        course: &Course<'_>,
        core: &Core,
        worker: Worker,
        done: Done,
    ) -> io::Result<()> {
        let mut text = Vec::new(self.rt.alloc());
        write!(text, "{CLEAR}")?;
        if let Some(line) = course.line() {
            write!(text, "{line}: ")?;
        }
        match worker {
            Worker::Dumper => print_checkpoint(core, done, &mut text)?,
            Worker::Merger => write!(text, "merge: {done}")?,
            Worker::Opener => write!(text, "opening: {done}")?,
        }
        self.rt.stderr().write_all(&text)
    }

    /// Takes in that a worker goes on.
    pub(crate) fn goes_on(&mut self, course: &Course<'_>, core: &Core, worker: Worker) {
        if !self.is_on {
            return;
        }
        if !self.is_begun {
            self.first_left = core.left(worker);
            self.is_begun = true;
        }
        if let Some(took) = self.pace.due(self.rt) {
            self.is_shown = true;
            // A line that can't be written is no fault of the run.
            let _ = self.write(course, core, worker, self.done(core, worker, took));
        }
    }

    /// Clears the line at a job's end.
    pub(crate) fn end(&mut self) {
        if self.is_shown {
            let _ = self.rt.stderr().write_all(CLEAR.as_bytes());
        }
        self.is_begun = false;
        self.pace = Pace::IDLE;
        self.is_shown = false;
    }
}

/// Prints how far a checkpoint is.
fn print_checkpoint(core: &Core, done: Done, text: &mut Vec<u8>) -> io::Result<()> {
    let frozen = if core.is_frozen() { ", frozen" } else { "" };
    let (pages, mapped) = (core.pages(), mapped_pages(core));
    write!(
        text,
        "checkpoint: {done}, {pages} of {mapped} pages written into this image{frozen}"
    )
}

/// How many pages an area map has.
fn pages_of(areas: &AreaMap) -> u64 {
    let mut pages = 0u64;
    for Area { count, .. } in areas.areas() {
        pages = pages.saturating_add(*count);
    }
    pages
}

/// How many pages are mapped in all spaces.
fn mapped_pages(core: &Core) -> u64 {
    let mut pages = 0u64;
    for number in 1..SPACE_LIMIT + 1 {
        if let Some(areas) = core.memory().areas(SpaceId::new(number)) {
            pages = pages.saturating_add(pages_of(areas));
        }
    }
    pages
}
