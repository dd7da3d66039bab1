//! A world that is driven by lines.
use crate::line::Line;
use crate::told::{Next, Told};
use sd_command::{Refusal, Reply};
use sd_disk::{Fused, MemDisk};
use sd_gate::Worker;
use sd_world::{Event, World};
use std::alloc::{AllocError, Global};

/// The most events that a job has.
const MOST: u64 = 2_000;

/// A world, and what it answered so far.
#[derive(Drop)]
pub(crate) struct Driver<'a> {
    pub(crate) world: &'a mut World<Fused<MemDisk>>,
    pub(crate) told: &'a mut Told,
}

impl Driver<'_> {
    /// Makes an event, and once more where memory was refused, which is counted.
    fn reply(&mut self, rt: &impl Eprint, event: &Event) -> Reply {
        let reply = self.world.step(event);
        if reply != Reply::Refused(Refusal::OutOfMemory) {
            return reply;
        }
        let _ = eprintln!(rt; "refused: {event:?}");
        self.world.step(event)
    }

    /// Makes an event.
    pub(crate) fn make(&mut self, rt: &impl Eprint, event: &Event) -> Result<Next, AllocError> {
        let reply = self.reply(rt, event);
        self.told.take(event, reply)
    }

    /// So many events of a worker at most, until its job has ended or its call failed.
    fn work(&mut self, rt: &impl Eprint, worker: Worker, most: u64) -> Result<Next, AllocError> {
        for _ in 0..most.min(MOST) {
            let event = self.world.next_event(worker);
            let next = self.make(rt, &event)?;
            if next != Next::GoesOn {
                return Ok(next);
            }
        }
        Ok(Next::GoesOn)
    }

    /// Makes a line. Returns whether the device failed.
    fn line(&mut self, rt: &impl Eprint, alloc: Global, line: Line) -> Result<bool, AllocError> {
        if let Some(event) = line.event(alloc)? {
            self.make(rt, &event)?;
        }
        match line.work() {
            Some((worker, most)) => Ok(self.work(rt, worker, most)? == Next::Failed),
            None => Ok(false),
        }
    }

    /// Makes lines, until the device fails.
    pub(crate) fn lines(
        &mut self,
        rt: &impl Eprint,
        alloc: Global,
        lines: &[Line],
    ) -> Result<(), AllocError> {
        for line in lines {
            if self.line(rt, alloc, *line)? {
                return Ok(());
            }
        }
        Ok(())
    }
}
