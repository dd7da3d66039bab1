//! What a journal allows a store to show, kept beside a run.
use crate::plain::Plain;
use sd_areas::Snapshot;
use sd_command::{Command, Refusal, Reply};
use sd_gate::Worker;
use sd_world::Event;
use std::alloc::{AllocError, Global};

/// A checkpoint, and the memory at its freeze.
#[derive(Drop)]
pub(crate) struct Saved {
    number: u64,
    memory: Plain,
}

/// What the replies of a run say: the memory, the last checkpoint that was acknowledged or found, and the one that is
/// pending since its freeze.
#[derive(Drop)]
pub(crate) struct Account {
    memory: Plain,
    last: Option<Saved>,
    pending: Option<Saved>,
    begun: u64,
    /// Whether the last step of the dumper may have frozen the memory.
    may_freeze: bool,
}

/// Which pair a store shows.
#[derive(Clone, Copy)]
pub(crate) enum Pair {
    /// Nothing was saved.
    Nothing,
    /// The last checkpoint.
    Last,
    /// The pending one.
    Pending,
    /// Neither.
    Other,
}

impl Saved {
    /// What a snapshot has.
    pub(crate) fn of_snapshot(alloc: Global, snapshot: &Snapshot) -> Result<Self, AllocError> {
        Ok(Saved {
            number: snapshot.checkpoint,
            memory: Plain::of_snapshot(alloc, snapshot)?,
        })
    }

    fn is_same(&self, other: &Saved) -> bool {
        self.number == other.number && self.memory.is_same(&other.memory)
    }
}

impl Account {
    /// A run that starts from what a store shows.
    pub(crate) fn new(alloc: Global, shown: Option<Saved>) -> Result<Self, AllocError> {
        let memory = memory_of(alloc, &shown)?;
        let begun = match &shown {
            Some(saved) => saved.number,
            None => 0,
        };
        Ok(Account {
            memory,
            last: shown,
            pending: None,
            begun,
            may_freeze: false,
        })
    }

    /// The memory of the run.
    pub(crate) fn memory(&self) -> &Plain {
        &self.memory
    }

    /// Whether the next command says if the last step of the dumper froze the memory.
    pub(crate) fn asks(&self) -> bool {
        self.may_freeze && self.pending.is_none()
    }

    /// Whether a checkpoint is pending.
    pub(crate) fn is_pending(&self) -> bool {
        self.pending.is_some()
    }

    /// Which pair it is that a store shows.
    pub(crate) fn pair(&self, shown: &Option<Saved>) -> Pair {
        let Some(saved) = shown else {
            return match self.last {
                None => Pair::Nothing,
                Some(_) => Pair::Other,
            };
        };
        if is_it(&self.last, saved) {
            Pair::Last
        } else if is_it(&self.pending, saved) {
            Pair::Pending
        } else {
            Pair::Other
        }
    }

    /// Takes an event and its reply. Returns whether the reply may be.
    pub(crate) fn take(&mut self, event: &Event, reply: &Reply) -> Result<bool, AllocError> {
        match event {
            Event::Command { command, .. } => self.take_command(command, reply),
            Event::Begin(_) => Ok(self.take_begin(reply)),
            Event::Work(worker) | Event::TakeUp(worker) | Event::HandInAt(worker, _) => {
                Ok(self.take_work(*worker, reply))
            }
            Event::Cancel => Ok(self.take_cancel(reply)),
            Event::Trim => Ok(self.take_trim(reply)),
            Event::Perform(_) | Event::PerformAt(..) | Event::Merge | Event::Reopen => {
                Ok(is_plain(reply))
            }
        }
    }

    fn take_work(&mut self, worker: Worker, reply: &Reply) -> bool {
        match worker {
            Worker::Dumper => self.take_dump(reply),
            Worker::Merger => matches!(reply, Reply::Merged(_)) || is_plain(reply),
            Worker::Opener => self.take_opening(reply),
        }
    }

    fn take_command(&mut self, command: &Command, reply: &Reply) -> Result<bool, AllocError> {
        if let Reply::Refused(Refusal::Frozen) = reply {
            return self.freeze();
        }
        self.may_freeze = false;
        if self.pending.is_some() {
            return Ok(false);
        }
        self.memory.apply(command, reply)
    }

    /// Entries are folded only up to a checkpoint.
    fn take_trim(&self, reply: &Reply) -> bool {
        match reply {
            Reply::Trimmed(_) => self.last.is_some(),
            _ => is_plain(reply),
        }
    }

    fn take_begin(&mut self, reply: &Reply) -> bool {
        match reply {
            Reply::Begun(number) => self.begin(*number),
            _ => is_plain(reply),
        }
    }

    fn take_dump(&mut self, reply: &Reply) -> bool {
        match reply {
            Reply::Worked => {
                self.may_freeze = true;
                true
            }
            Reply::Acked(number) => self.acknowledge(*number),
            _ => is_plain(reply),
        }
    }

    fn take_opening(&mut self, reply: &Reply) -> bool {
        match reply {
            Reply::Reopened(found) => self.reopen(*found),
            _ => is_plain(reply),
        }
    }

    fn take_cancel(&mut self, reply: &Reply) -> bool {
        match reply {
            Reply::Cancelled(number) => self.cancel(*number),
            _ => is_plain(reply),
        }
    }

    /// A command was refused as frozen.
    fn freeze(&mut self) -> Result<bool, AllocError> {
        if self.pending.is_some() {
            return Ok(true);
        }
        self.pending = Some(Saved {
            number: self.begun,
            memory: self.memory.copy()?,
        });
        Ok(self.may_freeze)
    }

    fn begin(&mut self, number: u64) -> bool {
        let rises = self.begun < number && self.pending.is_none();
        self.begun = number;
        self.may_freeze = false;
        rises
    }

    fn acknowledge(&mut self, number: u64) -> bool {
        self.last = self.pending.take();
        is_number(&self.last, number)
    }

    fn cancel(&mut self, number: u64) -> bool {
        self.pending = None;
        self.may_freeze = false;
        self.begun == number
    }

    /// The store was opened, and shows the last checkpoint or the pending one.
    fn reopen(&mut self, found: Option<u64>) -> bool {
        let pending = self.pending.take();
        self.may_freeze = false;
        let Some(number) = found else {
            return self.last.is_none();
        };
        if is_number(&pending, number) {
            self.last = pending;
        }
        is_number(&self.last, number)
    }
}

/// Whether a reply ends nothing.
fn is_plain(reply: &Reply) -> bool {
    matches!(reply, Reply::Worked | Reply::Refused(_))
}

/// The memory of a checkpoint; without one that of a run over an empty store.
fn memory_of(alloc: Global, shown: &Option<Saved>) -> Result<Plain, AllocError> {
    match shown {
        Some(saved) => saved.memory.copy(),
        None => Plain::new(alloc),
    }
}

fn is_it(pair: &Option<Saved>, saved: &Saved) -> bool {
    matches!(pair, Some(own) if own.is_same(saved))
}

fn is_number(pair: &Option<Saved>, number: u64) -> bool {
    matches!(pair, Some(own) if own.number == number)
}
