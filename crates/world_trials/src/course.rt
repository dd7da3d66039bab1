//! A run that goes on.
use crate::account::Account;
use crate::figures::Figures;
use crate::lab::{Failing, Lab};
use crate::plain::Plain;
use crate::record::{Record, Step};
use crate::trouble::Trouble;
use sd_areas::SpaceId;
use sd_command::{Command, Refusal, Reply};
use sd_disk::MemDisk;
use sd_gate::Worker;
use sd_world::Event;
use std::alloc::Global;

/// What a run does next where nothing is done at random.
#[derive(Clone, Copy, PartialEq, Eq)]
pub(crate) enum Job {
    /// The store isn't open.
    Closed,
    /// The opener runs.
    Opening,
    /// No checkpoint runs.
    Resting,
    /// A checkpoint runs.
    Dumping,
    /// Too few slots are free for any checkpoint.
    Full,
    /// The store fell while device calls of the dumper were out.
    Falling,
}

/// A world, the steps that it made so far, and what its replies say. It ends as the record of them.
pub(crate) struct Course {
    record: Record,
    lab: Lab,
    account: Account,
    job: Job,
}

/// How a run goes on after an order to begin that is refused.
fn job_after_begin(job: Job, rounds: u64, why: Refusal) -> Job {
    match why {
        Refusal::Busy => Job::Dumping,
        Refusal::NoSlot if rounds == 0 => Job::Full,
        Refusal::StoreDown | Refusal::NotOpen => match job {
            Job::Opening => Job::Opening,
            _ => Job::Closed,
        },
        _ => job,
    }
}

/// How it goes on after a worker's step that is refused.
fn job_after_work(job: Job, worker: Worker, why: Refusal) -> Job {
    match why {
        Refusal::StoreDown if job == Job::Falling => job,
        Refusal::StoreDown | Refusal::Damaged => Job::Closed,
        Refusal::Idle => match (worker, job) {
            (Worker::Dumper, Job::Dumping) | (Worker::Opener, Job::Opening) => Job::Resting,
            (Worker::Dumper, Job::Falling) => Job::Closed,
            _ => job,
        },
        _ => job,
    }
}

/// How it goes on after an event that is refused.
fn job_after_refusal(job: Job, event: &Event, why: Refusal) -> Job {
    match event {
        Event::Begin(rounds) => job_after_begin(job, *rounds, why),
        Event::Work(worker) | Event::TakeUp(worker) => job_after_work(job, *worker, why),
        Event::HandInAt(worker, _) if why != Refusal::Idle => job_after_work(job, *worker, why),
        Event::Reopen if why == Refusal::Busy => match job {
            Job::Closed | Job::Falling => Job::Falling,
            _ => Job::Opening,
        },
        _ => job,
    }
}

/// How a run goes on after an event.
fn job_after(job: Job, event: &Event, reply: &Reply) -> Job {
    match reply {
        Reply::Begun(_) => Job::Dumping,
        Reply::Acked(_) | Reply::Reopened(_) | Reply::Cancelled(_) => Job::Resting,
        Reply::Worked => match event {
            Event::Reopen => Job::Opening,
            _ => job,
        },
        Reply::Refused(why) => job_after_refusal(job, event, *why),
        _ => job,
    }
}

/// A byte is loaded.
fn load_event() -> Event {
    let command = Command::Load {
        space: SpaceId::new(1),
        address: 0x10000,
        count: 1,
    };
    Event::Command { seat: 0, command }
}

/// What the replies of a run say before its first event, and the world that makes it, where the store is opened.
fn opened(record: &Record) -> Result<Option<(Account, Lab)>, Trouble> {
    let account = record.account()?;
    match record.open()? {
        Ok(lab) => Ok(Some((account, lab))),
        Err(start) => {
            drop(start);
            Ok(None)
        }
    }
}

impl Course {
    /// Opens a store. Where its opening fails, no step can be made.
    ///
    /// # Errors
    ///
    /// The record alone, where the store isn't opened.
    pub(crate) fn start(
        alloc: Global,
        start: MemDisk,
        failing: Failing,
    ) -> Result<Result<Course, Record>, Trouble> {
        let record = Record::new(alloc, start, failing);
        match opened(&record)? {
            Some((account, lab)) => Ok(Ok(Course {
                record,
                lab,
                account,
                job: Job::Closed,
            })),
            None => Ok(Err(record)),
        }
    }

    /// The run as it was written down.
    pub(crate) fn into_record(self) -> Record {
        let Course {
            record,
            lab,
            account,
            job: _,
        } = self;
        drop(account);
        drop(lab.close());
        record
    }

    /// What it does next.
    pub(crate) fn job(&self) -> Job {
        self.job
    }

    /// The memory that its replies make.
    pub(crate) fn memory(&self) -> &Plain {
        self.account.memory()
    }

    /// Makes an event, and loads a byte where that says whether the memory is frozen now.
    pub(crate) fn step(&mut self, event: Event, figures: &mut Figures) -> Result<(), Trouble> {
        self.make(event, figures)?;
        if self.account.asks() {
            self.make(load_event(), figures)
        } else {
            Ok(())
        }
    }

    fn make(&mut self, event: Event, figures: &mut Figures) -> Result<(), Trouble> {
        let reply = self.lab.step(&event);
        let fits = self.account.take(&event, &reply)?;
        figures.event(&event, &reply, fits);
        self.job = job_after(self.job, &event, &reply);
        Ok(self.record.push(Step { event, reply })?)
    }

    /// A worker's next event.
    pub(crate) fn next_of(&self, worker: Worker) -> Event {
        self.lab.next_event(worker)
    }

    /// Goes on with the job that runs to its end, for so many steps at most.
    pub(crate) fn finish(&mut self, most: usize, figures: &mut Figures) -> Result<(), Trouble> {
        for _ in 0..most {
            let worker = match self.job {
                Job::Opening => Worker::Opener,
                Job::Dumping | Job::Falling => Worker::Dumper,
                Job::Closed | Job::Resting | Job::Full => return Ok(()),
            };
            let event = self.next_of(worker);
            self.step(event, figures)?;
        }
        Ok(())
    }
}
