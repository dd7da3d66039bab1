//! Jobs that are made to their end, also where memory was refused.
use crate::cases::Store;
use crate::replies::is_refused;
use sd_command::{Refusal, Reply};
use sd_shared::{Hold, Shared};
use std::sync::Wait;

/// How often a job is gone on with.
const TRIES: u64 = 100;

/// A worker's job.
#[derive(Clone, Copy)]
pub(crate) enum Job {
    Opening,
    /// A checkpoint of so many pre-dumps.
    Saving(u64),
    Merging,
}

impl Job {
    /// Begins the job, and goes on until it has ended or is refused.
    pub(crate) fn run<R: Wait>(self, rt: &R, shared: &Shared<Store>, hold: &impl Hold) -> Reply {
        match self {
            Job::Opening => shared.run_opener(rt, hold),
            Job::Saving(rounds) => shared.run_dumper(rt, rounds, hold),
            Job::Merging => shared.run_merger(rt, hold),
        }
    }

    /// Goes on with the job that stands.
    fn go_on<R: Wait>(self, rt: &R, shared: &Shared<Store>, hold: &impl Hold) -> Reply {
        match self {
            Job::Opening => shared.go_on_opener(rt, hold),
            Job::Saving(_) => shared.go_on_dumper(rt, hold),
            Job::Merging => shared.go_on_merger(rt, hold),
        }
    }

    /// Goes on with the job that stands, and where none does begins it again.
    fn go_further<R: Wait>(self, rt: &R, shared: &Shared<Store>, hold: &impl Hold) -> Reply {
        let reply = self.go_on(rt, shared, hold);
        if is_refused(&reply, Refusal::Idle) {
            return self.run(rt, shared, hold);
        }
        reply
    }

    /// Goes on with the job that was answered so, where memory was refused. Returns the last reply.
    pub(crate) fn end<R: Wait>(
        self,
        rt: &R,
        shared: &Shared<Store>,
        hold: &impl Hold,
        answered: Reply,
    ) -> Reply {
        let mut reply = answered;
        for _ in 0..TRIES {
            if !is_refused(&reply, Refusal::OutOfMemory) {
                return reply;
            }
            reply = self.go_further(rt, shared, hold);
        }
        reply
    }

    /// Begins the job, and makes it to its end.
    pub(crate) fn make<R: Wait>(self, rt: &R, shared: &Shared<Store>, hold: &impl Hold) -> Reply {
        let reply = self.run(rt, shared, hold);
        self.end(rt, shared, hold, reply)
    }
}
