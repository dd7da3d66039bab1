//! The jobs of the workers of a shared core, each from its order to its end.
ghost use Rattle.std.specs.Prelude.{◌≡◌, true};
ghost use Rattle.sd_command.specs.declared.refusal.Refusal.TheVariants.{Einval};
ghost use Rattle.sd_command.specs.declared.reply.Reply.TheVariants as reply;
ghost use Rattle.sd_gate.specs.declared.worker.Worker.TheVariants as its;
ghost use Rattle.sd_shared.specs.Told.{ends_job};
ghost use Rattle.sd_shared.specs.Turns.{AreOutside, MakesJob, RelaysJob, ResumesJob};

use crate::crew::Crew;
use crate::driving::go_on;
use crate::hands::Hands;
use crate::hold::Hold;
use crate::job::Job;
use crate::ordering::OneOrder;
use crate::relayed_dump::{RelayedDump, last_of};
use crate::shared::Shared;
use sd_command::{Refusal, Reply};
use sd_disk::Disk;
use sd_gate::Worker;
use sd_relay::relay;
use std::sync::Wait;
use std::thread::Threads;

/// How many writers a checkpoint may have at most.
const MOST_WRITERS: usize = 8;

impl<D: Disk + Drop> Shared<D> {
    /// A checkpoint with writers, as [`Shared::run_relay`].
    pub(crate) fn run_with_writers<R: Threads + Wait + Sync, H: Hold + Sync>(
        &self,
        rt: &R,
        one: OneOrder,
        rounds: u64,
        writers: usize,
        hold: &H,
    ) -> Reply
    where
        D: Send,
        ensures over { ends_job result ≡ true }
        ensures refused { AreOutside writers → result ≡ reply.Refused Einval }
        ensures job { (AreOutside writers → ⊥) → RelaysJob D.contents rounds result }
    {
        if writers == 0 || MOST_WRITERS < writers {
            one.end();
            return Reply::Refused(Refusal::Einval);
        }
        self.relay_once(rt, one, rounds, writers, hold)
    }

    /// Relays a checkpoint to so many writers.
    fn relay_once<R: Threads + Wait + Sync, H: Hold + Sync>(
        &self,
        rt: &R,
        one: OneOrder,
        rounds: u64,
        writers: usize,
        hold: &H,
    ) -> Reply
    where
        D: Send,
        ensures over { ends_job result ≡ true }
        ensures job { RelaysJob D.contents rounds result }
    {
        let crew = Crew::new(rt, self, hold);
        let mut dump = RelayedDump::new(&crew, one, rounds);
        match relay(rt, self.alloc, writers, &mut dump, &crew) {
            Ok(_) => last_of(dump.into_last(), crew.into_refused()),
            Err(_) => {
                drop(dump.into_last());
                Reply::Refused(Refusal::OutOfMemory)
            }
        }
    }

    /// Begins a job of a worker, and makes it to its end.
    pub(crate) fn run<R: Wait, H: Hold>(
        &self,
        rt: &R,
        one: OneOrder,
        worker: Worker,
        rounds: u64,
        hold: &H,
    ) -> Reply
        ensures over { ends_job result ≡ true }
        ensures job { MakesJob D.contents worker rounds result }
    {
        let (first, number) = self.begin(rt, one, worker, rounds);
        let mut job = Job::new(rt, self, hold, worker, number, first);
        go_on(rt, &mut job);
        job.into_last()
    }

    /// Goes on with a checkpoint that stands, as it does where `run_dumper` returned `OutOfMemory`. Returns the last
    /// reply.
    ///
    /// A job has one driver. Where another thread drives this one, and the first step isn't refused, this call drives
    /// it from then on, is answered how it ends, and the other is answered `Idle`.
    ///
    /// # Errors
    ///
    /// `Idle` where none runs, and `Busy` while a device call of it is out: nothing changed, and whoever drives it goes
    /// on. `Busy` also after some steps, where outcomes are awaited that the driver before hands in: it stands, and
    /// this call is made again.
    pub fn go_on_dumper<R: Wait>(&self, rt: &R, hold: &impl Hold) -> Reply
        ensures over { ends_job result ≡ true }
        ensures told { ResumesJob D.contents its.Dumper result }
    {
        self.go_on(rt, Worker::Dumper, hold)
    }

    /// Goes on with a merge that stands, as `go_on_dumper`: `Idle` where none runs.
    pub fn go_on_merger<R: Wait>(&self, rt: &R, hold: &impl Hold) -> Reply
        ensures over { ends_job result ≡ true }
        ensures told { ResumesJob D.contents its.Merger result }
    {
        self.go_on(rt, Worker::Merger, hold)
    }

    /// Goes on with an opening that stands, as `go_on_dumper`: `Idle` where none runs.
    pub fn go_on_opener<R: Wait>(&self, rt: &R, hold: &impl Hold) -> Reply
        ensures over { ends_job result ≡ true }
        ensures told { ResumesJob D.contents its.Opener result }
    {
        self.go_on(rt, Worker::Opener, hold)
    }

    fn go_on<R: Wait, H: Hold>(&self, rt: &R, worker: Worker, hold: &H) -> Reply
        ensures over { ends_job result ≡ true }
        ensures told { ResumesJob D.contents worker result }
    {
        let (number, next) = self.resume(rt, worker);
        let mut job = Job::new(rt, self, hold, worker, number, Reply::Worked);
        job.take(next);
        go_on(rt, &mut job);
        job.into_last()
    }
}
