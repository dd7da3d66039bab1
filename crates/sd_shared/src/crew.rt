//! The writers of a checkpoint.
use crate::hold::Hold;
use crate::next::Next;
use crate::ordering::OneOrder;
use crate::owed_call::OwedCall;
use crate::reports::Reports;
use crate::shared::Shared;
use sd_command::{Refusal, Reply};
use sd_disk::Disk;
use sd_gate::Worker;
use sd_relay::{Errand, Writer};
use std::sync::{Condvar, Mutex, Wait};

/// What the writers of a checkpoint share: each makes writes of data pages and hands their outcomes in, and reports the
/// thread that takes the writes up.
#[derive(Drop)]
pub(crate) struct Crew<'a, R, D: Drop, H> {
    rt: &'a R,
    shared: &'a Shared<D>,
    hold: &'a H,
    reports: Mutex<Reports>,
    reported: Condvar,
}

impl<'a, R: Wait, D: Disk + Drop, H: Hold> Crew<'a, R, D, H> {
    ghost use Rattle.sd_gate.specs.declared.worker.Worker.TheVariants as its;
    ghost use Rattle.sd_shared.specs.Turns.{AreRefused, IsAnsweredCall, Orders, TakesStep, taken_of};

    /// Writers who have nothing to report yet.
    pub(crate) fn new(rt: &'a R, shared: &'a Shared<D>, hold: &'a H) -> Self {
        Crew {
            rt,
            shared,
            hold,
            reports: Mutex::new(Reports::new()),
            reported: Condvar::new(),
        }
    }

    /// The runtime of their threads.
    pub(crate) fn rt(&self) -> &'a R {
        self.rt
    }

    /// Begins a checkpoint of so many rounds. Returns the reply, and its number among the jobs of the dumper.
    pub(crate) fn begin(&self, one: OneOrder, rounds: u64) -> (Reply, u64)
        ensures { Orders its.Dumper rounds result.0 result.1 }
    {
        self.shared.begin(self.rt, one, Worker::Dumper, rounds)
    }

    /// What is next of the checkpoint with this number.
    pub(crate) fn take_up(&self, job: u64) -> Next
        ensures { TakesStep its.Dumper job (taken_of result) }
    {
        self.shared.take_up(self.rt, Worker::Dumper, job)
    }

    /// Makes a device call, the hold's with this number, and hands its outcome in.
    pub(crate) fn call(&self, number: u64, owed: OwedCall) -> Reply
        ensures { IsAnsweredCall D.contents owed.request.id result }
    {
        self.shared.call_device(self.rt, self.hold, number, owed)
    }

    /// How many writes the writers have made.
    pub(crate) fn made(&self) -> u64 {
        self.reports.lock(self.rt).made
    }

    /// Waits until they have made more than so many.
    pub(crate) fn await_more(&self, made: u64) {
        let _reports = self.reported.wait_while(
            self.rt,
            self.reports.lock(self.rt),
            |reports| reports.made == made,
        );
    }

    /// Why the first write was refused that was.
    pub(crate) fn into_refused(self) -> Option<Refusal>
        ensures { AreRefused result }
    {
        self.reports.into_inner().into_refused()
    }
}

impl<R: Wait, D: Disk + Drop, H: Hold> Writer for Crew<'_, R, D, H> {
    ghost use Rattle.sd_command.specs.declared.reply.Reply.{Reply as Told};
    ghost use Rattle.sd_shared.specs.Turns.{IsAnsweredCall};

    fn write(&self, errand: Errand)
        ensures called { (answer : Told) × IsAnsweredCall D.contents errand.request.id answer }
    {
        let Errand { call, request } = errand;
        let reply = self.call(call, OwedCall::new(request));
        self.reports.lock(self.rt).take(&reply);
        self.reported.notify_one();
    }
}
