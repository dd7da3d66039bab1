use crate::hands::Hands;
use crate::hold::Hold;
use crate::next::Next;
use crate::owed_call::OwedCall;
use crate::shared::Shared;
use sd_command::Reply;
use sd_disk::Disk;
use sd_gate::Worker;
use std::sync::Wait;

/// A worker's job over a shared core and disk. Each method takes one lock at a time, and calls the hold with none.
#[derive(Drop)]
pub(crate) struct Job<'a, R, D: Drop, H> {
    rt: &'a R,
    shared: &'a Shared<D>,
    hold: &'a H,
    worker: Worker,
    number: u64,
    calls: u64,
    last: Reply,
}

impl<'a, R: Wait, D: Disk + Drop, H: Hold> Job<'a, R, D, H> {
    ghost use Rattle.std.specs.Prelude.{◌≡◌};
    ghost use Rattle.sd_shared.specs.Turns.{IsAnsweredCall, IsAnsweredBy, taken_of};

    /// The job of a worker, whose driver has this number, of which this was answered last.
    pub(crate) fn new(
        rt: &'a R,
        shared: &'a Shared<D>,
        hold: &'a H,
        worker: Worker,
        number: u64,
        last: Reply,
    ) -> Self
        ensures worker { result.worker ≡ worker }
        ensures number { result.number ≡ number }
        ensures last { result.last ≡ last }
    {
        Job {
            rt,
            shared,
            hold,
            worker,
            number,
            calls: 0,
            last,
        }
    }

    /// Makes a device call, and hands its outcome in.
    fn call(&mut self, owed: OwedCall) -> Reply
        ensures same { (self.new.worker ≡ self.old.worker) × (self.new.number ≡ self.old.number) }
        ensures called { IsAnsweredCall D.contents owed.request.id result }
    {
        self.calls = self.calls.saturating_add(1);
        self.shared
            .call_device(self.rt, self.hold, self.calls, owed)
    }

    /// What a step says that was taken up, or the device call that it asks for, which is made.
    fn told(&mut self, next: Next) -> Reply
        ensures same { (self.new.worker ≡ self.old.worker) × (self.new.number ≡ self.old.number) }
        ensures told { IsAnsweredBy D.contents (taken_of next) result }
    {
        match next {
            Next::Step(reply) => reply,
            Next::PageWrite(owed) => self.call(owed),
            Next::Call(owed) => self.call(owed),
        }
    }

    /// Sees a step that was taken up.
    pub(crate) fn take(&mut self, next: Next)
        ensures same { (self.new.worker ≡ self.old.worker) × (self.new.number ≡ self.old.number) }
        ensures told { IsAnsweredBy D.contents (taken_of next) self.new.last }
    {
        self.last = self.told(next);
    }
}

impl<R: Wait, D: Disk + Drop, H: Hold> Hands for Job<'_, R, D, H> {
    ghost use Rattle.sd_shared.specs.Turns.{WorkerIsAnswered};

    ghost is_told = { λ job reply. WorkerIsAnswered D.contents job.worker job.number reply };

    ghost last = { λ job. job.last };

    fn go_on(&mut self) {
        let next = self.shared.take_up(self.rt, self.worker, self.number);
        self.take(next);
    }

    fn last(&self) -> &Reply {
        &self.last
    }

    fn into_last(self) -> Reply {
        self.last
    }
}
