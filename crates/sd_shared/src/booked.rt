//! What lies behind the lock of the core, and what one turn does: one hold of that lock. Nothing else in this crate
//! reaches the core.
ghost use Rattle.std.specs.Prelude.{◌≡◌, ◌≢◌, ◌⊎◌, ◌&&◌, false, true, not, IfErr, IfSome};
ghost use Rattle.sd_command.specs.declared.refusal.Refusal.TheVariants.{Idle};
ghost use Rattle.sd_command.specs.declared.reply.Reply.TheVariants as reply;
ghost use Rattle.sd_crash_safety.specs.Calls.{IsUnjournaled};
ghost use Rattle.sd_core.specs.declared.taken.Taken.TheVariants as taken;
ghost use Rattle.sd_shared.specs.declared.next.Next.TheVariants as next;
ghost use Rattle.sd_core.specs.Called.{IsApplied, IsCancelOrder, IsHandedIn, IsTakenUp};
ghost use Rattle.sd_shared.specs.Told.{ends_job, is_refused};
ghost use Rattle.sd_shared.specs.Turns.{IsOrder, IsSorted, IsTrimmed, counted, ended_after, ends_waits, holds_waits};
ghost use Rattle.sd_shared.specs.Turns.{job_number, jobs_after, taken_of, thaw_of, turned};

use crate::driving::ends_job;
use crate::jobs::Jobs;
use crate::next::Next;
use crate::ordering::OneOrder;
use crate::owed_call::OwedCall;
use crate::seat::Seat;
use crate::thaw::Thaw;
use crate::waits_ended::WaitsEnded;
use crate::waking::Waking;
use sd_command::{Command, Refusal, Reply};
use sd_core::{Core, Taken};
use sd_gate::{Outcome, Worker};
use sd_receipts::Folded;

/// A core, how many drivers the jobs of its workers had, and whether the waits for a thaw were ended.
#[derive(Drop)]
pub(crate) struct Booked {
    core: Core,
    jobs: Jobs,
    ended: bool,
}

/// Orders a worker's job.
fn order(core: &mut Core, worker: Worker, rounds: u64) -> Reply
    ensures { IsOrder worker rounds result core.old core.new }
{
    match worker {
        Worker::Dumper => core.begin(rounds),
        Worker::Merger => core.merge(),
        Worker::Opener => core.reopen(),
    }
}

/// Whether a step was refused.
fn is_refused(step: &Next) -> bool
    ensures { result ≡ is_refused (taken_of step.now) }
{
    matches!(step, Next::Step(Reply::Refused(_)))
}

impl Booked {
    /// A core of which no job was begun here, and whose waits weren't ended.
    pub(crate) fn new(core: Core) -> Booked
        ensures core { result.core ≡ core }
        ensures waits { result.ended ≡ false }
    {
        Booked {
            core,
            jobs: Jobs::none(),
            ended: false,
        }
    }

    /// The core alone.
    pub(crate) fn into_core(self) -> Core
        ensures { result ≡ self.core }
    {
        self.core
    }

    /// Whether commands are refused as frozen until a worker goes on, and whoever waits for that goes on waiting.
    pub(crate) fn holds_waits(&self) -> bool
        ensures { result ≡ holds_waits self.now }
    {
        self.core.is_frozen() && !self.core.is_down() && !self.ended
    }

    /// How a wait for the end of a freeze ended, where nobody is to wait any more.
    pub(crate) fn thaw(&self) -> Thaw
        ensures { result ≡ thaw_of self.now.core }
    {
        if !self.core.is_frozen() {
            Thaw::Thawed
        } else if self.core.is_down() {
            Thaw::Down
        } else {
            Thaw::Ended
        }
    }

    /// What is to be woken by a turn before which waits were held, or weren't.
    fn waking(&self, held: bool) -> Waking
        ensures { result.go_on ≡ (held && not (holds_waits self.now)) }
    {
        Waking::new(held && !self.holds_waits())
    }

    /// Ends the waits until the next checkpoint begins.
    pub(crate) fn end_waits(&mut self) -> (WaitsEnded, Waking)
        ensures core { self.new.core ≡ self.old.core }
        ensures jobs { self.new.jobs ≡ self.old.jobs }
        ensures ended { self.new.ended ≡ true }
        ensures wakes { result.1.go_on ≡ ends_waits self.old self.new }
    {
        let held = self.holds_waits();
        self.ended = true;
        (WaitsEnded::of(self), self.waking(held))
    }

    /// Applies a command of a seat, and journals a copy of it, which was made before the lock was taken, where there
    /// was room for it. Returns the entry's number and the reply. It is one turn of that seat, and ends no wait.
    ///
    /// # Errors
    ///
    /// As `Core::apply`.
    pub(crate) fn command(
        &mut self,
        seat: &mut Seat,
        command: &Command,
        copy: Option<Command>,
    ) -> Result<(u64, Reply), Refusal>
        requires copy { IfSome copy (λ own. own ≡ command.now) }
        ensures turn { IsApplied seat.old.number command.now result self.old.core self.new.core }
        ensures refuses { IfErr result IsUnjournaled }
        ensures once { seat.new ≡ turned seat.old }
        ensures jobs { self.new.jobs ≡ self.old.jobs }
        ensures ended { self.new.ended ≡ self.old.ended }
        ensures waits { holds_waits self.new ≡ holds_waits self.old }
    {
        seat.turns = seat.turns.wrapping_add(1);
        match copy {
            Some(copy) => self.core.apply_owned(seat.number, copy),
            None => self.core.apply(seat.number, command),
        }
    }

    /// Orders a worker's job. Returns the reply, and the number of the job's driver, where it was begun. From a
    /// checkpoint's beginning on waits are held again.
    pub(crate) fn order(
        &mut self,
        one: OneOrder,
        worker: Worker,
        rounds: u64,
    ) -> (Reply, u64, Waking)
        ensures turn { IsOrder worker rounds result.0 self.old.core self.new.core }
        ensures number { ends_job result.0 ≡ false
            → (self.new.jobs ≡ counted worker self.old.jobs) × (result.1 ≡ job_number self.new.jobs worker) }
        ensures refused { ends_job result.0 ≡ true → self.new.jobs ≡ self.old.jobs }
        ensures ended { self.new.ended ≡ ended_after worker result.0 self.old.ended }
        ensures wakes { result.2.go_on ≡ ends_waits self.old self.new }
    {
        one.end();
        let held = self.holds_waits();
        let reply = order(&mut self.core, worker, rounds);
        if !ends_job(&reply) {
            self.jobs.count(worker);
            self.ended = !matches!(worker, Worker::Dumper) && self.ended;
        }
        (reply, self.jobs.of(worker), self.waking(held))
    }

    /// Makes the next step of a worker's job, or takes its next device call up.
    fn next(&mut self, worker: Worker) -> Next
        ensures turn { IsTakenUp worker self.old.core (taken_of result) self.new.core }
        ensures pages { IsSorted result self.new.core }
        ensures jobs { self.new.jobs ≡ self.old.jobs }
        ensures ended { self.new.ended ≡ self.old.ended }
    {
        match self.core.take_up(worker) {
            Taken::Step(reply) => Next::Step(reply),
            Taken::Call(request) if self.core.is_page_write(&request.id()) => {
                Next::PageWrite(OwedCall::new(request))
            }
            Taken::Call(request) => Next::Call(OwedCall::new(request)),
        }
    }

    /// Makes the next step of a worker's job, or takes its next device call up, and says which calls may be made
    /// beside others.
    ///
    /// # Errors
    ///
    /// `Idle` where the driver with this number isn't the one of the job that was begun or gone on with last. Else as
    /// `Core::take_up`.
    pub(crate) fn take_up(&mut self, worker: Worker, job: u64) -> (Next, Waking)
        ensures other { job ≢ job_number self.old.jobs worker
            → (result.0 ≡ next.Step (reply.Refused Idle)) × (self.new ≡ self.old) }
        ensures either { ((job ≢ job_number self.old.jobs worker)
            × (taken_of result.0 ≡ taken.Step (reply.Refused Idle)))
            ⊎ ((job ≡ job_number self.old.jobs worker)
            × IsTakenUp worker self.old.core (taken_of result.0) self.new.core) }
        ensures pages { IsSorted result.0 self.new.core }
        ensures jobs { self.new.jobs ≡ self.old.jobs }
        ensures ended { self.new.ended ≡ self.old.ended }
        ensures wakes { result.1.go_on ≡ ends_waits self.old self.new }
    {
        let held = self.holds_waits();
        if self.jobs.of(worker) != job {
            return (Next::Step(Reply::Refused(Refusal::Idle)), self.waking(held));
        }
        let next = self.next(worker);
        (next, self.waking(held))
    }

    /// Goes on with the job of a worker that was begun last, for a driver of its own: where its step isn't refused, the
    /// driver before it is idle from now on. Returns the number of the job's driver too.
    pub(crate) fn resume(&mut self, worker: Worker) -> (u64, Next, Waking)
        ensures number { result.0 ≡ job_number self.new.jobs worker }
        ensures turn { IsTakenUp worker self.old.core (taken_of result.1) self.new.core }
        ensures jobs { self.new.jobs ≡ jobs_after worker (taken_of result.1) self.old.jobs }
        ensures ended { self.new.ended ≡ self.old.ended }
        ensures wakes { result.2.go_on ≡ ends_waits self.old self.new }
    {
        let held = self.holds_waits();
        let next = self.next(worker);
        if !is_refused(&next) {
            self.jobs.count(worker);
        }
        (self.jobs.of(worker), next, self.waking(held))
    }

    /// Hands an outcome in.
    pub(crate) fn hand_in(&mut self, outcome: Outcome) -> (Reply, Waking)
        ensures turn { IsHandedIn outcome result.0 self.old.core self.new.core }
        ensures jobs { self.new.jobs ≡ self.old.jobs }
        ensures ended { self.new.ended ≡ self.old.ended }
        ensures wakes { result.1.go_on ≡ ends_waits self.old self.new }
    {
        let held = self.holds_waits();
        let reply = self.core.hand_in(outcome);
        (reply, self.waking(held))
    }

    /// Cancels the checkpoint that runs or is pending.
    pub(crate) fn cancel(&mut self, one: OneOrder) -> (Reply, Waking)
        ensures turn { IsCancelOrder result.0 self.old.core self.new.core }
        ensures jobs { self.new.jobs ≡ self.old.jobs }
        ensures ended { self.new.ended ≡ self.old.ended }
        ensures wakes { result.1.go_on ≡ ends_waits self.old self.new }
    {
        one.end();
        let held = self.holds_waits();
        let reply = self.core.cancel();
        (reply, self.waking(held))
    }

    /// Trims the journal, as `Core::trim`.
    ///
    /// # Errors
    ///
    /// As `Core::trim`. Nothing changed.
    pub(crate) fn trim(&mut self, one: OneOrder) -> (Result<Folded, Refusal>, Waking)
        ensures turn { IsTrimmed result.0 self.old.core self.new.core }
        ensures jobs { self.new.jobs ≡ self.old.jobs }
        ensures ended { self.new.ended ≡ self.old.ended }
        ensures wakes { result.1.go_on ≡ ends_waits self.old self.new }
    {
        one.end();
        let held = self.holds_waits();
        let folded = self.core.trim();
        (folded, self.waking(held))
    }
}
