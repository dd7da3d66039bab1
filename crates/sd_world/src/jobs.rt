//! A worker's events, one after the other, and its jobs.
ghost use Rattle.std.specs.Prelude.{◌≡◌, ◌<◌, ◌≤◌, [], ◌∷◌, None, Some, false, true, IfOk};
ghost use Rattle.sd_command.specs.declared.reply.Reply.TheVariants as reply;
ghost use Rattle.sd_crash_safety.specs.View.{history_of};
ghost use Rattle.sd_core.specs.Working.{left_by};
ghost use Rattle.sd_disk.specs.Crash.{Within};
ghost use Rattle.sd_gate.specs.declared.worker.Worker.{Worker as WorkerKind};
ghost use Rattle.sd_gate.specs.declared.worker.Worker.TheVariants.{Dumper, Merger, Opener};
ghost use Rattle.sd_image.specs.Shows.{Shows};
ghost use Rattle.sd_journal.specs.History.{pending};
ghost use Rattle.sd_pagetable.specs.Contents.{plain_of};
ghost use Rattle.sd_world.specs.declared.event.Event.TheVariants.{Begin, Merge, Perform, Reopen, Work};
ghost use Rattle.sd_world.specs.Goes.{GoesOn};
ghost use Rattle.sd_world.specs.Jobs.{AreDriven, EndsAs, GoesByJob, IsDriven, IsFinished, IsJob, is_end, last_reply};
ghost use Rattle.sd_world.specs.Jobs.{next_event};
ghost use Rattle.sd_world.specs.Points.{StandsAt};
ghost use Rattle.sd_world.specs.Promise.{Point};
ghost use Rattle.sd_world.specs.Runs.{IsStep, ShowsReply};
ghost use Rattle.sd_world.specs.Steps.{LeavesLess};
ghost use Rattle.sd_world.specs.View.{asked_count, is_asked};

use crate::event::Event;
use crate::watch::{Unwatched, Watch};
use crate::world::World;
use sd_command::{Refusal, Reply};
use sd_disk::Disk;
use sd_gate::Worker;

/// Whether a reply ends a job, or refuses.
fn is_end(answer: &Reply) -> bool
    ensures { result ≡ is_end answer.now }
{
    matches!(
        answer,
        Reply::Acked(_) | Reply::Merged(_) | Reply::Reopened(_) | Reply::Refused(_)
    )
}

/// What the last reply of a checkpoint says.
fn acked(last: Reply) -> Result<u64, Refusal>
    requires { EndsAs reply.Acked last }
    ensures { last ≡ last_reply reply.Acked result }
{
    match last {
        Reply::Acked(number) => Ok(number),
        Reply::Refused(why) => Err(why),
        _ => unreachable!(),
    }
}

/// What the last reply of a merge says.
fn merged(last: Reply) -> Result<u64, Refusal>
    requires { EndsAs reply.Merged last }
    ensures { last ≡ last_reply reply.Merged result }
{
    match last {
        Reply::Merged(serial) => Ok(serial),
        Reply::Refused(why) => Err(why),
        _ => unreachable!(),
    }
}

/// What the last reply of an opener says.
fn reopened(last: Reply) -> Result<Option<u64>, Refusal>
    requires { EndsAs reply.Reopened last }
    ensures { last ≡ last_reply reply.Reopened result }
{
    match last {
        Reply::Reopened(number) => Ok(number),
        Reply::Refused(why) => Err(why),
        _ => unreachable!(),
    }
}

/// Jobs: a worker's events, one after the other, up to an end.
impl<D: Disk> World<D> {
    /// A worker's next event: its device call where one is out, and else its next step. It is for a caller that keeps
    /// each event and its reply; [`advance`](World::advance) and [`finish`](World::finish) make them.
    pub fn next_event(&self, worker: Worker) -> Event
        ensures { result ≡ next_event self.now.kept worker }
    {
        if self.is_out(worker) {
            Event::Perform(worker)
        } else {
            Event::Work(worker)
        }
    }

    /// Makes one event, and answers it, as [`step`](World::step) does, with what `made_event_laws` says of it.
    pub fn make(&mut self, event: Event) -> Reply
        ensures step { IsStep D.Disk event self.old result self.new }
        ensures goes_on { GoesOn D.Disk self.old self.new }
        ensures lowers { (worker : WorkerKind) → event ≡ Work worker
            → LeavesLess result (left_by self.old.core worker) (left_by self.new.core worker) }
        ensures made { (worker : WorkerKind) → event ≡ Perform worker → is_asked self.old.kept worker ≡ true
            → asked_count self.new.kept worker < asked_count self.old.kept worker }
        ensures still { (worker : WorkerKind) → event ≡ Perform worker → self.new.core ≡ self.old.core }
    {
        self.made_event_laws();
        self.step(&event)
    }

    /// Makes so many next events of a worker, at least 1, each its device call where one is out and else its next step.
    /// They end early where one of them ends the job or is refused. Returns the last reply; where that is `Worked`,
    /// call `advance` again, or [`finish`](World::finish).
    pub fn advance(&mut self, worker: Worker, count: u64) -> Reply
        requires { 1 ≤ count }
        ensures driven { IsDriven D.Disk worker count self.old result self.new }
        ensures goes_on { GoesOn D.Disk self.old self.new }
    {
        let first = self.next_event(worker);
        let mut answer = self.make(first);
        for _ in 1..count {
            if is_end(&answer) {
                return answer;
            }
            let next = self.next_event(worker);
            answer = self.make(next);
        }
        answer
    }

    /// Makes the next steps of the dumper's pass, a worker's device calls while one is out, and then its next step,
    /// unless a call failed. Returns the last reply. Where that neither ends the job nor refuses, less of the job is
    /// left.
    fn turn(&mut self, worker: Worker) -> Reply
        ensures driven { AreDriven D.Disk worker self.old result self.new }
        ensures goes_on { GoesOn D.Disk self.old self.new }
        ensures lowers { is_end result ≡ false
            → left_by self.new.core worker < left_by self.old.core worker }
    {
        self.pass_first(worker);
        while self.is_out(worker) {
            let called = self.make(Event::Perform(worker));
            if is_end(&called) {
                return called;
            }
        }
        self.make(Event::Work(worker))
    }

    /// Makes a worker's events up to the end of its job, or up to a refusal, while they are watched. Returns the last
    /// reply. There are at most two events for each step that was left, and two more, beside the device calls that were
    /// out.
    fn follow<S: Watch>(&mut self, worker: Worker, watch: &mut S) -> Reply
        ensures finished { IsFinished D.Disk worker self.old result self.new }
        ensures goes_on { GoesOn D.Disk self.old self.new }
    {
        let left = self.core().left(worker);
        let mut answer = self.turn(worker);
        for _ in 0..left {
            if is_end(&answer) {
                return answer;
            }
            watch.goes_on(self.core(), worker);
            answer = self.turn(worker);
        }
        answer
    }

    /// Makes a worker's events up to the end of its job, or up to a refusal, and returns the last reply: `Acked`,
    /// `Merged` or `Reopened` where the job came to its end, and else `Refused`. It comes to such an end always: each
    /// turn leaves less of the job. Begin the job first, by an event `Begin`, `Merge` or `Reopen`; a worker without a
    /// job is refused as idle. [`checkpoint`](World::checkpoint), [`merge_now`](World::merge_now) and
    /// [`reopen_now`](World::reopen_now) do both.
    pub fn finish(&mut self, worker: Worker) -> Reply
        ensures finished { IsFinished D.Disk worker self.old result self.new }
        ensures goes_on { GoesOn D.Disk self.old self.new }
        // From each point at which the world stands its events go to one at which it stands then.
        ensures promise { D.is_honest self.new.disk → (first : Point D) → StandsAt self.old first
            → (last : Point D) × StandsAt self.new last
            × GoesByJob D.Disk [] worker first result last }
    {
        self.points_follow();
        self.follow(worker, &mut Unwatched)
    }

    /// [`finish`](World::finish), while the job is watched: between its turns `watch` is shown the core, and after its
    /// end it is answered so.
    pub fn finish_watched<S: Watch>(&mut self, worker: Worker, watch: &mut S) -> Reply
        ensures finished { IsFinished D.Disk worker self.old result self.new }
        ensures goes_on { GoesOn D.Disk self.old self.new }
        // From each point at which the world stands its events go to one at which it stands then.
        ensures promise { D.is_honest self.new.disk → (first : Point D) → StandsAt self.old first
            → (last : Point D) × StandsAt self.new last
            × GoesByJob D.Disk [] worker first result last }
    {
        self.points_follow();
        let answer = self.follow(worker, watch);
        watch.has_ended();
        answer
    }

    /// Begins a job by an order, `Begin`, `Merge` or `Reopen`, and has its worker finish it while it is watched.
    /// Returns the last reply. A refused beginning is the answer.
    pub fn do_job<S: Watch>(&mut self, order: Event, worker: Worker, watch: &mut S) -> Reply
        ensures job { IsJob D.Disk order worker self.old result self.new }
        ensures goes_on { GoesOn D.Disk self.old self.new }
        ensures shows { D.is_honest self.new.disk → Within (D.may_leave self.new.disk)
            (ShowsReply result self.new.core.base (history_of self.new.core)) }
        ensures promise { D.is_honest self.new.disk → (first : Point D) → StandsAt self.old first
            → (last : Point D) × StandsAt self.new last
            × GoesByJob D.Disk (order ∷ []) worker first result last }
    {
        self.points_follow();
        let begun = self.make(order);
        if is_end(&begun) {
            return begun;
        }
        self.finish_watched(worker, watch)
    }

    /// Makes a checkpoint with 0 to 8 rounds before its freeze, to its end, and returns its number. After `Ok(n)`
    /// whatever a crash leaves shows checkpoint n, with the memory at its freeze (`acked` and `shows` of
    /// [`step`](World::step)). The store has to be open: [`start`](World::start) opens it. Next comes an event `Trim`,
    /// so that the journal doesn't fill.
    ///
    /// # Errors
    ///
    /// The refusal of its beginning, which leaves all as it was: `NotOpen` and `StoreDown` where the store isn't open,
    /// `Busy` where a checkpoint runs, `Einval` with more than 8 rounds, `JournalFull` where fewer than two entries are
    /// free, `NumbersUsed`, `NoSlot` where too few slots are free, or `OutOfMemory`. Or the refusal of a step:
    /// `OutOfMemory`, with which the checkpoint still runs and can be finished or cancelled; or `Device` or `StoreDown`
    /// where a device call failed. Then [`finish`](World::finish) is called until it is refused as `Idle`, so that no
    /// device call is out, and [`reopen_now`](World::reopen_now) says whether the checkpoint is on the disk.
    pub fn checkpoint(&mut self, rounds: u64) -> Result<u64, Refusal>
        // Its last reply is `acked`, with that number, or the refusal.
        ensures job { IsJob D.Disk (Begin rounds) Dumper self.old (last_reply reply.Acked result) self.new }
        ensures goes_on { GoesOn D.Disk self.old self.new }
        // Whatever a crash leaves then shows checkpoint n after `Ok(n)`, with the memory at its freeze.
        ensures shows { D.is_honest self.new.disk → Within (D.may_leave self.new.disk)
            (ShowsReply (last_reply reply.Acked result) self.new.core.base (history_of self.new.core)) }
        ensures promise { D.is_honest self.new.disk → (first : Point D) → StandsAt self.old first
            → (last : Point D) × StandsAt self.new last
            × GoesByJob D.Disk (Begin rounds ∷ []) Dumper first (last_reply reply.Acked result) last }
        // The memory stays as it was, and where no checkpoint was pending it is what `Ok(n)` saved.
        ensures memory { plain_of self.new.core.memory ≡ plain_of self.old.core.memory }
        ensures saves { IfOk result (λ n. D.is_honest self.new.disk → pending (history_of self.old.core) ≡ None
            → Within (D.may_leave self.new.disk) (λ c. Shows c (Some (n, plain_of self.old.core.memory)))) }
    {
        self.sound();
        acked(self.do_job(Event::Begin(rounds), Worker::Dumper, &mut Unwatched))
    }

    /// Merges the chain of the newest checkpoint into one image, to its end, and closes the images that nobody needs
    /// any more. Returns the serial of the merged image. The store has to be open, as for a
    /// [`checkpoint`](World::checkpoint); what it shows stays.
    ///
    /// # Errors
    ///
    /// The refusal of its beginning, which leaves all as it was: `NotOpen` and `StoreDown` where the store isn't open,
    /// `Busy` where a merge runs, `Idle` where the store shows no checkpoint, `NumbersUsed`, `NoSlot` where no slot is
    /// free, or `OutOfMemory`. Or the refusal of a step: `OutOfMemory`, with which the merge may still run and be
    /// finished; `Damaged` where its source isn't there to be read; or `Device` or `StoreDown` where a device call
    /// failed, and then as after a checkpoint.
    pub fn merge_now(&mut self) -> Result<u64, Refusal>
        // Its last reply is `merged`, with that serial, or the refusal.
        ensures job { IsJob D.Disk Merge Merger self.old (last_reply reply.Merged result) self.new }
        ensures goes_on { GoesOn D.Disk self.old self.new }
        ensures promise { D.is_honest self.new.disk → (first : Point D) → StandsAt self.old first
            → (last : Point D) × StandsAt self.new last
            × GoesByJob D.Disk (Merge ∷ []) Merger first (last_reply reply.Merged result) last }
        // The memory stays as it was.
        ensures memory { plain_of self.new.core.memory ≡ plain_of self.old.core.memory }
    {
        self.sound();
        merged(self.do_job(Event::Merge, Worker::Merger, &mut Unwatched))
    }

    /// Opens the store again, to its end, and returns the number of the checkpoint that it shows, if it shows one. It
    /// is done once after [`open`](World::open), as [`start`](World::start) does, and once after each device call
    /// that failed; then checkpoints and merges are made again.
    ///
    /// # Errors
    ///
    /// The refusal of its beginning, which leaves all as it was: `Busy` where the store is open, an opener runs or a
    /// device call is out, `JournalFull` where no entry is free for it, or `OutOfMemory`. Or the refusal of a step:
    /// `OutOfMemory`, `Damaged` where the store can't be read or isn't the one that this run wrote, or `Device` or
    /// `StoreDown` where a device call failed; then the store isn't open.
    pub fn reopen_now(&mut self) -> Result<Option<u64>, Refusal>
        // Its last reply is `reopened`, with what it found, or the refusal.
        ensures job { IsJob D.Disk Reopen Opener self.old (last_reply reply.Reopened result) self.new }
        ensures goes_on { GoesOn D.Disk self.old self.new }
        // Whatever a crash leaves then shows what it found after `Ok`, with the memory at its freeze, or nothing
        // saved.
        ensures shows { D.is_honest self.new.disk → Within (D.may_leave self.new.disk)
            (ShowsReply (last_reply reply.Reopened result) self.new.core.base (history_of self.new.core)) }
        ensures promise { D.is_honest self.new.disk → (first : Point D) → StandsAt self.old first
            → (last : Point D) × StandsAt self.new last
            × GoesByJob D.Disk (Reopen ∷ []) Opener first (last_reply reply.Reopened result) last }
        // The memory stays as it was.
        ensures memory { plain_of self.new.core.memory ≡ plain_of self.old.core.memory }
    {
        self.sound();
        reopened(self.do_job(Event::Reopen, Worker::Opener, &mut Unwatched))
    }
}
