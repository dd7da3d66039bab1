//! A checkpoint whose writes of data pages are relayed to writers.
ghost use Rattle.std.specs.Prelude.{◌≡◌, ◌⊎◌, true, is_some};
ghost use Rattle.sd_gate.specs.declared.worker.Worker.TheVariants as its;
ghost use Rattle.sd_relay.specs.Fronts.{StaysOnChannel};
ghost use Rattle.sd_shared.specs.Told.{ends_job};
ghost use Rattle.sd_shared.specs.Turns.{IsAnsweredCall, IsAnsweredBy, MakesJob, WorkerIsAnswered, last_of, taken_of};

use crate::crew::Crew;
use crate::driving::ends_job;
use crate::hold::Hold;
use crate::next::Next;
use crate::ordering::OneOrder;
use crate::owed_call::OwedCall;
use sd_command::{Refusal, Reply};
use sd_disk::Disk;
use sd_relay::{Feeder, Front};
use std::sync::Wait;

/// The last reply of a checkpoint, of which an outcome may have been refused that a writer handed in.
pub(crate) fn last_of(last: Reply, refused: Option<Refusal>) -> Reply
    ensures over { ends_job last ≡ true → ends_job result ≡ true }
    ensures last { result ≡ last_of last refused }
{
    match (last, refused) {
        (Reply::Refused(_), Some(why)) => Reply::Refused(why),
        (last, _) => last,
    }
}

/// A checkpoint that one thread takes up. It puts the writes of data pages for the writers, and makes every other
/// device call itself, and each write that is handed back.
pub(crate) struct RelayedDump<'a, R, D: Drop, H> {
    crew: &'a Crew<'a, R, D, H>,
    rounds: u64,
    /// The right to order it, which it has until then.
    one: Option<OneOrder>,
    /// Its number among the jobs of the dumper.
    number: u64,
    /// How many device calls were taken up.
    calls: u64,
    /// How many of them were put for the writers.
    put: u64,
    last: Reply,
}

impl<'a, R: Wait, D: Disk + Drop, H: Hold> RelayedDump<'a, R, D, H> {
    /// A checkpoint of so many rounds, of which nothing was done yet.
    pub(crate) fn new(crew: &'a Crew<'a, R, D, H>, one: OneOrder, rounds: u64) -> Self
        ensures rounds { result.rounds ≡ rounds }
        ensures one { is_some result.one ≡ true }
    {
        RelayedDump {
            crew,
            rounds,
            one: Some(one),
            number: 0,
            calls: 0,
            put: 0,
            last: Reply::Worked,
        }
    }

    /// The last reply. A right that wasn't used ends.
    pub(crate) fn into_last(self) -> Reply
        ensures { result ≡ self.entry.last }
    {
        let RelayedDump {
            crew: _,
            rounds: _,
            one,
            number: _,
            calls: _,
            put: _,
            last,
        } = self;
        match one {
            Some(one) => one.end(),
            None => {}
        }
        last
    }

    /// Puts the write of a data page for the writers. One that is handed back is made here.
    fn put(&mut self, front: &mut Front, owed: OwedCall) -> Reply
        ensures stays { StaysOnChannel front.old front.new }
        ensures same { self.new.number ≡ self.old.number }
        ensures called { ends_job result ≡ true → IsAnsweredCall D.contents owed.request.id result }
    {
        self.calls = self.calls.saturating_add(1);
        match owed.put(self.crew.rt(), front, self.calls) {
            None => {
                self.put = self.put.saturating_add(1);
                Reply::Worked
            }
            Some(back) => self.crew.call(self.calls, back),
        }
    }

    /// What a step said. Where outcomes of the writers are awaited, of which so many had been made, it waits for one.
    fn awaited(&self, reply: Reply, made: u64) -> Reply
        ensures { ends_job result ≡ true → result ≡ reply }
    {
        if made < self.put && matches!(reply, Reply::Refused(Refusal::Busy)) {
            self.crew.await_more(made);
            return Reply::Worked;
        }
        reply
    }

    /// How the checkpoint is answered at its next step, or at its next device call, which is made, or put for the
    /// writers.
    fn told(&mut self, front: &mut Front, next: Next, made: u64) -> Reply
        ensures stays { StaysOnChannel front.old front.new }
        ensures same { self.new.number ≡ self.old.number }
        ensures told { ends_job result ≡ true → IsAnsweredBy D.contents (taken_of next) result }
    {
        match next {
            Next::Step(reply) => self.awaited(reply, made),
            Next::PageWrite(owed) => self.put(front, owed),
            Next::Call(owed) => {
                self.calls = self.calls.saturating_add(1);
                self.crew.call(self.calls, owed)
            }
        }
    }

    /// Makes the next step, or the next device call, or puts it for the writers.
    fn go_on(&mut self, front: &mut Front)
        ensures stays { StaysOnChannel front.old front.new }
        ensures same { self.new.number ≡ self.old.number }
        ensures told { ends_job self.new.last ≡ true
            → WorkerIsAnswered D.contents its.Dumper self.old.number self.new.last }
    {
        let made = self.crew.made();
        let next = self.crew.take_up(self.number);
        self.last = self.told(front, next, made);
    }

    /// Orders the checkpoint, and goes on to its end.
    fn order(&mut self, front: &mut Front, one: OneOrder)
        ensures stays { StaysOnChannel front.old front.new }
        ensures over { ends_job self.new.last ≡ true }
        ensures job { MakesJob D.contents its.Dumper self.old.rounds self.new.last }
    {
        let (first, number) = self.crew.begin(one, self.rounds);
        self.last = first;
        self.number = number;
        self.go_on_to_the_end(front);
    }

    /// Goes on to the end of the checkpoint, or until it is refused.
    fn go_on_to_the_end(&mut self, front: &mut Front)
        ensures stays { StaysOnChannel front.old front.new }
        ensures over { ends_job self.new.last ≡ true }
        ensures told { (self.new.last ≡ self.old.last)
            ⊎ WorkerIsAnswered D.contents its.Dumper self.old.number self.new.last }
    {
        for _ in self.crew.rt().forever() {
            if ends_job(&self.last) {
                return;
            }
            self.go_on(front);
        }
        unreachable!()
    }
}

impl<R: Wait, D: Disk + Drop, H: Hold> Feeder for RelayedDump<'_, R, D, H> {
    ghost fed = { λ before dump. is_some before.one ≡ true
        → (ends_job dump.last ≡ true) × MakesJob D.contents its.Dumper before.rounds dump.last };

    fn feed(&mut self, front: &mut Front) {
        match self.one.take() {
            Some(one) => self.order(front, one),
            None => {}
        }
    }
}
