//! The steps of a dumper's pass, many in one call.
ghost use Rattle.std.specs.Prelude.{◌≡◌, ◌≢◌, ◌+◌, ◌<◌, ◌≤◌, false, true, None, IfSome};
ghost use Rattle.sd_command.specs.declared.reply.Reply.TheVariants as reply;
ghost use Rattle.sd_core.specs.Called.{HasNoPassStep};
ghost use Rattle.sd_core.specs.Working.{left_by};
ghost use Rattle.sd_gate.specs.declared.worker.Worker.TheVariants as its;
ghost use Rattle.sd_world.specs.declared.call_state.CallState.TheVariants as call;
ghost use Rattle.sd_world.specs.declared.event.Event.TheVariants.{Work};
ghost use Rattle.sd_world.specs.Goes.{GoesOn};
ghost use Rattle.sd_world.specs.declared.passed.PassEnd.TheVariants as pass_end;
ghost use Rattle.sd_world.specs.Jobs.{AreMade, HasCall, NoPassIsNext, WorksOnly};
ghost use Rattle.sd_world.specs.Runs.{IsStep};
ghost use Rattle.sd_world.specs.View.{IsNowhere, is_asked};

use super::World;
use crate::call_state::CallState;
use crate::laws::{store_laws, world_laws};
use crate::passed::{PassEnd, Passed};
use sd_disk::Disk;
use sd_gate::Worker;

/// How many steps of a pass a turn of the dumper makes at most, so that who watches a job sees it go on.
const STEPS: u64 = 256;

impl<D: Disk> World<D> {
    /// Makes the dumper's next event where that visits a page or copies a sector, and else returns why it didn't:
    /// nothing changed then.
    #[inline]
    fn pass_one(&mut self) -> Option<PassEnd>
        requires { IsNowhere self.old.kept call.Made its.Dumper 0 }
        ensures step { result ≡ None → IsStep D.Disk (Work its.Dumper) self.old reply.Worked self.new }
        ensures lowers { result ≡ None → left_by self.new.core its.Dumper < left_by self.old.core its.Dumper }
        ensures kept { result ≡ None → self.new.kept ≡ self.old.kept }
        ensures none { IfSome result (λ end. self.new ≡ self.old) }
        ensures ends { IfSome result (λ end. end ≢ pass_end.AllMade
            × (end ≡ pass_end.AnotherIsNext → HasNoPassStep self.new.core)) }
    {
        store_laws();
        self.made_event_laws();
        world_laws(&self.core, &self.disk);
        let Ok(passed) = self.core.pass() else {
            return Some(PassEnd::OutOfMemory);
        };
        if !passed {
            return Some(PassEnd::AnotherIsNext);
        }
        world_laws(&self.core, &self.disk);
        None
    }

    /// Makes the dumper's next events while they visit pages or copy sectors, so many at most, and returns how many it
    /// made, and why no more. They are those that [`World::step`] makes of as many events `Work`, each answered
    /// `Worked`, in less time. It ends where a device call of the dumper is out or its outcome is kept, where its next
    /// step is another one or is refused, or where a growth was refused: [`World::advance`] makes the next event then,
    /// and [`World::finish`] all up to the end of the job.
    pub fn pass_on(&mut self, most: u64) -> Passed
        ensures works { WorksOnly D.Disk result.steps self.old self.new }
        ensures made { AreMade D.Disk its.Dumper self.old self.new }
        ensures most { result.steps ≤ most }
        ensures all { result.end ≡ pass_end.AllMade → result.steps ≡ most }
        ensures another { result.end ≡ pass_end.AnotherIsNext → NoPassIsNext self.new }
        ensures lowers { left_by self.new.core its.Dumper + result.steps ≤ left_by self.old.core its.Dumper }
        ensures goes_on { GoesOn D.Disk self.old self.new }
    {
        self.sound();
        if self.has_call() {
            return Passed {
                steps: 0,
                end: PassEnd::AnotherIsNext,
            };
        }
        for steps in 0..most {
            if let Some(end) = self.pass_one() {
                return Passed { steps, end };
            }
        }
        Passed {
            steps: most,
            end: PassEnd::AllMade,
        }
    }

    /// Whether a device call of the dumper is out that wasn't made yet, or its outcome is kept.
    fn has_call(&self) -> bool
        ensures has { result ≡ true → HasCall self.now.kept its.Dumper }
        ensures unasked { result ≡ false → is_asked self.now.kept its.Dumper ≡ false }
        ensures nowhere { result ≡ false → IsNowhere self.now.kept call.Made its.Dumper 0 }
    {
        self.kept.is_asked(Worker::Dumper)
            || self
                .kept
                .lane_at(CallState::Made, Worker::Dumper, 0)
                .is_some()
    }

    /// Makes the next steps of a pass where the worker is the dumper.
    pub(crate) fn pass_first(&mut self, worker: Worker)
        ensures made { AreMade D.Disk worker self.old self.new }
        ensures less { left_by self.new.core worker ≤ left_by self.old.core worker }
        ensures goes_on { GoesOn D.Disk self.old self.new }
    {
        self.sound();
        if let Worker::Dumper = worker {
            self.pass_on(STEPS);
        }
    }
}
