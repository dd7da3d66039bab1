//! A core's opener: how it goes on, and takes the store to its opening.
ghost use Rattle.std.specs.Prelude.{◌≡◌, Some, None, slice_get};
ghost use Rattle.sd_gate.specs.declared.worker.Worker.TheVariants as its;
ghost use Rattle.sd_core.specs.Opening.{IsAllRead};
ghost use Rattle.sd_core.specs.Refusals.{work_refusal};
ghost use Rattle.sd_core.specs.Next.{NextByOpener, NextByOpenersOutcome, NextOnceRead};

use super::Core;
use crate::following::follow_outcome;
use crate::lanes::{OPENER, put_out};
use crate::opening::{
    let_go, read_by, release_for_opening, step_opener, take_opener, teach, visited_checkpoint,
};
use crate::taken::Taken;
use sd_command::{Refusal, Reply};
use sd_crash_safety::Standing;
use sd_gate::{Outcome, Worker};
use sd_journal::{Entry, tracked_laws};
use sd_opener::{Opened, OpenerStep};
use sd_pagetable::plain_law;

impl Core {
    /// Makes the opener's next step, or hands out its next device call.
    pub(super) fn take_up_opener(&mut self) -> Taken
        requires { work_refusal self.old its.Opener ≡ None }
        ensures { NextByOpener self.old result self.new }
    {
        let Ok(step) = step_opener(&mut self.opener, self.numbers.ticket) else {
            return Taken::Step(Reply::Refused(Refusal::OutOfMemory));
        };
        match step {
            OpenerStep::Call(request) => {
                self.numbers.tick();
                put_out(&mut self.outs, OPENER, Some(request.id()));
                Taken::Call(request)
            }
            OpenerStep::Decoded => Taken::Step(Reply::Worked),
            OpenerStep::Damaged { .. } => {
                let_go(&mut self.opener, &mut self.journal, self.pending);
                Taken::Step(Reply::Refused(Refusal::Damaged))
            }
            OpenerStep::AllRead => Taken::Step(self.finish_opening()),
        }
    }

    /// Ends the opener, which has read every slot: the store is open.
    ///
    /// # Errors
    ///
    /// `Damaged` where the store shows neither the last checkpoint nor the pending one, or shows that one though its
    /// dump's table was never to be written.
    fn finish_opening(&mut self) -> Reply
        requires { IsAllRead self.old.opener }
        ensures { NextOnceRead self.old result self.new }
    {
        tracked_laws();
        plain_law();
        self.memory.sound();
        let Some(opener) = take_opener(&mut self.opener) else {
            unreachable!();
        };
        let Some((opened, found)) = read_by(
            opener,
            self.last,
            visited_checkpoint(self.swept, self.pending),
        ) else {
            release_for_opening(&mut self.journal, self.pending);
            return Reply::Refused(Refusal::Damaged);
        };
        let Opened { catalog, phases } = opened;
        catalog.sound();
        self.numbers.found(&catalog);
        self.journal.append_held(Entry::Reopened(found));
        self.pending = None;
        self.last = found;
        self.standing = Standing::Open;
        self.catalog = catalog;
        self.phases = phases;
        self.grows = false;
        self.committing = false;
        self.swept = false;
        Reply::Reopened(found)
    }

    /// Takes the outcome of the opener's call.
    pub(super) fn hand_in_opener(&mut self, outcome: Outcome) -> Reply
        requires out { slice_get self.old.outs 2 ≡ Some (Some outcome.request.id) }
        requires opener { outcome.request.id.worker ≡ its.Opener }
        ensures { NextByOpenersOutcome self.old outcome result self.new }
    {
        follow_outcome(&mut self.phases, &mut self.outs, OPENER, &outcome);
        if teach(&mut self.opener, outcome) {
            return Reply::Worked;
        }
        let_go(&mut self.opener, &mut self.journal, self.pending);
        Reply::Refused(Refusal::StoreDown)
    }
}
