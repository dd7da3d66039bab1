//! A core's pass over the memory: pages that are visited, and sectors that are copied.
ghost use Rattle.std.specs.Prelude.{◌≡◌, ◌⊎◌, false, true, slice_get, Ok, Some, None, OnErr};
ghost use Rattle.sd_command.specs.declared.reply.Reply.TheVariants as reply;
ghost use Rattle.sd_gate.specs.declared.worker.Worker.TheVariants as its;
ghost use Rattle.sd_rounds.specs.Dumper.{next_slot};
ghost use Rattle.sd_core.specs.declared.taken.Taken.TheVariants.{Step as StepTaken};
ghost use Rattle.sd_core.specs.Called.{HasNoPassStep, IsTakenUp};
ghost use Rattle.sd_core.specs.Next.{CopiesSector, VisitsPage};

use super::Core;
use crate::dumping::pass_on;
use crate::lanes::is_resting;
use crate::laws::journal_laws;
use crate::next_laws::dumper_law;
use sd_crash_safety::core_steps;
use sd_gate::Worker;
use sd_journal::Mark;
use sd_pagetable::clear_law;
use sd_rounds::PassStep;
use std::alloc::AllocError;

impl Core {
    /// Makes the dumper's next step where it visits a page or copies a sector, as [`Core::take_up`] does, which answers
    /// `Worked` then. `false` where the dumper is refused a step, or its next is another one: nothing changed, and
    /// `take_up` refuses or makes it.
    ///
    /// # Errors
    ///
    /// Out of memory where a growth was refused, as `take_up` answers then. Nothing changed.
    #[inline]
    pub fn pass(&mut self) -> Result<bool, AllocError>
        ensures worked { result ≡ Ok true → IsTakenUp its.Dumper self.old (StepTaken reply.Worked) self.new }
        ensures other { result ≡ Ok false → HasNoPassStep self.old × (self.new ≡ self.old) }
        ensures err { OnErr result (self.new ≡ self.old) }
    {
        core_steps();
        dumper_law();
        self.is_sound();
        if !is_resting(&self.outs, Worker::Dumper) || self.dumper.next_slot().is_some() {
            return Ok(false);
        }
        self.pass_image()
    }

    /// Visits the next page of the image in the making, or copies its next sector. `false` where the dumper is refused
    /// a step, or its next is another one: nothing changed.
    ///
    /// # Errors
    ///
    /// Out of memory where a growth was refused. Nothing changed.
    pub(super) fn pass_image(&mut self) -> Result<bool, AllocError>
        requires begun { next_slot self.old.dumper.running ≡ None }
        requires rests { slice_get self.old.outs 0 ≡ Some None }
        ensures steps { result ≡ Ok true → VisitsPage self.old self.new ⊎ CopiesSector self.old self.new }
        ensures other { result ≡ Ok false → HasNoPassStep self.old × (self.new ≡ self.old) }
        ensures err { OnErr result (self.new ≡ self.old) }
    {
        journal_laws();
        clear_law();
        self.dumper.sound();
        let Ok(()) = self.journal.reserve_mark() else {
            return Err(AllocError);
        };
        let Ok(found) = pass_on(&mut self.dumper, &mut self.memory) else {
            return Err(AllocError);
        };
        let Some(step) = found else {
            return Ok(false);
        };
        self.dumper.sound();
        let Some(serial) = self.dumper.serial() else {
            unreachable!();
        };
        match step {
            PassStep::Visited(visit) => {
                self.journal.note(Mark::Visit {
                    serial,
                    space: visit.space,
                    page: visit.page,
                });
                Ok(true)
            }
            PassStep::Copied(_) => Ok(true),
        }
    }
}
