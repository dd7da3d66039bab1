//! A core's merger: how it begins a merge, and takes it to its end.
ghost use Rattle.std.specs.Prelude.{◌≡◌, false, Some, None, IsSome, slice_get};
ghost use Rattle.sd_gate.specs.declared.worker.Worker.TheVariants as its;
ghost use Rattle.sd_merge.specs.Merger.{slot_before};
ghost use Rattle.sd_core.specs.Merging.{merge_refusal};
ghost use Rattle.sd_core.specs.Next.{NextByMerge, NextByMerger, NextByMergersOutcome};
ghost use Rattle.sd_core.specs.Refusals.{is_idle, work_refusal};

use super::Core;
use crate::beginning::{first_of, has_tip, is_down, is_not_open};
use crate::dumping::{enter_catalog, leave_catalog};
use crate::following::{Followed, follow_outcome};
use crate::lanes::{MERGER, put_out};
use crate::laws::merging_laws;
use crate::merging::{
    StepFault, begin_copy, begin_merge, end_checkpoint, fix_list, may_read, serials_in,
    step_merger, take_room,
};
use crate::taken::Taken;
use sd_command::{Refusal, Reply};
use sd_crash_safety::{Standing, merger_steps};
use sd_free_slots::{ListRoom, free_law};
use sd_gate::{Outcome, Worker};
use sd_merge::{MergeProgress, MergeStep, Source};
use sd_writing::NextImage;

impl Core {
    /// Why a merge can't begin, before its slot is looked for.
    pub(super) fn refusal_of_merge(&self) -> Option<Refusal>
        ensures { result ≡ merge_refusal self.now }
    {
        first_of(&[
            (is_not_open(self.standing), Refusal::NotOpen),
            (is_down(self.standing), Refusal::StoreDown),
            (!self.merger.is_idle(), Refusal::Busy),
            (!has_tip(&self.catalog), Refusal::Idle),
            (self.numbers.are_serials_used_up(), Refusal::NumbersUsed),
        ])
    }

    /// Begins a merge of the tip, in the lowest free slot.
    ///
    /// # Errors
    ///
    /// `NoSlot`, `OutOfMemory`: as `merge`.
    pub(super) fn merge_tip(&mut self) -> Reply
        requires { merge_refusal self.old ≡ None }
        ensures { NextByMerge self.old result self.new }
    {
        free_law();
        self.catalog.sound();
        let Ok(slots) = self.free_slots() else {
            return Reply::Refused(Refusal::OutOfMemory);
        };
        let Some(slot) = slots.first() else {
            return Reply::Refused(Refusal::NoSlot);
        };
        let Ok(before) = serials_in(self.alloc, &self.catalog) else {
            return Reply::Refused(Refusal::OutOfMemory);
        };
        let Ok(room) = ListRoom::for_slots(self.alloc, self.phases.len()) else {
            return Reply::Refused(Refusal::OutOfMemory);
        };
        let Some(tip) = self.catalog.tip() else {
            unreachable!();
        };
        let source = Source::of(tip);
        self.room = room;
        begin_merge(&mut self.merger, source, *slot, before);
        Reply::Worked
    }

    /// Makes the merger's next step, or hands out its next device call.
    pub(super) fn take_up_merger(&mut self) -> Taken
        requires { work_refusal self.old its.Merger ≡ None }
        ensures { NextByMerger self.old result self.new }
    {
        match self.merger.next_slot() {
            Some(slot) => self.begin_merged(slot),
            None => self.go_on_merging(),
        }
    }

    /// Begins the merged image, which gets the next serial, and hands out the first device call on its slot.
    ///
    /// # Errors
    ///
    /// `OutOfMemory` where a growth was refused.
    fn begin_merged(&mut self, slot: usize) -> Taken
        requires may { work_refusal self.old its.Merger ≡ None }
        requires next { slot_before self.old.merger ≡ Some slot }
        ensures { NextByMerger self.old result self.new }
    {
        self.merger.sound();
        let serial = self.numbers.serial + 1;
        let Ok(()) = self.catalog.hold(serial) else {
            return Taken::Step(Reply::Refused(Refusal::OutOfMemory));
        };
        let image = NextImage {
            serial,
            state: self.phases[slot].state(),
        };
        let request = begin_copy(&mut self.merger, &self.catalog, image, self.numbers.ticket);
        self.numbers.give();
        self.numbers.tick();
        put_out(&mut self.outs, MERGER, Some(request.id()));
        Taken::Call(request)
    }

    /// Makes the next step of the merge, or hands out its next device call.
    ///
    /// # Errors
    ///
    /// `OutOfMemory` where a growth was refused. `Damaged` where the source isn't there to be read.
    fn go_on_merging(&mut self) -> Taken
        requires may { work_refusal self.old its.Merger ≡ None }
        requires begun { slot_before self.old.merger ≡ None }
        requires runs { IsSome self.old.merger }
        requires rests { slice_get self.old.outs 1 ≡ Some None }
        ensures { NextByMerger self.old result self.new }
    {
        merger_steps(&self.catalog);
        self.merger.sound();
        self.dumper.sound();
        let step = match step_merger(&mut self.merger, &self.catalog, self.numbers.ticket) {
            Ok(step) => step,
            Err(StepFault::OutOfMemory) => {
                return Taken::Step(Reply::Refused(Refusal::OutOfMemory));
            }
            Err(StepFault::Lost) => return Taken::Step(Reply::Refused(Refusal::Damaged)),
        };
        match step {
            MergeStep::Zero => Taken::Step(Reply::Worked),
            MergeStep::Call(request)
            | MergeStep::PageCall(request)
            | MergeStep::TableCall(request) => {
                self.numbers.tick();
                put_out(&mut self.outs, MERGER, Some(request.id()));
                Taken::Call(request)
            }
            MergeStep::ReadCall(request) => {
                if !may_read(&self.dumper, self.phases.len(), request.id().slot) {
                    self.merger.cancel();
                    return Taken::Step(Reply::Refused(Refusal::Damaged));
                }
                self.numbers.tick();
                put_out(&mut self.outs, MERGER, Some(request.id()));
                Taken::Call(request)
            }
        }
    }

    /// Takes the outcome of the merger's call.
    pub(super) fn hand_in_merger(&mut self, outcome: Outcome) -> Reply
        requires out { slice_get self.old.outs 1 ≡ Some (Some outcome.request.id) }
        requires merger { outcome.request.id.worker ≡ its.Merger }
        requires runs { is_idle self.old its.Merger ≡ false }
        ensures { NextByMergersOutcome self.old outcome result self.new }
    {
        merging_laws(&self.merger, &self.dumper);
        let Followed { id, closed } = follow_outcome(
            &mut self.phases,
            &mut self.outs,
            MERGER,
            &outcome,
        );
        let progress = self.merger.hand_in(outcome);
        match progress {
            MergeProgress::Strange => unreachable!(),
            MergeProgress::Failed => {
                self.standing = Standing::Down;
                end_checkpoint(&mut self.dumper, &mut self.journal, self.pending);
                Reply::Refused(Refusal::StoreDown)
            }
            MergeProgress::More | MergeProgress::Closed(_) => {
                leave_catalog(&mut self.catalog, id.slot, closed);
                Reply::Worked
            }
            MergeProgress::Opened(image) => {
                enter_catalog(&mut self.catalog, image);
                self.catalog.sound();
                let room = take_room(self.alloc, &mut self.room);
                match fix_list(
                    &mut self.merger,
                    room,
                    &self.catalog,
                    &self.dumper,
                    &self.outs,
                ) {
                    None => Reply::Worked,
                    Some(serial) => Reply::Merged(serial),
                }
            }
            MergeProgress::Merged(serial) => {
                leave_catalog(&mut self.catalog, id.slot, closed);
                Reply::Merged(serial)
            }
        }
    }
}
