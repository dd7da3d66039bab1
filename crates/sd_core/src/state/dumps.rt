//! A core's dumper: how it makes the images of a checkpoint, step by step.
ghost use Rattle.std.specs.Prelude.{◌≡◌, true, false, slice_get, Some, None, IsSome};
ghost use Rattle.sd_pagetable.specs.Contents.{plain_of};
ghost use Rattle.sd_command.specs.declared.refusal.Refusal.TheVariants.{StoreDown};
ghost use Rattle.sd_command.specs.declared.reply.Reply.TheVariants as reply;
ghost use Rattle.sd_gate.specs.declared.worker.Worker.TheVariants as its;
ghost use Rattle.sd_rounds.specs.Dumper.{next_slot};
ghost use Rattle.sd_rounds.specs.PassSteps.{NoPageIsNext};
ghost use Rattle.sd_rounds.specs.Waits.{dumper_must_wait};
ghost use Rattle.sd_core.specs.Next.{ComesLate, NextByDumper, NextByDumpersOutcome};
ghost use Rattle.sd_core.specs.Refusals.{is_idle, work_refusal};

use super::Core;
use crate::dumping::{
    begin_next, enter_catalog, has_ended_its_pass, is_committing, leave_catalog, release_unfrozen,
    step_on,
};
use crate::following::{Followed, follow_outcome};
use crate::lanes::{DUMPER, page_lane, put_out};
use crate::laws::journal_laws;
use crate::taken::Taken;
use sd_command::{Refusal, Reply};
use sd_crash_safety::Standing;
use sd_gate::Outcome;
use sd_journal::{Entry, Mark};
use sd_pagetable::plain_law;
use sd_rounds::{ImageStep, Progress};
use sd_writing::NextImage;
use std::alloc::AllocError;

impl Core {
    /// Makes the dumper's next step, or hands out its next device call.
    pub(super) fn take_up_dumper(&mut self) -> Taken
        requires { work_refusal self.old its.Dumper ≡ None }
        ensures { NextByDumper self.old result self.new }
    {
        match self.dumper.next_slot() {
            Some(slot) => self.begin_image(slot),
            None => self.go_on_image(),
        }
    }

    /// Begins the next image of the checkpoint, which gets the next serial, and hands out the first device call on its
    /// slot.
    ///
    /// # Errors
    ///
    /// `OutOfMemory` where a growth was refused.
    pub(super) fn begin_image(&mut self, slot: usize) -> Taken
        requires may { work_refusal self.old its.Dumper ≡ None }
        requires next { next_slot self.old.dumper.running ≡ Some slot }
        ensures { NextByDumper self.old result self.new }
    {
        journal_laws();
        self.dumper.sound();
        let Ok(()) = self.journal.reserve_mark() else {
            return Taken::Step(Reply::Refused(Refusal::OutOfMemory));
        };
        let serial = self.numbers.serial + 1;
        let Ok(()) = self.catalog.hold(serial) else {
            return Taken::Step(Reply::Refused(Refusal::OutOfMemory));
        };
        let image = NextImage {
            serial,
            state: self.phases[slot].state(),
        };
        let request = begin_next(
            &mut self.dumper,
            &mut self.memory,
            image,
            self.numbers.ticket,
        );
        self.dumper.sound();
        self.numbers.give();
        self.numbers.tick();
        self.journal.note(Mark::Start(serial));
        put_out(&mut self.outs, DUMPER, Some(request.id()));
        self.committing = is_committing(self.committing, &self.dumper, request.id().call);
        Taken::Call(request)
    }

    /// Makes the next step of the image in the making, or hands out its next device call.
    ///
    /// # Errors
    ///
    /// `OutOfMemory` where a growth was refused.
    pub(super) fn go_on_image(&mut self) -> Taken
        requires begun { next_slot self.old.dumper.running ≡ None }
        requires runs { IsSome self.old.dumper.running }
        requires rests { slice_get self.old.outs 0 ≡ Some None }
        requires goes { dumper_must_wait self.old.dumper.running (plain_of self.old.memory) ≡ false }
        ensures { NextByDumper self.old result self.new }
    {
        match self.pass_image() {
            Ok(true) => Taken::Step(Reply::Worked),
            Ok(false) => self.call_image(),
            Err(AllocError) => Taken::Step(Reply::Refused(Refusal::OutOfMemory)),
        }
    }

    /// Makes the next step of the image in the making that visits no page and copies no sector: hands out its next
    /// device call, or freezes.
    ///
    /// # Errors
    ///
    /// `OutOfMemory` where a growth was refused.
    pub(super) fn call_image(&mut self) -> Taken
        requires begun { next_slot self.old.dumper.running ≡ None }
        requires runs { IsSome self.old.dumper.running }
        requires rests { slice_get self.old.outs 0 ≡ Some None }
        requires goes { dumper_must_wait self.old.dumper.running (plain_of self.old.memory) ≡ false }
        requires other { NoPageIsNext self.old.dumper.running self.old.memory }
        ensures { NextByDumper self.old result self.new }
    {
        journal_laws();
        self.dumper.sound();
        let Ok(()) = self.journal.reserve_mark() else {
            return Taken::Step(Reply::Refused(Refusal::OutOfMemory));
        };
        let Ok(step) = step_on(&mut self.dumper, &mut self.memory, self.numbers.ticket) else {
            return Taken::Step(Reply::Refused(Refusal::OutOfMemory));
        };
        self.dumper.sound();
        let Some(serial) = self.dumper.serial() else {
            unreachable!();
        };
        match step {
            ImageStep::PageCall { lane, request } => {
                self.numbers.tick();
                put_out(&mut self.outs, page_lane(lane), Some(request.id()));
                Taken::Call(request)
            }
            ImageStep::Call(request) => {
                self.numbers.tick();
                put_out(&mut self.outs, DUMPER, Some(request.id()));
                self.committing = is_committing(self.committing, &self.dumper, request.id().call);
                Taken::Call(request)
            }
            ImageStep::TableCall(request) => {
                self.journal.note(Mark::Table(serial));
                self.swept = has_ended_its_pass(self.swept, &self.dumper);
                self.numbers.tick();
                put_out(&mut self.outs, DUMPER, Some(request.id()));
                self.committing = is_committing(self.committing, &self.dumper, request.id().call);
                Taken::Call(request)
            }
            ImageStep::Frozen => {
                self.journal.append_held(Entry::Freeze(self.numbers.begun));
                self.pending = Some(self.numbers.begun);
                Taken::Step(Reply::Worked)
            }
            ImageStep::Visited(_) | ImageStep::Copied(_) => unreachable!(),
        }
    }

    /// Takes the outcome of a call whose job has ended, since the store went down.
    pub(super) fn hand_in_late(&mut self, lane: usize, outcome: Outcome) -> Reply
        requires out { slice_get self.old.outs lane ≡ Some (Some outcome.request.id) }
        requires idle { is_idle self.old outcome.request.id.worker ≡ true }
        ensures late { result ≡ reply.Refused StoreDown }
        ensures step { ComesLate self.old outcome self.new }
    {
        follow_outcome(&mut self.phases, &mut self.outs, lane, &outcome);
        drop(outcome);
        Reply::Refused(Refusal::StoreDown)
    }

    /// Takes the outcome of the dumper's call.
    pub(super) fn hand_in_dumper(&mut self, lane: usize, outcome: Outcome) -> Reply
        requires out { slice_get self.old.outs lane ≡ Some (Some outcome.request.id) }
        requires dumper { outcome.request.id.worker ≡ its.Dumper }
        requires runs { is_idle self.old its.Dumper ≡ false }
        ensures { NextByDumpersOutcome self.old outcome result self.new }
    {
        journal_laws();
        plain_law();
        self.dumper.sound();
        let Followed { id, closed } = follow_outcome(
            &mut self.phases,
            &mut self.outs,
            lane,
            &outcome,
        );
        match self.dumper.hand_in(outcome) {
            Progress::Strange => unreachable!(),
            Progress::Failed => {
                self.standing = Standing::Down;
                release_unfrozen(&mut self.journal, self.pending);
                self.merger.cancel();
                Reply::Refused(Refusal::StoreDown)
            }
            Progress::More => {
                self.dumper.sound();
                leave_catalog(&mut self.catalog, id.slot, closed);
                Reply::Worked
            }
            Progress::PreDump(image) => {
                enter_catalog(&mut self.catalog, image);
                Reply::Worked
            }
            Progress::Dump(image) => {
                self.memory.sound();
                enter_catalog(&mut self.catalog, image);
                let number = self.numbers.begun;
                self.journal.append_held(Entry::Acked(number));
                self.pending = None;
                self.last = Some(number);
                self.grows = true;
                self.committing = false;
                self.swept = false;
                Reply::Acked(number)
            }
        }
    }
}
