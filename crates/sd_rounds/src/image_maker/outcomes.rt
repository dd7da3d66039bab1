//! Outcomes that are handed to an image in the making.
ghost use Rattle.std.specs.Prelude.{◌≡◌, ◌↔◌, ◌<◌, ◌==◌, Some, IsTrue, slice_get};
ghost use Rattle.sd_rounds.specs.declared.stage.Stage.TheVariants.{Close, Format, Pass as PassStage};
ghost use Rattle.sd_gate.specs.PlanUse.{IsUnderWay};
ghost use Rattle.sd_rounds.specs.Making.{HandsIn, out_of};
ghost use Rattle.sd_rounds.specs.PlanSteps.{at_stage};
ghost use Rattle.sd_writing.specs.Entries.{data_pages};
ghost use Rattle.sd_rounds.specs.Pass.{opened};
ghost use Rattle.sd_rounds.specs.Writes.{no_writes};

use super::{ImageMaker, after_format};
use crate::page_buffers::PageBuffers;
use crate::stage::{Stage, put_stage};
use sd_chain::PlacedTable;
use sd_gate::{Outcome, Plan, RequestId, Settled, lane_of, settle};
use sd_image::Header;
use sd_writing::{NewImage, Written};
use std::mem;

impl ImageMaker {
    /// Whether this is the request of its plan that is out.
    pub(super) fn is_out(&self, id: &RequestId) -> bool
        ensures { IsTrue result ↔ out_of self.now.stage ≡ Some id.now }
    {
        match &self.stage {
            Stage::Format(plan) => plan.is_out(id),
            Stage::Close { plan, .. } => plan.is_out(id),
            Stage::Freeze | Stage::Pass => false,
        }
    }

    /// Takes the outcome of a request that is out. The buffer of a page that was written is spare again.
    pub(crate) fn hand_in(&mut self, outcome: Outcome, buffers: &mut PageBuffers) -> Written
        ensures { HandsIn self.old outcome result self.new }
    {
        let id = outcome.id();
        if let Some(lane) = lane_of(&self.writes, &id) {
            return self.end_page(lane, outcome, buffers);
        }
        if !self.is_out(&id) {
            return Written::Strange;
        }
        match mem::replace(&mut self.stage, Stage::Pass) {
            Stage::Format(plan) => self.end_format(plan, outcome),
            Stage::Close {
                plan,
                header,
                table,
            } => self.end_close(plan, header, table, outcome),
            Stage::Freeze | Stage::Pass => unreachable!(),
        }
    }

    /// Takes the outcome of a call of the format. After the last a dump freezes the memory.
    pub(super) fn end_format(&mut self, mut plan: Plan, outcome: Outcome) -> Written
        requires stage { self.old.stage ≡ PassStage }
        requires fresh { self.old.pass ≡ opened (self.old.order.parent == 0) }
        requires rests { self.old.writes ≡ no_writes }
        requires under_way { IsUnderWay plan }
        requires out { plan.out ≡ Some outcome.request.id }
        ensures { HandsIn (at_stage self.old (Format plan)) outcome result self.new }
    {
        match settle(&mut plan, outcome) {
            Settled::Strange | Settled::Failed => Written::Failed,
            Settled::More => {
                put_stage(&mut self.stage, Stage::Format(plan));
                Written::More
            }
            Settled::Finished => {
                self.stage = after_format(self.order.kind);
                Written::More
            }
        }
    }

    /// Takes the outcome of a page's write.
    pub(super) fn end_page(
        &mut self,
        lane: usize,
        outcome: Outcome,
        buffers: &mut PageBuffers,
    ) -> Written
        requires out { slice_get self.old.writes lane ≡ Some (Some outcome.request.id) }
        requires within { lane < 8 }
        ensures { HandsIn self.old outcome result self.new }
    {
        self.writes[lane] = None;
        let done = outcome.answer().is_done();
        if let Some(buffer) = outcome.into_buffer() {
            buffers.give(buffer);
        }
        if done { Written::More } else { Written::Failed }
    }

    /// Takes the outcome of a call that closes the body. After the last the image is open.
    pub(super) fn end_close(
        &mut self,
        mut plan: Plan,
        header: Header,
        table: PlacedTable,
        outcome: Outcome,
    ) -> Written
        requires stage { self.old.stage ≡ PassStage }
        requires pages { header.pages ≡ data_pages self.old.pass.entries }
        requires rests { self.old.writes ≡ no_writes }
        requires under_way { IsUnderWay plan }
        requires out { plan.out ≡ Some outcome.request.id }
        ensures { HandsIn (at_stage self.old (Close plan header table)) outcome result self.new }
    {
        match settle(&mut plan, outcome) {
            Settled::Strange | Settled::Failed => Written::Failed,
            Settled::More => {
                let stage = Stage::Close {
                    plan,
                    header,
                    table,
                };
                put_stage(&mut self.stage, stage);
                Written::More
            }
            Settled::Finished => Written::Opened(NewImage {
                slot: self.order.slot,
                header,
                table,
            }),
        }
    }
}
