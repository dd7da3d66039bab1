//! Outcomes that are handed to a merged image in the making.
ghost use Rattle.std.specs.Prelude.{◌≡◌, ◌↔◌, [], None, Some, IsTrue};
ghost use Rattle.sd_gate.specs.PlanUse.{IsUnderWay};
ghost use Rattle.sd_writing.specs.Entries.{data_pages};
ghost use Rattle.sd_merge.specs.declared.stage.Stage.TheVariants.{Close, Format, PageWrite, Pass as PassStage};
ghost use Rattle.sd_merge.specs.Copying.{HandsIn, out_of};
ghost use Rattle.sd_merge.specs.PlanSteps.{at_stage};

use super::{Copier, read_of};
use crate::stage::{Stage, put_stage};
use sd_chain::PlacedTable;
use sd_gate::{Outcome, Plan, RequestId, Settled, settle};
use sd_image::Header;
use sd_writing::{NewImage, Written};
use std::mem;

impl Copier {
    /// Whether this is the request that is out.
    pub(super) fn is_out(&self, id: &RequestId) -> bool
        ensures { IsTrue result ↔ out_of self.now.stage ≡ Some id.now }
    {
        match &self.stage {
            Stage::Format(plan) => plan.is_out(id),
            Stage::PageRead(plan) => plan.is_out(id),
            Stage::PageWrite(plan) => plan.is_out(id),
            Stage::Close { plan, .. } => plan.is_out(id),
            Stage::Pass => false,
        }
    }

    /// Takes the outcome of the request that is out.
    pub(crate) fn hand_in(&mut self, outcome: Outcome) -> Written
        ensures { HandsIn self.old outcome result self.new }
    {
        if !self.is_out(&outcome.id()) {
            return Written::Strange;
        }
        match mem::replace(&mut self.stage, Stage::Pass) {
            Stage::Format(plan) => self.end_format(plan, outcome),
            Stage::PageRead(plan) => match read_of(plan, outcome) {
                Some(buffer) => {
                    self.read = Some(buffer);
                    Written::More
                }
                None => {
                    self.taking = None;
                    Written::Failed
                }
            },
            Stage::PageWrite(plan) => self.end_page(plan, outcome),
            Stage::Close {
                plan,
                header,
                table,
            } => self.end_close(plan, header, table, outcome),
            Stage::Pass => unreachable!(),
        }
    }

    /// Takes the outcome of a call of the format.
    pub(super) fn end_format(&mut self, mut plan: Plan, outcome: Outcome) -> Written
        requires stage { self.old.stage ≡ PassStage }
        requires fresh { self.old.entries ≡ [] }
        requires free { self.old.taking ≡ None }
        requires under_way { IsUnderWay plan }
        requires own { plan.slot ≡ self.old.order.slot }
        requires out { plan.out ≡ Some outcome.request.id }
        ensures { HandsIn (at_stage self.old (Format plan)) outcome result self.new }
    {
        match settle(&mut plan, outcome) {
            Settled::Strange | Settled::Failed => Written::Failed,
            Settled::More => {
                put_stage(&mut self.stage, Stage::Format(plan));
                Written::More
            }
            Settled::Finished => Written::More,
        }
    }

    /// Takes the outcome of a page's write, and keeps its buffer for the next.
    pub(super) fn end_page(&mut self, mut plan: Plan, outcome: Outcome) -> Written
        requires stage { self.old.stage ≡ PassStage }
        requires free { self.old.taking ≡ None }
        requires under_way { IsUnderWay plan }
        requires own { plan.slot ≡ self.old.order.slot }
        requires out { plan.out ≡ Some outcome.request.id }
        ensures { HandsIn (at_stage self.old (PageWrite plan)) outcome result self.new }
    {
        match settle(&mut plan, outcome) {
            Settled::Strange | Settled::Failed => Written::Failed,
            Settled::More => {
                put_stage(&mut self.stage, Stage::PageWrite(plan));
                Written::More
            }
            Settled::Finished => {
                let sd_gate::Found { first, .. } = plan.into_found();
                if let Some(buffer) = first {
                    self.spare = buffer;
                }
                Written::More
            }
        }
    }

    /// Takes the outcome of a call that closes the body. After the last the image is open.
    pub(super) fn end_close(
        &mut self,
        mut plan: Plan,
        header: Header,
        table: PlacedTable,
        outcome: Outcome,
    ) -> Written
        requires stage { self.old.stage ≡ PassStage }
        requires free { self.old.taking ≡ None }
        requires pages { header.pages ≡ data_pages self.old.entries }
        requires under_way { IsUnderWay plan }
        requires own { plan.slot ≡ self.old.order.slot }
        requires out { plan.out ≡ Some outcome.request.id }
        ensures { HandsIn (at_stage self.old (Close plan header table)) outcome result self.new }
    {
        match settle(&mut plan, outcome) {
            Settled::Strange | Settled::Failed => Written::Failed,
            Settled::More => {
                let stage = Stage::Close {
                    plan,
                    header,
                    table,
                };
                put_stage(&mut self.stage, stage);
                Written::More
            }
            Settled::Finished => Written::Opened(NewImage {
                slot: self.order.slot,
                header,
                table,
            }),
        }
    }
}
