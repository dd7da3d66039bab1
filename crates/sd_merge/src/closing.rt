//! The images of a merge's list are closed, one after the other.
ghost use Rattle.std.specs.Prelude.{◌≡◌, ◌<◌, length};
ghost use Rattle.sd_gate.specs.PlanUse.{plan_left, IsUnderWay};
ghost use Rattle.sd_merge.specs.Merger.{EndsRetiring, HandsClosing, retiring_of};
ghost use Rattle.sd_merge.specs.Left.{retiring_left};

use crate::merge_progress::MergeProgress;
use crate::retired::Retired;
use sd_gate::{Call, Outcome, Plan, Settled, plan_left, settle};

/// The images that a merge closes once its own is open.
#[derive(Drop)]
pub struct Closing {
    /// The serial of the merged image.
    pub(crate) serial: u64,
    /// The images of the list, rising by slot.
    pub(crate) list: Vec<Retired>,
    /// How many of them are after.
    pub(crate) ended: usize,
    /// The calls on the one that is being closed.
    pub(crate) plan: Plan,
}

impl Closing {
    /// How many steps and outcomes are left, at most.
    pub(crate) fn left(&self) -> u128
        requires under_way { IsUnderWay self.now.plan }
        requires some { self.now.ended < length self.now.list.items }
        ensures { result ≡ retiring_left (retiring_of self.now) }
    {
        let later = self.list.len() - self.ended - 1;
        plan_left(&self.plan) + 6 * later as u128
    }

    /// Takes the outcome of the request that is out.
    pub(crate) fn hand_in(&mut self, outcome: Outcome) -> MergeProgress
        requires under_way { IsUnderWay self.old.plan }
        requires some { self.old.ended < length self.old.list.items }
        ensures { HandsClosing (retiring_of self.old) outcome result (retiring_of self.new) }
    {
        let id = outcome.id();
        if !self.plan.is_out(&id) {
            return MergeProgress::Strange;
        }
        match settle(&mut self.plan, outcome) {
            Settled::Strange | Settled::Failed => MergeProgress::Failed,
            Settled::More if id.call == Call::Sync => MergeProgress::Closed(self.list[self.ended]),
            Settled::More => MergeProgress::More,
            Settled::Finished => self.end_one(),
        }
    }

    /// An image is cut to one byte: the next of the list is begun.
    fn end_one(&mut self) -> MergeProgress
        requires some { self.old.ended < length self.old.list.items }
        ensures { EndsRetiring (retiring_of self.old) result (retiring_of self.new) }
    {
        let next = self.ended + 1;
        let Some(image) = self.list.get(next) else {
            return MergeProgress::Merged(self.serial);
        };
        self.plan = Plan::retire(image.slot);
        self.ended = next;
        MergeProgress::More
    }
}
