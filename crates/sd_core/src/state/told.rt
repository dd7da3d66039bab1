//! What a core says of its run, and what is so of every core.
ghost use Rattle.std.specs.Prelude.{◌≡◌, ◌≢◌, ◌↔◌, ◌<◌, None, Some, IfSome, IsTrue, MatchOption};
ghost use Rattle.std.specs.Prelude.{is_some, slice_get};
ghost use Rattle.sd_areas.specs.Memory.{memory_of};
ghost use Rattle.sd_journal.specs.History.{pending};
ghost use Rattle.sd_journal.specs.Marked.{IsTracked};
ghost use Rattle.sd_gate.specs.Lanes.{IsInLane};
ghost use Rattle.sd_crash_safety.specs.View.{history_of};
ghost use Rattle.sd_core.specs.Beginning.{is_down};
ghost use Rattle.sd_core.specs.Flags.{AreByJournal};
ghost use Rattle.sd_core.specs.GoingOn.{AreOwnLanes, CanGoOn, HasItsJobs, OpenerAsksAlone};
ghost use Rattle.sd_core.specs.Kept.{HasItsPreDumps};
ghost use Rattle.sd_core.specs.Lasting.{LeavesMerged};
ghost use Rattle.sd_core.specs.Refusals.{IsPageOut};
ghost use Rattle.sd_core.specs.Rounds.{HasFewOpen, LeavesPreDumps};
ghost use Rattle.sd_core.specs.SoundView.{IsSoundView};

use super::Core;
use crate::beginning::is_down;
use crate::lanes::OPENER;
use sd_areas::Snapshot;
use sd_gate::{RequestId, lane_of};
use sd_journal::Journal;
use sd_pagetable::Memory;

impl Core {
    /// The memory of the run.
    pub fn memory(&self) -> &Memory
        ensures same { result.now ≡ self.now.memory }
    {
        &self.memory
    }

    /// The number of the checkpoint that the run goes on from, if it has one.
    pub fn base_number(&self) -> Option<u64>
        ensures { result ≡ self.now.base.number }
    {
        self.base.number
    }

    /// The memory that the run goes on from.
    pub fn base(&self) -> &Snapshot
        ensures { memory_of result.now ≡ self.now.base.memory }
    {
        &self.base.memory
    }

    /// How many entries were ever folded into the base: the number of the first entry that is kept.
    pub fn folded(&self) -> u64
        ensures { result ≡ self.now.base.folded }
    {
        self.base.folded
    }

    /// The journal of the run: the entries that are kept.
    pub fn journal(&self) -> &Journal
        ensures items { result.now.items ≡ self.now.items }
        ensures first { result.now.first ≡ self.now.base.folded }
    {
        &self.journal
    }

    /// The lane in which the request with this id is out, below 11.
    pub fn lane_of(&self, id: &RequestId) -> Option<usize>
        ensures found { MatchOption result (IsInLane self.now.outs id.now → ⊥)
            (λ lane. slice_get self.now.outs lane ≡ Some (Some id.now)) }
        ensures within { IfSome result (λ lane. lane < 11) }
    {
        lane_of(&self.outs, id)
    }

    /// Whether the request with this id is out, and writes a data page of the dumper's.
    pub fn is_page_write(&self, id: &RequestId) -> bool
        ensures { IsTrue result ↔ IsPageOut self.now.outs id.now }
    {
        match lane_of(&self.outs, id) {
            Some(lane) => lane > OPENER,
            None => false,
        }
    }

    /// Whether a checkpoint is pending: commands are refused as frozen.
    pub fn is_frozen(&self) -> bool
        ensures { result ≡ is_some (pending (history_of self.now)) }
    {
        self.pending.is_some()
    }

    /// Whether a device call failed, and the store wasn't opened again since.
    pub fn is_down(&self) -> bool
        ensures { result ≡ is_down self.now.standing }
    {
        is_down(self.standing)
    }

    /// A law: the journal is legal, the memory is the one that it makes, and its bits are those that the commands and
    /// visits give.
    pub fn sound(&self)
        ensures { IsTracked self.now.base self.now.items self.now.memory }
    {
        let _memory = &self.memory;
    }

    /// A law: what is so of every core holds of what is seen of it.
    pub fn is_sound(&self)
        ensures { IsSoundView self.now }
    {
        self.dumper.sound();
        self.memory.sound();
        self.catalog.sound();
        self.merger.sound();
    }

    /// A law: whether the next checkpoint goes on from the tip, whether the opening of a gate was taken up, and the
    /// numbers that were used, by the journal and the catalog.
    pub fn flags(&self)
        ensures { AreByJournal self.now }
    {
        let _memory = &self.memory;
    }

    /// A law: the pre-dumps so far of the checkpoint that runs are in the catalog, each under the number that the next
    /// one names as its parent.
    pub fn pre_dumps(&self)
        ensures { HasItsPreDumps self.now }
    {
        let _dumper = &self.dumper;
    }

    /// A law: where the store is as it is believed to be, a device call that is out on the slot of a pre-dump of the
    /// checkpoint that runs only looks. No more of its images are open than it has pre-dumps, and no opener runs beside
    /// it.
    pub fn pre_dumps_rest(&self)
        ensures looks { LeavesPreDumps self.now }
        ensures few { HasFewOpen self.now.dumper.running }
        ensures alone { self.now.opener ≢ None → self.now.dumper.running ≡ None }
    {
        self.dumper.sound();
    }

    /// A law: while a merge closes images, its own image stands in its slot, and no device call is out on that slot.
    pub fn merged_stands(&self)
        ensures { LeavesMerged self.now }
    {
        let _merger = &self.merger;
    }

    /// A law: a request that is out in a lane is of the worker whose lane that is, while an opener runs it alone has
    /// one out, and a worker that has a job, and of which no request is out, can go on. A checkpoint and a merge run
    /// in an open store alone, and no opener's request is out where none runs.
    pub fn goes_on(&self)
        ensures lanes { AreOwnLanes self.now.outs }
        ensures jobs { HasItsJobs self.now }
        ensures alone { OpenerAsksAlone self.now }
        ensures goes { CanGoOn self.now }
    {
        let _outs = &self.outs;
    }
}
