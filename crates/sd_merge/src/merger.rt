//! The merger: the chain that a tip reaches becomes one image, step by step.
ghost use Rattle.std.specs.Prelude.{◌≡◌, ◌↔◌, Err, None, Some, IsSome, IfOk, IfErr, OnOk, OnErr, is_none};
ghost use Rattle.std.specs.Option.{option_map};
ghost use Rattle.sd_merge.specs.declared.work_error.WorkError.TheVariants.{Busy, Idle, Lost, OutOfMemory};
ghost use Rattle.sd_merge.specs.Left.{left_of};
ghost use Rattle.sd_merge.specs.Merger.{AreRunning, Hands, HasSoundCopy, IsBusy, Loses, MergePasses, TakesList, Works};
ghost use Rattle.sd_merge.specs.Merger.{before_of, begun_merge, ends, list_of, slot_before, slot_of, source_of};

use crate::closing::Closing;
use crate::job::Job;
use crate::merge::Merge;
use crate::merge_progress::MergeProgress;
use crate::merge_step::MergeStep;
use crate::retired::Retired;
use crate::source::Source;
use crate::work_error::WorkError;
use sd_chain::Catalog;
use sd_gate::{Outcome, Plan};
use sd_writing::NextImage;
use std::alloc::Global;
use std::marker::Model;

/// Makes merges, one at a time: an image that repeats a source, and then the images close that nobody needs any more.
#[derive(Drop)]
pub struct Merger {
    alloc: Global,
    merge: Option<Merge>,
}

impl Model for Merger {
    ghost use Rattle.std.specs.Prelude.{Option};
    ghost use Rattle.std.specs.Option.{option_map};
    ghost use Rattle.sd_merge.specs.Merger.{AreRunning, Running, running_of};

    ghost Value = { Option Running };

    ghost view = { λ m. option_map running_of m.merge };

    ghost invariant = { λ m. AreRunning (option_map running_of m.merge) };
}

/// Gives a merger another merge, or none.
fn put_merge(merge: &mut Option<Merge>, next: Option<Merge>)
    ensures { merge.new ≡ next }
{
    *merge = next;
}

/// No merge runs from now on.
fn end(merge: &mut Option<Merge>)
    ensures { merge.new ≡ None }
{
    put_merge(merge, None);
}

/// Whether a merge ends with this.
fn ends(progress: &MergeProgress) -> bool
    ensures { result ≡ ends progress.now }
{
    matches!(progress, MergeProgress::Failed | MergeProgress::Merged(_))
}

impl Merger {
    /// A merger that is idle.
    pub fn new(alloc: Global) -> Self
        ensures { result ≡ None }
    {
        Merger { alloc, merge: None }
    }

    /// Whether no merge runs.
    pub fn is_idle(&self) -> bool
        ensures { result ≡ is_none self.now }
    {
        self.merge.is_none()
    }

    /// Begins a merge of this source into a slot. The serials are those of the images that are in the catalog now.
    ///
    /// # Errors
    ///
    /// Busy where a merge runs. Nothing changed.
    pub fn begin(&mut self, source: Source, slot: usize, before: Vec<u64>) -> Result<(), WorkError>
        ensures begun { OnOk result (self.new ≡ Some (begun_merge source slot before.items)) }
        ensures busy { result ≡ Err Busy ↔ IsSome self.old }
        ensures errors { IfErr result (λ e. e ≡ Busy) }
        ensures err { OnErr result (self.new ≡ self.old) }
    {
        if self.merge.is_some() {
            return Err(WorkError::Busy);
        }
        let merge = Merge {
            source,
            slot,
            before,
            job: Job::Due,
        };
        put_merge(&mut self.merge, Some(merge));
        Ok(())
    }

    /// What the running merge repeats, until its image is open.
    pub fn source(&self) -> Option<Source>
        ensures { result ≡ source_of self.now }
    {
        let merge = self.merge.as_ref()?;
        match &merge.job {
            Job::Due | Job::Copying(_) => Some(merge.source),
            Job::Opened(_) | Job::Closing(_) => None,
        }
    }

    /// The slot of the merged image, while a merge runs.
    pub fn slot(&self) -> Option<usize>
        ensures { result ≡ option_map slot_of self.now }
    {
        let merge = self.merge.as_ref()?;
        Some(merge.slot)
    }

    /// The serials of the images that were in the catalog as the running merge began. None where no merge runs.
    pub fn before(&self) -> &[u64]
        ensures { result.now ≡ before_of self.now }
    {
        match &self.merge {
            Some(merge) => &merge.before,
            None => &[],
        }
    }

    /// The images that the running merge closes, rising by slot, also those that are closed by now.
    pub fn list(&self) -> &[Retired]
        ensures { result.now ≡ list_of self.now }
    {
        let Some(merge) = &self.merge else {
            return &[];
        };
        match &merge.job {
            Job::Closing(closing) => &closing.list,
            Job::Due | Job::Copying(_) | Job::Opened(_) => &[],
        }
    }

    /// The slot of the merged image, where the next step begins it.
    pub fn next_slot(&self) -> Option<usize>
        ensures { result ≡ slot_before self.now }
    {
        let merge = self.merge.as_ref()?;
        match &merge.job {
            Job::Due => Some(merge.slot),
            Job::Copying(_) | Job::Opened(_) | Job::Closing(_) => None,
        }
    }

    /// Makes the next step of the merge. The image that it begins gets this serial, and its slot is in this state.
    ///
    /// # Errors
    ///
    /// Idle where no merge runs. Busy where a request is out, or the list of the images to close is awaited. Lost where
    /// the catalog doesn't have the source's next page. Out of memory where a page, its entry or the table finds no
    /// room. Nothing changed.
    pub fn work(
        &mut self,
        catalog: &Catalog,
        image: NextImage,
        ticket: u64,
    ) -> Result<MergeStep, WorkError>
        ensures works { IfOk result (λ step. Works image.serial image.state ticket catalog.now
            self.old step self.new) }
        ensures idle { result ≡ Err Idle ↔ self.old ≡ None }
        ensures busy { result ≡ Err Busy ↔ IsBusy self.old }
        ensures wanted { result ≡ Err OutOfMemory → MergePasses self.old }
        ensures lost { result ≡ Err Lost → Loses catalog.now self.old }
        ensures err { OnErr result (self.new ≡ self.old) }
    {
        let Some(merge) = &mut self.merge else {
            return Err(WorkError::Idle);
        };
        merge.work(self.alloc, catalog, image, ticket)
    }

    /// Takes the outcome of the request that is out. After one that failed no merge runs.
    pub fn hand_in(&mut self, outcome: Outcome) -> MergeProgress
        ensures { Hands self.old outcome result self.new }
    {
        let Some(merge) = &mut self.merge else {
            return MergeProgress::Strange;
        };
        let progress = merge.hand_in(outcome);
        if ends(&progress) {
            end(&mut self.merge);
        }
        progress
    }

    /// Takes the list of the images to close, rising by slot, once the merged image is open. Where the list is empty
    /// the merge has ended.
    pub fn retire(&mut self, list: Vec<Retired>) -> MergeProgress
        ensures { TakesList self.old list.items result self.new }
    {
        let Some(merge) = &mut self.merge else {
            return MergeProgress::Strange;
        };
        let Job::Opened(serial) = merge.job else {
            return MergeProgress::Strange;
        };
        let Some(first) = list.first() else {
            end(&mut self.merge);
            return MergeProgress::Merged(serial);
        };
        let plan = Plan::retire(first.slot);
        merge.job = Job::Closing(Closing {
            serial,
            list,
            ended: 0,
            plan,
        });
        MergeProgress::More
    }

    /// What holds of every merger: how its merge and the image that is made go together. It does nothing: a caller
    /// learns it.
    pub fn sound(&self)
        ensures running { AreRunning self.now }
        ensures copy { HasSoundCopy self.now }
    {
        if let Some(merge) = &self.merge {
            merge.sound();
        }
    }

    /// Gives the merge up, if one runs.
    pub fn cancel(&mut self)
        ensures { self.new ≡ None }
    {
        end(&mut self.merge);
    }

    /// How many steps and outcomes the merge has before it, at most: 0 exactly while none runs. Each step lowers it,
    /// and so does each outcome of the request that is out.
    pub fn left(&self) -> u128
        ensures left { result ≡ left_of self.now }
        ensures idle { result ≡ 0 ↔ self.now ≡ None }
    {
        match &self.merge {
            Some(merge) => merge.left(),
            None => 0,
        }
    }
}
