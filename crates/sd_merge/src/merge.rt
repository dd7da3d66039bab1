//! A merge that runs: the merged image, and then the images that it makes needless.
ghost use Rattle.std.specs.Prelude.{◌≡◌, ◌≢◌, ◌↔◌, Err, IsOk, IfOk, IfErr, OnErr};
ghost use Rattle.sd_merge.specs.declared.work_error.WorkError.TheVariants.{Busy, Idle, Lost, OutOfMemory};
ghost use Rattle.sd_merge.specs.Copying.{Steps, begun_copy};
ghost use Rattle.sd_merge.specs.Left.{running_left};
ghost use Rattle.sd_merge.specs.Merger.{HandsTo, HasSoundCopyIn, IsBusyWith, IsInPass, IsRunning, LosesPage, WorksOn};
ghost use Rattle.sd_merge.specs.Merger.{order_of, running_of};

use crate::closing::Closing;
use crate::copier::Copier;
use crate::copy_order::CopyOrder;
use crate::job::{Job, put_job};
use crate::merge_progress::MergeProgress;
use crate::merge_step::MergeStep;
use crate::plans::next_call;
use crate::source::{PAGE_LIMIT, Source};
use crate::work_error::WorkError;
use sd_chain::Catalog;
use sd_gate::Outcome;
use sd_writing::{NextImage, Written};
use std::alloc::Global;

/// A merge that runs.
#[derive(Drop)]
pub struct Merge {
    pub(crate) source: Source,
    /// The slot that the merged image is written to.
    pub(crate) slot: usize,
    /// The serials of the images that were in the catalog when it began.
    pub(crate) before: Vec<u64>,
    pub(crate) job: Job,
}

/// An image that begins, with its first step. It asks for the first call of the format.
fn first_step(
    alloc: Global,
    order: CopyOrder,
    catalog: &Catalog,
    ticket: u64,
) -> (Copier, Result<MergeStep, WorkError>)
    ensures steps { IfOk result.1 (λ step. Steps ticket catalog.now (begun_copy order) step result.0) }
    ensures made { IsOk result.1 }
{
    let mut copier = Copier::new(alloc, order);
    let step = copier.work(catalog, ticket);
    (copier, step)
}

impl Merge {
    /// What is fixed of the merged image.
    pub(crate) fn order(&self, image: NextImage) -> CopyOrder
        ensures { result ≡ order_of (running_of self.now) image.serial image.state }
    {
        CopyOrder {
            source: self.source,
            slot: self.slot,
            state: image.state,
            serial: image.serial,
        }
    }

    /// Makes the next step.
    pub(crate) fn work(
        &mut self,
        alloc: Global,
        catalog: &Catalog,
        image: NextImage,
        ticket: u64,
    ) -> Result<MergeStep, WorkError>
        requires { IsRunning (running_of self.old) }
        ensures works { IfOk result (λ step. WorksOn image.serial image.state ticket catalog.now
            (running_of self.old) step (running_of self.new)) }
        ensures sound { IsRunning (running_of self.new) }
        ensures busy { result ≡ Err Busy ↔ IsBusyWith (running_of self.old).doing }
        ensures wanted { result ≡ Err OutOfMemory → IsInPass (running_of self.old).doing }
        ensures lost { result ≡ Err Lost → LosesPage catalog.now (running_of self.old).doing }
        ensures errors { IfErr result (λ e. e ≢ Idle) }
        ensures err { OnErr result (running_of self.new ≡ running_of self.old) }
    {
        let order = self.order(image);
        match &mut self.job {
            Job::Due => {
                let (copier, step) = first_step(alloc, order, catalog, ticket);
                put_job(&mut self.job, Job::Copying(copier));
                step
            }
            Job::Copying(copier) => copier.work(catalog, ticket),
            Job::Opened(_) => Err(WorkError::Busy),
            Job::Closing(closing) => next_call(&mut closing.plan, ticket),
        }
    }

    /// Takes the outcome of the request that is out.
    pub(crate) fn hand_in(&mut self, outcome: Outcome) -> MergeProgress
        requires { IsRunning (running_of self.old) }
        ensures { HandsTo (running_of self.old) outcome result (running_of self.new) }
    {
        match &mut self.job {
            Job::Due | Job::Opened(_) => MergeProgress::Strange,
            Job::Copying(copier) => match copier.hand_in(outcome) {
                Written::Strange => MergeProgress::Strange,
                Written::Failed => MergeProgress::Failed,
                Written::More => MergeProgress::More,
                Written::Opened(image) => {
                    put_job(&mut self.job, Job::Opened(image.header.serial));
                    MergeProgress::Opened(image)
                }
            },
            Job::Closing(closing) => closing.hand_in(outcome),
        }
    }

    /// What holds of the image that is made. It does nothing: a caller learns it.
    pub(crate) fn sound(&self)
        ensures { HasSoundCopyIn (running_of self.now).doing }
    {
        if let Job::Copying(copier) = &self.job {
            copier.sound();
        }
    }

    /// How many steps and outcomes the merge has before it, at most.
    pub(crate) fn left(&self) -> u128
        requires { IsRunning (running_of self.now) }
        ensures { result ≡ running_left (running_of self.now) }
    {
        let list = 6 * self.before.len() as u128 + 1;
        match &self.job {
            Job::Due => 16 + 4 * u128::from(self.source.pages.min(PAGE_LIMIT)) + list,
            Job::Copying(copier) => copier.left() + list,
            Job::Opened(_) => list,
            Job::Closing(closing) => closing.left(),
        }
    }
}
