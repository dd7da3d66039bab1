//! One image in the making: its slot is formatted, the pages of a memory are passed, and its gate is opened.
ghost use Rattle.std.specs.Prelude.{◌≡◌, ◌≢◌, ℕ, ◌<◌, ◌≤◌, ◌^◌, None, Some, IsErr, false, IfOk, OnErr};
ghost use Rattle.std.specs.Prelude.{MatchOption, length, slice_get};
ghost use Rattle.sd_gate.specs.Plans.{Planned};
ghost use Rattle.sd_gate.specs.Sequences.{data_place};
ghost use Rattle.sd_gate.specs.declared.call.Call.TheVariants.{Write};
ghost use Rattle.sd_gate.specs.declared.worker.Worker.TheVariants.{Dumper};
ghost use Rattle.sd_rounds.specs.declared.stage.Stage.TheVariants.{Format, Pass as PassStage};
ghost use Rattle.sd_pagetable.specs.Contents.{Contents, plain_of};
ghost use Rattle.sd_gate.specs.PlanUse.{IsAskedBy};
ghost use Rattle.sd_rounds.specs.Left.{image_left};
ghost use Rattle.sd_rounds.specs.Making.{Steps, WritesPage, begun_image, is_frozen_dump};
ghost use Rattle.sd_rounds.specs.Making.{out_of, stage_when_done};
ghost use Rattle.sd_rounds.specs.PlanSteps.{HasNoPage, IsPageCallOf, image_step, is_freeze_next};
ghost use Rattle.sd_writing.specs.Entries.{data_pages};
ghost use Rattle.sd_rounds.specs.Room.{ImageTakesMemory};
ghost use Rattle.sd_rounds.specs.Rounds.{IsCopied};
ghost use Rattle.sd_rounds.specs.Sound.{IsSoundImage};
ghost use Rattle.sd_rounds.specs.Waits.{maker_must_wait};

use crate::image_order::ImageOrder;
use crate::image_step::ImageStep;
use crate::lanes::{LANES, free_lane, writes_out};
use crate::left::{CLOSE, FREEZE};
use crate::page_buffers::PageBuffers;
use crate::pass_step::PassStep;
use crate::round::Round;
use crate::stage::{Stage, put_stage};
use crate::standing::Standing;
use sd_gate::{Plan, Request, RequestId, Worker, ask, is_any_out, plan_left};
use sd_image::{Digester, Kind};
use sd_pagetable::{Memory, plain_law};
use sd_writing::digest_page;
use std::alloc::{AllocError, Global};
use std::marker::Model;

mod closing;
mod outcomes;

/// An image that is written while its memory changes.
#[derive(Drop)]
pub struct ImageMaker {
    alloc: Global,
    order: ImageOrder,
    round: Round,
    stored: usize,
    stage: Stage,
    /// The writes of its data pages that are out.
    writes: [Option<RequestId>; LANES],
    /// Was fed the data pages that were taken.
    digester: Digester,
}

impl Model for ImageMaker {
    ghost use Rattle.sd_rounds.specs.Making.{IsMaking, Making};

    ghost Value = { Making };

    ghost view = { λ m. record
        { order = m.order; pass = m.round; stage = m.stage; writes = m.writes; digester = m.digester } };

    ghost invariant = { λ m. IsMaking m.order m.round m.stored m.stage m.writes };
}

/// The request that writes a data page.
fn page_request(slot: usize, place: usize, page: Vec<u8>, ticket: u64) -> Request
    requires few { place < 2 ^ 39 }
    requires whole { length page.items ≡ 4096 }
    ensures slot { result.id.slot ≡ slot }
    ensures call { result.id.call ≡ Write (data_place place) }
    ensures bytes { result.bytes ≡ page.items }
    ensures asked { IsAskedBy Dumper ticket result }
{
    let mut plan = Plan::write_page(slot, place, page);
    ask(&mut plan, Worker::Dumper, ticket)
}

/// The stage after the format of a slot: a dump freezes the memory.
fn after_format(kind: Kind) -> Stage
    ensures { (plan : Planned) → result ≡ stage_when_done kind (Format plan) }
{
    match kind {
        Kind::Dump => Stage::Freeze,
        Kind::PreDump | Kind::Merged => Stage::Pass,
    }
}

impl ImageMaker {
    /// An image that begins, with room for the page that it copies.
    pub(crate) fn new(alloc: Global, order: ImageOrder, buffer: Vec<u8>) -> Self
        ensures { result ≡ begun_image order }
    {
        let mut round = Round::new(alloc, order.parent == 0);
        round.give_back(buffer);
        ImageMaker {
            alloc,
            order,
            round,
            stored: 0,
            stage: Stage::Format(Plan::format(order.slot, order.state)),
            writes: [None; LANES],
            digester: Digester::new(),
        }
    }

    /// The room for the page that it copied.
    pub(crate) fn into_buffer(self) -> Vec<u8> {
        let ImageMaker { round, .. } = self;
        round.into_buffer()
    }

    /// Visits the next page or copies the next sector, where that is the next step. None where another is, and nothing
    /// changed. What it came to is small: only the other steps need room for a request.
    ///
    /// # Errors
    ///
    /// Out of memory where an entry or a sector finds no room. Nothing changed.
    #[inline(always)]
    pub(crate) fn pass_step(&mut self, memory: &mut Memory) -> Result<Option<PassStep>, AllocError>
        ensures steps { IfOk result (λ found. MatchOption found
            (HasNoPage self.old memory.old × (self.new ≡ self.old) × (memory.new ≡ memory.old))
            (λ step. (ticket : ℕ) → Steps ticket self.old memory.old (image_step step) self.new memory.new)) }
        ensures wanted { IsErr result → ImageTakesMemory self.old memory.old }
        ensures err { OnErr result (self.new ≡ self.old) }
        ensures err_memory { OnErr result (memory.new ≡ memory.old) }
    {
        let Stage::Pass = &self.stage else {
            return Ok(None);
        };
        match self.round.standing() {
            Standing::Free => {
                let Some(visit) = self.round.visit(memory)? else {
                    return Ok(None);
                };
                Ok(Some(PassStep::Visited(visit)))
            }
            Standing::Copying => {
                let copied = self.round.copy_sector(memory)?;
                Ok(Some(PassStep::Copied(copied)))
            }
            Standing::Copied => Ok(None),
        }
    }

    /// Makes the next step, which visits no page and copies no sector.
    ///
    /// # Errors
    ///
    /// Out of memory where a page's entry or the table finds no room, which is in the pass alone. Nothing changed.
    #[inline(never)]
    pub(crate) fn work(
        &mut self,
        memory: &Memory,
        ticket: u64,
        buffers: &mut PageBuffers,
    ) -> Result<ImageStep, AllocError>
        requires none { HasNoPage self.old memory.now }
        requires rests { maker_must_wait self.old (plain_of memory.now) ≡ false }
        ensures steps { IfOk result (λ step. Steps ticket self.old memory.now step self.new memory.now) }
        ensures wanted { IsErr result → ImageTakesMemory self.old memory.now }
        ensures err { OnErr result (self.new ≡ self.old) }
    {
        plain_law();
        let Stage::Pass = &self.stage else {
            return Ok(self.go_on(ticket));
        };
        match self.round.standing() {
            Standing::Free => self.close(memory, ticket),
            Standing::Copying => unreachable!(),
            Standing::Copied => match free_lane(&self.writes) {
                Some(lane) => self.write_page(lane, ticket, buffers),
                None => unreachable!(),
            },
        }
    }

    /// Whether an outcome is awaited before the next step.
    pub(crate) fn must_wait(&self, memory: &Memory) -> bool
        ensures { result ≡ maker_must_wait self.now (plain_of memory.now) }
    {
        match &self.stage {
            Stage::Format(plan) | Stage::Close { plan, .. } => plan.is_waiting(),
            Stage::Freeze => false,
            Stage::Pass => {
                free_lane(&self.writes).is_none()
                    || is_any_out(&self.writes) && self.round.is_over(memory)
            }
        }
    }

    /// Makes the next step outside the pass: the freeze, or a request for the next call of a plan.
    #[inline(never)]
    pub(crate) fn go_on(&mut self, ticket: u64) -> ImageStep
        requires outside { self.old.stage ≢ PassStage }
        requires rests { out_of self.old.stage ≡ None }
        ensures steps { (memory : Contents) → Steps ticket self.old memory result self.new memory }
    {
        match &mut self.stage {
            Stage::Freeze => {
                put_stage(&mut self.stage, Stage::Pass);
                ImageStep::Frozen
            }
            Stage::Pass => unreachable!(),
            Stage::Format(plan) => ImageStep::Call(ask(plan, Worker::Dumper, ticket)),
            Stage::Close { plan, .. } => ImageStep::Call(ask(plan, Worker::Dumper, ticket)),
        }
    }

    /// Whether the next step freezes the memory.
    #[inline(always)]
    pub(crate) fn is_to_freeze(&self) -> bool
        ensures { result ≡ is_freeze_next self.now.stage }
    {
        matches!(self.stage, Stage::Freeze)
    }

    /// Takes the page that was copied, and asks for its write in a free lane.
    #[inline(never)]
    fn write_page(
        &mut self,
        lane: usize,
        ticket: u64,
        buffers: &mut PageBuffers,
    ) -> Result<ImageStep, AllocError>
        requires stage { self.old.stage ≡ PassStage }
        requires copied { IsCopied self.old.pass }
        requires free { slice_get self.old.writes lane ≡ Some None }
        requires within { lane < 8 }
        ensures page { IfOk result (IsPageCallOf (λ used request. WritesPage self.old used request self.new
            × IsAskedBy Dumper ticket request)) }
        ensures err { OnErr result (self.new ≡ self.old) }
    {
        self.round.has_room();
        let page = self.round.take_page()?;
        self.round.give_back(buffers.take());
        digest_page(&mut self.digester, &page);
        let request = page_request(self.order.slot, self.stored, page, ticket);
        self.stored += 1;
        self.writes[lane] = Some(request.id());
        Ok(ImageStep::PageCall { lane, request })
    }

    /// How many steps and outcomes the image has before it, at most.
    pub(crate) fn left(&self, memory: &Memory) -> u128
        ensures left { result ≡ image_left self.now (plain_of memory.now) }
        ensures few { result ≤ 2 ^ 65 }
    {
        let pass = u128::from(self.round.left(memory)) + writes_out(&self.writes) as u128;
        match &self.stage {
            Stage::Format(plan) => plan_left(plan) + FREEZE + pass + CLOSE,
            Stage::Freeze => FREEZE + pass + CLOSE,
            Stage::Pass => pass + CLOSE,
            Stage::Close { plan, .. } => plan_left(plan),
        }
    }

    /// How many data pages it has so far.
    pub(crate) fn pages(&self) -> usize
        ensures { result ≡ data_pages self.now.pass.entries }
    {
        self.stored
    }

    /// Its serial.
    pub(crate) fn serial(&self) -> u64
        ensures { result ≡ self.now.order.serial }
    {
        self.order.serial
    }

    /// Whether it is the dump of a memory that is frozen.
    pub(crate) fn is_frozen(&self) -> bool
        ensures frozen { result ≡ is_frozen_dump self.now }
        ensures few { data_pages self.now.pass.entries ≤ 2 ^ 39 }
    {
        let is_past = match self.stage {
            Stage::Format(_) | Stage::Freeze => false,
            Stage::Pass | Stage::Close { .. } => true,
        };
        self.order.kind == Kind::Dump && is_past
    }

    /// What holds of every image in the making. It does nothing: a caller learns it.
    pub(crate) fn sound(&self)
        ensures { IsSoundImage self.now }
    {
        self.round.rising();
    }
}
