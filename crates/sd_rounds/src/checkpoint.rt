//! A checkpoint that is made: its images, one after the other.
ghost use Rattle.std.specs.Prelude.{◌≡◌, ◌↔◌, ℕ, Ok, IsErr, IsTrue, IfOk, MatchOption, None, Some, OnErr, true, false};
ghost use Rattle.sd_rounds.specs.declared.progress.Progress.TheVariants.{Dump as DumpOpen, PreDump as PreDumpOpen};
ghost use Rattle.sd_gate.specs.declared.slot_state.SlotState.{SlotState};
ghost use Rattle.sd_pagetable.specs.Contents.{Contents, plain_of};
ghost use Rattle.sd_rounds.specs.Left.{running_left};
ghost use Rattle.sd_rounds.specs.PlanSteps.{HaveNoPage, image_step, is_to_freeze};
ghost use Rattle.sd_rounds.specs.Room.{MakingTakesMemory};
ghost use Rattle.sd_rounds.specs.Sound.{IsSoundMaking};
ghost use Rattle.sd_rounds.specs.Waits.{image_must_wait};
ghost use Rattle.sd_rounds.specs.Dumper.{HandsTo, HasFewPages, IsReserved, WorksOn, after_pre_dump, is_frozen_image};
ghost use Rattle.sd_rounds.specs.Dumper.{is_last, kind_of, order_of, pages_of_image, running_of, serial_of_running};
ghost use Rattle.sd_rounds.specs.Dumper.{slot_of};

use crate::image_maker::ImageMaker;
use crate::image_order::ImageOrder;
use crate::image_step::ImageStep;
use crate::left::{CLOSE, END, FORMAT, FREEZE, PAGE_AHEAD, pages_ahead};
use crate::page_buffers::PageBuffers;
use crate::pass_step::PassStep;
use crate::progress::Progress;
use sd_gate::{Outcome, SlotState};
use sd_image::Kind;
use sd_pagetable::Memory;
use sd_writing::{NewImage, NextImage, Written};
use std::alloc::{AllocError, Global};
use std::mem;

/// The images of a checkpoint: its pre-dumps, and then its dump.
#[derive(Drop)]
pub struct Checkpoint {
    pub(crate) number: u64,
    /// The slots of the pre-dumps.
    pub(crate) pre_dumps: Vec<usize>,
    /// The slot of the dump.
    pub(crate) dump: usize,
    /// The number that the first image names as its parent.
    pub(crate) first: u64,
    /// How many of the images are open.
    pub(crate) opened: usize,
    /// The number that the next image names as its parent, or the one that is being made.
    pub(crate) parent: u64,
    /// The image that is being made.
    pub(crate) maker: Option<ImageMaker>,
    /// Room for the pages that are copied and written.
    pub(crate) buffers: PageBuffers,
}

impl Checkpoint {
    /// Whether the image that is made next, or is being made, is the dump.
    pub(crate) fn is_last(&self) -> bool
        ensures { result ≡ is_last (running_of self.now) }
    {
        self.pre_dumps.len() <= self.opened
    }

    /// The slot of the image that is made next, or is being made.
    pub(crate) fn slot(&self) -> usize
        ensures { result ≡ slot_of (running_of self.now) }
    {
        match self.pre_dumps.get(self.opened) {
            Some(slot) => *slot,
            None => self.dump,
        }
    }

    /// Whether the image that is made next, or is being made, or one after it stands in this slot.
    pub(crate) fn fills(&self, slot: usize) -> bool
        ensures { IsTrue result ↔ IsReserved (running_of self.now) slot }
    {
        if slot == self.dump {
            return true;
        }
        for (place, own) in self.pre_dumps.iter().enumerate() {
            if place >= self.opened && *own == slot {
                return true;
            }
        }
        false
    }

    /// The serial of the image that is being made.
    pub(crate) fn serial(&self) -> Option<u64>
        ensures { result ≡ serial_of_running (Some (running_of self.now)) }
    {
        let maker = self.maker.as_ref()?;
        Some(maker.serial())
    }

    /// What is fixed of the next image.
    pub(crate) fn order(&self, serial: u64, state: SlotState) -> ImageOrder
        ensures { result ≡ order_of (running_of self.now) serial state }
    {
        ImageOrder {
            slot: self.slot(),
            state,
            kind: self.kind(),
            serial,
            parent: self.parent,
            checkpoint: self.number,
        }
    }

    /// What the next image is for.
    fn kind(&self) -> Kind
        ensures { result ≡ kind_of (running_of self.now) }
    {
        if self.is_last() {
            Kind::Dump
        } else {
            Kind::PreDump
        }
    }

    /// Makes the next step of the image that is being made, where that visits a page or copies a sector. None where
    /// another is next, and nothing changed.
    #[inline(always)]
    pub(crate) fn pass_step(&mut self, memory: &mut Memory) -> Result<Option<PassStep>, AllocError>
        ensures works { IfOk result (λ found. MatchOption found
            (HaveNoPage (running_of self.old).image memory.old
            × (running_of self.new ≡ running_of self.old) × (memory.new ≡ memory.old))
            (λ step. (serial : ℕ) (state : SlotState) (ticket : ℕ) → WorksOn serial state ticket
            (running_of self.old) memory.old (image_step step) (running_of self.new) memory.new)) }
        ensures wanted { IsErr result → MakingTakesMemory (running_of self.old).image memory.old }
        ensures err { OnErr result (running_of self.new ≡ running_of self.old) }
        ensures err_memory { OnErr result (memory.new ≡ memory.old) }
    {
        match &mut self.maker {
            Some(maker) => maker.pass_step(memory),
            None => Ok(None),
        }
    }

    /// Makes the next step of the image that is being made, which visits no page and copies no sector, or begins the
    /// next image.
    ///
    /// # Errors
    ///
    /// Out of memory where a page's entry or the table finds no room. Nothing changed.
    #[inline(never)]
    pub(crate) fn work(
        &mut self,
        alloc: Global,
        memory: &Memory,
        image: NextImage,
        ticket: u64,
    ) -> Result<ImageStep, AllocError>
        requires none { HaveNoPage (running_of self.old).image memory.now }
        requires rests { image_must_wait (running_of self.old).image (plain_of memory.now) ≡ false }
        ensures works { IfOk result (λ step. WorksOn image.serial image.state ticket
            (running_of self.old) memory.now step (running_of self.new) memory.now) }
        ensures wanted { IsErr result → MakingTakesMemory (running_of self.old).image memory.now }
        ensures err { OnErr result (running_of self.new ≡ running_of self.old) }
    {
        if let Some(maker) = &mut self.maker {
            return maker.work(memory, ticket, &mut self.buffers);
        }
        Ok(self.begin_image(alloc, image, ticket))
    }

    /// Begins the next image, with its first step. It is apart from the other steps, which need no room for an image.
    #[inline(never)]
    fn begin_image(&mut self, alloc: Global, image: NextImage, ticket: u64) -> ImageStep
        requires { (running_of self.old).image ≡ None }
        ensures { (memory : Contents) → WorksOn image.serial image.state ticket
            (running_of self.old) memory result (running_of self.new) memory }
    {
        let order = self.order(image.serial, image.state);
        let mut maker = ImageMaker::new(alloc, order, self.buffers.take());
        let step = maker.go_on(ticket);
        self.maker = Some(maker);
        step
    }

    /// Whether an outcome is awaited before the next step of the image that is being made.
    pub(crate) fn must_wait(&self, memory: &Memory) -> bool
        ensures { result ≡ image_must_wait (running_of self.now).image (plain_of memory.now) }
    {
        match &self.maker {
            Some(maker) => maker.must_wait(memory),
            None => false,
        }
    }

    /// Whether the next step freezes the memory.
    #[inline(always)]
    pub(crate) fn is_to_freeze(&self) -> bool
        ensures { result ≡ is_to_freeze (running_of self.now).image }
    {
        match &self.maker {
            Some(maker) => maker.is_to_freeze(),
            None => false,
        }
    }

    /// How many steps and outcomes the checkpoint has before it, at most.
    pub(crate) fn left(&self, memory: &Memory) -> u128
        ensures { result ≡ running_left (running_of self.now) (plain_of memory.now) }
    {
        let pass = u128::from(PAGE_AHEAD * pages_ahead(memory, None));
        let next = FORMAT + FREEZE + pass + CLOSE;
        let image = match &self.maker {
            Some(maker) => maker.left(memory),
            None => next,
        };
        let later = self.pre_dumps.len().saturating_sub(self.opened);
        image + later as u128 * next + END
    }

    /// How many data pages the image that is being made has so far.
    pub(crate) fn pages(&self) -> usize
        ensures { result ≡ pages_of_image (running_of self.now).image }
    {
        match &self.maker {
            Some(maker) => maker.pages(),
            None => 0,
        }
    }

    /// Whether the dump of a frozen memory is being made.
    pub(crate) fn is_frozen(&self) -> bool
        ensures frozen { result ≡ is_frozen_image (running_of self.now).image }
        ensures few { HasFewPages (running_of self.now).image }
    {
        match &self.maker {
            Some(maker) => maker.is_frozen(),
            None => false,
        }
    }

    /// What holds of the image that is being made. It does nothing: a caller learns it.
    pub(crate) fn sound(&self)
        ensures { IsSoundMaking (running_of self.now).image }
    {
        if let Some(maker) = &self.maker {
            maker.sound();
        }
    }

    /// Takes an outcome for the image that is being made.
    pub(crate) fn hand_in(&mut self, outcome: Outcome) -> Progress
        ensures { HandsTo (running_of self.old) outcome result (running_of self.new) }
    {
        let Some(maker) = &mut self.maker else {
            return Progress::Strange;
        };
        match maker.hand_in(outcome, &mut self.buffers) {
            Written::Strange => Progress::Strange,
            Written::Failed => Progress::Failed,
            Written::More => Progress::More,
            Written::Opened(image) => self.end_image(image),
        }
    }

    /// An image is open. After a pre-dump the next image names it as its parent.
    fn end_image(&mut self, image: NewImage) -> Progress
        ensures dump { is_last (running_of self.old) ≡ true → result ≡ DumpOpen image }
        ensures pre_dump { is_last (running_of self.old) ≡ false → (result ≡ PreDumpOpen image)
            × (running_of self.new ≡ after_pre_dump (running_of self.old) image) }
    {
        if self.is_last() {
            return Progress::Dump(image);
        }
        self.parent = image.header.serial;
        self.opened += 1;
        if let Some(maker) = mem::replace(&mut self.maker, None) {
            self.buffers.give(maker.into_buffer());
        }
        Progress::PreDump(image)
    }
}
