//! The dumper: the images of a checkpoint, step by step.
ghost use Rattle.std.specs.Prelude.{◌≡◌, ◌↔◌, Err, None, Some, true, IsSome, IsTrue, IfOk, IfErr, OnOk, OnErr, is_none};
ghost use Rattle.std.specs.Prelude.{if◌then◌else◌};
ghost use Rattle.std.specs.Option.{option_map};
ghost use Rattle.sd_rounds.specs.declared.work_error.WorkError.TheVariants.{Busy, Idle, OutOfMemory};
ghost use Rattle.sd_pagetable.specs.Contents.{plain_of};
ghost use Rattle.sd_rounds.specs.Left.{left_of};
ghost use Rattle.sd_rounds.specs.Room.{StepTakesMemory};
ghost use Rattle.sd_rounds.specs.Sound.{HasSoundImage};
ghost use Rattle.sd_rounds.specs.Waits.{dumper_must_wait};
ghost use Rattle.sd_rounds.specs.PassSteps.{Passes};
ghost use Rattle.sd_rounds.specs.Dumper.{AreRunning, Dumping, Fills, Hands, HasCounted, Works, begun_checkpoint};
ghost use Rattle.sd_rounds.specs.Dumper.{dump_slot, ends, idle, is_dumping, is_strange, next_slot, pages_of_checkpoint};
ghost use Rattle.sd_rounds.specs.Dumper.{parent_of};
ghost use Rattle.sd_rounds.specs.Dumper.{pre_dump_slots, serial_of_running};

use crate::checkpoint::Checkpoint;
use crate::image_step::ImageStep;
use crate::page_buffers::PageBuffers;
use crate::pass_step::PassStep;
use crate::progress::Progress;
use crate::work_error::WorkError;
use sd_gate::Outcome;
use sd_pagetable::Memory;
use sd_writing::NextImage;
use std::alloc::Global;
use std::marker::Model;

/// Makes checkpoints, one at a time: pre-dumps while the memory changes, a freeze, and a dump.
#[derive(Drop)]
pub struct Dumper {
    alloc: Global,
    checkpoint: Option<Checkpoint>,
    since_freeze: u64,
}

impl Model for Dumper {
    ghost use Rattle.std.specs.Option.{option_map};
    ghost use Rattle.sd_rounds.specs.Dumper.{AreRunning, Dumping, running_of};

    ghost Value = { Dumping };

    ghost view = { λ d. record {
      running = option_map running_of d.checkpoint;
      since_freeze = d.since_freeze;
    } };

    ghost invariant = { λ d. AreRunning d.since_freeze (option_map running_of d.checkpoint) };
}

/// No checkpoint runs from now on.
fn end(checkpoint: &mut Option<Checkpoint>)
    ensures { checkpoint.new ≡ None }
{
    *checkpoint = None;
}

/// Whether an outcome was of no request that is out.
fn is_strange(progress: &Progress) -> bool
    ensures { result ≡ is_strange progress.now }
{
    matches!(progress, Progress::Strange)
}

/// Whether a checkpoint ends with this.
fn ends(progress: &Progress) -> bool
    ensures { result ≡ ends progress.now }
{
    matches!(progress, Progress::Failed | Progress::Dump(_))
}

/// How many outcomes are counted after a step: none where it freezes the memory.
#[inline(always)]
fn counted(freezes: bool, since_freeze: u64) -> u64
    ensures { result ≡ (if freezes then 0 else since_freeze) }
{
    if freezes { 0 } else { since_freeze }
}

impl Dumper {
    /// A dumper that is idle.
    pub fn new(alloc: Global) -> Self
        ensures { result ≡ idle 0 }
    {
        Dumper {
            alloc,
            checkpoint: None,
            since_freeze: 0,
        }
    }

    /// Whether no checkpoint runs.
    pub fn is_idle(&self) -> bool
        ensures { result ≡ is_none self.now.running }
    {
        self.checkpoint.is_none()
    }

    /// Whether the dump of the checkpoint that runs is next, or is being made.
    pub fn is_dumping(&self) -> bool
        ensures { result ≡ is_dumping self.now.running }
    {
        match &self.checkpoint {
            Some(checkpoint) => checkpoint.is_last(),
            None => false,
        }
    }

    /// Begins a checkpoint: a pre-dump in each of these slots, and then a dump. The first image names the parent with
    /// this number; where it is 0, it takes every page. The buffers are room for the pages that are copied and written.
    ///
    /// # Errors
    ///
    /// Busy where a checkpoint runs. Nothing changed.
    pub fn begin(
        &mut self,
        number: u64,
        pre_dumps: Vec<usize>,
        dump: usize,
        parent: u64,
        buffers: PageBuffers,
    ) -> Result<(), WorkError>
        ensures begun { OnOk result (self.new ≡ record {
          running = Some (begun_checkpoint number pre_dumps.items dump parent);
          since_freeze = self.old.since_freeze;
        }) }
        ensures busy { result ≡ Err Busy ↔ IsSome self.old.running }
        ensures errors { IfErr result (λ e. e ≡ Busy) }
        ensures err { OnErr result (self.new ≡ self.old) }
    {
        if self.checkpoint.is_some() {
            return Err(WorkError::Busy);
        }
        self.checkpoint = Some(Checkpoint {
            number,
            pre_dumps,
            dump,
            first: parent,
            opened: 0,
            parent,
            maker: None,
            buffers,
        });
        Ok(())
    }

    /// The slot of the image that the next step begins, where it begins one.
    pub fn next_slot(&self) -> Option<usize>
        ensures { result ≡ next_slot self.now.running }
    {
        let checkpoint = self.checkpoint.as_ref()?;
        if checkpoint.maker.is_some() {
            return None;
        }
        Some(checkpoint.slot())
    }

    /// The slots of the pre-dumps of the checkpoint that runs. None where none runs.
    pub fn pre_dump_slots(&self) -> &[usize]
        ensures { result.now ≡ pre_dump_slots self.now.running }
    {
        match &self.checkpoint {
            Some(checkpoint) => &checkpoint.pre_dumps,
            None => &[],
        }
    }

    /// The slot of the dump of the checkpoint that runs.
    pub fn dump_slot(&self) -> Option<usize>
        ensures { result ≡ dump_slot self.now.running }
    {
        let checkpoint = self.checkpoint.as_ref()?;
        Some(checkpoint.dump)
    }

    /// Whether the checkpoint that runs fills this slot, or is still to fill it.
    pub fn fills(&self, slot: usize) -> bool
        ensures { IsTrue result ↔ Fills self.now.running slot }
    {
        match &self.checkpoint {
            Some(checkpoint) => checkpoint.fills(slot),
            None => false,
        }
    }

    /// The number that the next image of the checkpoint that runs names as its parent, or the one that is being made.
    pub fn parent(&self) -> Option<u64>
        ensures { result ≡ parent_of self.now.running }
    {
        let checkpoint = self.checkpoint.as_ref()?;
        Some(checkpoint.parent)
    }

    /// The serial of the image that is being made.
    pub fn serial(&self) -> Option<u64>
        ensures { result ≡ serial_of_running self.now.running }
    {
        match &self.checkpoint {
            Some(checkpoint) => checkpoint.serial(),
            None => None,
        }
    }

    /// Makes the next step: of the image that is being made, or of the next, which gets this serial, and whose slot is
    /// in this state.
    ///
    /// # Errors
    ///
    /// Idle where no checkpoint runs, Busy where an outcome is awaited: while a request is out that writes no data
    /// page, while eight are out that do, or some where no page is left. Out of memory where an entry, a sector or the
    /// table finds no room, and only where one is needed. Nothing changed.
    pub fn work(
        &mut self,
        memory: &mut Memory,
        image: NextImage,
        ticket: u64,
    ) -> Result<ImageStep, WorkError>
        ensures works { IfOk result (λ step. Works image.serial image.state ticket self.old memory.old
            step self.new memory.new) }
        ensures idle { result ≡ Err Idle ↔ self.old.running ≡ None }
        ensures busy { result ≡ Err Busy ↔ dumper_must_wait self.old.running (plain_of memory.old) ≡ true }
        ensures wanted { result ≡ Err OutOfMemory → StepTakesMemory self.old.running memory.old }
        ensures err { OnErr result (self.new ≡ self.old) }
        ensures err_memory { OnErr result (memory.new ≡ memory.old) }
    {
        let Some(checkpoint) = &mut self.checkpoint else {
            return Err(WorkError::Idle);
        };
        if checkpoint.must_wait(memory) {
            return Err(WorkError::Busy);
        }
        match checkpoint.pass_step(memory)? {
            Some(PassStep::Visited(visit)) => Ok(ImageStep::Visited(visit)),
            Some(PassStep::Copied(copied)) => Ok(ImageStep::Copied(copied)),
            None => {
                self.since_freeze = counted(checkpoint.is_to_freeze(), self.since_freeze);
                Ok(checkpoint.work(self.alloc, memory, image, ticket)?)
            }
        }
    }

    /// Makes the next step where it visits a page or copies a sector, as `work` does, and needs no serial, slot or
    /// ticket for it. None where the next step is another: nothing changed, and `work` makes it.
    ///
    /// # Errors
    ///
    /// Idle where no checkpoint runs, Busy where an outcome is awaited, as `work`. Out of memory where an entry or a
    /// sector finds no room, and only where one is needed. Nothing changed.
    #[inline]
    pub fn pass(&mut self, memory: &mut Memory) -> Result<Option<PassStep>, WorkError>
        ensures passes { IfOk result (λ found. Passes self.old memory.old found self.new memory.new) }
        ensures idle { result ≡ Err Idle ↔ self.old.running ≡ None }
        ensures busy { result ≡ Err Busy ↔ dumper_must_wait self.old.running (plain_of memory.old) ≡ true }
        ensures wanted { result ≡ Err OutOfMemory → StepTakesMemory self.old.running memory.old }
        ensures err { OnErr result (self.new ≡ self.old) }
        ensures err_memory { OnErr result (memory.new ≡ memory.old) }
    {
        let Some(checkpoint) = &mut self.checkpoint else {
            return Err(WorkError::Idle);
        };
        if checkpoint.must_wait(memory) {
            return Err(WorkError::Busy);
        }
        let found = checkpoint.pass_step(memory)?;
        Ok(found)
    }

    /// Takes the outcome of a request that is out. After one that failed no checkpoint runs.
    pub fn hand_in(&mut self, outcome: Outcome) -> Progress
        ensures hands { Hands self.old outcome result self.new }
        ensures pages { HasCounted result self.new.since_freeze }
    {
        let Some(checkpoint) = &mut self.checkpoint else {
            return Progress::Strange;
        };
        let counts = checkpoint.is_frozen();
        let progress = checkpoint.hand_in(outcome);
        if is_strange(&progress) {
            return progress;
        }
        if ends(&progress) {
            end(&mut self.checkpoint);
        }
        if counts {
            self.since_freeze += 1;
        }
        progress
    }

    /// Whether an outcome is awaited before the next step: while a request is out that writes no data page, while eight
    /// are out that do, or some where no page is left to be visited or copied.
    pub fn must_wait(&self, memory: &Memory) -> bool
        ensures { result ≡ dumper_must_wait self.now.running (plain_of memory.now) }
    {
        match &self.checkpoint {
            Some(checkpoint) => checkpoint.must_wait(memory),
            None => false,
        }
    }

    /// What holds of every dumper: how its checkpoint, the image that is being made and the count since the freeze go
    /// together, and that the image's entries rise. It does nothing: a caller learns it.
    pub fn sound(&self)
        ensures running { AreRunning self.now.since_freeze self.now.running }
        ensures image { HasSoundImage self.now.running }
    {
        if let Some(checkpoint) = &self.checkpoint {
            checkpoint.sound();
        }
    }

    /// Gives the checkpoint up, if one runs.
    pub fn cancel(&mut self)
        ensures { self.new ≡ idle self.old.since_freeze }
    {
        end(&mut self.checkpoint);
    }

    /// How many steps and outcomes the checkpoint has before it, at most: 0 exactly while none runs. Each step lowers
    /// it, and so does each outcome of the request that is out. It goes over the mapped pages one by one, and isn't for
    /// a step.
    pub fn left(&self, memory: &Memory) -> u128
        ensures left { result ≡ left_of self.now.running (plain_of memory.now) }
        ensures idle { result ≡ 0 ↔ self.now.running ≡ None }
    {
        match &self.checkpoint {
            Some(checkpoint) => checkpoint.left(memory),
            None => 0,
        }
    }

    /// How many data pages the image that is being made has so far: 0 while none is.
    pub fn pages(&self) -> usize
        ensures { result ≡ pages_of_checkpoint self.now.running }
    {
        match &self.checkpoint {
            Some(checkpoint) => checkpoint.pages(),
            None => 0,
        }
    }

    /// How many outcomes were handed in since the last freeze.
    pub fn since_freeze(&self) -> u64
        ensures { result ≡ self.now.since_freeze }
    {
        self.since_freeze
    }
}
