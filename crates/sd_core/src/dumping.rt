//! The dumper of a core: its steps, and what it leaves.
ghost use Rattle.std.specs.Prelude.{◌≡◌, ◌||◌, ◌&&◌, ◌≤◌, false, None, Some, IsSome, IfOk, IfSome, OnErr};
ghost use Rattle.std.specs.Prelude.{is_none, Ok, true, ◌⊎◌};
ghost use Rattle.sd_chain.specs.Catalog.{Changes, IsHeld};
ghost use Rattle.sd_gate.specs.declared.call.Call.{Call};
ghost use Rattle.sd_pagetable.specs.Contents.{plain_of};
ghost use Rattle.sd_rounds.specs.Dumper.{begun_checkpoint, is_dumping, next_slot};
ghost use Rattle.sd_rounds.specs.PassSteps.{NoPageIsNext};
ghost use Rattle.sd_rounds.specs.Waits.{dumper_must_wait};
ghost use Rattle.sd_crash_safety.specs.DumperSteps.{opens_gate};
ghost use Rattle.sd_crash_safety.specs.DumperOutcomes.{LeavesCatalog, closes_for_sure};
ghost use Rattle.sd_core.specs.Dumping.{BeginsNext, IsNoPassStep, LetsGoOfTwo, PassesOn, ReleasesPlace};
ghost use Rattle.sd_core.specs.Dumping.{StepsOn};

use crate::beginning::Slots;
use sd_chain::Catalog;
use sd_gate::{Call, Phase, Request, SlotState};
use sd_journal::Journal;
use sd_pagetable::Memory;
use sd_rounds::{Dumper, ImageStep, PageBuffers, PassStep, WorkError};
use sd_writing::{NewImage, NextImage};
use std::alloc::AllocError;

/// A checkpoint begins.
pub(crate) fn begin_checkpoint(
    dumper: &mut Dumper,
    number: u64,
    slots: Slots,
    parent: u64,
    buffers: PageBuffers,
)
    requires { dumper.old.running ≡ None }
    ensures running { dumper.new.running ≡ Some (begun_checkpoint number slots.pre_dumps.items slots.dump parent) }
    ensures counted { dumper.new.since_freeze ≡ dumper.old.since_freeze }
{
    dumper
        .begin(number, slots.pre_dumps, slots.dump, parent, buffers)
        .unwrap();
}

/// Begins the next image, and asks for the first call of its slot's format. It takes no memory.
pub(crate) fn begin_next(
    dumper: &mut Dumper,
    memory: &mut Memory,
    image: NextImage,
    ticket: u64,
) -> Request
    requires { IsSome (next_slot dumper.old.running) }
    ensures { BeginsNext image.serial image.state ticket dumper.old memory.old result dumper.new memory.new }
{
    match dumper.work(memory, image, ticket) {
        Ok(ImageStep::Call(request)) => request,
        _ => unreachable!(),
    }
}

/// Makes the next step of the image in the making, which awaits no outcome, visits no page and copies no sector.
///
/// # Errors
///
/// Out of memory where a growth was refused. Nothing changed.
pub(crate) fn step_on(
    dumper: &mut Dumper,
    memory: &mut Memory,
    ticket: u64,
) -> Result<ImageStep, AllocError>
    requires begun { next_slot dumper.old.running ≡ None }
    requires runs { IsSome dumper.old.running }
    requires goes { dumper_must_wait dumper.old.running (plain_of memory.old) ≡ false }
    requires other { NoPageIsNext dumper.old.running memory.old }
    ensures steps { IfOk result (λ step. StepsOn ticket dumper.old memory.old step dumper.new memory.new) }
    ensures other { IfOk result (λ step. IsNoPassStep step) }
    ensures err { OnErr result (dumper.new ≡ dumper.old) }
    ensures err_memory { OnErr result (memory.new ≡ memory.old) }
{
    // The image has its serial and its slot already.
    let image = NextImage {
        serial: 0,
        state: SlotState::Raw,
    };
    match dumper.work(memory, image, ticket) {
        Ok(step) => Ok(step),
        Err(WorkError::OutOfMemory) => Err(AllocError),
        Err(WorkError::Idle | WorkError::Busy) => unreachable!(),
    }
}

/// Makes the next step of the image in the making where it visits a page or copies a sector. None where it is another,
/// which [`step_on`] makes, where an outcome is awaited before it, or where no checkpoint runs: nothing changed.
///
/// # Errors
///
/// Out of memory where a growth was refused. Nothing changed.
#[inline]
pub(crate) fn pass_on(
    dumper: &mut Dumper,
    memory: &mut Memory,
) -> Result<Option<PassStep>, AllocError>
    requires begun { next_slot dumper.old.running ≡ None }
    ensures none { result ≡ Ok None → (dumper.new ≡ dumper.old) × (memory.new ≡ memory.old)
        × ((dumper_must_wait dumper.old.running (plain_of memory.old) ≡ true)
        ⊎ NoPageIsNext dumper.old.running memory.old) }
    ensures found { IfOk result (λ found. IfSome found (λ step.
        PassesOn dumper.old memory.old step dumper.new memory.new)) }
    ensures err { OnErr result (dumper.new ≡ dumper.old) }
    ensures err_memory { OnErr result (memory.new ≡ memory.old) }
{
    match dumper.pass(memory) {
        Ok(found) => Ok(found),
        Err(WorkError::OutOfMemory) => Err(AllocError),
        Err(WorkError::Idle | WorkError::Busy) => Ok(None),
    }
}

/// Whether a call opens a gate.
fn opens_gate(call: Call) -> bool
    ensures { result ≡ opens_gate call }
{
    matches!(call, Call::Open)
}

/// Whether the opening of the gate of a checkpoint's dump was taken up, once this call is.
pub(crate) fn is_committing(committing: bool, dumper: &Dumper, call: Call) -> bool
    ensures { result ≡ (committing || is_dumping dumper.now.running && opens_gate call) }
{
    committing || dumper.is_dumping() && opens_gate(call)
}

/// Whether the pass of the pending checkpoint's dump is over, once a table is written.
pub(crate) fn has_ended_its_pass(swept: bool, dumper: &Dumper) -> bool
    ensures { result ≡ (swept || is_dumping dumper.now.running) }
{
    swept || dumper.is_dumping()
}

/// Lets go of the entries of a checkpoint that has ended, but of that of a pending one.
pub(crate) fn release_unfrozen(journal: &mut Journal, pending: Option<u64>)
    requires { pending ≡ None → 2 ≤ journal.old.held }
    ensures { LetsGoOfTwo pending journal.old journal.new }
{
    if pending.is_none() {
        journal.release(2);
    }
}

/// Whether a call on a slot in this phase, once it is done, closes it for sure.
pub(crate) fn closes_for_sure(phase: Phase, call: Call) -> bool
    ensures { result ≡ closes_for_sure phase call }
{
    matches!((phase, call), (Phase::Closing, Call::Sync))
}

/// The image of a slot leaves the catalog, where the slot was closed for sure.
pub(crate) fn leave_catalog(catalog: &mut Catalog, slot: usize, closed: bool)
    ensures { LeavesCatalog closed slot catalog.old catalog.new }
{
    if closed {
        catalog.remove(slot);
    }
}

/// Lets go of the place that was held for an image, if one was made.
pub(crate) fn release_place(catalog: &mut Catalog, serial: Option<u64>)
    ensures { ReleasesPlace serial catalog.old catalog.new }
{
    if let Some(serial) = serial {
        catalog.release(serial);
    }
}

/// An image enters the catalog, where its place was held. It takes no memory.
pub(crate) fn enter_catalog(catalog: &mut Catalog, image: NewImage)
    requires { IsHeld catalog.old image.header.serial }
    ensures { Changes catalog.old catalog.new image.header.serial
        (Some (Some (record { slot = image.slot; header = image.header; spaces = image.table }))) }
{
    let NewImage {
        slot,
        header,
        table,
    } = image;
    catalog.add(slot, header, table).unwrap();
}
