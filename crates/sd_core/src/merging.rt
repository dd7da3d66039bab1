//! The merger of a core: its steps, and what it leaves.
ghost use Rattle.std.specs.Prelude.{◌≡◌, ◌≤◌, ◌↔◌, Err, None, IsSome, IsTrue, Some, IfOk, OnErr, map};
ghost use Rattle.sd_chain.specs.Catalog.{images, serial_of};
ghost use Rattle.sd_merge.specs.Merger.{Loses, awaited, begun_merge, out_of_merge, slot_before};
ghost use Rattle.sd_rounds.specs.Dumper.{idle};
ghost use Rattle.sd_core.specs.declared.merging.StepFault.TheVariants.{Lost};
ghost use Rattle.sd_core.specs.Merging.{BeginsCopy, EndsCheckpoint, FixesList, IsStepOf, MayRead};

use sd_chain::Catalog;
use sd_free_slots::ListRoom;
use sd_gate::{Request, RequestId, SlotState};
use sd_journal::Journal;
use sd_merge::{MergeProgress, MergeStep, Merger, Source, WorkError};
use sd_rounds::Dumper;
use sd_writing::NextImage;
use std::alloc::{AllocError, Global};
use std::mem;

/// The serials of the images of a catalog, rising.
///
/// # Errors
///
/// Out of memory where the list finds no room.
pub(crate) fn serials_in(alloc: Global, catalog: &Catalog) -> Result<Vec<u64>, AllocError>
    ensures { IfOk result (λ serials. serials.items ≡ map serial_of (images catalog.now)) }
{
    let list = catalog.list()?;
    let mut serials = Vec::new(alloc);
    for image in list.iter() {
        serials.push(image.header().serial)?;
    }
    Ok(serials)
}

/// A merge begins.
pub(crate) fn begin_merge(merger: &mut Merger, source: Source, slot: usize, before: Vec<u64>)
    requires { merger.old ≡ None }
    ensures { merger.new ≡ Some (begun_merge source slot before.items) }
{
    merger.begin(source, slot, before).unwrap();
}

/// Begins the merged image, and asks for the first call of its slot's format. It takes no memory.
pub(crate) fn begin_copy(
    merger: &mut Merger,
    catalog: &Catalog,
    image: NextImage,
    ticket: u64,
) -> Request
    requires { IsSome (slot_before merger.old) }
    ensures { BeginsCopy image.serial image.state ticket catalog.now merger.old result merger.new }
{
    match merger.work(catalog, image, ticket) {
        Ok(MergeStep::Call(request)) => request,
        _ => unreachable!(),
    }
}

/// Why a step of a merge isn't made.
#[derive(Clone, Copy, PartialEq, Eq)]
pub(crate) enum StepFault {
    /// The catalog doesn't have the source's next page.
    Lost,
    OutOfMemory,
}

/// Makes the next step of a merge that has begun its image, and has no request out.
///
/// # Errors
///
/// Out of memory where a growth was refused. Lost where the catalog doesn't have the source's next page. Nothing
/// changed.
pub(crate) fn step_merger(
    merger: &mut Merger,
    catalog: &Catalog,
    ticket: u64,
) -> Result<MergeStep, StepFault>
    requires begun { slot_before merger.old ≡ None }
    requires runs { IsSome merger.old }
    requires rests { out_of_merge merger.old ≡ None }
    requires due { awaited merger.old ≡ None }
    ensures steps { IfOk result (λ step. IsStepOf ticket catalog.now merger.old step merger.new) }
    ensures lost { result ≡ Err Lost → Loses catalog.now merger.old }
    ensures err { OnErr result (merger.new ≡ merger.old) }
{
    // The image has its serial and its slot already.
    let image = NextImage {
        serial: 0,
        state: SlotState::Raw,
    };
    match merger.work(catalog, image, ticket) {
        Ok(step) => Ok(step),
        Err(WorkError::OutOfMemory) => Err(StepFault::OutOfMemory),
        Err(WorkError::Lost) => Err(StepFault::Lost),
        Err(WorkError::Idle | WorkError::Busy) => unreachable!(),
    }
}

/// Whether the source of a merge may be read in this slot: it is one of the store's, and the running checkpoint doesn't
/// fill it.
pub(crate) fn may_read(dumper: &Dumper, count: usize, slot: usize) -> bool
    ensures { IsTrue result ↔ MayRead dumper.now.running count slot }
{
    slot < count && !dumper.fills(slot)
}

/// Fixes the list of the images that a merge closes. Returns the merged image's serial where the list is empty, which
/// ends the merge. It takes no memory.
pub(crate) fn fix_list(
    merger: &mut Merger,
    room: ListRoom,
    catalog: &Catalog,
    dumper: &Dumper,
    outs: &[Option<RequestId>],
) -> Option<u64>
    requires { IsSome (awaited merger.old) }
    ensures { FixesList catalog.now dumper.now.running outs.now room merger.old result merger.new }
{
    let list = room.into_list(catalog, dumper, merger, outs);
    match merger.retire(list) {
        MergeProgress::More => None,
        MergeProgress::Merged(serial) => Some(serial),
        _ => unreachable!(),
    }
}

/// Takes the room for a merge's list out.
pub(crate) fn take_room(alloc: Global, room: &mut ListRoom) -> ListRoom
    ensures { result ≡ room.old }
{
    mem::replace(room, ListRoom::none(alloc))
}

/// Ends the checkpoint that runs, if one does: its entries are let go, but that of a pending one.
pub(crate) fn end_checkpoint(dumper: &mut Dumper, journal: &mut Journal, pending: Option<u64>)
    requires { IsSome dumper.old.running → pending ≡ None → 2 ≤ journal.old.held }
    ensures dumper { dumper.new ≡ idle dumper.old.since_freeze }
    ensures journal { EndsCheckpoint dumper.old.running pending journal.old journal.new }
{
    if !dumper.is_idle() && pending.is_none() {
        journal.release(2);
    }
    dumper.cancel();
}
