//! Which slots of a store are taken: by images that are needed, and by jobs.
ghost use Rattle.std.specs.Prelude.{◌≡◌, ◌↔◌, ℕ, IfOk, Some, length};
ghost use Rattle.std.specs.Option.{option_map};
ghost use Rattle.sd_free_slots.specs.Marks.{IsUnmarked, TakesNeeded, TakesSlots};
ghost use Rattle.sd_free_slots.specs.Taken.{AreFree, AreTaken, FreeSlotsLaw, IsListedSlot, IsNeededAt, IsOutAt};
ghost use Rattle.sd_free_slots.specs.Taken.{IsParentsSerial, IsReservedBy, IsSourcesSerial, IsTipsSerial, slot_of_id};

use crate::marks::{free_slots, take, take_all, take_root, take_some};
use sd_chain::Catalog;
use sd_gate::RequestId;
use sd_merge::{Merger, Retired};
use sd_rounds::Dumper;
use std::alloc::{AllocError, Global};

/// The serial of the newest dump or merged image.
fn tip_serial(catalog: &Catalog) -> Option<u64>
    ensures { (serial : ℕ) → result ≡ Some serial ↔ IsTipsSerial catalog.now serial }
{
    catalog.sound();
    Some(catalog.tip()?.header().serial)
}

/// The serial of the image that the running checkpoint's parent number names.
fn parent_serial(catalog: &Catalog, dumper: &Dumper) -> Option<u64>
    ensures { (serial : ℕ) → result ≡ Some serial ↔ IsParentsSerial catalog.now dumper.now.running serial }
{
    catalog.sound();
    let parent = dumper.parent()?;
    Some(catalog.find(parent)?.header().serial)
}

/// The serial of the image that a merge repeats.
fn source_serial(merger: &Merger) -> Option<u64>
    ensures { (serial : ℕ) → result ≡ Some serial ↔ IsSourcesSerial merger.now serial }
{
    Some(merger.source()?.serial)
}

/// Marks the slots in which images stand that are needed.
fn take_needed(marks: &mut Vec<bool>, catalog: &Catalog, dumper: &Dumper, merger: &Merger)
    ensures { TakesNeeded catalog.now
        (IsNeededAt catalog.now dumper.now.running merger.now) marks.old.items marks.new.items }
{
    take_root(marks, catalog, tip_serial(catalog));
    take_root(marks, catalog, parent_serial(catalog, dumper));
    take_root(marks, catalog, source_serial(merger));
}

/// Marks the slots of a merge's list.
fn take_listed(marks: &mut Vec<bool>, list: &[Retired])
    ensures { TakesSlots (IsListedSlot list.now) marks.old.items marks.new.items }
{
    for one in list {
        take(marks, one.slot);
    }
}

/// The slot of a request, if there is one.
fn slot_of(out: &Option<RequestId>) -> Option<usize>
    ensures { result ≡ option_map slot_of_id out.now }
{
    Some(out.as_ref()?.slot)
}

/// Marks the slots on which requests are out.
fn take_outs(marks: &mut Vec<bool>, outs: &[Option<RequestId>])
    ensures { TakesSlots (IsOutAt outs.now) marks.old.items marks.new.items }
{
    for out in outs {
        take_some(marks, slot_of(out));
    }
}

/// Marks the slots of jobs, and those on which requests are out.
fn take_jobs(marks: &mut Vec<bool>, dumper: &Dumper, merger: &Merger, outs: &[Option<RequestId>])
    ensures { TakesSlots (IsReservedBy dumper.now.running merger.now outs.now) marks.old.items marks.new.items }
{
    take_all(marks, dumper.pre_dump_slots());
    take_some(marks, dumper.dump_slot());
    take_some(marks, merger.slot());
    take_listed(marks, merger.list());
    take_outs(marks, outs);
}

/// Marks the slots that are taken, where none is marked yet.
pub(crate) fn mark_taken(
    marks: &mut Vec<bool>,
    catalog: &Catalog,
    dumper: &Dumper,
    merger: &Merger,
    outs: &[Option<RequestId>],
)
    requires { IsUnmarked marks.old.items }
    ensures { AreTaken catalog.now dumper.now.running merger.now outs.now (length marks.old.items) marks.new.items }
{
    take_needed(marks, catalog, dumper, merger);
    take_jobs(marks, dumper, merger, outs);
}

/// The slots of a store of so many that are free, rising: no image stands there that is needed, no job reserves them,
/// and no request is out on them.
///
/// # Errors
///
/// Out of memory where a list finds no room.
pub fn free_in(
    alloc: Global,
    count: usize,
    catalog: &Catalog,
    dumper: &Dumper,
    merger: &Merger,
    outs: &[Option<RequestId>],
) -> Result<Vec<usize>, AllocError>
    ensures { IfOk result (λ slots. AreFree catalog.now dumper.now.running merger.now outs.now count slots.items) }
{
    let mut marks = vec![in alloc; false; count]?;
    mark_taken(&mut marks, catalog, dumper, merger, outs);
    free_slots(alloc, &marks)
}

/// A law: a free slot is one of the store, in which nothing stands that is needed, and that no job has; free slots
/// rise.
pub fn free_law()
    ensures { FreeSlotsLaw }
{}
