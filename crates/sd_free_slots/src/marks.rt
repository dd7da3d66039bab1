//! Marks of slots, one for each.
ghost use Rattle.std.specs.Prelude.{◌≡◌, true, IfOk, Some, Contains, slice_set};
ghost use Rattle.sd_free_slots.specs.Marks.{IsReachedAt, IsReachedFrom, TakesNeeded, TakesSlots, free_from};

use sd_chain::Catalog;
use std::alloc::{AllocError, Global};

/// Marks a slot, if the store has it.
pub(crate) fn take(marks: &mut Vec<bool>, slot: usize)
    ensures { marks.new.items ≡ slice_set marks.old.items slot true }
{
    if slot < marks.len() {
        marks[slot] = true;
    }
}

/// Marks a slot, if there is one.
pub(crate) fn take_some(marks: &mut Vec<bool>, slot: Option<usize>)
    ensures { TakesSlots (λ other. slot ≡ Some other) marks.old.items marks.new.items }
{
    if let Some(slot) = slot {
        take(marks, slot);
    }
}

/// Marks these slots.
pub(crate) fn take_all(marks: &mut Vec<bool>, slots: &[usize])
    ensures { TakesSlots (Contains slots.now) marks.old.items marks.new.items }
{
    for slot in slots {
        take(marks, *slot);
    }
}

/// Marks the slots of the images that the image of this serial reaches, its own among them. It takes no memory.
pub(crate) fn take_reached(marks: &mut Vec<bool>, catalog: &Catalog, serial: u64)
    ensures { TakesNeeded catalog.now (IsReachedAt catalog.now serial) marks.old.items marks.new.items }
{
    catalog.sound();
    let mut next = catalog.image(serial);
    while let Some(image) = next {
        take(marks, image.slot());
        next = catalog.parent(image);
    }
}

/// Marks the slots of the images that the image of this serial reaches, if there is one.
pub(crate) fn take_root(marks: &mut Vec<bool>, catalog: &Catalog, root: Option<u64>)
    ensures { TakesNeeded catalog.now (IsReachedFrom catalog.now root) marks.old.items marks.new.items }
{
    if let Some(serial) = root {
        take_reached(marks, catalog, serial);
    }
}

/// The slots that aren't marked, rising.
///
/// # Errors
///
/// Out of memory where the list finds no room.
pub(crate) fn free_slots(alloc: Global, marks: &[bool]) -> Result<Vec<usize>, AllocError>
    ensures { IfOk result (λ slots. slots.items ≡ free_from 0 marks.now) }
{
    let mut slots = Vec::new(alloc);
    for (slot, taken) in marks.iter().enumerate() {
        if !*taken {
            slots.push(slot)?;
        }
    }
    Ok(slots)
}
