//! What entries change of the spaces of a memory, kept beside it.
ghost use Rattle.std.specs.Prelude.{◌≡◌, ℕ, true, cond, nat_eq, [], Some, OnOk};
ghost use Rattle.std.specs.BTreeMap.{is_at};
ghost use Rattle.std.specs.Map.{lookup};
ghost use Rattle.std.specs.Option.{option_map};
ghost use Rattle.std.specs.Ordering.{nat_cmp};
ghost use Rattle.std.specs.FinMap as finmap;
ghost use Rattle.sd_areas.specs.Memory.{memory_of, space_of};
ghost use Rattle.sd_areas.specs.PlainMemory.{PlainMemory, Space};
ghost use Rattle.sd_pagetable.specs.Nested.{inside, is_alive};
ghost use Rattle.sd_fold.specs.Overlay.{memory_over, pages_over, with_space};

use crate::changes::Changes;
use sd_areas::{Snapshot, SpaceId};
use sd_journal::Pages;
use std::alloc::{AllocError, Global};
use std::collections::BTreeMap;

/// The spaces that were touched: with what was changed of their pages, or gone.
pub(crate) type Overlay = BTreeMap<SpaceId, Option<Changes>>;

/// The pages of a space that a memory has. A space that isn't alive has none.
pub(crate) fn pages_in<'a>(base: &'a Snapshot, none: &'a Pages, space: SpaceId) -> &'a Pages
    requires { none.now.entries ≡ [] }
    ensures { space_of result.now.entries ≡ inside (memory_of base.now) space }
{
    base.spaces.get(&space).unwrap_or(none)
}

/// What was changed of the pages of a living space.
pub(crate) fn changes_in<'a>(overlay: &'a Overlay, none: &'a Changes, space: SpaceId) -> &'a Changes
    requires { none.now.entries ≡ [] }
    ensures { (base : PlainMemory) → is_alive (memory_over overlay.now.entries base) space ≡ true
        → pages_over result.now.entries (inside base space)
        ≡ inside (memory_over overlay.now.entries base) space }
{
    match overlay.get(&space) {
        Some(Some(changes)) => changes,
        Some(None) => none,
        None => none,
    }
}

/// Takes out what was changed of the pages of a living space.
pub(crate) fn take_changes(alloc: Global, overlay: &mut Overlay, space: SpaceId) -> Changes
    ensures changes { (base : PlainMemory) → is_alive (memory_over overlay.old.entries base) space ≡ true
        → pages_over result.entries (inside base space)
        ≡ inside (memory_over overlay.old.entries base) space }
    ensures rest { (base : PlainMemory) → (pages : Space)
        → finmap.insert (memory_over overlay.new.entries base) space pages
        ≡ finmap.insert (memory_over overlay.old.entries base) space pages }
{
    match overlay.remove(&space) {
        Some(Some(changes)) => changes,
        Some(None) => BTreeMap::new(alloc),
        None => BTreeMap::new(alloc),
    }
}

/// Puts what was changed of the pages of a space.
pub(crate) fn put_changes(
    overlay: &mut Overlay,
    space: SpaceId,
    changes: Changes,
) -> Result<(), AllocError>
    ensures { OnOk result ((base : PlainMemory) → memory_over overlay.new.entries base
        ≡ finmap.insert (memory_over overlay.old.entries base) space
        (pages_over changes.entries (inside base space))) }
{
    overlay.insert(space, Some(changes))?;
    Ok(())
}

/// Ends a space.
pub(crate) fn end_space(overlay: &mut Overlay, space: SpaceId) -> Result<(), AllocError>
    ensures { OnOk result ((base : PlainMemory) → memory_over overlay.new.entries base
        ≡ finmap.remove (memory_over overlay.old.entries base) space) }
{
    overlay.insert(space, None)?;
    Ok(())
}

/// Puts what became of a space.
pub(crate) fn put_layer(
    overlay: &mut Overlay,
    space: SpaceId,
    layer: Option<Changes>,
) -> Result<(), AllocError>
    ensures memory { OnOk result ((base : PlainMemory) → memory_over overlay.new.entries base
        ≡ with_space (memory_over overlay.old.entries base) space
        (option_map (λ changes. pages_over changes.entries (inside base space)) layer)) }
    ensures entry { OnOk result ((other : ℕ) → lookup (is_at (nat_cmp other)) overlay.new.entries
        ≡ cond (nat_eq other space) (Some layer) (lookup (is_at (nat_cmp other)) overlay.old.entries)) }
{
    overlay.insert(space, layer)?;
    Ok(())
}
