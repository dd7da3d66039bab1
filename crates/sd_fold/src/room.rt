//! Room in a memory for what is to be put into it: all that needs memory is done here, and undone where it fails.
ghost use Rattle.std.specs.Prelude.{◌≡◌, true, false, reverse, is_some, IfOk, OnOk, OnErr};
ghost use Rattle.std.specs.FinMap as finmap;
ghost use Rattle.sd_areas.specs.Memory.{memory_of, page_of_snapshot};
ghost use Rattle.sd_pagetable.specs.Nested.{inside, is_alive, put_at, value_at};
ghost use Rattle.sd_fold.specs.Overlay.{memory_over, pages_over};
ghost use Rattle.sd_fold.specs.Room.{HasPages, HasRoom, before, without, without_page};

use crate::added::Added;
use crate::changes::{Changes, put};
use crate::overlay::{Overlay, put_layer};
use sd_areas::{PageNo, Snapshot, SnapshotPage, SpaceId};
use std::alloc::{AllocError, Global};
use std::collections::BTreeMap;

/// Puts into a memory what is new to it: the spaces that changes are in, and the pages that they put where none is
/// mapped. What is left is to be put in place of what is there.
///
/// # Errors
///
/// Out of memory where a growth was refused: the memory is as before.
pub(crate) fn make_room(
    alloc: Global,
    base: &mut Snapshot,
    overlay: Overlay,
) -> Result<Overlay, AllocError>
    ensures same { IfOk result (λ left. memory_over left.entries (memory_of base.new)
        ≡ memory_over overlay.entries (memory_of base.old)) }
    ensures room { IfOk result (λ left. HasRoom left.entries (memory_of base.new)) }
    ensures err { OnErr result (memory_of base.new ≡ memory_of base.old) }
    ensures checkpoint { base.new.checkpoint ≡ base.old.checkpoint }
{
    let mut added = Vec::new(alloc);
    let left = add_all(alloc, base, overlay, &mut added);
    if left.is_err() {
        take_out(base, added);
    }
    left
}

/// Adds what isn't there yet of all changes, and returns those that are left.
fn add_all(
    alloc: Global,
    base: &mut Snapshot,
    overlay: Overlay,
    added: &mut Vec<Added>,
) -> Result<Overlay, AllocError>
    ensures same { IfOk result (λ left. memory_over left.entries (memory_of base.new)
        ≡ memory_over overlay.entries (memory_of base.old)) }
    ensures room { IfOk result (λ left. HasRoom left.entries (memory_of base.new)) }
    ensures undo { before (reverse added.new.items) (memory_of base.new)
        ≡ before (reverse added.old.items) (memory_of base.old) }
    ensures checkpoint { base.new.checkpoint ≡ base.old.checkpoint }
{
    let mut left = BTreeMap::new(alloc);
    for (space, layer) in overlay {
        match layer {
            Some(changes) => {
                let rest = add_changes(alloc, base, space, changes, added)?;
                put_layer(&mut left, space, Some(rest))?;
            }
            None => put_layer(&mut left, space, None)?,
        }
    }
    Ok(left)
}

/// Adds what isn't there yet of the changes of a space, and returns those that are left.
fn add_changes(
    alloc: Global,
    base: &mut Snapshot,
    space: SpaceId,
    changes: Changes,
    added: &mut Vec<Added>,
) -> Result<Changes, AllocError>
    ensures rest { OnOk result (memory_of base.new
        ≡ finmap.insert (memory_of base.old) space (inside (memory_of base.new) space)) }
    ensures same { IfOk result (λ left. pages_over left.entries (inside (memory_of base.new) space)
        ≡ pages_over changes.entries (inside (memory_of base.old) space)) }
    ensures room { IfOk result (λ left. HasPages left.entries (inside (memory_of base.new) space)) }
    ensures undo { before (reverse added.new.items) (memory_of base.new)
        ≡ before (reverse added.old.items) (memory_of base.old) }
    ensures checkpoint { base.new.checkpoint ≡ base.old.checkpoint }
{
    add_space(alloc, base, space, added)?;
    add_pages(alloc, base, space, changes, added)
}

/// Adds a space, if it isn't there.
fn add_space(
    alloc: Global,
    base: &mut Snapshot,
    space: SpaceId,
    added: &mut Vec<Added>,
) -> Result<(), AllocError>
    ensures there { OnOk result (memory_of base.new
        ≡ finmap.insert (memory_of base.old) space (inside (memory_of base.old) space)) }
    ensures undo { before (reverse added.new.items) (memory_of base.new)
        ≡ before (reverse added.old.items) (memory_of base.old) }
    ensures checkpoint { base.new.checkpoint ≡ base.old.checkpoint }
{
    if base.spaces.contains_key(&space) {
        return Ok(());
    }
    added.push(Added::Space(space))?;
    base.add_space(alloc, space)
}

/// Adds those pages of a space that changes put and that aren't there, and returns the changes that are left.
fn add_pages(
    alloc: Global,
    base: &mut Snapshot,
    space: SpaceId,
    changes: Changes,
    added: &mut Vec<Added>,
) -> Result<Changes, AllocError>
    requires { is_alive (memory_of base.old) space ≡ true }
    ensures rest { OnOk result (memory_of base.new
        ≡ finmap.insert (memory_of base.old) space (inside (memory_of base.new) space)) }
    ensures same { IfOk result (λ left. pages_over left.entries (inside (memory_of base.new) space)
        ≡ pages_over changes.entries (inside (memory_of base.old) space)) }
    ensures room { IfOk result (λ left. HasPages left.entries (inside (memory_of base.new) space)) }
    ensures undo { before (reverse added.new.items) (memory_of base.new)
        ≡ before (reverse added.old.items) (memory_of base.old) }
    ensures checkpoint { base.new.checkpoint ≡ base.old.checkpoint }
{
    let mut left = BTreeMap::new(alloc);
    for (page, change) in changes {
        match change {
            Some(found) => {
                if has_page(base, space, page) {
                    put(&mut left, page, Some(found))?;
                } else {
                    add_page(base, space, page, found, added)?;
                }
            }
            None => put(&mut left, page, None)?,
        }
    }
    Ok(left)
}

/// Adds a page to a space that is there and has none at its number.
fn add_page(
    base: &mut Snapshot,
    space: SpaceId,
    page: PageNo,
    found: SnapshotPage,
    added: &mut Vec<Added>,
) -> Result<(), AllocError>
    requires alive { is_alive (memory_of base.old) space ≡ true }
    requires none { is_some (value_at (memory_of base.old) space page) ≡ false }
    ensures there { OnOk result (memory_of base.new
        ≡ put_at (memory_of base.old) space page (page_of_snapshot found)) }
    ensures undo { before (reverse added.new.items) (memory_of base.new)
        ≡ before (reverse added.old.items) (memory_of base.old) }
    ensures checkpoint { base.new.checkpoint ≡ base.old.checkpoint }
{
    added.push(Added::Page(space, page))?;
    base.put_page(space, page, found.prot, found.bytes)
}

/// Whether a page of a space is mapped.
fn has_page(base: &Snapshot, space: SpaceId, page: PageNo) -> bool
    ensures { result ≡ is_some (value_at (memory_of base.now) space page) }
{
    match base.spaces.get(&space) {
        Some(pages) => pages.contains_key(&page),
        None => false,
    }
}

/// Takes out again what was added.
fn take_out(base: &mut Snapshot, added: Vec<Added>)
    ensures undone { memory_of base.new ≡ before (reverse added.items) (memory_of base.old) }
    ensures checkpoint { base.new.checkpoint ≡ base.old.checkpoint }
{
    let mut added = added;
    while let Some(last) = added.pop() {
        take_one_out(base, last);
    }
}

/// Takes out what was added last.
fn take_one_out(base: &mut Snapshot, last: Added)
    ensures undone { memory_of base.new ≡ without last (memory_of base.old) }
    ensures checkpoint { base.new.checkpoint ≡ base.old.checkpoint }
{
    match last {
        Added::Space(space) => remove_space(base, space),
        Added::Page(space, page) => remove_page(base, space, page),
    }
}

/// Removes a space, if it is there.
pub(crate) fn remove_space(base: &mut Snapshot, space: SpaceId)
    ensures gone { memory_of base.new ≡ finmap.remove (memory_of base.old) space }
    ensures checkpoint { base.new.checkpoint ≡ base.old.checkpoint }
{
    let _ = base.spaces.remove(&space);
}

/// Unmaps a page of a space, if it is there.
pub(crate) fn remove_page(base: &mut Snapshot, space: SpaceId, page: PageNo)
    ensures gone { memory_of base.new ≡ without_page (memory_of base.old) space page }
    ensures checkpoint { base.new.checkpoint ≡ base.old.checkpoint }
{
    if let Some(pages) = base.spaces.get_mut(&space) {
        let _ = pages.remove(&page);
    }
}
