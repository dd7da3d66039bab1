//! A memory that begins with a snapshot's pages.
ghost use Rattle.std.specs.Prelude.{◌≡◌, ◌⊎◌, ◌+◌, ◌≤◌, ℕ, ◌==◌, true, false, nat_lt, IsTrue, Some, None, Ok, Err};
ghost use Rattle.std.specs.Prelude.{IfOk, IfErr, OnOk};
ghost use Rattle.std.specs.Ordering.{nat_cmp};
ghost use Rattle.std.specs.BTreeMap.{get};
ghost use Rattle.std.specs.List.{list_any};
ghost use Rattle.std.specs.Option.{option_map};
ghost use Rattle.std.specs.FinMap as finmap;
ghost use Rattle.sd_areas.specs.Memory.{memory_of, space_of};
ghost use Rattle.sd_areas.specs.Calls.{within_areas};
ghost use Rattle.sd_areas.specs.PlainMemory as plain;
ghost use Rattle.sd_pagetable.specs.declared.access_error.AccessError.TheVariants.{Refused};
ghost use Rattle.sd_pagetable.specs.declared.memory_error.MemoryError.TheVariants.{Denied as DeniedError, OutOfMemory};
ghost use Rattle.sd_pagetable.specs.declared.memory_refusal.MemoryRefusal.TheVariants.{Enomem};
ghost use Rattle.sd_pagetable.specs.Nested.{inside, is_alive, total};
ghost use Rattle.sd_pagetable.specs.Contents.{page_count, plain_of};
ghost use Rattle.sd_pagetable.specs.Page.{zeros};
ghost use Rattle.sd_pagetable.specs.RefusalOrder.{Answers, prots_in};
ghost use Rattle.sd_pagetable.specs.Loaded.{is_zero_page, frames_for, nonzero_pages, is_over_in_space};
ghost use Rattle.sd_pagetable.specs.Loaded.{snapshot_refusal};
ghost use Rattle.sd_pagetable.specs.Loaded.{IsBegunMemory, IsLoaded};

use crate::fork_calls::add_areas;
use crate::memory_error::MemoryError;
use crate::memory_refusal::MemoryRefusal;
use crate::paging::Paging;
use crate::range_calls::Areas;
use sd_areas::{
    AreaMap, MAPPED_PAGE_LIMIT, PAGE_SIZE, PageNo, SPACE_LIMIT, Snapshot, SnapshotPage, SpaceId,
};
use std::alloc::{AllocError, Global};
use std::collections::BTreeMap;

/// The pages of a snapshot's space.
type Pages = BTreeMap<PageNo, SnapshotPage>;

/// Whether bytes are zeros alone.
fn are_zeros(bytes: &[u8]) -> bool
    ensures { result ≡ is_zero_page bytes.now }
{
    bytes.iter().all(|byte| *byte == 0)
}

/// Whether a page has zeros alone.
pub(crate) fn is_zero(page: &[u8; PAGE_SIZE]) -> bool
    ensures value { result ≡ is_zero_page page.now }
    ensures zeros { IsTrue result → page.now ≡ zeros }
{
    are_zeros(page)
}

/// How many pages of a space aren't all zeros.
fn nonzero_in(pages: &Pages) -> usize
    ensures { result ≡ total frames_for (space_of pages.now.entries) }
{
    let mut count = 0;
    for (_, page) in pages {
        if !is_zero(&page.bytes) {
            count += 1;
        }
    }
    count
}

/// Whether more pages than there are frames aren't all zeros.
fn is_short(frames: usize, snapshot: &Snapshot) -> bool
    ensures { result ≡ nat_lt frames (nonzero_pages (memory_of snapshot.now)) }
{
    let mut left = frames;
    for (_, pages) in &snapshot.spaces {
        let needed = nonzero_in(pages);
        if needed > left {
            return true;
        }
        left -= needed;
    }
    false
}

/// Whether more pages are mapped than can be.
fn is_crowded(snapshot: &Snapshot) -> bool
    ensures { result ≡ nat_lt 65536 (page_count (memory_of snapshot.now)) }
{
    let mut left = MAPPED_PAGE_LIMIT as usize;
    for (_, pages) in &snapshot.spaces {
        let count = pages.len();
        if count > left {
            return true;
        }
        left -= count;
    }
    false
}

/// The areas of a snapshot's space.
///
/// # Errors
///
/// ENOMEM for a number outside 1 to 16 and for over 1,024 areas, and out of memory.
fn areas_in(alloc: Global, space: SpaceId, pages: &Pages) -> Result<AreaMap, MemoryError>
    ensures ok { IfOk result
        (λ areas. (areas ≡ prots_in (space_of pages.now.entries))
        × (is_over_in_space (space, space_of pages.now.entries) ≡ false)) }
    ensures over { result ≡ Err (DeniedError (Refused Enomem))
        → is_over_in_space (space, space_of pages.now.entries) ≡ true }
    ensures errors { IfErr result (λ e. (e ≡ OutOfMemory) ⊎ (e ≡ DeniedError (Refused Enomem))) }
{
    if space.number() == 0 || space.number() > SPACE_LIMIT {
        return Err(MemoryRefusal::Enomem.into());
    }
    Ok(AreaMap::from_pages(alloc, pages)?)
}

/// The areas of each space of a snapshot.
///
/// # Errors
///
/// ENOMEM where a space has a number outside 1 to 16 or over 1,024 areas, and out of memory.
fn areas_by_space(alloc: Global, snapshot: &Snapshot) -> Result<Areas, MemoryError>
    ensures ok { IfOk result
        (λ areas. (space : ℕ)
        → get nat_cmp areas space
        ≡ option_map prots_in (finmap.get (memory_of snapshot.now) space)) }
    ensures within { OnOk result
        (list_any is_over_in_space (finmap.entries (memory_of snapshot.now)) ≡ false) }
    ensures over { result ≡ Err (DeniedError (Refused Enomem))
        → list_any is_over_in_space (finmap.entries (memory_of snapshot.now)) ≡ true }
    ensures errors { IfErr result (λ e. (e ≡ OutOfMemory) ⊎ (e ≡ DeniedError (Refused Enomem))) }
{
    let mut areas = BTreeMap::new(alloc);
    for (space, pages) in &snapshot.spaces {
        let own = areas_in(alloc, *space, pages)?;
        add_areas(&mut areas, *space, own)?;
    }
    Ok(areas)
}

/// The areas of each space of a snapshot that a memory over so many frames can begin with.
///
/// # Errors
///
/// No-frame, ENOMEM and out of memory, as `Memory::from_snapshot` has them.
pub(crate) fn areas_of(
    alloc: Global,
    frames: usize,
    snapshot: &Snapshot,
) -> Result<Areas, MemoryError>
    ensures ok { IfOk result
        (λ areas. (space : ℕ)
        → get nat_cmp areas space
        ≡ option_map prots_in (finmap.get (memory_of snapshot.now) space)) }
    ensures due { Answers (snapshot_refusal frames (memory_of snapshot.now)) result }
    ensures tested { result ≡ Err OutOfMemory
        → (nonzero_pages (memory_of snapshot.now) ≤ frames) × (page_count (memory_of snapshot.now) ≤ 65536) }
{
    if is_short(frames, snapshot) {
        return Err(MemoryRefusal::NoFrame.into());
    }
    if is_crowded(snapshot) {
        return Err(MemoryRefusal::Enomem.into());
    }
    areas_by_space(alloc, snapshot)
}

/// Maps the pages of a snapshot's space.
///
/// # Errors
///
/// Out of memory where a table or the list of frames can't grow: some of the pages are mapped.
fn load_space(paging: &mut Paging, space: SpaceId, pages: &Pages) -> Result<(), AllocError>
    requires alive { is_alive paging.old.spaces space ≡ true }
    requires bare { inside paging.old.spaces space ≡ finmap.empty }
    requires begun { IsBegunMemory paging.old }
    requires few { page_count paging.old.spaces + finmap.len (space_of pages.now.entries) ≤ 65536 }
    requires room { nonzero_pages (plain_of paging.old) + total frames_for
        (space_of pages.now.entries) ≤ paging.old.pool }
    ensures begun { OnOk result (IsBegunMemory paging.new) }
    ensures pool { OnOk result (paging.new.pool ≡ paging.old.pool) }
    ensures memory { OnOk result
        (plain_of paging.new
        ≡ finmap.insert (plain_of paging.old) space (space_of pages.now.entries)) }
{
    for (page, found) in pages {
        paging.load(space, *page, found)?;
    }
    Ok(())
}

/// Maps the pages of a snapshot, where none is mapped yet.
///
/// # Errors
///
/// Out of memory where a table or the list of frames can't grow: some of the pages are mapped.
pub(crate) fn load(paging: &mut Paging, snapshot: &Snapshot) -> Result<(), AllocError>
    requires bare { paging.old.spaces ≡ finmap.empty }
    requires due { snapshot_refusal paging.old.pool (memory_of snapshot.now) ≡ None }
    ensures { OnOk result (IsLoaded paging.old.pool (memory_of snapshot.now) paging.new) }
{
    for (space, pages) in &snapshot.spaces {
        paging.add_space(*space)?;
        load_space(paging, *space, pages)?;
    }
    Ok(())
}
