//! Runs of pages, mapped, unmapped and protected, and the pages that a child shares.
ghost use Rattle.std.specs.Prelude.{◌≡◌, ◌+◌, ◌-◌, ◌<◌, ◌≤◌, ◌^◌, ◌&&◌, ℕ, ◌==◌, true, false, not, cond, None, Some};
ghost use Rattle.std.specs.Prelude.{is_some, IsSome, IfSome, IfOk, OnOk, OnErr, count_by};
ghost use Rattle.std.specs.FinMap as finmap;
ghost use Rattle.sd_areas.specs.Pages.{pages_from, is_within};
ghost use Rattle.sd_pagetable.specs.Nested.{inside, is_alive, set_within, remove_within, change_within, fill_within};
ghost use Rattle.sd_pagetable.specs.Nested.{map_values};
ghost use Rattle.sd_pagetable.specs.Page.{PageState, fresh_page, protected_page, shared_page, inherited_page};
ghost use Rattle.sd_pagetable.specs.Contents.{page_at, put_page, page_count};
ghost use Rattle.sd_pagetable.specs.Ranges.{bare_page, IsCleared};
ghost use Rattle.sd_pagetable.specs.Tracking.{with_space};

use crate::paging::Paging;
use sd_areas::{AreaMap, PageNo, Prot, SpaceId};
use sd_tables::RunChange;
use std::alloc::AllocError;
use std::ops::Bound;

/// The first mapped page of a run, or its end.
fn next_mapped(paging: &Paging, space: SpaceId, first: u64, end: u64) -> u64
    requires ordered { first ≤ end }
    requires within { end ≤ 2 ^ 35 }
    ensures reached { first ≤ result }
    ensures end { result ≤ end }
    ensures holes { (page : ℕ) → first ≤ page → page < result
        → page_at paging.now space page ≡ None }
    ensures there { result < end → IsSome (page_at paging.now space result) }
{
    let Some(start) = PageNo::new(first) else {
        return end;
    };
    match paging.first_from(space, Bound::Included(start)) {
        Some(page) => page.number().min(end),
        None => end,
    }
}

/// The page up to which those from one on are mapped, at most an end.
fn next_hole(paging: &Paging, space: SpaceId, first: u64, end: u64) -> u64
    requires ordered { first ≤ end }
    requires within { end ≤ 2 ^ 35 }
    ensures reached { first ≤ result }
    ensures end { result ≤ end }
    ensures mapped { (page : ℕ) → first ≤ page → page < result
        → IsSome (page_at paging.now space page) }
{
    match PageNo::new(first) {
        Some(start) => paging.mapped_to(space, start, end),
        None => first,
    }
}

/// How many pages of a run aren't mapped.
pub(crate) fn holes(paging: &Paging, space: SpaceId, first: u64, end: u64) -> u64
    requires ordered { first ≤ end }
    requires within { end ≤ 2 ^ 35 }
    ensures counted { result
        ≡ count_by (λ page. not (is_some (page_at paging.now space page)))
        (pages_from first (end - first)) }
    ensures few { result ≤ end - first }
{
    let mut count = 0;
    let mut reached = first;
    while reached < end {
        let mapped = next_mapped(paging, space, reached, end);
        count += mapped - reached;
        if mapped == end {
            return count;
        }
        reached = next_hole(paging, space, mapped + 1, end);
    }
    count
}

/// Maps pages of a run that aren't mapped, or passes those that are, from its first on. It returns the
/// page that it came to.
///
/// # Errors
///
/// Out of memory where the table can't grow, which is only where the first page isn't mapped: nothing changes.
fn fill_next(
    paging: &mut Paging,
    space: SpaceId,
    first: u64,
    end: u64,
    prot: Prot,
) -> Result<u64, AllocError>
    requires less { first < end }
    requires within { end ≤ 2 ^ 35 }
    requires alive { is_alive paging.old.spaces space ≡ true }
    requires room { (to : ℕ) → first ≤ to → to ≤ end
        → ((page : ℕ) → first ≤ page → page < to → page_at paging.old space page ≡ None)
        → page_count paging.old.spaces + (to - first) ≤ 65536 }
    ensures more { IfOk result (λ to. first < to) }
    ensures end { IfOk result (λ to. to ≤ end) }
    ensures value { IfOk result (λ to. paging.new
        ≡ with_space paging.old space
        (fill_within (inside paging.old.spaces space) first (to - first) (fresh_page prot))) }
    ensures hole { OnErr result (page_at paging.old space first ≡ None) }
    ensures err { OnErr result (paging.new ≡ paging.old) }
{
    let mapped = next_mapped(paging, space, first, end);
    if mapped == first {
        return Ok(next_hole(paging, space, first + 1, end));
    }
    paging.fill_run(space, PageNo::new(first).unwrap(), mapped, prot)
}

/// Maps the pages of a run that aren't mapped, from its first page on. It returns the page that
/// it came to: the end, or one that there was no memory for.
pub(crate) fn fill(paging: &mut Paging, space: SpaceId, first: u64, end: u64, prot: Prot) -> u64
    requires ordered { first ≤ end }
    requires within { end ≤ 2 ^ 35 }
    requires alive { is_alive paging.old.spaces space ≡ true }
    requires few { page_count paging.old.spaces + count_by
        (λ page. not (is_some (page_at paging.old space page)))
        (pages_from first (end - first)) ≤ 65536 }
    ensures reached { first ≤ result }
    ensures end { result ≤ end }
    ensures filled { paging.new
        ≡ with_space paging.old space
        (fill_within (inside paging.old.spaces space) first (result - first) (fresh_page prot)) }
    ensures hole { result < end → page_at paging.old space result ≡ None }
{
    let mut reached = first;
    while reached < end {
        let Ok(next) = fill_next(paging, space, reached, end, prot) else {
            return reached;
        };
        reached = next;
    }
    end
}

/// Unmaps a page, where it is mapped.
fn drop_page(paging: &mut Paging, space: SpaceId, page: PageNo)
    requires alive { is_alive paging.old.spaces space ≡ true }
    ensures { IsCleared paging.old paging.new space (λ number. number == page) }
{
    if paging.entry(space, page).is_some() {
        paging.remove(space, page);
    }
}

/// Takes out a page that areas don't have.
fn unfill_page(paging: &mut Paging, space: SpaceId, page: PageNo, areas: &AreaMap)
    requires alive { is_alive paging.old.spaces space ≡ true }
    ensures kept { is_some (finmap.get areas.now page) ≡ true → paging.new ≡ paging.old }
    ensures gone { is_some (finmap.get areas.now page) ≡ false
        → IsCleared paging.old paging.new space (λ number. number == page) }
{
    if areas.prot_of(page).is_some() {
        return;
    }
    drop_page(paging, space, page);
}

/// Takes out the pages of a run that areas don't have.
pub(crate) fn unfill(paging: &mut Paging, space: SpaceId, first: u64, end: u64, areas: &AreaMap)
    requires ordered { first ≤ end }
    requires within { end ≤ 2 ^ 35 }
    requires alive { is_alive paging.old.spaces space ≡ true }
    ensures { IsCleared paging.old paging.new space
        (λ page. is_within first (end - first) page && not (is_some (finmap.get areas.now page))) }
{
    for number in first..end {
        let page = PageNo::new(number).unwrap();
        unfill_page(paging, space, page, areas);
    }
}

/// Replaces pages of a run, all of them mapped, by fresh ones, from its first on. It returns the page
/// that it came to.
fn renew_next(paging: &mut Paging, space: SpaceId, first: u64, end: u64, prot: Prot) -> u64
    requires less { first < end }
    requires within { end ≤ 2 ^ 35 }
    requires alive { is_alive paging.old.spaces space ≡ true }
    requires there { IsSome (page_at paging.old space first) }
    ensures more { first < result }
    ensures end { result ≤ end }
    ensures value { paging.new
        ≡ with_space paging.old space
        (set_within (inside paging.old.spaces space) first (result - first) (fresh_page prot)) }
{
    let page = PageNo::new(first).unwrap();
    let reached = paging.change_run(space, page, end, RunChange::Renew(prot));
    if reached > first {
        return reached;
    }
    paging.renew(space, page, prot);
    first + 1
}

/// Replaces each page of a run, all of them mapped, by a fresh one.
pub(crate) fn renew(paging: &mut Paging, space: SpaceId, first: u64, end: u64, prot: Prot)
    requires ordered { first ≤ end }
    requires within { end ≤ 2 ^ 35 }
    requires alive { is_alive paging.old.spaces space ≡ true }
    requires there { (page : ℕ) → first ≤ page → page < end
        → IsSome (page_at paging.old space page) }
    ensures { paging.new
        ≡ with_space paging.old space
        (set_within (inside paging.old.spaces space) first (end - first) (fresh_page prot)) }
{
    let mut reached = first;
    while reached < end {
        reached = renew_next(paging, space, reached, end, prot);
    }
}

/// Unmaps each page of a run, all of them mapped.
fn unmap_mapped(paging: &mut Paging, space: SpaceId, first: u64, end: u64)
    requires ordered { first ≤ end }
    requires within { end ≤ 2 ^ 35 }
    requires alive { is_alive paging.old.spaces space ≡ true }
    requires there { (page : ℕ) → first ≤ page → page < end
        → IsSome (page_at paging.old space page) }
    ensures { IsCleared paging.old paging.new space (is_within first (end - first)) }
{
    for number in first..end {
        let page = PageNo::new(number).unwrap();
        paging.remove(space, page);
    }
}

/// Unmaps the first pages of a run that are mapped, one after the other. It returns the page that it came to.
fn unmap_next(paging: &mut Paging, space: SpaceId, first: u64, end: u64) -> u64
    requires less { first < end }
    requires within { end ≤ 2 ^ 35 }
    requires alive { is_alive paging.old.spaces space ≡ true }
    ensures more { first < result }
    ensures end { result ≤ end }
    ensures value { IsCleared paging.old paging.new space (is_within first (result - first)) }
{
    let mapped = next_mapped(paging, space, first, end);
    if mapped == end {
        return end;
    }
    let reached = next_hole(paging, space, mapped + 1, end);
    unmap_mapped(paging, space, mapped, reached);
    reached
}

/// Unmaps each page of a run.
pub(crate) fn unmap(paging: &mut Paging, space: SpaceId, first: PageNo, end: u64)
    requires ordered { first ≤ end }
    requires within { end ≤ 2 ^ 35 }
    requires alive { is_alive paging.old.spaces space ≡ true }
    ensures { paging.new
        ≡ with_space paging.old space
        (remove_within (inside paging.old.spaces space) first (end - first)) }
{
    let mut reached = first.number();
    while reached < end {
        reached = unmap_next(paging, space, reached, end);
    }
}

/// Sets the permissions of a page and write-protects it, where it is mapped.
fn protect_page(paging: &mut Paging, space: SpaceId, page: PageNo, prot: Prot)
    ensures mapped { IfSome (page_at paging.old space page)
        (λ (before : PageState). paging.new
        ≡ put_page paging.old space page (protected_page prot before)) }
    ensures hole { page_at paging.old space page ≡ None → paging.new ≡ paging.old }
{
    let Some(entry) = paging.entry(space, page) else {
        return;
    };
    paging.write_protect(space, page, entry, prot, entry.soft_dirty);
}

/// Sets the permissions of pages of a run that are mapped, and write-protects them, from its first on. It
/// returns the page that it came to.
fn protect_next(paging: &mut Paging, space: SpaceId, first: u64, end: u64, prot: Prot) -> u64
    requires less { first < end }
    requires within { end ≤ 2 ^ 35 }
    requires alive { is_alive paging.old.spaces space ≡ true }
    ensures more { first < result }
    ensures end { result ≤ end }
    ensures value { paging.new
        ≡ with_space paging.old space
        (change_within (protected_page prot) (inside paging.old.spaces space) first
        (result - first)) }
{
    let page = PageNo::new(first).unwrap();
    let reached = paging.change_run(space, page, end, RunChange::Protect(prot));
    if reached > first {
        return reached;
    }
    protect_page(paging, space, page, prot);
    first + 1
}

/// Sets the permissions of each page of a run that is mapped, and write-protects it.
pub(crate) fn protect(paging: &mut Paging, space: SpaceId, first: u64, end: u64, prot: Prot)
    requires ordered { first ≤ end }
    requires within { end ≤ 2 ^ 35 }
    requires alive { is_alive paging.old.spaces space ≡ true }
    ensures { paging.new
        ≡ with_space paging.old space
        (change_within (protected_page prot) (inside paging.old.spaces space) first (end - first)) }
{
    let mut reached = first;
    while reached < end {
        reached = protect_next(paging, space, reached, end, prot);
    }
}

/// Puts the child's pages into the classes of the parent's.
pub(crate) fn share_pages(paging: &mut Paging, parent: SpaceId, child: SpaceId)
    requires apart { parent ≡ child → ⊥ }
    requires parent { is_alive paging.old.spaces parent ≡ true }
    requires child { is_alive paging.old.spaces child ≡ true }
    requires copied { inside paging.old.spaces child
        ≡ map_values bare_page (inside paging.old.spaces parent) }
    ensures { paging.new
        ≡ with_space (with_space paging.old parent
        (map_values shared_page (inside paging.old.spaces parent))) child
        (map_values inherited_page (inside paging.old.spaces parent)) }
{
    let mut start = Bound::Unbounded;
    while let Some(found) = paging.first_entry_from(parent, start) {
        paging.inherit(parent, child, found.0, found.1);
        start = Bound::Excluded(found.0);
    }
}
