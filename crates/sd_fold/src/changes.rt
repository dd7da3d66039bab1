//! What entries change of the pages of one space, kept beside the pages that are there.
ghost use Rattle.std.specs.Prelude.{cond, nat_eq, ◌≡◌, ◌+◌, ◌-◌, ◌<◌, ◌≤◌, ◌^◌, ℕ, Some, None, Option, length};
ghost use Rattle.std.specs.Prelude.{OnOk, IfOk, IsSome, MatchOption};
ghost use Rattle.std.specs.BTreeMap.{is_at};
ghost use Rattle.std.specs.FinMap as finmap;
ghost use Rattle.std.specs.Map.{lookup};
ghost use Rattle.std.specs.Option.{option_map};
ghost use Rattle.std.specs.Ordering.{nat_cmp};
ghost use Rattle.std.specs.declared.ops.Bound.TheVariants.{Included};
ghost use Rattle.sd_areas.specs.Memory.{page_of_snapshot, space_of};
ghost use Rattle.sd_areas.specs.PlainMemory.{Page, Space};
ghost use Rattle.sd_pagetable.specs.Access.{stored_at};
ghost use Rattle.sd_pagetable.specs.Firsts.{IsFirstFrom};
ghost use Rattle.sd_pagetable.specs.Nested.{change_within, remove_within, set_within};
ghost use Rattle.sd_pagetable.specs.Page.{zeros};
ghost use Rattle.sd_fold.specs.Overlay.{IsFilled, changes_of, pages_over};

use crate::copying::copy_of_found;
use sd_areas::{PAGE_SIZE, PageNo, Prot, SnapshotPage};
use sd_journal::{Pages, zero_page};
use std::alloc::{AllocError, Global};
use std::collections::BTreeMap;
use std::collections::btree_map::Range;
use std::ops::Bound;

/// The pages that were touched: with what they have now, or unmapped.
pub(crate) type Changes = BTreeMap<PageNo, Option<SnapshotPage>>;

/// Puts a page, or unmaps it.
pub(crate) fn put(
    changes: &mut Changes,
    page: PageNo,
    found: Option<SnapshotPage>,
) -> Result<(), AllocError>
    ensures put { OnOk result (changes_of changes.new.entries
        ≡ finmap.insert (changes_of changes.old.entries) page (option_map page_of_snapshot found)) }
    ensures entry { OnOk result ((other : ℕ) → lookup (is_at (nat_cmp other)) changes.new.entries
        ≡ cond (nat_eq other page) (Some found) (lookup (is_at (nat_cmp other)) changes.old.entries)) }
{
    changes.insert(page, found)?;
    Ok(())
}

/// Takes a page out, if it is mapped: a copy of the one below where it wasn't touched yet.
fn take(
    alloc: Global,
    changes: &mut Changes,
    pages: &Pages,
    page: PageNo,
) -> Result<Option<SnapshotPage>, AllocError>
    ensures found { IfOk result (λ found. option_map page_of_snapshot found
        ≡ finmap.get (pages_over changes.old.entries (space_of pages.now.entries)) page) }
    ensures rest { OnOk result (pages_over changes.new.entries (space_of pages.now.entries)
        ≡ finmap.remove (pages_over changes.old.entries (space_of pages.now.entries)) page) }
{
    match changes.insert(page, None)? {
        Some(found) => Ok(found),
        None => copy_of_found(alloc, pages.get(&page)),
    }
}

/// Maps a run of pages of zeros, whatever was there.
pub(crate) fn map_run(
    alloc: Global,
    changes: &mut Changes,
    first: u64,
    end: u64,
    prot: Prot,
) -> Result<(), AllocError>
    requires ordered { first ≤ end }
    requires within { end ≤ 2 ^ 35 }
    ensures { OnOk result ((pages : Space) → pages_over changes.new.entries pages
        ≡ set_within (pages_over changes.old.entries pages) first (end - first)
        (record { prot = prot; bytes = zeros })) }
{
    for number in first..end {
        let page = PageNo::new(number).unwrap();
        put(changes, page, Some(zero_page(alloc, prot)?))?;
    }
    Ok(())
}

/// The first page from a number on that was touched.
fn first_from(changes: &Changes, start: PageNo) -> Option<PageNo>
    ensures { IsFirstFrom (changes_of changes.now.entries) (Included start) result }
{
    let (page, _) = changes
        .range((Bound::Included(start), Bound::Unbounded))
        .next()?;
    Some(*page)
}

/// Forgets what became of a page.
fn forget(changes: &mut Changes, page: PageNo)
    ensures rest { changes_of changes.new.entries ≡ finmap.remove (changes_of changes.old.entries) page }
    ensures fewer { IsSome (finmap.get (changes_of changes.old.entries) page)
        → length changes.new.entries < length changes.old.entries }
{
    let _ = changes.remove(&page);
}

/// Forgets what became of each page of a run.
fn forget_run(changes: &mut Changes, first: PageNo, end: u64)
    ensures { changes_of changes.new.entries
        ≡ remove_within (changes_of changes.old.entries) first (end - first) }
{
    while let Some(page) = first_from(changes, first) {
        if page.number() >= end {
            return;
        }
        forget(changes, page);
    }
}

/// Unmaps those of these pages that weren't touched.
fn hide_all(changes: &mut Changes, pages: Range<'_, PageNo, SnapshotPage>) -> Result<(), AllocError>
    ensures { OnOk result (IsFilled (λ _. None) pages.entry changes.old.entries changes.new.entries) }
{
    for (page, _) in pages {
        if !changes.contains_key(page) {
            put(changes, *page, None)?;
        }
    }
    Ok(())
}

/// Puts copies of those of these pages that weren't touched.
fn copy_all(alloc: Global, changes: &mut Changes, pages: &Pages) -> Result<(), AllocError>
    ensures { OnOk result (IsFilled (λ page. Some (page_of_snapshot page)) pages.now.entries
        changes.old.entries changes.new.entries) }
{
    for (page, found) in pages {
        if !changes.contains_key(page) {
            put(changes, *page, Some(found.try_clone(alloc)?))?;
        }
    }
    Ok(())
}

/// Unmaps each page of a run.
pub(crate) fn unmap_run(
    changes: &mut Changes,
    pages: &Pages,
    first: PageNo,
    end: u64,
) -> Result<(), AllocError>
    requires some { first < end }
    requires within { end ≤ 2 ^ 35 }
    ensures { OnOk result (pages_over changes.new.entries (space_of pages.now.entries)
        ≡ remove_within (pages_over changes.old.entries (space_of pages.now.entries)) first
        (end - first)) }
{
    forget_run(changes, first, end);
    let last = PageNo::new(end - 1).unwrap();
    hide_all(
        changes,
        pages.range((Bound::Included(first), Bound::Included(last))),
    )
}

/// The page with this number, where a map can have it: none past its last page.
fn page_in<X>(pages: &BTreeMap<PageNo, X>, number: u64) -> Option<PageNo>
    ensures { MatchOption result (lookup (is_at (nat_cmp number)) pages.now.entries ≡ None)
        (λ page. page ≡ number) }
{
    let (last, _) = pages.last_key_value()?;
    if number > last.number() {
        return None;
    }
    PageNo::new(number)
}

/// The page with this number, where it can be mapped.
pub(crate) fn page_with(changes: &Changes, pages: &Pages, number: u64) -> Option<PageNo>
    ensures { MatchOption result
        (finmap.get (pages_over changes.now.entries (space_of pages.now.entries)) number ≡ None)
        (λ page. page ≡ number) }
{
    match page_in(changes, number) {
        Some(page) => Some(page),
        None => page_in(pages, number),
    }
}

/// Sets the permissions of a page, where it is mapped.
fn protect(
    alloc: Global,
    changes: &mut Changes,
    pages: &Pages,
    page: PageNo,
    prot: Prot,
) -> Result<(), AllocError>
    ensures mapped { OnOk result ((before : Page)
        → finmap.get (pages_over changes.old.entries (space_of pages.now.entries)) page ≡ Some before
        → pages_over changes.new.entries (space_of pages.now.entries)
        ≡ finmap.insert (pages_over changes.old.entries (space_of pages.now.entries)) page
        (record before { prot = prot })) }
    ensures hole { OnOk result (finmap.get (pages_over changes.old.entries (space_of pages.now.entries)) page ≡ None
        → pages_over changes.new.entries (space_of pages.now.entries)
        ≡ pages_over changes.old.entries (space_of pages.now.entries)) }
{
    let Some(mut found) = take(alloc, changes, pages, page)? else {
        return Ok(());
    };
    found.prot = prot;
    put(changes, page, Some(found))
}

/// Sets the permissions of each page of a run that is mapped.
pub(crate) fn protect_run(
    alloc: Global,
    changes: &mut Changes,
    pages: &Pages,
    first: u64,
    end: u64,
    prot: Prot,
) -> Result<(), AllocError>
    requires ordered { first ≤ end }
    requires within { end ≤ 2 ^ 35 }
    ensures { OnOk result (pages_over changes.new.entries (space_of pages.now.entries)
        ≡ change_within (λ (page : Page). record page { prot = prot })
        (pages_over changes.old.entries (space_of pages.now.entries)) first (end - first)) }
{
    for number in first..end {
        let page = PageNo::new(number).unwrap();
        protect(alloc, changes, pages, page, prot)?;
    }
    Ok(())
}

/// Stores bytes at an offset of a page, where it is mapped.
pub(crate) fn store(
    alloc: Global,
    changes: &mut Changes,
    pages: &Pages,
    page: PageNo,
    offset: usize,
    bytes: &[u8],
) -> Result<(), AllocError>
    requires { offset + length bytes.now ≤ 4096 }
    ensures { OnOk result ((before : Page)
        → finmap.get (pages_over changes.old.entries (space_of pages.now.entries)) page ≡ Some before
        → pages_over changes.new.entries (space_of pages.now.entries)
        ≡ finmap.insert (pages_over changes.old.entries (space_of pages.now.entries)) page
        (record before { bytes = stored_at before.bytes offset bytes.now })) }
{
    let Some(mut found) = take(alloc, changes, pages, page)? else {
        return Ok(());
    };
    write(&mut found.bytes, offset, bytes);
    put(changes, page, Some(found))
}

/// Writes bytes into a page.
fn write(page: &mut [u8; PAGE_SIZE], offset: usize, bytes: &[u8])
    requires { offset + length bytes.now ≤ 4096 }
    ensures { page.new ≡ stored_at page.old offset bytes.now }
{
    page[offset..offset + bytes.len()].copy_from_slice(bytes);
}

/// A copy of changes.
fn copy_of_changes(alloc: Global, changes: &Changes) -> Result<Changes, AllocError>
    ensures { IfOk result (λ copy. changes_of copy.entries ≡ changes_of changes.now.entries) }
{
    let mut copy = BTreeMap::new(alloc);
    for (page, found) in changes {
        copy.insert(*page, copy_of_found(alloc, found.as_ref())?)?;
    }
    Ok(copy)
}

/// The changes that make the pages of a child of those of its parent, each with the changes over it.
pub(crate) fn changes_of_child(
    alloc: Global,
    changes: &Changes,
    pages: &Pages,
    pages_of_child: &Pages,
) -> Result<Changes, AllocError>
    ensures { IfOk result (λ child. pages_over child.entries (space_of pages_of_child.now.entries)
        ≡ pages_over changes.now.entries (space_of pages.now.entries)) }
{
    let mut child = copy_of_changes(alloc, changes)?;
    copy_all(alloc, &mut child, pages)?;
    hide_all(&mut child, pages_of_child.range(..))?;
    Ok(child)
}
