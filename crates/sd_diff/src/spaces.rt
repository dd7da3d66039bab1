//! What differs in each space, by the runs that have its pages.
ghost use Rattle.std.specs.Prelude.{◌≡◌, ◌≢◌, ◌+◌, ◌*◌, ◌<◌, ◌≤◌, ◌==◌, ◌^◌, ◌↔◌, filter, length};
ghost use Rattle.std.specs.Prelude.{IfOk, IfErr, IsTrue, OnOk, IsErrOf};
ghost use Rattle.std.specs.Option.{option_map};
ghost use Rattle.sd_disk.specs.Reads.{OnlyReads};
ghost use Rattle.sd_restore.specs.declared.placed_run.PlacedRun.{PlacedRun as Placed};
ghost use Rattle.sd_restore.specs.Faulty.{FaultNames};
ghost use Rattle.sd_restore.specs.Placed.{IsInSlots};
ghost use Rattle.sd_diff.specs.Difference.{Adds, AddsPage, AddsProts, AddsWritten};
ghost use Rattle.sd_diff.specs.Held.{AreRising, held_at, held_in};
ghost use Rattle.sd_diff.specs.Parts.{HasRest, IsRest};
ghost use Rattle.sd_diff.specs.Spaces.{AreDifferences, ArePagesOf, RiseInSpaces, held_of};

use crate::difference::{AreaChange, Difference, PageRun, are_same_prots, push_change, push_pages};
use crate::page_pair::{PagePair, differ};
use crate::part::{Part, part_at, runs_from};
use sd_areas::{PAGE_NUMBER_LIMIT, PageNo, Prot, SPACE_LIMIT, SpaceId};
use sd_chain::Found;
use sd_disk::Disk;
use sd_restore::{Fault, PlacedRun};
use std::alloc::{AllocError, Global};

/// The permissions of the pages of a part.
fn prot_in(part: &Part) -> Option<Prot>
    ensures { result ≡ option_map (λ (r : Placed). r.prot) part.now.run }
{
    match &part.run {
        Some(run) => Some(run.prot),
        None => None,
    }
}

/// Notes the permissions of pages where they differ.
fn note_prots(
    areas: &mut Vec<AreaChange>,
    pages: &PageRun,
    old: Option<Prot>,
    new: Option<Prot>,
) -> Result<(), AllocError>
    requires within { pages.now.first + pages.now.count ≤ 2 ^ 35 }
    ensures adds { OnOk result (AddsProts pages.now old new areas.old.items areas.new.items) }
{
    if !are_same_prots(old, new) {
        let pages = *pages;
        push_change(areas, AreaChange { pages, old, new })?;
    }
    Ok(())
}

/// Notes a page that lies at two places, where its bytes differ there.
fn note_page<D: Disk>(
    disk: &mut D,
    page: PageRun,
    old: Found,
    new: Found,
    pair: &mut PagePair,
    written: &mut Vec<PageRun>,
) -> Result<(), Fault>
    requires one { page.count ≡ 1 }
    requires old { IsInSlots (length (D.contents disk.old)) old }
    requires new { IsInSlots (length (D.contents disk.old)) new }
    ensures adds { D.is_honest disk.new → OnOk result
        (AddsPage (D.contents disk.old) page old new written.old.items written.new.items) }
    ensures unnamed { IfErr result (FaultNames (λ _ _. ⊥)) }
    ensures reads { OnlyReads D.Disk disk.old disk.new }
    ensures device { IsErrOf result Fault.Device → D.failed disk.old < D.failed disk.new }
    ensures calls { D.calls disk.new ≤ D.calls disk.old + 2 }
    ensures empty { result ≢ Err Fault.EmptyChain }
{
    if differ(disk, old, new, pair)? {
        push_pages(written, page)?;
    }
    Ok(())
}

/// Whether pages lie at one place.
fn is_same_place(old: Found, new: Found) -> bool
    ensures { IsTrue result ↔ (old ≡ new) }
{
    match (old, new) {
        (Found::Zero, Found::Zero) => true,
        (
            Found::Data { slot, offset },
            Found::Data {
                slot: other,
                offset: place,
            },
        ) => slot == other && offset == place,
        _ => false,
    }
}

/// Notes of pages that two runs begin with those whose bytes differ. Where both have them at the same place, none is
/// read.
fn note_bytes<D: Disk>(
    disk: &mut D,
    pages: &PageRun,
    old: &PlacedRun,
    new: &PlacedRun,
    pair: &mut PagePair,
    written: &mut Vec<PageRun>,
) -> Result<(), Fault>
    requires old { IsRest pages.now.first (pages.now.first + pages.now.count) old.now }
    requires new { IsRest pages.now.first (pages.now.first + pages.now.count) new.now }
    requires old_slots { IsInSlots (length (D.contents disk.old)) old.now.there }
    requires new_slots { IsInSlots (length (D.contents disk.old)) new.now.there }
    ensures adds { D.is_honest disk.new → OnOk result (AddsWritten (D.contents disk.old) pages.now.space
        pages.now.first (pages.now.first + pages.now.count) (held_in (Some old.now)) (held_in (Some new.now))
        written.old.items written.new.items) }
    ensures unnamed { IfErr result (FaultNames (λ _ _. ⊥)) }
    ensures reads { OnlyReads D.Disk disk.old disk.new }
    ensures device { IsErrOf result Fault.Device → D.failed disk.old < D.failed disk.new }
    // Two calls a page at most, and none where both are the same pages of an image.
    ensures calls { D.calls disk.new ≤ D.calls disk.old + 2 * pages.now.count }
    ensures unread { old.now.there ≡ new.now.there → D.calls disk.new ≡ D.calls disk.old }
    ensures empty { result ≢ Err Fault.EmptyChain }
{
    if is_same_place(old.there, new.there) {
        return Ok(());
    }
    for k in 0..pages.count {
        let first = PageNo::new(pages.first.number() + k).unwrap();
        let page = PageRun {
            space: pages.space,
            first,
            count: 1,
        };
        note_page(disk, page, old.place(k), new.place(k), pair, written)?;
    }
    Ok(())
}

/// Notes of pages that a run begins with those that another memory has with other bytes.
fn note_against<D: Disk>(
    disk: &mut D,
    pages: &PageRun,
    old: &PlacedRun,
    new: &Part,
    pair: &mut PagePair,
    written: &mut Vec<PageRun>,
) -> Result<(), Fault>
    requires old { IsRest pages.now.first (pages.now.first + pages.now.count) old.now }
    requires slots { IsInSlots (length (D.contents disk.old)) old.now.there }
    requires new { HasRest (length (D.contents disk.old)) pages.now new.now }
    ensures adds { D.is_honest disk.new → OnOk result (AddsWritten (D.contents disk.old) pages.now.space
        pages.now.first (pages.now.first + pages.now.count) (held_in (Some old.now)) (held_in new.now.run)
        written.old.items written.new.items) }
    ensures unnamed { IfErr result (FaultNames (λ _ _. ⊥)) }
    ensures reads { OnlyReads D.Disk disk.old disk.new }
    ensures device { IsErrOf result Fault.Device → D.failed disk.old < D.failed disk.new }
    ensures empty { result ≢ Err Fault.EmptyChain }
{
    match &new.run {
        Some(after) => note_bytes(disk, pages, old, after, pair, written),
        None => Ok(()),
    }
}

/// Notes of pages those that both memories have, with other bytes.
fn note_written<D: Disk>(
    disk: &mut D,
    pages: &PageRun,
    old: &Part,
    new: &Part,
    pair: &mut PagePair,
    written: &mut Vec<PageRun>,
) -> Result<(), Fault>
    requires old { HasRest (length (D.contents disk.old)) pages.now old.now }
    requires new { HasRest (length (D.contents disk.old)) pages.now new.now }
    ensures adds { D.is_honest disk.new → OnOk result (AddsWritten (D.contents disk.old) pages.now.space
        pages.now.first (pages.now.first + pages.now.count) (held_in old.now.run) (held_in new.now.run)
        written.old.items written.new.items) }
    ensures unnamed { IfErr result (FaultNames (λ _ _. ⊥)) }
    ensures reads { OnlyReads D.Disk disk.old disk.new }
    ensures device { IsErrOf result Fault.Device → D.failed disk.old < D.failed disk.new }
    ensures empty { result ≢ Err Fault.EmptyChain }
{
    match &old.run {
        Some(before) => note_against(disk, pages, before, new, pair, written),
        None => Ok(()),
    }
}

/// Notes what differs in pages of which each memory has none, or those with which a run begins.
fn note_part<D: Disk>(
    disk: &mut D,
    pages: &PageRun,
    old: &Part,
    new: &Part,
    pair: &mut PagePair,
    into: &mut Difference,
) -> Result<(), Fault>
    requires within { pages.now.first + pages.now.count ≤ 2 ^ 35 }
    requires old { HasRest (length (D.contents disk.old)) pages.now old.now }
    requires new { HasRest (length (D.contents disk.old)) pages.now new.now }
    ensures adds { D.is_honest disk.new → OnOk result (Adds (D.contents disk.old) pages.now.space
        pages.now.first (pages.now.first + pages.now.count) (held_in old.now.run) (held_in new.now.run)
        into.old into.new) }
    ensures unnamed { IfErr result (FaultNames (λ _ _. ⊥)) }
    ensures reads { OnlyReads D.Disk disk.old disk.new }
    ensures device { IsErrOf result Fault.Device → D.failed disk.old < D.failed disk.new }
    ensures empty { result ≢ Err Fault.EmptyChain }
{
    note_prots(&mut into.areas, pages, prot_in(old), prot_in(new))?;
    note_written(disk, pages, old, new, pair, &mut into.written)
}

/// Notes what differs in a space, by the runs that have its pages.
fn diff_space<D: Disk>(
    disk: &mut D,
    space: SpaceId,
    old: &[PlacedRun],
    new: &[PlacedRun],
    pair: &mut PagePair,
    into: &mut Difference,
) -> Result<(), Fault>
    requires old { ArePagesOf (length (D.contents disk.old)) old.now }
    requires new { ArePagesOf (length (D.contents disk.old)) new.now }
    ensures adds { D.is_honest disk.new → AreRising old.now → AreRising new.now
        → OnOk result (Adds (D.contents disk.old) space 0 (2 ^ 35)
        (held_at old.now) (held_at new.now) into.old into.new) }
    ensures unnamed { IfErr result (FaultNames (λ _ _. ⊥)) }
    ensures reads { OnlyReads D.Disk disk.old disk.new }
    ensures device { IsErrOf result Fault.Device → D.failed disk.old < D.failed disk.new }
    ensures empty { result ≢ Err Fault.EmptyChain }
{
    let mut before = old;
    let mut after = new;
    let mut at = 0;
    while at < PAGE_NUMBER_LIMIT {
        let was = part_at(before, at);
        let is = part_at(after, at);
        let until = was.until.min(is.until);
        let first = PageNo::new(at).unwrap();
        let count = until - at;
        let pages = PageRun {
            space,
            first,
            count,
        };
        note_part(disk, &pages, &was, &is, pair, into)?;
        before = runs_from(before, until);
        after = runs_from(after, until);
        at = until;
    }
    Ok(())
}

/// The runs of one space, of those of all.
fn runs_of(alloc: Global, runs: &[PlacedRun], space: SpaceId) -> Result<Vec<PlacedRun>, AllocError>
    ensures { IfOk result (λ found. found.items ≡ filter (λ (r : Placed). r.space == space) runs.now) }
{
    let mut found = Vec::new(alloc);
    for run in runs {
        if run.space.number() == space.number() {
            found.push(*run)?;
        }
    }
    Ok(found)
}

/// Notes what differs in one space, of all runs.
fn diff_in<D: Disk>(
    alloc: Global,
    disk: &mut D,
    space: SpaceId,
    old: &[PlacedRun],
    new: &[PlacedRun],
    pair: &mut PagePair,
    into: &mut Difference,
) -> Result<(), Fault>
    requires old { ArePagesOf (length (D.contents disk.old)) old.now }
    requires new { ArePagesOf (length (D.contents disk.old)) new.now }
    ensures adds { D.is_honest disk.new → RiseInSpaces old.now → RiseInSpaces new.now
        → OnOk result (Adds (D.contents disk.old) space 0 (2 ^ 35)
        (held_of old.now space) (held_of new.now space) into.old into.new) }
    ensures unnamed { IfErr result (FaultNames (λ _ _. ⊥)) }
    ensures reads { OnlyReads D.Disk disk.old disk.new }
    ensures device { IsErrOf result Fault.Device → D.failed disk.old < D.failed disk.new }
    ensures empty { result ≢ Err Fault.EmptyChain }
{
    let old = runs_of(alloc, old, space)?;
    let new = runs_of(alloc, new, space)?;
    diff_space(disk, space, &old, &new, pair, into)
}

/// What differs in all spaces, by the runs that have their pages.
pub(crate) fn diff_spaces<D: Disk>(
    alloc: Global,
    disk: &mut D,
    old: &[PlacedRun],
    new: &[PlacedRun],
) -> Result<Difference, Fault>
    requires old { ArePagesOf (length (D.contents disk.old)) old.now }
    requires new { ArePagesOf (length (D.contents disk.old)) new.now }
    ensures exact { D.is_honest disk.new → RiseInSpaces old.now → RiseInSpaces new.now
        → IfOk result (AreDifferences (D.contents disk.old) 17 (held_of old.now) (held_of new.now)) }
    ensures unnamed { IfErr result (FaultNames (λ _ _. ⊥)) }
    ensures reads { OnlyReads D.Disk disk.old disk.new }
    ensures device { IsErrOf result Fault.Device → D.failed disk.old < D.failed disk.new }
    ensures empty { result ≢ Err Fault.EmptyChain }
{
    let mut pair = PagePair::new(alloc)?;
    let mut into = Difference::new(alloc);
    for number in 1..SPACE_LIMIT + 1 {
        let space = SpaceId::new(number);
        diff_in(alloc, disk, space, old, new, &mut pair, &mut into)?;
    }
    Ok(into)
}
