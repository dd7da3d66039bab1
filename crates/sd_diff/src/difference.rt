//! Lists of pages that differ, built from the front.
ghost use Rattle.std.specs.Prelude.{◌≡◌, ◌↔◌, ◌⊎◌, ◌+◌, ◌<◌, ◌≤◌, ◌^◌, ℕ, Option, OnOk, IsTrue, []};
ghost use Rattle.sd_areas.specs.declared.prot.Prot.{Prot};
ghost use Rattle.sd_diff.specs.Difference.{HasChange, HasPage, IsChangedIn, IsIn};

use sd_areas::{PageNo, Prot, SpaceId};
use std::alloc::{AllocError, Global};

/// Pages of a space, one after the other.
#[derive(Clone, Copy)]
pub struct PageRun {
    pub space: SpaceId,
    /// The first page.
    pub first: PageNo,
    /// How many pages.
    pub count: u64,
}

/// Pages with other permissions than before. Those of a page that isn't mapped are none.
#[derive(Clone, Copy)]
pub struct AreaChange {
    pub pages: PageRun,
    /// The permissions at the old checkpoint.
    pub old: Option<Prot>,
    /// The permissions at the new checkpoint.
    pub new: Option<Prot>,
}

/// What differs between two memories.
#[derive(Drop)]
pub struct Difference {
    /// The pages whose permissions differ: those that came, that went, and that were protected otherwise.
    pub areas: Vec<AreaChange>,
    /// The pages that are mapped in both, and have other bytes.
    pub written: Vec<PageRun>,
}

impl Difference {
    /// Nothing differs.
    pub(crate) fn new(alloc: Global) -> Difference
        ensures areas { result.areas.items ≡ [] }
        ensures written { result.written.items ≡ [] }
    {
        Difference {
            areas: Vec::new(alloc),
            written: Vec::new(alloc),
        }
    }
}

/// Whether pages go on where others end.
fn goes_on(last: &PageRun, next: &PageRun) -> bool
    ensures space { IsTrue result → last.now.space ≡ next.now.space }
    ensures behind { IsTrue result → last.now.first + last.now.count ≡ next.now.first }
{
    let first = last.first.number();
    let end = next.first.number();
    last.space.number() == next.space.number() && first <= end && end - first == last.count
}

/// Pages with more of them at their end.
fn longer(last: PageRun, count: u64) -> PageRun
    requires { last.first + last.count + count ≤ 2 ^ 35 }
    ensures space { result.space ≡ last.space }
    ensures first { result.first ≡ last.first }
    ensures count { result.count ≡ last.count + count }
{
    PageRun {
        space: last.space,
        first: last.first,
        count: last.count + count,
    }
}

/// Puts pages after others: as a part of the last, where they go on there.
pub(crate) fn push_pages(list: &mut Vec<PageRun>, run: PageRun) -> Result<(), AllocError>
    requires within { run.first + run.count ≤ 2 ^ 35 }
    ensures pages { OnOk result ((space page : ℕ) → HasPage list.new.items space page
        ↔ (HasPage list.old.items space page ⊎ IsIn run space page)) }
{
    if let Some(last) = list.pop() {
        if goes_on(&last, &run) {
            list.push(longer(last, run.count))?;
            return Ok(());
        }
        list.push(last)?;
    }
    list.push(run)?;
    Ok(())
}

/// Whether permissions are the same.
fn is_same_prot(old: Prot, new: Prot) -> bool
    ensures { IsTrue result ↔ (old ≡ new) }
{
    old.read == new.read && old.write == new.write && old.execute == new.execute
}

/// Whether permissions are the same, or none both times.
pub(crate) fn are_same_prots(old: Option<Prot>, new: Option<Prot>) -> bool
    ensures { IsTrue result ↔ (old ≡ new) }
{
    match (old, new) {
        (Some(old), Some(new)) => is_same_prot(old, new),
        (None, None) => true,
        _ => false,
    }
}

/// Whether a change goes on where another ends.
fn is_continued(last: &AreaChange, next: &AreaChange) -> bool
    ensures space { IsTrue result → last.now.pages.space ≡ next.now.pages.space }
    ensures behind { IsTrue result
        → last.now.pages.first + last.now.pages.count ≡ next.now.pages.first }
    ensures old { IsTrue result → last.now.old ≡ next.now.old }
    ensures new { IsTrue result → last.now.new ≡ next.now.new }
{
    goes_on(&last.pages, &next.pages)
        && are_same_prots(last.old, next.old)
        && are_same_prots(last.new, next.new)
}

/// A change of more pages.
fn longer_change(last: AreaChange, count: u64) -> AreaChange
    requires { last.pages.first + last.pages.count + count ≤ 2 ^ 35 }
    ensures space { result.pages.space ≡ last.pages.space }
    ensures first { result.pages.first ≡ last.pages.first }
    ensures count { result.pages.count ≡ last.pages.count + count }
    ensures old { result.old ≡ last.old }
    ensures new { result.new ≡ last.new }
{
    AreaChange {
        pages: longer(last.pages, count),
        old: last.old,
        new: last.new,
    }
}

/// Puts a change after others: as a part of the last, where it goes on there.
pub(crate) fn push_change(list: &mut Vec<AreaChange>, change: AreaChange) -> Result<(), AllocError>
    requires within { change.pages.first + change.pages.count ≤ 2 ^ 35 }
    ensures changes { OnOk result ((space page : ℕ) (old new : Option Prot)
        → HasChange list.new.items space page old new
        ↔ (HasChange list.old.items space page old new ⊎ IsChangedIn change space page old new)) }
{
    if let Some(last) = list.pop() {
        if is_continued(&last, &change) {
            list.push(longer_change(last, change.pages.count))?;
            return Ok(());
        }
        list.push(last)?;
    }
    list.push(change)?;
    Ok(())
}
