//! `fork` and `exit` over the pages of all spaces and the areas beside them.
ghost use Rattle.std.specs.Prelude.{◌≡◌, ◌≢◌, ◌⊎◌, ◌+◌, ◌<◌, ◌≤◌, ◌^◌, ℕ, ◌==◌, if◌then◌else◌, true, false, None, Some};
ghost use Rattle.std.specs.Prelude.{Ok, Err, IsSome, IfOk, IfErr, OnOk, OnErr, IfSome, MatchOption};
ghost use Rattle.std.specs.Ordering.{nat_cmp};
ghost use Rattle.std.specs.BTreeMap.{get};
ghost use Rattle.std.specs.FinMap as finmap;
ghost use Rattle.sd_pagetable.specs.Nested.{inside, is_alive};
ghost use Rattle.sd_pagetable.specs.Contents.{page_count, plain_of, IsSound};
ghost use Rattle.sd_pagetable.specs.RefusalOrder.{Answers, answer, exit_refusal, fork_refusal};
ghost use Rattle.sd_pagetable.specs.Effects.{after_exit, after_fork, IsLeastFree};
ghost use Rattle.sd_pagetable.specs.Kept.{HasAreas};
ghost use Rattle.sd_pagetable.specs.Tracking.{Step, Exited, Forked, contents_after_fork};
ghost use Rattle.sd_pagetable.specs.declared.memory_error.MemoryError.TheVariants.{OutOfMemory};

use crate::access_error::AccessError;
use crate::memory_error::MemoryError;
use crate::memory_refusal::MemoryRefusal;
use crate::paging::Paging;
use crate::range_calls::{Areas, copy_in};
use crate::ranges::share_pages;
use sd_areas::{AreaMap, MAPPED_PAGE_LIMIT, SPACE_LIMIT, SpaceId};
use std::alloc::AllocError;

/// Puts a space's areas beside the others.
///
/// # Errors
///
/// Out of memory where the list can't grow: nothing changes.
pub(crate) fn add_areas(areas: &mut Areas, space: SpaceId, own: AreaMap) -> Result<(), AllocError>
    ensures ok { OnOk result
        ((q : ℕ) → get nat_cmp areas.new q
        ≡ (if q == space then Some own else get nat_cmp areas.old q)) }
    ensures err { OnErr result ((q : ℕ) → get nat_cmp areas.new q ≡ get nat_cmp areas.old q) }
{
    areas.insert(space, own)?;
    Ok(())
}

/// Takes a space's areas away.
fn drop_areas(areas: &mut Areas, space: SpaceId)
    ensures { (q : ℕ)
        → get nat_cmp areas.new q ≡ (if q == space then None else get nat_cmp areas.old q) }
{
    areas.remove(&space);
}

/// `exit` over the pages of all spaces and the areas beside them. It needs no memory.
pub(crate) fn exit(
    paging: &mut Paging,
    areas: &mut Areas,
    space: SpaceId,
) -> Result<(), AccessError>
    requires kept { HasAreas areas.old paging.old }
    ensures kept { HasAreas areas.new paging.new }
    ensures due { result ≡ answer (exit_refusal (plain_of paging.old) space) tt }
    ensures step { OnOk result (Step paging.old (Exited space) paging.new) }
    ensures memory { OnOk result (plain_of paging.new ≡ after_exit (plain_of paging.old) space) }
    ensures err { OnErr result (paging.new ≡ paging.old) }
{
    if !paging.is_alive(space) {
        return Err(AccessError::Refused(MemoryRefusal::NoSuchSpace));
    }
    if paging.space_count() == 1 {
        return Err(AccessError::Refused(MemoryRefusal::LastSpace));
    }
    paging.end_space(space);
    drop_areas(areas, space);
    Ok(())
}

/// Adds a child with a copy of a space's pages, which share their frames.
///
/// # Errors
///
/// Out of memory where a table can't grow: nothing changes.
fn copy_space(paging: &mut Paging, space: SpaceId, child: SpaceId) -> Result<(), AllocError>
    requires alive { is_alive paging.old.spaces space ≡ true }
    requires fresh { is_alive paging.old.spaces child ≡ false }
    requires least { 1 ≤ child }
    requires greatest { child ≤ 16 }
    requires few { page_count paging.old.spaces + finmap.len
        (inside paging.old.spaces space) ≤ 65536 }
    ensures ok { OnOk result (paging.new ≡ contents_after_fork paging.old space child) }
    ensures err { OnErr result (paging.new ≡ paging.old) }
{
    paging.add_copy(space, child)?;
    share_pages(paging, space, child);
    Ok(())
}

/// The least number that isn't alive, if there is one.
fn free_number(paging: &Paging) -> Option<SpaceId>
    requires { IsSound paging.now }
    ensures { MatchOption result
        (16 ≤ finmap.len paging.now.spaces)
        (λ child. IsLeastFree (plain_of paging.now) child × (finmap.len paging.now.spaces < 16)
        × (child ≤ 16)) }
{
    for number in 1..=SPACE_LIMIT {
        let space = SpaceId::new(number);
        if !paging.is_alive(space) {
            return Some(space);
        }
    }
    None
}

/// `fork` over the pages of all spaces and the areas beside them. It stands alone, as `mmap` does.
#[inline(never)]
pub(crate) fn fork(
    paging: &mut Paging,
    areas: &mut Areas,
    space: SpaceId,
) -> Result<SpaceId, MemoryError>
    requires kept { HasAreas areas.old paging.old }
    ensures kept { HasAreas areas.new paging.new }
    ensures due { Answers (fork_refusal (plain_of paging.old) space) result }
    ensures tested { result ≡ Err OutOfMemory → fork_refusal (plain_of paging.old) space ≡ None }
    ensures child { IfOk result (λ child. IsLeastFree (plain_of paging.old) child) }
    ensures step { IfOk result (λ child. Step paging.old (Forked space child) paging.new) }
    ensures memory { IfOk result
        (λ child. plain_of paging.new ≡ after_fork (plain_of paging.old) space child) }
    ensures err { OnErr result (paging.new ≡ paging.old) }
{
    if !paging.is_alive(space) {
        return Err(MemoryRefusal::NoSuchSpace.into());
    }
    let mapped = paging.mapped();
    let Some(child) = free_number(paging) else {
        return Err(MemoryRefusal::TooManySpaces.into());
    };
    if mapped + paging.pages_in(space) as u64 > MAPPED_PAGE_LIMIT {
        return Err(MemoryRefusal::Enomem.into());
    }
    let own = copy_in(areas, space)?;
    add_areas(areas, child, own)?;
    if let Err(error) = copy_space(paging, space, child) {
        drop_areas(areas, child);
        return Err(error.into());
    }
    Ok(child)
}
