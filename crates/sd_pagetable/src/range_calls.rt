//! `mmap`, `munmap` and `mprotect` over the pages of all spaces and the areas beside them.
//!
//! What can fail comes first. `munmap` and `mprotect` change the areas and then the pages. `mmap`
//! maps the pages that are missing, changes the areas, and makes each page a fresh one; where the
//! areas can't change, it unmaps those pages again.
ghost use Rattle.std.specs.Prelude.{◌≡◌, ◌≢◌, ◌⊎◌, ◌+◌, ◌-◌, ◌<◌, ◌≤◌, ◌^◌, ℕ, ◌==◌, if◌then◌else◌, true, false, not};
ghost use Rattle.std.specs.Prelude.{is_some, count_by, None, Some, Ok, Err, IsSome, IfOk, IfErr, OnOk, OnErr, IfSome};
ghost use Rattle.std.specs.Ordering.{nat_cmp};
ghost use Rattle.std.specs.BTreeMap.{get};
ghost use Rattle.std.specs.FinMap as finmap;
ghost use Rattle.sd_areas.specs.Calls.{map_result, unmap_result, protect_result, has_hole, AllHave};
ghost use Rattle.sd_areas.specs.Areas.{PageMap};
ghost use Rattle.sd_areas.specs.Pages.{page_of, pages_for, pages_from, is_invalid, is_outside};
ghost use Rattle.sd_pagetable.specs.declared.access_error.AccessError.TheVariants.{Refused};
ghost use Rattle.sd_pagetable.specs.declared.memory_error.MemoryError.TheVariants.{Denied as DeniedError, OutOfMemory};
ghost use Rattle.sd_pagetable.specs.declared.memory_refusal.MemoryRefusal.TheVariants.{Enomem, NoSuchSpace};
ghost use Rattle.sd_pagetable.specs.Nested.{inside, is_alive, set_within, change_within, fill_within};
ghost use Rattle.sd_pagetable.specs.Page.{PageState, fresh_page, protected_page};
ghost use Rattle.sd_pagetable.specs.Contents.{Contents, page_at, page_count, plain_of};
ghost use Rattle.sd_pagetable.specs.RefusalOrder.{Answers, answer, or_else, area_refusal, in_space, prots_in};
ghost use Rattle.sd_pagetable.specs.RefusalOrder.{mmap_refusal, munmap_refusal};
ghost use Rattle.sd_pagetable.specs.RefusalOrder.{mprotect_refusal};
ghost use Rattle.sd_pagetable.specs.Effects.{after_mmap, after_munmap, after_mprotect};
ghost use Rattle.sd_pagetable.specs.Kept.{HasAreas, prots_of};
ghost use Rattle.sd_pagetable.specs.RangeCalls.{IsRangeIn, Refuses, HasPut, HasSame, pages_refusal};
ghost use Rattle.sd_pagetable.specs.Tracking.{Step, Mapped, Unmapped, Protected, with_space};

use crate::access_error::AccessError;
use crate::memory_error::MemoryError;
use crate::memory_refusal::MemoryRefusal;
use crate::paging::Paging;
use crate::ranges::{fill, holes, protect, renew, unfill, unmap};
use sd_areas::{
    AreaError, AreaMap, MAPPED_PAGE_LIMIT, PAGE_BYTES, PageNo, PageRange, Prot, SpaceId,
    mapped_law, protected_law, unmapped_law,
};
use std::alloc::AllocError;
use std::collections::BTreeMap;

/// The areas of each living space.
pub(crate) type Areas = BTreeMap<SpaceId, AreaMap>;

/// A copy of the areas.
fn copy_of(areas: &AreaMap) -> Result<AreaMap, AllocError>
    ensures { IfOk result (λ copy. copy ≡ areas.now) }
{
    areas.clone()
}

/// A copy of a living space's areas.
pub(crate) fn copy_in(areas: &Areas, space: SpaceId) -> Result<AreaMap, MemoryError>
    ensures found { IfOk result (λ copy. get nat_cmp areas.now space ≡ Some copy) }
    ensures dead { result ≡ Err (DeniedError (Refused NoSuchSpace))
        → get nat_cmp areas.now space ≡ None }
    ensures errors { IfErr result
        (λ e. (e ≡ OutOfMemory) ⊎ (e ≡ DeniedError (Refused NoSuchSpace))) }
{
    let Some(own) = areas.get(&space) else {
        return Err(MemoryRefusal::NoSuchSpace.into());
    };
    Ok(copy_of(own)?)
}

/// Unmaps a range in a space's areas.
fn unmap_areas(
    areas: &mut Areas,
    space: SpaceId,
    address: u64,
    bytes: u64,
) -> Result<(), MemoryError>
    ensures ok { OnOk result ((contents : Contents) → HasAreas areas.old contents
        → (own : PageMap) × (is_alive contents.spaces space ≡ true)
        × (unmap_result (prots_of (inside contents.spaces space)) address bytes ≡ Ok own)
        × HasPut areas.old areas.new space own) }
    ensures due { IfErr result (λ e. (contents : Contents) → HasAreas areas.old contents
        → Refuses e (in_space contents.spaces space
        (area_refusal (unmap_result (prots_of (inside contents.spaces space)) address bytes)))) }
    ensures tested { result ≡ Err OutOfMemory
        → IsRangeIn (IsSome (get nat_cmp areas.old space)) address bytes }
    ensures some { result ≡ Err OutOfMemory → (contents : Contents) → HasAreas areas.old contents
        → AllHave (prots_of (inside contents.spaces space)) (page_of address) (pages_for bytes) None → ⊥ }
    ensures err { OnErr result (HasSame areas.old areas.new) }
{
    let Some(own) = areas.get_mut(&space) else {
        return Err(MemoryRefusal::NoSuchSpace.into());
    };
    Ok(own.unmap(address, bytes)?)
}

/// Protects a range in a space's areas.
fn protect_areas(
    areas: &mut Areas,
    space: SpaceId,
    address: u64,
    bytes: u64,
    prot: Prot,
) -> Result<(), MemoryError>
    requires { bytes ≢ 0 }
    ensures ok { OnOk result ((contents : Contents) → HasAreas areas.old contents
        → (own : PageMap) × (is_alive contents.spaces space ≡ true)
        × (protect_result (prots_of (inside contents.spaces space)) address bytes prot ≡ Ok own)
        × HasPut areas.old areas.new space own) }
    ensures due { IfErr result (λ e. (contents : Contents) → HasAreas areas.old contents
        → Refuses e (in_space contents.spaces space
        (area_refusal (protect_result
        (prots_of (inside contents.spaces space)) address bytes prot)))) }
    ensures tested { result ≡ Err OutOfMemory
        → IsRangeIn (IsSome (get nat_cmp areas.old space)) address bytes }
    ensures whole { result ≡ Err OutOfMemory → (contents : Contents) → HasAreas areas.old contents
        → has_hole (prots_of (inside contents.spaces space)) (page_of address) (pages_for bytes) ≡ false }
    ensures changes { result ≡ Err OutOfMemory → (contents : Contents) → HasAreas areas.old contents
        → AllHave (prots_of (inside contents.spaces space)) (page_of address) (pages_for bytes) (Some prot) → ⊥ }
    ensures err { OnErr result (HasSame areas.old areas.new) }
{
    let Some(own) = areas.get_mut(&space) else {
        return Err(MemoryRefusal::NoSuchSpace.into());
    };
    Ok(own.protect(address, bytes, prot)?)
}

/// Whether a run can be mapped without passing the limit of pages.
fn has_room(paging: &Paging, space: SpaceId, first: u64, end: u64) -> bool
    requires ordered { first ≤ end }
    requires within { end ≤ 2 ^ 35 }
    ensures fits { result ≡ true
        → page_count paging.now.spaces + count_by
        (λ page. not (is_some (page_at paging.now space page)))
        (pages_from first (end - first)) ≤ 65536 }
    ensures holds { (page : PageState) → result ≡ true
        → page_count
        (with_space paging.now space
        (set_within (inside paging.now.spaces space) first (end - first) page)).spaces ≤ 65536 }
    ensures full { (page : PageState) → result ≡ false
        → 65536 < page_count
        (with_space paging.now space
        (set_within (inside paging.now.spaces space) first (end - first) page)).spaces }
{
    if end - first > MAPPED_PAGE_LIMIT {
        return false;
    }
    paging.mapped() + holes(paging, space, first, end) <= MAPPED_PAGE_LIMIT
}

/// Maps each page of a run that isn't mapped as a fresh one.
fn fill_holes(
    paging: &mut Paging,
    own: &AreaMap,
    space: SpaceId,
    first: u64,
    end: u64,
    prot: Prot,
) -> Result<(), MemoryError>
    requires alive { is_alive paging.old.spaces space ≡ true }
    requires areas { own.now ≡ prots_of (inside paging.old.spaces space) }
    requires ordered { first ≤ end }
    requires within { end ≤ 2 ^ 35 }
    ensures ok { OnOk result
        (paging.new ≡ with_space paging.old space
        (fill_within (inside paging.old.spaces space) first (end - first) (fresh_page prot))) }
    ensures many { result ≡ Err (DeniedError (Refused Enomem))
        → 65536 < page_count
        (with_space paging.old space
        (set_within (inside paging.old.spaces space) first (end - first)
        (fresh_page prot))).spaces }
    ensures fits { result ≢ Err (DeniedError (Refused Enomem))
        → page_count
        (with_space paging.old space
        (set_within (inside paging.old.spaces space) first (end - first)
        (fresh_page prot))).spaces ≤ 65536 }
    ensures errors { IfErr result (λ e. (e ≡ OutOfMemory) ⊎ (e ≡ DeniedError (Refused Enomem))) }
    ensures hole { result ≡ Err OutOfMemory
        → AllHave own.now first (end - first) (Some prot) → ⊥ }
    ensures err { OnErr result (paging.new ≡ paging.old) }
{
    if !has_room(paging, space, first, end) {
        return Err(MemoryRefusal::Enomem.into());
    }
    let reached = fill(paging, space, first, end, prot);
    if reached < end {
        unfill(paging, space, first, reached, own);
        return Err(MemoryError::OutOfMemory);
    }
    Ok(())
}

/// `mmap` over the pages of all spaces and the areas of one.
fn map_in(
    paging: &mut Paging,
    own: &mut AreaMap,
    space: SpaceId,
    address: u64,
    bytes: u64,
    prot: Prot,
) -> Result<(), MemoryError>
    requires alive { is_alive paging.old.spaces space ≡ true }
    requires areas { own.old ≡ prots_of (inside paging.old.spaces space) }
    ensures areas { OnOk result (map_result own.old address bytes prot ≡ Ok own.new) }
    ensures pages { OnOk result
        (paging.new ≡ with_space paging.old space
        (set_within (inside paging.old.spaces space) (page_of address) (pages_for bytes)
        (fresh_page prot))) }
    ensures few { OnOk result (page_count paging.new.spaces ≤ 65536) }
    ensures due { IfErr result (λ e. Refuses e
        (or_else (area_refusal (map_result own.old address bytes prot))
        (pages_refusal (with_space paging.old space
        (set_within (inside paging.old.spaces space) (page_of address) (pages_for bytes)
        (fresh_page prot)))))) }
    ensures tested { result ≡ Err OutOfMemory
        → (is_invalid address bytes ≡ false) × (is_outside address bytes ≡ false) }
    ensures fits { result ≡ Err OutOfMemory
        → page_count
        (with_space paging.old space
        (set_within (inside paging.old.spaces space) (page_of address) (pages_for bytes)
        (fresh_page prot))).spaces ≤ 65536 }
    ensures changes { result ≡ Err OutOfMemory
        → AllHave own.old (page_of address) (pages_for bytes) (Some prot) → ⊥ }
    ensures err { OnErr result ((own.new ≡ own.old) × (paging.new ≡ paging.old)) }
{
    let range = PageRange::for_map(address, bytes).map_err(AreaError::Refused)?;
    let first = range.first.number();
    let end = first + range.count;
    fill_holes(paging, own, space, first, end, prot)?;
    if let Err(error) = own.map(address, bytes, prot) {
        unfill(paging, space, first, end, own);
        return Err(error.into());
    }
    renew(paging, space, first, end, prot);
    let _few = paging.mapped();
    Ok(())
}

/// `munmap` over the pages of all spaces and the areas beside them.
pub(crate) fn munmap(
    paging: &mut Paging,
    areas: &mut Areas,
    space: SpaceId,
    address: u64,
    bytes: u64,
) -> Result<(), MemoryError>
    requires kept { HasAreas areas.old paging.old }
    ensures kept { HasAreas areas.new paging.new }
    ensures due { Answers (munmap_refusal (plain_of paging.old) space address bytes) result }
    ensures tested { result ≡ Err OutOfMemory
        → IsRangeIn (is_alive paging.old.spaces space ≡ true) address bytes }
    ensures some { result ≡ Err OutOfMemory
        → AllHave (prots_in (inside (plain_of paging.old) space)) (page_of address) (pages_for bytes) None → ⊥ }
    ensures step { OnOk result
        (Step paging.old (Unmapped space (page_of address) (pages_for bytes)) paging.new) }
    ensures memory { OnOk result
        (plain_of paging.new ≡ after_munmap (plain_of paging.old) space address bytes) }
    ensures err { OnErr result (paging.new ≡ paging.old) }
{
    unmapped_law();
    unmap_areas(areas, space, address, bytes)?;
    let first = address / PAGE_BYTES;
    let end = first + bytes.div_ceil(PAGE_BYTES);
    let page = PageNo::new(first).unwrap();
    unmap(paging, space, page, end);
    Ok(())
}

/// Sets the permissions of the whole pages of a range, and write-protects each.
fn protect_range(paging: &mut Paging, space: SpaceId, address: u64, bytes: u64, prot: Prot)
    requires alive { is_alive paging.old.spaces space ≡ true }
    requires within { page_of address + pages_for bytes ≤ 2 ^ 35 }
    ensures { paging.new
        ≡ with_space paging.old space
        (change_within (protected_page prot) (inside paging.old.spaces space) (page_of address)
        (pages_for bytes)) }
{
    let first = address / PAGE_BYTES;
    let end = first + bytes.div_ceil(PAGE_BYTES);
    protect(paging, space, first, end, prot);
}

/// What `mprotect` of no bytes returns. It changes nothing and takes no memory.
fn protect_nothing(areas: &Areas, space: SpaceId, address: u64) -> Result<(), AccessError>
    ensures { (contents : Contents) (prot : Prot) → HasAreas areas.now contents
        → result ≡ answer (mprotect_refusal (plain_of contents) space address 0 prot) tt }
{
    let Some(_own) = areas.get(&space) else {
        return Err(AccessError::Refused(MemoryRefusal::NoSuchSpace));
    };
    if address % PAGE_BYTES != 0 {
        return Err(AccessError::Refused(MemoryRefusal::Einval));
    }
    Ok(())
}

/// `mprotect` of some bytes over the pages of all spaces and the areas beside them.
fn protect_some(
    paging: &mut Paging,
    areas: &mut Areas,
    space: SpaceId,
    address: u64,
    bytes: u64,
    prot: Prot,
) -> Result<(), MemoryError>
    requires some { bytes ≢ 0 }
    requires kept { HasAreas areas.old paging.old }
    ensures kept { HasAreas areas.new paging.new }
    ensures due { Answers (mprotect_refusal (plain_of paging.old) space address bytes prot) result }
    ensures tested { result ≡ Err OutOfMemory
        → IsRangeIn (is_alive paging.old.spaces space ≡ true) address bytes }
    ensures whole { result ≡ Err OutOfMemory
        → has_hole (prots_in (inside (plain_of paging.old) space)) (page_of address) (pages_for bytes) ≡ false }
    ensures changes { result ≡ Err OutOfMemory
        → AllHave (prots_in (inside (plain_of paging.old) space)) (page_of address) (pages_for bytes) (Some prot)
        → ⊥ }
    ensures step { OnOk result
        (Step paging.old (Protected space (page_of address) (pages_for bytes) prot) paging.new) }
    ensures memory { OnOk result
        (plain_of paging.new ≡ after_mprotect (plain_of paging.old) space address bytes prot) }
    ensures err { OnErr result (paging.new ≡ paging.old) }
{
    protected_law();
    protect_areas(areas, space, address, bytes, prot)?;
    protect_range(paging, space, address, bytes, prot);
    Ok(())
}

/// `mprotect` over the pages of all spaces and the areas beside them.
pub(crate) fn mprotect(
    paging: &mut Paging,
    areas: &mut Areas,
    space: SpaceId,
    address: u64,
    bytes: u64,
    prot: Prot,
) -> Result<(), MemoryError>
    requires kept { HasAreas areas.old paging.old }
    ensures kept { HasAreas areas.new paging.new }
    ensures due { Answers (mprotect_refusal (plain_of paging.old) space address bytes prot) result }
    ensures tested { result ≡ Err OutOfMemory
        → IsRangeIn (is_alive paging.old.spaces space ≡ true) address bytes }
    ensures whole { result ≡ Err OutOfMemory
        → has_hole (prots_in (inside (plain_of paging.old) space)) (page_of address) (pages_for bytes) ≡ false }
    ensures changes { result ≡ Err OutOfMemory
        → AllHave (prots_in (inside (plain_of paging.old) space)) (page_of address) (pages_for bytes) (Some prot)
        → ⊥ }
    ensures step { OnOk result
        (Step paging.old (Protected space (page_of address) (pages_for bytes) prot) paging.new) }
    ensures memory { OnOk result
        (plain_of paging.new ≡ after_mprotect (plain_of paging.old) space address bytes prot) }
    ensures err { OnErr result (paging.new ≡ paging.old) }
{
    if bytes == 0 {
        return Ok(protect_nothing(areas, space, address)?);
    }
    protect_some(paging, areas, space, address, bytes, prot)
}

/// `mmap` over the pages of all spaces and the areas beside them. It stands alone, since its stack has room for the
/// tables that it makes, and a load or a store would touch each page of that.
#[inline(never)]
pub(crate) fn mmap(
    paging: &mut Paging,
    areas: &mut Areas,
    space: SpaceId,
    address: u64,
    bytes: u64,
    prot: Prot,
) -> Result<(), MemoryError>
    requires kept { HasAreas areas.old paging.old }
    ensures kept { HasAreas areas.new paging.new }
    ensures due { Answers (mmap_refusal (plain_of paging.old) space address bytes prot) result }
    ensures tested { result ≡ Err OutOfMemory
        → IsRangeIn (is_alive paging.old.spaces space ≡ true) address bytes }
    ensures fits { result ≡ Err OutOfMemory
        → page_count (after_mmap (plain_of paging.old) space address bytes prot) ≤ 65536 }
    ensures changes { result ≡ Err OutOfMemory
        → AllHave (prots_in (inside (plain_of paging.old) space)) (page_of address) (pages_for bytes) (Some prot)
        → ⊥ }
    ensures step { OnOk result
        (Step paging.old (Mapped space (page_of address) (pages_for bytes) prot) paging.new) }
    ensures memory { OnOk result
        (plain_of paging.new ≡ after_mmap (plain_of paging.old) space address bytes prot) }
    ensures err { OnErr result (paging.new ≡ paging.old) }
{
    mapped_law();
    let Some(own) = areas.get_mut(&space) else {
        return Err(MemoryRefusal::NoSuchSpace.into());
    };
    map_in(paging, own, space, address, bytes, prot)
}
