//! Changes of a list of areas in place. A change reads and replaces the areas that meet a run of
//! pages or touch it; the areas after them move as a whole.
ghost use Rattle.std.specs.Prelude.{◌≡◌, ◌⊎◌, ◌+◌, ◌<◌, ◌≤◌, ◌^◌, nat_lt, length, Ok, OnOk, OnErr, IfErr};
ghost use Rattle.std.specs.Prelude.{None, Some};
ghost use Rattle.std.specs.List.{splice, AllWithin, position};
ghost use Rattle.sd_areas.specs.Areas.{AreMaximal, page_map_of};
ghost use Rattle.sd_areas.specs.Calls.{set_pages, remove_pages, within_areas, RefusesInOrder, AllHave};
ghost use Rattle.sd_areas.specs.declared.errno.AreaError.TheVariants.{Refused, OutOfMemory};
ghost use Rattle.sd_areas.specs.declared.errno.Errno.TheVariants.{Enomem};

use crate::area::Area;
use crate::errno::{AreaError, Errno};
use crate::limits::AREA_LIMIT;
use crate::page_range::PageRange;
use crate::runs::{has_area, is_split, meets_area, with_area, without_pages};
use std::alloc::Global;

/// Whether an area ends before a page, with a page between them.
fn ends_before(area: &Area, page: u64) -> bool
    ensures { result ≡ nat_lt (area.now.first + area.now.count) page }
{
    area.count < page.saturating_sub(area.first.number())
}

/// The place of the first of the areas that begins after a page.
fn first_after(areas: &[Area], page: u64) -> Option<usize>
    ensures { result ≡ position (λ (area : Area). nat_lt page area.first) areas.now }
{
    areas.iter().position(|area| page < area.first.number())
}

/// The areas that meet a run of pages or touch it: the place of the first of them in the list, and
/// the place after the last. The first is found by binary search, and the others by a walk.
pub(crate) fn neighbours(areas: &[Area], range: &PageRange) -> (usize, usize)
    requires maximal { AreMaximal None areas.now }
    requires within { range.now.first + range.now.count ≤ 2 ^ 35 }
    ensures ordered { result.0 ≤ result.1 }
    ensures within { result.1 ≤ length areas.now }
    ensures below { AllWithin (λ (area : Area). area.first + area.count < range.now.first)
        areas.now 0 result.0 }
    ensures above { AllWithin (λ (area : Area). range.now.first + range.now.count < area.first)
        areas.now result.1 (length areas.now) }
{
    let begin = range.first.number();
    let end = begin + range.count;
    let from = areas.partition_point(|area| ends_before(area, begin));
    let to = match first_after(&areas[from..], end) {
        Some(met) => from + met,
        None => areas.len(),
    };
    (from, to)
}

/// Puts other areas in place of those from one place up to another.
///
/// # Errors
///
/// ENOMEM where the areas would be over 1,024. Out of memory where the list can't grow.
/// An error changes nothing.
fn replace(
    areas: &mut Vec<Area>,
    from: usize,
    to: usize,
    pieces: Vec<Area>,
) -> Result<(), AreaError>
    requires ordered { from ≤ to }
    requires within { to ≤ length areas.old.items }
    requires few { length areas.old.items ≤ 1024 }
    ensures ok { OnOk result (areas.new.items ≡ splice areas.old.items from to pieces.items) }
    ensures few { OnOk result (length areas.new.items ≤ 1024) }
    ensures refused { IfErr result (λ e. (e ≡ OutOfMemory)
        ⊎ ((e ≡ Refused Enomem) × (1024 < length (splice areas.old.items from to pieces.items)))) }
    ensures err { OnErr result (areas.new.items ≡ areas.old.items) }
{
    let room = AREA_LIMIT - (areas.len() - (to - from));
    if room < pieces.len() {
        return Err(AreaError::Refused(Errno::Enomem));
    }
    if pieces.len() == to - from {
        areas[from..to].copy_from_slice(&pieces);
        return Ok(());
    }
    areas.splice(from..to, pieces)?;
    Ok(())
}

/// Gives the pages of an area its permissions, whatever was there. The areas that meet it or touch
/// it are those from one place up to another.
///
/// # Errors
///
/// ENOMEM where the areas would be over 1,024. Out of memory where the list can't grow. Both come only where a page of
/// the area doesn't have its permissions yet. An error changes nothing.
pub(crate) fn set_between(
    alloc: Global,
    areas: &mut Vec<Area>,
    from: usize,
    to: usize,
    area: Area,
) -> Result<(), AreaError>
    requires maximal { AreMaximal None areas.old.items }
    requires few { length areas.old.items ≤ 1024 }
    requires pages { 0 < area.count }
    requires within { area.first + area.count ≤ 2 ^ 35 }
    requires ordered { from ≤ to }
    requires inside { to ≤ length areas.old.items }
    requires below { AllWithin (λ (other : Area). other.first + other.count < area.first)
        areas.old.items 0 from }
    requires above { AllWithin (λ (other : Area). area.first + area.count < other.first)
        areas.old.items to (length areas.old.items) }
    ensures maximal { OnOk result (AreMaximal None areas.new.items) }
    ensures few { OnOk result (length areas.new.items ≤ 1024) }
    ensures ok { OnOk result
        (within_areas (set_pages (page_map_of areas.old.items) area.first area.count area.prot)
        ≡ Ok (page_map_of areas.new.items)) }
    ensures refused { IfErr result (RefusesInOrder
        (within_areas (set_pages (page_map_of areas.old.items) area.first area.count area.prot))) }
    ensures some { OnErr result
        (AllHave (page_map_of areas.old.items) area.first area.count (Some area.prot) → ⊥) }
    ensures err { OnErr result (areas.new.items ≡ areas.old.items) }
{
    if has_area(&areas[from..to], &area) {
        return Ok(());
    }
    // A list that has no room for two areas more is refused before the pieces are built.
    if areas.len() + 2 > AREA_LIMIT && is_split(&areas[from..to], &area) {
        return Err(AreaError::Refused(Errno::Enomem));
    }
    let pieces = with_area(alloc, &areas[from..to], area)?;
    replace(areas, from, to, pieces)
}

/// Gives the pages of an area its permissions, whatever was there.
///
/// # Errors
///
/// ENOMEM where the areas would be over 1,024. Out of memory where the list can't grow. Both come only where a page of
/// the area doesn't have its permissions yet. An error changes nothing.
pub(crate) fn set_run(alloc: Global, areas: &mut Vec<Area>, area: Area) -> Result<(), AreaError>
    requires maximal { AreMaximal None areas.old.items }
    requires few { length areas.old.items ≤ 1024 }
    requires pages { 0 < area.count }
    requires within { area.first + area.count ≤ 2 ^ 35 }
    ensures maximal { OnOk result (AreMaximal None areas.new.items) }
    ensures few { OnOk result (length areas.new.items ≤ 1024) }
    ensures ok { OnOk result
        (within_areas (set_pages (page_map_of areas.old.items) area.first area.count area.prot)
        ≡ Ok (page_map_of areas.new.items)) }
    ensures refused { IfErr result (RefusesInOrder
        (within_areas (set_pages (page_map_of areas.old.items) area.first area.count area.prot))) }
    ensures some { OnErr result
        (AllHave (page_map_of areas.old.items) area.first area.count (Some area.prot) → ⊥) }
    ensures err { OnErr result (areas.new.items ≡ areas.old.items) }
{
    let range = PageRange {
        first: area.first,
        count: area.count,
    };
    let (from, to) = neighbours(areas, &range);
    set_between(alloc, areas, from, to, area)
}

/// Unmaps the pages of a run.
///
/// # Errors
///
/// ENOMEM where the areas would be over 1,024. Out of memory where the list can't grow, which is only where a page of
/// the run is mapped. An error changes nothing.
pub(crate) fn remove_run(
    alloc: Global,
    areas: &mut Vec<Area>,
    range: PageRange,
) -> Result<(), AreaError>
    requires maximal { AreMaximal None areas.old.items }
    requires few { length areas.old.items ≤ 1024 }
    requires pages { 0 < range.count }
    requires within { range.first + range.count ≤ 2 ^ 35 }
    ensures maximal { OnOk result (AreMaximal None areas.new.items) }
    ensures few { OnOk result (length areas.new.items ≤ 1024) }
    ensures ok { OnOk result
        (within_areas (remove_pages (page_map_of areas.old.items) range.first range.count)
        ≡ Ok (page_map_of areas.new.items)) }
    ensures refused { IfErr result (RefusesInOrder
        (within_areas (remove_pages (page_map_of areas.old.items) range.first range.count))) }
    ensures some { OnErr result
        (AllHave (page_map_of areas.old.items) range.first range.count None → ⊥) }
    ensures err { OnErr result (areas.new.items ≡ areas.old.items) }
{
    let (from, to) = neighbours(areas, &range);
    if !meets_area(&areas[from..to], &range) {
        return Ok(());
    }
    let pieces = without_pages(alloc, &areas[from..to], range)?;
    replace(areas, from, to, pieces)
}
