//! Lists of areas that rise and are maximal, built from the front.
ghost use Rattle.std.specs.Prelude.{◌≡◌, if◌then◌else◌, ℕ, ◌+◌, ◌<◌, ◌≤◌, ◌^◌, OnOk, IfOk, Some, None, MatchOption};
ghost use Rattle.std.specs.Prelude.{min, max, IsTrue, IsFalse, ◌↔◌};
ghost use Rattle.std.specs.List.{list_any};
ghost use Rattle.sd_areas.specs.Areas.{AreMaximal, prot_in, page_map_of};
ghost use Rattle.sd_areas.specs.Pages.{is_within};
ghost use Rattle.sd_areas.specs.Calls.{has_hole, AllHave};
ghost use Rattle.sd_areas.specs.Runs.{is_area_continued, end_of_all, IsExtended, IsPart, HasPart, HasParts, HasRun};
ghost use Rattle.sd_areas.specs.Runs.{HasGap, IsSplitBy, is_met, is_covering};

use crate::area::Area;
use crate::limits::PAGE_NUMBER_LIMIT;
use crate::page_no::PageNo;
use crate::page_range::PageRange;
use crate::prot::Prot;
use std::alloc::{AllocError, Global};

/// Whether an area goes on where the one before it ends, with equal permissions.
fn continues(last: &Area, area: &Area) -> bool
    requires { last.now.first + last.now.count ≤ 2 ^ 35 }
    ensures { result ≡ is_area_continued last.now area.now }
{
    last.first.number() + last.count == area.first.number() && last.prot.bits() == area.prot.bits()
}

/// An area with more pages at its end.
fn longer(area: Area, count: u64) -> Area
    requires { area.first + area.count + count ≤ 2 ^ 35 }
    ensures first { result.first ≡ area.first }
    ensures count { result.count ≡ area.count + count }
    ensures prot { result.prot ≡ area.prot }
{
    Area {
        first: area.first,
        count: area.count + count,
        prot: area.prot,
    }
}

/// Puts an area after the others: as a part of the last, where it continues that one.
pub(crate) fn push_area(areas: &mut Vec<Area>, area: Area) -> Result<(), AllocError>
    requires maximal { AreMaximal None areas.old.items }
    requires behind { end_of_all areas.old.items ≤ area.first }
    requires pages { 0 < area.count }
    requires within { area.first + area.count ≤ 2 ^ 35 }
    ensures ok { OnOk result (IsExtended areas.old.items areas.new.items area) }
{
    if let Some(last) = areas.pop() {
        if continues(&last, &area) {
            areas.push(longer(last, area.count))?;
            return Ok(());
        }
        areas.push(last)?;
    }
    areas.push(area)?;
    Ok(())
}

/// The part of an area from one page up to another, if there is one.
fn part_of(area: &Area, from: u64, to: u64) -> Option<Area>
    requires { area.now.first + area.now.count ≤ 2 ^ 35 }
    ensures { MatchOption result
        (min (area.now.first + area.now.count) to ≤ max area.now.first from)
        (IsPart area.now from to) }
{
    let begin = area.first.number().max(from);
    let end = to.min(area.first.number() + area.count);
    if end <= begin {
        return None;
    }
    let first = PageNo::new(begin)?;
    Some(Area {
        first,
        count: end - begin,
        prot: area.prot,
    })
}

/// Puts the part of an area from one page up to another after the others, if there is one.
fn push_part(areas: &mut Vec<Area>, area: &Area, from: u64, to: u64) -> Result<(), AllocError>
    requires maximal { AreMaximal None areas.old.items }
    requires behind { end_of_all areas.old.items ≤ max area.now.first from }
    requires within { area.now.first + area.now.count ≤ 2 ^ 35 }
    ensures ok { OnOk result (HasPart areas.old.items areas.new.items area.now from to) }
{
    match part_of(area, from, to) {
        Some(part) => push_area(areas, part),
        None => Ok(()),
    }
}

/// Puts the parts of a list of areas after others: what lies from one page up to another.
pub(crate) fn push_parts(
    areas: &mut Vec<Area>,
    source: &[Area],
    from: u64,
    to: u64,
) -> Result<(), AllocError>
    requires maximal { AreMaximal None areas.old.items }
    requires behind { end_of_all areas.old.items ≤ from }
    requires source_maximal { AreMaximal None source.now }
    ensures ok { OnOk result (HasParts areas.old.items areas.new.items source.now from to) }
{
    for area in source {
        push_part(areas, area, from, to)?;
    }
    Ok(())
}

/// The areas afterwards where the pages of one area get its permissions.
pub(crate) fn with_area(alloc: Global, areas: &[Area], area: Area) -> Result<Vec<Area>, AllocError>
    requires maximal { AreMaximal None areas.now }
    requires pages { 0 < area.count }
    requires within { area.first + area.count ≤ 2 ^ 35 }
    ensures { IfOk result (λ new. HasRun areas.now new.items area) }
{
    let begin = area.first.number();
    let end = begin + area.count;
    let mut joined = Vec::new(alloc);
    push_parts(&mut joined, areas, 0, begin)?;
    push_area(&mut joined, area)?;
    push_parts(&mut joined, areas, end, PAGE_NUMBER_LIMIT)?;
    Ok(joined)
}

/// The areas afterwards where a run of pages is unmapped.
pub(crate) fn without_pages(
    alloc: Global,
    areas: &[Area],
    range: PageRange,
) -> Result<Vec<Area>, AllocError>
    requires maximal { AreMaximal None areas.now }
    requires within { range.first + range.count ≤ 2 ^ 35 }
    ensures { IfOk result (λ new. HasGap areas.now new.items range.first range.count) }
{
    let begin = range.first.number();
    let end = begin + range.count;
    let mut joined = Vec::new(alloc);
    push_parts(&mut joined, areas, 0, begin)?;
    push_parts(&mut joined, areas, end, PAGE_NUMBER_LIMIT)?;
    Ok(joined)
}

/// The permissions that a space's areas, rising and maximal, give a page; none where it isn't mapped.
/// The time grows with the logarithm of the areas.
pub fn find_prot(areas: &[Area], page: PageNo) -> Option<Prot>
    requires { AreMaximal None areas.now }
    ensures { result ≡ prot_in areas.now page }
{
    let after = areas.partition_point(|area| area.first.number() <= page.number());
    if after == 0 {
        return None;
    }
    let area = areas[after - 1];
    (page.number() - area.first.number() < area.count).then_some(area.prot)
}

/// The end of the area where it has this page, else the page.
fn reach(area: &Area, page: u64) -> u64
    requires { area.now.first + area.now.count ≤ 2 ^ 35 }
    ensures { result ≡ (if is_within area.now.first area.now.count page
        then area.now.first + area.now.count else page) }
{
    let first = area.first.number();
    let end = first + area.count;
    if first <= page && page < end {
        end
    } else {
        page
    }
}

/// Whether a page of the run isn't mapped, by a walk over all areas.
pub(crate) fn meets_hole(areas: &[Area], range: &PageRange) -> bool
    requires maximal { AreMaximal None areas.now }
    requires within { range.now.first + range.now.count ≤ 2 ^ 35 }
    ensures { result ≡ has_hole (page_map_of areas.now) range.now.first range.now.count }
{
    let mut next = range.first.number();
    for area in areas {
        next = reach(area, next);
    }
    next < range.first.number() + range.count
}

/// Whether an area has a page of a run, which ends before another page.
fn meets(area: &Area, begin: u64, end: u64) -> bool
    ensures { result ≡ is_met begin end area.now }
{
    area.first.number() < end && begin.saturating_sub(area.first.number()) < area.count
}

/// Whether one of the areas has a page of a run, which ends before another page.
fn any_meets(areas: &[Area], begin: u64, end: u64) -> bool
    ensures { result ≡ list_any (is_met begin end) areas.now }
{
    areas.iter().any(|area| meets(area, begin, end))
}

/// Whether a page of the run is mapped.
pub(crate) fn meets_area(areas: &[Area], range: &PageRange) -> bool
    requires maximal { AreMaximal None areas.now }
    requires pages { 0 < range.now.count }
    requires within { range.now.first + range.now.count ≤ 2 ^ 35 }
    ensures { IsFalse result ↔ AllHave (page_map_of areas.now) range.now.first range.now.count None }
{
    let begin = range.first.number();
    any_meets(areas, begin, begin + range.count)
}

/// Whether an area has each page of a run, which ends before another page, with these permissions.
fn covers(area: &Area, begin: u64, end: u64, prot: Prot) -> bool
    requires { begin ≤ end }
    ensures { result ≡ is_covering begin end prot area.now }
{
    let first = area.first.number();
    first <= begin && end - first <= area.count && area.prot.bits() == prot.bits()
}

/// Whether one of the areas has each page of a run, which ends before another page, with these permissions.
fn any_covers(areas: &[Area], begin: u64, end: u64, prot: Prot) -> bool
    requires { begin ≤ end }
    ensures { result ≡ list_any (is_covering begin end prot) areas.now }
{
    areas.iter().any(|area| covers(area, begin, end, prot))
}

/// Whether each page of an area has its permissions already.
pub(crate) fn has_area(areas: &[Area], area: &Area) -> bool
    requires maximal { AreMaximal None areas.now }
    requires pages { 0 < area.now.count }
    requires within { area.now.first + area.now.count ≤ 2 ^ 35 }
    ensures { IsTrue result
        ↔ AllHave (page_map_of areas.now) area.now.first area.now.count (Some area.now.prot) }
{
    let begin = area.first.number();
    any_covers(areas, begin, begin + area.count, area.prot)
}

/// Whether an area lies within the only one of the areas, which has other permissions and pages on both sides of it.
pub(crate) fn is_split(areas: &[Area], area: &Area) -> bool
    requires { area.now.first + area.now.count ≤ 2 ^ 35 }
    ensures { IsTrue result → IsSplitBy areas.now area.now }
{
    let [around] = areas else {
        return false;
    };
    lies_within(around, area) && around.prot.bits() != area.prot.bits()
}

/// Whether an area has pages on both sides of another.
fn lies_within(around: &Area, area: &Area) -> bool
    requires { area.now.first + area.now.count ≤ 2 ^ 35 }
    ensures before { IsTrue result → around.now.first < area.now.first }
    ensures after { IsTrue result → area.now.first + area.now.count < around.now.first + around.now.count }
{
    let first = around.first.number();
    let begin = area.first.number();
    first < begin && begin + area.count - first < around.count
}

/// Puts one page after the areas.
pub(crate) fn push_page(areas: &mut Vec<Area>, page: PageNo, prot: Prot) -> Result<(), AllocError>
    requires maximal { AreMaximal None areas.old.items }
    requires behind { end_of_all areas.old.items ≤ page }
    ensures maximal { OnOk result (AreMaximal None areas.new.items) }
    ensures ends { OnOk result (end_of_all areas.new.items ≡ page + 1) }
    ensures same { OnOk result ((other : ℕ) → prot_in areas.new.items other
        ≡ (if is_within page 1 other then Some prot else prot_in areas.old.items other)) }
{
    let first = page;
    let _number = page.number();
    push_area(
        areas,
        Area {
            first,
            count: 1,
            prot,
        },
    )
}
