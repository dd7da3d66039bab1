//! Which pages are mapped, unmapped and protected so that a space gets the areas of a core.

use crate::program_header::ProgramHeader;
use sd_areas::{AREA_LIMIT, Area, PAGE_BYTES, PageNo};
use std::alloc::{AllocError, Global};

/// The area of a segment; none where it has an address that a space doesn't have.
fn area_of(segment: &ProgramHeader) -> Option<Area> {
    let first = PageNo::new(segment.p_vaddr / PAGE_BYTES)?;
    Some(Area {
        first,
        count: segment.p_memsz / PAGE_BYTES,
        prot: segment.prot(),
    })
}

/// The end of an area, as a page number.
fn end_of(area: &Area) -> u64 {
    area.first.number().saturating_add(area.count)
}

/// Whether an area begins where the one before it ends, with equal permissions.
fn continues(last: &Area, area: &Area) -> bool {
    end_of(last) == area.first.number() && last.prot.bits() == area.prot.bits()
}

/// An area with more pages at its end.
fn longer(area: Area, count: u64) -> Area {
    Area {
        first: area.first,
        count: area.count.saturating_add(count),
        prot: area.prot,
    }
}

/// Puts an area after the others: as a part of the last, where it begins at its end and has its permissions.
fn push_area(areas: &mut Vec<Area>, area: Area) -> Result<(), AllocError> {
    if let Some(last) = areas.pop() {
        if continues(&last, &area) {
            areas.push(longer(last, area.count))?;
            return Ok(());
        }
        areas.push(last)?;
    }
    areas.push(area)?;
    Ok(())
}

/// The areas that the segments of a core make, rising. Neighbours with equal permissions are one.
pub fn areas_of(alloc: Global, segments: &[ProgramHeader]) -> Result<Vec<Area>, AllocError> {
    let mut areas = Vec::new(alloc);
    for segment in segments {
        if let Some(area) = area_of(segment) {
            push_area(&mut areas, area)?;
        }
    }
    Ok(areas)
}

/// The segments, which rise, that begin below an address, and the others.
pub fn split_segments(
    segments: &[ProgramHeader],
    end: u64,
) -> (&[ProgramHeader], &[ProgramHeader]) {
    segments.split_at(segments.partition_point(|segment| segment.p_vaddr < end))
}

/// A run of pages.
#[derive(Clone, Copy, PartialEq, Eq)]
pub struct PageRun {
    /// The number of the first page.
    pub first: u64,
    /// How many pages.
    pub count: u64,
}

/// Puts pages after others: as a part of the last run, where they begin at its end.
fn push_run(runs: &mut Vec<PageRun>, first: u64, end: u64) -> Result<(), AllocError> {
    let count = end.saturating_sub(first);
    if count == 0 {
        return Ok(());
    }
    if let Some(last) = runs.pop() {
        if last.first.saturating_add(last.count) == first {
            let count = last.count.saturating_add(count);
            runs.push(PageRun {
                first: last.first,
                count,
            })?;
            return Ok(());
        }
        runs.push(last)?;
    }
    runs.push(PageRun { first, count })?;
    Ok(())
}

/// How many of the areas, which rise, end at a page or below it.
fn ended_by(areas: &[Area], page: u64) -> usize {
    areas.partition_point(|area| end_of(area) <= page)
}

/// Puts the pages of an area that no other area has after the runs. The other areas rise.
fn push_outside(runs: &mut Vec<PageRun>, area: &Area, others: &[Area]) -> Result<(), AllocError> {
    let end = end_of(area);
    let mut next = area.first.number();
    for other in others.iter().skip(ended_by(others, next)) {
        if other.first.number() >= end {
            break;
        }
        push_run(runs, next, other.first.number())?;
        next = next.max(end_of(other));
    }
    push_run(runs, next, end)
}

/// The pages of areas that no other area has, as runs. Both lists of areas rise.
pub fn pages_outside(
    alloc: Global,
    areas: &[Area],
    others: &[Area],
) -> Result<Vec<PageRun>, AllocError> {
    let mut runs = Vec::new(alloc);
    for area in areas {
        push_outside(&mut runs, area, others)?;
    }
    Ok(runs)
}

/// Whether the areas, which rise, have all pages of an area with its permissions.
pub fn is_there(areas: &[Area], area: &Area) -> bool {
    match areas.get(ended_by(areas, area.first.number())) {
        Some(found) => {
            found.first.number() <= area.first.number()
                && end_of(area) <= end_of(found)
                && found.prot.bits() == area.prot.bits()
        }
        None => false,
    }
}

/// Whether a space with these areas could have over 1,024 of them while it gets others, one after the other: its pages
/// are then unmapped first.
pub fn may_split_too_far(areas: usize, others: usize) -> bool {
    areas.saturating_mul(2).saturating_add(others) > AREA_LIMIT
}
