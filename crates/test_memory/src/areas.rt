//! Calls on the areas of one space, also over more pages than a memory maps, and over more areas than a space has.
use crate::support::{READ, READ_WRITE, put};
use sd_areas::{Area, AreaError, AreaMap, Errno, PageNo, Prot, SnapshotPage};
use std::alloc::{AllocError, Global};
use std::collections::BTreeMap;

const ENOMEM: AreaError = AreaError::Refused(Errno::Enomem);

/// The first address after the last page: 2^47.
const END: u64 = 0x8000_0000_0000;

/// The address of the last page.
const LAST_PAGE: u64 = 0x7FFF_FFFF_F000;

/// An area as its first page, how many pages it has, and its permissions.
type Run = (u64, u64, Prot);

/// The pages of a space.
type Pages = BTreeMap<PageNo, SnapshotPage>;

/// A call on a space: the address and the length are in bytes.
#[derive(Clone, Copy)]
enum Call {
    Map(u64, u64, Prot),
    Unmap(u64, u64),
    Protect(u64, u64, Prot),
}

fn made(map: &mut AreaMap, call: Call) -> Result<(), AreaError> {
    match call {
        Call::Map(address, bytes, prot) => map.map(address, bytes, prot),
        Call::Unmap(address, bytes) => map.unmap(address, bytes),
        Call::Protect(address, bytes, prot) => map.protect(address, bytes, prot),
    }
}

fn is_run(found: &Area, wanted: &Run) -> bool {
    let (first, count, prot) = *wanted;
    found.first.number() == first && found.count == count && found.prot == prot
}

/// Whether a space has these areas, in this order, and no others.
fn has_areas(map: &AreaMap, wanted: &[Run]) -> bool {
    let found = map.areas();
    found.len() == wanted.len()
        && found
            .iter()
            .zip(wanted)
            .all(|(area, run)| is_run(area, run))
}

/// Whether a call is made and leaves these areas.
fn leaves(map: &mut AreaMap, call: Call, after: &[Run]) -> Result<bool, AllocError> {
    match made(map, call) {
        Ok(()) => Ok(has_areas(map, after)),
        Err(AreaError::OutOfMemory) => Err(AllocError),
        Err(_) => Ok(false),
    }
}

/// Whether calls that are made in turn leave the areas beside each.
fn follows(map: &mut AreaMap, steps: &[(Call, &[Run])]) -> Result<bool, AllocError> {
    for (call, after) in steps {
        if !leaves(map, *call, after)? {
            return Ok(false);
        }
    }
    Ok(true)
}

const FIVE: &[Run] = &[
    (0, 1, READ),
    (2, 1, READ),
    (4, 1, READ),
    (6, 1, READ),
    (8, 1, READ),
];

const SIX: &[Run] = &[
    (0, 1, READ),
    (2, 1, READ),
    (4, 1, READ),
    (6, 1, READ),
    (8, 1, READ),
    (10, 1, READ),
];

const ALL_BUT_ONE: u64 = 0x7_FFFF_FFFF;

const ALL: u64 = 0x8_0000_0000;

/// The list of areas grows, and then it has more pages than a memory has. The last calls leave a hole.
const STEPS: &[(Call, &[Run])] = &[
    (Call::Map(0, 1, READ), &[(0, 1, READ)]),
    (Call::Map(0x2000, 1, READ), &[(0, 1, READ), (2, 1, READ)]),
    (
        Call::Map(0x4000, 1, READ),
        &[(0, 1, READ), (2, 1, READ), (4, 1, READ)],
    ),
    (
        Call::Map(0x6000, 1, READ),
        &[(0, 1, READ), (2, 1, READ), (4, 1, READ), (6, 1, READ)],
    ),
    (Call::Map(0x8000, 1, READ), FIVE),
    (Call::Map(0xA000, 1, READ), SIX),
    (Call::Protect(0x2000, 1, READ), SIX),
    (Call::Unmap(0xA000, 1), FIVE),
    (Call::Map(0, END, READ), &[(0, ALL, READ)]),
    (Call::Protect(0, END, READ_WRITE), &[(0, ALL, READ_WRITE)]),
    (Call::Unmap(0, END), &[]),
    (Call::Map(0, END - 1, READ), &[(0, ALL, READ)]),
    (
        Call::Protect(0, END - 1, READ_WRITE),
        &[(0, ALL, READ_WRITE)],
    ),
    (Call::Unmap(0, END - 1), &[]),
    (
        Call::Map(0x1000, LAST_PAGE, READ),
        &[(1, ALL_BUT_ONE, READ)],
    ),
    (
        Call::Protect(0x1000, LAST_PAGE, READ_WRITE),
        &[(1, ALL_BUT_ONE, READ_WRITE)],
    ),
    (Call::Unmap(0x1000, LAST_PAGE), &[]),
    (Call::Unmap(0, END), &[]),
    (Call::Map(0x10000, 0x2000, READ), &[(16, 2, READ)]),
    (
        Call::Map(0x13000, 0x2000, READ),
        &[(16, 2, READ), (19, 2, READ)],
    ),
];

/// Pages in and beside two areas, and their permissions.
const PROTS: &[(u64, Option<Prot>)] = &[
    (0, None),
    (15, None),
    (16, Some(READ)),
    (17, Some(READ)),
    (18, None),
    (19, Some(READ)),
    (20, Some(READ)),
    (21, None),
    (0x7_FFFF_FFFF, None),
];

/// Whether each page has its permissions.
fn has_prots(map: &AreaMap) -> bool {
    for (number, prot) in PROTS {
        let found = match PageNo::new(*number) {
            Some(page) => map.prot_of(page),
            None => return false,
        };
        if found != *prot {
            return false;
        }
    }
    true
}

fn changes_areas(map: &mut AreaMap) -> Result<bool, AllocError> {
    Ok(follows(map, STEPS)? && has_prots(map))
}

/// Adds single pages with a hole between any two.
fn add_apart(alloc: Global, pages: &mut Pages) -> Result<(), AllocError> {
    for number in 0..1025u64 {
        put(alloc, pages, &(0, 2 * number, READ, 0))?;
    }
    Ok(())
}

/// Whether pages have more areas than a space has.
fn are_refused(alloc: Global, pages: &Pages) -> Result<bool, AllocError> {
    match AreaMap::from_pages(alloc, pages) {
        Ok(_) => Ok(false),
        Err(AreaError::OutOfMemory) => Err(AllocError),
        Err(error) => Ok(error == ENOMEM),
    }
}

/// Whether areas are as many as a space has, of which the fourth has three pages.
fn are_most(areas: &[Area]) -> bool {
    areas.len() == 1024 && is_run(&areas[3], &(6, 3, READ))
}

fn are_taken(alloc: Global, pages: &Pages) -> Result<bool, AllocError> {
    match AreaMap::from_pages(alloc, pages) {
        Ok(map) => Ok(are_most(map.areas())),
        Err(AreaError::OutOfMemory) => Err(AllocError),
        Err(_) => Ok(false),
    }
}

/// Whether a space of single pages begins once a page fills one of the holes, and not before.
fn begins(alloc: Global, pages: &mut Pages) -> Result<bool, AllocError> {
    add_apart(alloc, pages)?;
    let is_refused = are_refused(alloc, pages)?;
    put(alloc, pages, &(0, 7, READ, 0))?;
    Ok(are_taken(alloc, pages)? && is_refused)
}

#[test]
fn areas_of_one_space(rt: HostRuntime) -> Result<(), AllocError> {
    assert!(rt; changes_areas(&mut AreaMap::new(rt.alloc()))?);
    assert!(rt; begins(rt.alloc(), &mut BTreeMap::new(rt.alloc()))?);
    Ok(())
}
