//! How many pages of a chain are traced at once.
use crate::builders::{ABOVE, DUMP};
use sd_areas::{PageNo, SpaceId};
use sd_chain::{Catalog, Chain, Found, PlacedTable, Trace, Way};
use sd_image::{Header, decode_table};
use std::alloc::{AllocError, Global};
use std::mem::forget;

/// A table of the data pages 0x10 to 0x13 of space 1.
const OLDER: [u8; 72] = [
    1, 0, 0, 0, 0, 0, 0, 0, //
    1, 0, 0, 0, 1, 0, 0, 0, 1, 0, 0, 0, 0, 0, 0, 0, //
    0x10, 0, 0, 0, 0, 0, 0, 0, 4, 0, 0, 0, 0, 0, 0, 0, 3, 0, 0, 0, 0, 0, 0, 0, //
    0x10, 0, 0, 0, 0, 0, 0, 0, 4, 0, 0, 0, 0, 0, 0, 0, 1, 0, 0, 0, 0, 0, 0, 0,
];

/// One of the pages 0x10 to 0x14, of which the second is data, and the others are in the parent.
const NEWER: [u8; 120] = [
    1, 0, 0, 0, 0, 0, 0, 0, //
    1, 0, 0, 0, 1, 0, 0, 0, 3, 0, 0, 0, 0, 0, 0, 0, //
    0x10, 0, 0, 0, 0, 0, 0, 0, 5, 0, 0, 0, 0, 0, 0, 0, 3, 0, 0, 0, 0, 0, 0, 0, //
    0x10, 0, 0, 0, 0, 0, 0, 0, 1, 0, 0, 0, 0, 0, 0, 0, 2, 0, 0, 0, 0, 0, 0, 0, //
    0x11, 0, 0, 0, 0, 0, 0, 0, 1, 0, 0, 0, 0, 0, 0, 0, 1, 0, 0, 0, 0, 0, 0, 0, //
    0x12, 0, 0, 0, 0, 0, 0, 0, 3, 0, 0, 0, 0, 0, 0, 0, 2, 0, 0, 0, 0, 0, 0, 0,
];

/// Adds an image with this table. Returns whether it is added.
fn add(
    alloc: Global,
    catalog: &mut Catalog,
    slot: usize,
    header: Header,
    text: &[u8],
) -> Result<bool, AllocError> {
    let Ok(table) = decode_table(alloc, &header, text) else {
        return Ok(false);
    };
    let placed = PlacedTable::new(alloc, table)?;
    Ok(catalog.add(slot, header, placed).is_ok())
}

/// The trace of the first data page of slot 0.
const FIRST: Trace = Trace::Found(Found::Data {
    slot: 0,
    offset: 4096,
});

/// The trace of its third data page.
const THIRD: Trace = Trace::Found(Found::Data {
    slot: 0,
    offset: 4096 * 3,
});

/// The trace of the first data page of slot 1.
const SECOND: Trace = Trace::Found(Found::Data {
    slot: 1,
    offset: 4096,
});

/// How many pages isn't compared.
const ANY: u64 = 0;

/// A space and a page of it, of at most so many, what is traced of it, and of how many.
type Alike = (u64, u64, u64, Trace, u64);

const ALIKE: &[Alike] = &[
    (1, 0x10, 5, FIRST, 1),
    (1, 0x11, 5, SECOND, 1),
    (1, 0x12, 5, THIRD, 2),
    (1, 0x14, 5, Trace::Broken { slot: 1 }, 1),
    (1, 0x15, 5, Trace::Absent, 1),
    (1, 0x12, 5, THIRD, 2),
    (1, 0x10, 5, FIRST, 1),
    (1, 0x12, 1, THIRD, 1),
    (2, 0x10, 5, Trace::Absent, ANY),
];

/// Whether a chain has a page as a row says.
fn lies_alike(chain: &mut Chain<'_>, row: &Alike) -> bool {
    let (space, number, most, trace, count) = *row;
    let Some(page) = PageNo::new(number) else {
        return false;
    };
    let run = chain.trace(SpaceId::new(space), page, most.max(1));
    run.trace == trace && (run.count == count || count == ANY)
}

/// Whether the chain of the second image has all pages as the rows say.
fn lie_alike(catalog: &Catalog) -> Result<bool, AllocError> {
    let mut chain = catalog.chain(2)?;
    let mut alike = true;
    for row in ALIKE {
        alike &= lies_alike(&mut chain, row);
    }
    Ok(alike)
}

/// Whether the second image says its way to its own page.
fn says_its_way(catalog: &Catalog) -> bool {
    let Some(page) = PageNo::new(0x11) else {
        return false;
    };
    match catalog.image(2) {
        Some(image) => image.way(SpaceId::new(1), page) == Some(Way::Data { place: 0 }),
        None => false,
    }
}

/// A dump of four data pages.
const FOUR: Header = Header { pages: 4, ..DUMP };

/// One above it, with a data page.
const ONE: Header = Header { pages: 1, ..ABOVE };

/// Adds a dump of four pages, and one that has the second of them itself: three runs, whether the pages rise or fall.
/// Returns whether its chain has the pages so.
fn traces_alike(alloc: Global, catalog: &mut Catalog) -> Result<bool, AllocError> {
    let are_added = add(alloc, catalog, 0, FOUR, &OLDER)? && add(alloc, catalog, 1, ONE, &NEWER)?;
    let alike = lie_alike(catalog)?;
    Ok(are_added && alike && says_its_way(catalog) && !catalog.is_held(2))
}

/// The same with a catalog that is empty at first.
fn is_right(alloc: Global) -> Result<bool, AllocError> {
    let mut catalog = Catalog::new(alloc);
    let is_right = traces_alike(alloc, &mut catalog);
    forget(catalog);
    is_right
}

#[test]
fn pages_that_lie_alike_are_traced_at_once(rt: HostRuntime) -> Result<(), AllocError> {
    assert!(rt; is_right(rt.alloc())?);
    Ok(())
}
