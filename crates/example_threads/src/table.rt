//! The table: a multiplication table of numbers of eight bytes, a page for each row. Rows and columns are counted from
//! 1.
use sd_areas::{PAGE_BYTES, PageNo, Prot, Snapshot, SpaceId};
use sd_command::{Bytes, Command};
use std::alloc::{AllocError, Global};

/// How many rows there are, each filled by a thread of its own.
pub const ROWS: usize = 8;

/// How many columns there are: a row fills a page.
pub const COLUMNS: u64 = 512;

/// The sum of all numbers: that of 1 to 8 times that of 1 to 512.
pub const TOTAL: u64 = 36 * 131_328;

/// The first page of the table in its space.
const FIRST_PAGE: u64 = 0x100;

/// The space that a new store has.
fn space() -> SpaceId {
    SpaceId::new(1)
}

/// Maps the pages of all rows.
pub fn map_command() -> Command {
    Command::Mmap {
        space: space(),
        address: FIRST_PAGE * PAGE_BYTES,
        length: ROWS as u64 * PAGE_BYTES,
        prot: Prot {
            read: true,
            write: true,
            execute: false,
        },
    }
}

/// The number at a place.
fn number_at(row: u64, column: u64) -> u64 {
    row.wrapping_mul(column)
}

/// The page of a row.
fn page_of(row: u64) -> u64 {
    FIRST_PAGE.wrapping_add(row.wrapping_sub(1))
}

/// Where the number at a place stands.
fn address_of(row: u64, column: u64) -> u64 {
    let place = column.wrapping_sub(1);
    page_of(row)
        .wrapping_mul(PAGE_BYTES)
        .wrapping_add(place.wrapping_mul(8))
}

/// Stores the number at a place.
pub fn store_command(alloc: Global, row: u64, column: u64) -> Result<Command, AllocError> {
    let number = number_at(row, column);
    Ok(Command::Store {
        space: space(),
        address: address_of(row, column),
        bytes: Bytes::new(Vec::from_array(alloc, number.to_le_bytes())?),
    })
}

/// Loads the number at a place.
pub fn load_command(row: u64, column: u64) -> Command {
    Command::Load {
        space: space(),
        address: address_of(row, column),
        count: 8,
    }
}

/// The sum of the numbers that some bytes are, eight each.
pub fn sum_of(bytes: &[u8]) -> u64 {
    let mut sum = 0u64;
    for number in bytes.chunks_exact(8) {
        if let Ok(number) = <[u8; 8]>::try_from(number) {
            sum = sum.wrapping_add(u64::from_le_bytes(number));
        }
    }
    sum
}

/// Whether the bytes of a page are the numbers of a row.
fn is_row(row: u64, bytes: &[u8]) -> bool {
    for (place, number) in bytes.chunks_exact(8).enumerate() {
        let wanted = number_at(row, (place as u64).wrapping_add(1));
        if number != wanted.to_le_bytes().as_slice() {
            return false;
        }
    }
    true
}

/// Whether a memory that was restored has each number of the table.
pub fn has_table(snapshot: &Snapshot) -> bool {
    let Some(pages) = snapshot.spaces.get(&space()) else {
        return false;
    };
    for row in 1..=ROWS as u64 {
        let found = PageNo::new(page_of(row)).and_then(|page| pages.get(&page));
        if !found.is_some_and(|page| is_row(row, &page.bytes[..])) {
            return false;
        }
    }
    true
}
