//! Whether a space has the memory of a core file.
ghost use Rattle.std.specs.Prelude.{◌≡◌, ◌+◌, ◌*◌, ◌/◌, ◌<◌, ℕ, Ok, Some, true, slice_index, slice_range, sum_by};
ghost use Rattle.std.specs.Prelude.{IfSome};
ghost use Rattle.std.specs.FinMap as finmap;
ghost use Rattle.sd_areas.specs.declared.area.Area.{Area as AreaOf};
ghost use Rattle.sd_import.specs.Imported.{HasCore, HasPageOfSegment, HasSegment, segment_page_count};
ghost use Rattle.sd_pagetable.specs.Contents.{page_at, plain_of};
ghost use Rattle.sd_pagetable.specs.Nested.{inside};
ghost use Rattle.sd_pagetable.specs.Page.{PageState};

use sd_areas::{Area, PAGE_BYTES, PAGE_SIZE, PageNo, Prot, SpaceId, count_law};
use sd_elf::{CoreFile, ProgramHeader, read_page};
use sd_pagetable::{Memory, SECTOR_SIZE};
use std::io;

/// Whether a page of a space is mapped, and one of its sectors has these bytes.
fn has_sector(memory: &Memory, space: SpaceId, page: PageNo, sector: usize, bytes: &[u8]) -> bool
    requires { sector < 8 }
    ensures { result ≡ true → (found : PageState) × (page_at memory.now space page ≡ Some found)
        × (slice_range found.bytes (512 * sector) (512 * sector + 512) ≡ bytes.now) }
{
    let mut part = [0; SECTOR_SIZE];
    let is_there = memory.read_sector(space, page, sector, &mut part);
    is_there && part.as_slice() == bytes
}

/// Whether a page of a space is mapped and has these bytes.
fn has_bytes(memory: &Memory, space: SpaceId, page: PageNo, bytes: &[u8; PAGE_SIZE]) -> bool
    ensures { result ≡ true → (found : PageState) × (page_at memory.now space page ≡ Some found)
        × ((k : ℕ) → k < 4096 → slice_index found.bytes k ≡ slice_index bytes.now k) }
{
    for sector in 0..PAGE_SIZE / SECTOR_SIZE {
        let start = SECTOR_SIZE * sector;
        if !has_sector(
            memory,
            space,
            page,
            sector,
            &bytes[start..start + SECTOR_SIZE],
        ) {
            return false;
        }
    }
    true
}

/// The permissions of a page of a space, if it is mapped.
fn prot_of(memory: &Memory, space: SpaceId, page: PageNo) -> Option<Prot>
    ensures { IfSome result
        (λ prot. (found : PageState) → page_at memory.now space page ≡ Some found → found.prot ≡ prot) }
{
    memory.areas(space)?.prot_of(page)
}

/// Whether a space has a page of a segment, as it stands in the file.
fn has_page<F: CoreFile>(
    memory: &Memory,
    space: SpaceId,
    file: &F,
    segment: &ProgramHeader,
    number: u64,
) -> io::Result<bool>
    requires { number < segment.now.p_memsz / 4096 }
    ensures { result ≡ Ok true
        → HasPageOfSegment (F.bytes file.now) (inside (plain_of memory.now) space) segment.now number }
{
    memory.whole();
    let (address, size) = (segment.p_vaddr, segment.p_memsz);
    prove!(number < size / PAGE_BYTES);
    let mut bytes = [0; PAGE_SIZE];
    read_page(file, segment, PAGE_BYTES * number, &mut bytes)?;
    let Some(page) = PageNo::new(address / PAGE_BYTES + number) else {
        return Ok(false);
    };
    let is_permitted = prot_of(memory, space, page) == Some(segment.prot());
    Ok(is_permitted && has_bytes(memory, space, page, &bytes))
}

/// Whether a space has all pages of a segment.
fn has_segment<F: CoreFile>(
    memory: &Memory,
    space: SpaceId,
    file: &F,
    segment: &ProgramHeader,
) -> io::Result<bool>
    ensures { result ≡ Ok true
        → HasSegment (F.bytes file.now) (inside (plain_of memory.now) space) segment.now }
{
    for number in 0..segment.p_memsz / PAGE_BYTES {
        if !has_page(memory, space, file, segment, number)? {
            return Ok(false);
        }
    }
    Ok(true)
}

/// How many pages areas have.
fn pages_in(areas: &[Area]) -> u128
    ensures { result ≡ sum_by (λ (area : AreaOf). area.count) areas.now }
{
    areas.iter().map(|area| u128::from(area.count)).sum()
}

/// How many pages segments have.
fn pages_of(segments: &[ProgramHeader]) -> u128
    ensures { result ≡ sum_by segment_page_count segments.now }
{
    segments
        .iter()
        .map(|segment| u128::from(segment.p_memsz / PAGE_BYTES))
        .sum()
}

/// How many pages a space has.
fn mapped_pages(memory: &Memory, space: SpaceId) -> u128
    ensures { result ≡ finmap.len (inside (plain_of memory.now) space) }
{
    count_law();
    match memory.areas(space) {
        Some(map) => pages_in(map.areas()),
        None => 0,
    }
}

/// Whether a space has the memory of a core file: each page of its segments, and no other. It reads the file again.
///
/// # Errors
///
/// Where the file can't be read.
pub fn has_core<F: CoreFile>(
    memory: &Memory,
    space: SpaceId,
    file: &F,
    segments: &[ProgramHeader],
) -> io::Result<bool>
    ensures { result ≡ Ok true → HasCore (F.bytes file.now) segments.now (inside (plain_of memory.now) space) }
{
    for segment in segments {
        if !has_segment(memory, space, file, segment)? {
            return Ok(false);
        }
    }
    Ok(mapped_pages(memory, space) == pages_of(segments))
}
