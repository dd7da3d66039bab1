//! The commands by which a space gets the memory of a core.
ghost use Rattle.std.specs.Prelude.{◌≡◌, IfOk, OnOk};
ghost use Rattle.sd_import.specs.Changes.{ChangesOnly, MayGoOn};
ghost use Rattle.sd_import.specs.Imported.{HasCore};
ghost use Rattle.sd_pagetable.specs.Contents.{plain_of};
ghost use Rattle.sd_pagetable.specs.Nested.{inside};
ghost use Rattle.sd_world.specs.Goes.{GoesOn};

use crate::checking::has_core;
use crate::import_error::ImportError;
use crate::requests::{WHOLE, ask, bytes_in, make_space, unmapping};
use crate::tally::Tally;
use sd_areas::{Area, PAGE_BYTES, PAGE_SIZE, PageNo, Prot, SpaceId};
use sd_command::{Bytes, Command};
use sd_disk::Disk;
use sd_elf::{
    Core, CoreFile, PageRun, Piece, ProgramHeader, areas_of, is_there, may_split_too_far,
    pages_outside, pieces_of, read_page, split_segments,
};
use sd_pagetable::{Memory, SECTOR_SIZE};
use sd_world::World;
use std::alloc::{AllocError, Global};
use std::slice::from_ref;

/// An import: the core file, and the space that gets its memory.
#[derive(Drop)]
struct Import<'a, F> {
    alloc: Global,
    file: &'a F,
    space: SpaceId,
    /// The areas that the space had before.
    before: Vec<Area>,
    /// How many pages are others than before.
    changed: u64,
}

/// An area that gets its bytes.
#[derive(Drop)]
struct Filling<'a> {
    area: &'a Area,
    /// The permissions that all its pages have now; none where they may differ.
    now: Option<Prot>,
    /// The page of the core that is stored.
    new: [u8; PAGE_SIZE],
}

/// The areas of a space; none where it isn't alive.
fn space_areas(alloc: Global, memory: &Memory, space: SpaceId) -> Result<Vec<Area>, AllocError> {
    match memory.areas(space) {
        Some(map) => Vec::from_slice(alloc, map.areas()),
        None => Ok(Vec::new(alloc)),
    }
}

/// How many pages runs have.
fn page_count(runs: &[PageRun]) -> u64 {
    let mut count = 0u64;
    for run in runs {
        count = count.saturating_add(run.count);
    }
    count
}

/// The permissions with which the bytes of an area are stored.
fn with_write(prot: Prot) -> Prot {
    Prot {
        write: true,
        ..prot
    }
}

/// The end of an area, as an address.
fn end_address(area: &Area) -> u64 {
    bytes_in(area.first.number().saturating_add(area.count))
}

/// A page of a space, whatever its permissions. One that isn't mapped is zeros.
fn page_of(memory: &Memory, space: SpaceId, page: PageNo) -> [u8; PAGE_SIZE] {
    let mut bytes = [0; PAGE_SIZE];
    for sector in 0..PAGE_SIZE / SECTOR_SIZE {
        let mut part = [0; SECTOR_SIZE];
        memory.read_sector(space, page, sector, &mut part);
        let start = sector * SECTOR_SIZE;
        bytes[start..start + SECTOR_SIZE].copy_from_slice(&part);
    }
    bytes
}

/// The bytes of a part of a page.
fn part_of(alloc: Global, page: &[u8; PAGE_SIZE], piece: &Piece) -> Result<Vec<u8>, AllocError> {
    match page.get(piece.from..piece.to) {
        Some(part) => Vec::from_slice(alloc, part),
        None => Ok(Vec::new(alloc)),
    }
}

/// Makes a space that isn't alive.
///
/// # Errors
///
/// Those of `make_space`.
fn make_missing<D: Disk>(world: &mut World<D>, space: SpaceId) -> Result<(), ImportError>
    ensures changes { OnOk result (ChangesOnly D.Disk space world.old world.new) }
    ensures goes_on { MayGoOn D.Disk world.old world.new }
{
    if world.core().memory().areas(space).is_none() {
        return make_space(world, space);
    }
    Ok(())
}

/// Gives a space the memory of a core, whose headers were read by [`read_core`](sd_elf::read_core), by commands on that
/// space alone. A space that isn't alive, but has the least number that is free, is made. Next comes a
/// [`checkpoint`](World::checkpoint), which saves it.
///
/// # Errors
///
/// `Core` where the file can't be read; `Answer` where a command is refused; `Changed` where another program changed
/// the file meanwhile; `OutOfMemory`. The space may then have a part of the core's memory.
pub fn import_core<D: Disk, F: CoreFile>(
    alloc: Global,
    world: &mut World<D>,
    file: &F,
    core: &Core,
    space: SpaceId,
) -> Result<Tally, ImportError>
    // The space has the memory that the core file says: each page of its segments, with their permissions and, where it
    // is known what the file holds, their bytes, and no other.
    ensures memory { OnOk result
        (HasCore (F.bytes file.now) core.now.segments.items (inside (plain_of world.new.core.memory) space)) }
    // Every other space is as before.
    ensures changes { OnOk result (ChangesOnly D.Disk space world.old world.new) }
    // However it ends: whatever moment of it a crash comes, the journal of that moment allows what it leaves.
    ensures goes_on { GoesOn D.Disk world.old world.new }
    ensures imported { IfOk result (λ tally. tally.imported ≡ core.now.extent.pages) }
{
    world.sound();
    make_missing(world, space)?;
    let before = space_areas(alloc, world.core().memory(), space)?;
    let mut import = Import {
        alloc,
        file,
        space,
        before,
        changed: 0,
    };
    import.take_core(world, core)?;
    let Import { changed, .. } = import;
    if has_core(world.core().memory(), space, file, &core.segments)? {
        Ok(Tally {
            imported: core.extent.pages,
            changed,
        })
    } else {
        Err(ImportError::Changed)
    }
}

impl<F: CoreFile> Import<'_, F> {
    /// Unmaps what the core doesn't have, and gives the space each area of the core.
    fn take_core<D: Disk>(&mut self, world: &mut World<D>, core: &Core) -> Result<(), ImportError>
        ensures changes { OnOk result (ChangesOnly D.Disk self.old.space world.old world.new) }
        ensures goes_on { MayGoOn D.Disk world.old world.new }
    {
        let wanted = areas_of(self.alloc, &core.segments)?;
        self.unmap_others(world, &wanted)?;
        let mut segments = core.segments.as_slice();
        for area in &wanted {
            let (inside, rest) = split_segments(segments, end_address(area));
            self.take_area(world, area, inside)?;
            segments = rest;
        }
        Ok(())
    }

    /// Unmaps the pages that the core doesn't have, or all where the areas are others and could be too many meanwhile.
    fn unmap_others<D: Disk>(
        &mut self,
        world: &mut World<D>,
        wanted: &[Area],
    ) -> Result<(), ImportError>
        ensures changes { OnOk result (ChangesOnly D.Disk self.old.space world.old world.new) }
        ensures goes_on { MayGoOn D.Disk world.old world.new }
        ensures space { self.new.space ≡ self.old.space }
    {
        let gone = pages_outside(self.alloc, &self.before, wanted)?;
        self.note_changed(page_count(&gone));
        if self.before.as_slice() != wanted && may_split_too_far(self.before.len(), wanted.len()) {
            self.before.clear();
            return ask(world, self.space, unmapping(self.space, WHOLE));
        }
        for run in gone {
            ask(world, self.space, unmapping(self.space, run))?;
        }
        Ok(())
    }

    fn note_changed(&mut self, count: u64)
        ensures { self.new.space ≡ self.old.space }
    {
        self.changed = self.changed.saturating_add(count);
    }

    /// Gives the space an area of the core, whose segments these are.
    fn take_area<D: Disk>(
        &mut self,
        world: &mut World<D>,
        area: &Area,
        segments: &[ProgramHeader],
    ) -> Result<(), ImportError>
        ensures changes { OnOk result (ChangesOnly D.Disk self.old.space world.old world.new) }
        ensures goes_on { MayGoOn D.Disk world.old world.new }
        ensures space { self.new.space ≡ self.old.space }
    {
        let has_bytes = segments.iter().any(|segment| segment.p_filesz > 0);
        let now = self.map_missing(world, area, has_bytes)?;
        let mut filling = Filling {
            area,
            now,
            new: [0; PAGE_SIZE],
        };
        if area.prot.write {
            self.protect(world, &mut filling, area.prot)?;
        }
        for segment in segments {
            self.take_segment(world, &mut filling, segment)?;
        }
        self.protect(world, &mut filling, area.prot)
    }

    /// Maps the pages of an area that the space doesn't have, and returns the permissions that all pages of it then
    /// have, if they have the same.
    fn map_missing<D: Disk>(
        &self,
        world: &mut World<D>,
        area: &Area,
        has_bytes: bool,
    ) -> Result<Option<Prot>, ImportError>
        ensures changes { OnOk result (ChangesOnly D.Disk self.now.space world.old world.new) }
        ensures goes_on { MayGoOn D.Disk world.old world.new }
    {
        let missing = pages_outside(self.alloc, from_ref(area), &self.before)?;
        let prot = if has_bytes {
            with_write(area.prot)
        } else {
            area.prot
        };
        let count = page_count(&missing);
        for run in missing {
            let command = Command::Mmap {
                space: self.space,
                address: bytes_in(run.first),
                length: bytes_in(run.count),
                prot,
            };
            ask(world, self.space, command)?;
        }
        if count == area.count {
            return Ok(Some(prot));
        }
        Ok(is_there(&self.before, area).then_some(area.prot))
    }

    /// Gives an area these permissions, where it doesn't have them.
    fn protect<D: Disk>(
        &self,
        world: &mut World<D>,
        filling: &mut Filling<'_>,
        prot: Prot,
    ) -> Result<(), ImportError>
        ensures changes { OnOk result (ChangesOnly D.Disk self.now.space world.old world.new) }
        ensures goes_on { MayGoOn D.Disk world.old world.new }
    {
        if filling.now == Some(prot) {
            return Ok(());
        }
        filling.now = Some(prot);
        let command = Command::Mprotect {
            space: self.space,
            address: bytes_in(filling.area.first.number()),
            length: bytes_in(filling.area.count),
            prot,
        };
        ask(world, self.space, command)
    }

    /// Gives the pages of a segment their bytes.
    fn take_segment<D: Disk>(
        &mut self,
        world: &mut World<D>,
        filling: &mut Filling<'_>,
        segment: &ProgramHeader,
    ) -> Result<(), ImportError>
        ensures changes { OnOk result (ChangesOnly D.Disk self.old.space world.old world.new) }
        ensures goes_on { MayGoOn D.Disk world.old world.new }
        ensures space { self.new.space ≡ self.old.space }
    {
        for k in 0..segment.p_memsz / PAGE_BYTES {
            let behind = k.saturating_mul(PAGE_BYTES);
            read_page(self.file, segment, behind, &mut filling.new)?;
            self.take_page(world, filling, segment.p_vaddr.saturating_add(behind))?;
        }
        Ok(())
    }

    /// Gives the page at an address its bytes, by stores of what differs.
    fn take_page<D: Disk>(
        &mut self,
        world: &mut World<D>,
        filling: &mut Filling<'_>,
        address: u64,
    ) -> Result<(), ImportError>
        ensures changes { OnOk result (ChangesOnly D.Disk self.old.space world.old world.new) }
        ensures goes_on { MayGoOn D.Disk world.old world.new }
        ensures space { self.new.space ≡ self.old.space }
    {
        let Some(page) = PageNo::new(address / PAGE_BYTES) else {
            return Ok(());
        };
        let old = page_of(world.core().memory(), self.space, page);
        let had = Area {
            first: page,
            count: 1,
            prot: filling.area.prot,
        };
        let was_there = is_there(&self.before, &had);
        let differs = old != filling.new;
        self.note_changed(u64::from(differs || !was_there));
        if differs {
            self.store_pieces(world, filling, address, &old)?;
        }
        Ok(())
    }

    /// Stores what differs in the page at an address.
    fn store_pieces<D: Disk>(
        &self,
        world: &mut World<D>,
        filling: &mut Filling<'_>,
        address: u64,
        old: &[u8; PAGE_SIZE],
    ) -> Result<(), ImportError>
        ensures changes { OnOk result (ChangesOnly D.Disk self.now.space world.old world.new) }
        ensures goes_on { MayGoOn D.Disk world.old world.new }
    {
        self.protect(world, filling, with_write(filling.area.prot))?;
        for piece in pieces_of(self.alloc, old, &filling.new)? {
            let bytes = Bytes::new(part_of(self.alloc, &filling.new, &piece)?);
            let command = Command::Store {
                space: self.space,
                address: address.saturating_add(piece.from as u64),
                bytes,
            };
            ask(world, self.space, command)?;
        }
        Ok(())
    }
}
