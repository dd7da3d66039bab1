//! The commands of an import.
ghost use Rattle.std.specs.Prelude.{OnOk};
ghost use Rattle.sd_import.specs.Changes.{ChangesOnly, IsOf, MayGoOn};

use crate::import_error::ImportError;
use sd_areas::{PAGE_BYTES, PAGE_NUMBER_LIMIT, SPACE_LIMIT, SpaceId};
use sd_command::{Command, Reply};
use sd_disk::Disk;
use sd_elf::PageRun;
use sd_pagetable::Memory;
use sd_world::{Event, World};

/// The seat of an import's commands.
const SEAT: usize = 0;

/// All pages of a space.
pub const WHOLE: PageRun = PageRun {
    first: 0,
    count: PAGE_NUMBER_LIMIT,
};

/// The command that unmaps pages.
pub fn unmapping(space: SpaceId, run: PageRun) -> Command
    ensures { IsOf space result }
{
    Command::Munmap {
        space,
        address: bytes_in(run.first),
        length: bytes_in(run.count),
    }
}

/// How many bytes so many pages have; the address of a page, by its number.
pub fn bytes_in(pages: u64) -> u64 {
    pages.saturating_mul(PAGE_BYTES)
}

/// Whether a reply says that a command wasn't carried out.
fn is_failure(answer: &Reply) -> bool {
    matches!(answer, Reply::Refused(_) | Reply::Segv(_))
}

/// Makes a command on a space.
///
/// # Errors
///
/// `Answer` where it is refused, or meets a page that doesn't allow it.
pub fn ask<D: Disk>(
    world: &mut World<D>,
    space: SpaceId,
    command: Command,
) -> Result<(), ImportError>
    requires { IsOf space command }
    ensures changes { OnOk result (ChangesOnly D.Disk space world.old world.new) }
    ensures goes_on { MayGoOn D.Disk world.old world.new }
{
    world.sound();
    let answer = world.make(Event::Command {
        seat: SEAT,
        command,
    });
    if is_failure(&answer) {
        return Err(ImportError::Answer(answer));
    }
    Ok(())
}

/// How many pages a space has; more than any has, where it isn't alive.
fn pages_of(memory: &Memory, space: SpaceId) -> u64 {
    let Some(map) = memory.areas(space) else {
        return u64::MAX;
    };
    let mut pages = 0u64;
    for area in map.areas() {
        pages = pages.saturating_add(area.count);
    }
    pages
}

/// The least number of a space that is free, or 0.
fn first_free(memory: &Memory) -> u64 {
    for number in 1..SPACE_LIMIT + 1 {
        if memory.areas(SpaceId::new(number)).is_none() {
            return number;
        }
    }
    0
}

/// The space that is alive and has the fewest pages, the least of them.
fn fewest_pages(memory: &Memory) -> SpaceId {
    let mut fewest = u64::MAX;
    let mut parent = SpaceId::new(1);
    for number in 1..SPACE_LIMIT + 1 {
        let space = SpaceId::new(number);
        let pages = pages_of(memory, space);
        if pages < fewest {
            fewest = pages;
            parent = space;
        }
    }
    parent
}

/// The parent of a space that is to be made: that with the fewest pages, an empty one where there is one, if that space
/// has the least number that is free. Else it is that space itself, whose fork is refused.
fn parent_of(memory: &Memory, space: SpaceId) -> SpaceId {
    if first_free(memory) == space.number() {
        fewest_pages(memory)
    } else {
        space
    }
}

/// Makes a space as the child of another one.
///
/// # Errors
///
/// `Answer` where the fork is refused, or makes another space.
fn fork_into<D: Disk>(
    world: &mut World<D>,
    parent: SpaceId,
    space: SpaceId,
) -> Result<(), ImportError>
    ensures changes { OnOk result (ChangesOnly D.Disk space world.old world.new) }
    ensures goes_on { MayGoOn D.Disk world.old world.new }
{
    world.sound();
    let command = Command::Fork { space: parent };
    let answer = world.make(Event::Command {
        seat: SEAT,
        command,
    });
    if answer == Reply::Child(space) {
        return Ok(());
    }
    Err(ImportError::Answer(answer))
}

/// Makes a space that isn't alive, where it has the least number that is free: a child of another one, without pages.
///
/// # Errors
///
/// `Answer` where the fork is refused: as no-such-space where another number is free, and as `fork` is.
pub fn make_space<D: Disk>(world: &mut World<D>, space: SpaceId) -> Result<(), ImportError>
    ensures changes { OnOk result (ChangesOnly D.Disk space world.old world.new) }
    ensures goes_on { MayGoOn D.Disk world.old world.new }
{
    let parent = parent_of(world.core().memory(), space);
    fork_into(world, parent, space)?;
    ask(world, space, unmapping(space, WHOLE))
}
