//! Commands on a memory, the replay of their entries and a fold of them give one memory.
ghost use Rattle.std.specs.Prelude.{◌≡◌, IfOk, OnOk, reverse};
ghost use Rattle.sd_areas.specs.Memory.{memory_of};
ghost use Rattle.sd_journal.specs.Legal.{IsLegal};
ghost use Rattle.sd_journal.specs.Worked.{empty_base};
ghost use Rattle.test_memory.specs.Told.{TellsMemory};

use crate::told::{beginning, made, tell};
use sd_areas::{PageNo, Prot, Snapshot, SnapshotPage, SpaceId};
use sd_command::{Bytes, Command};
use sd_fold::fold;
use sd_journal::Entry;
use sd_pagetable::Memory;
use std::alloc::{AllocError, Global};

const COMMANDS: usize = 400;

const PROTS: [Prot; 2] = [
    Prot {
        read: true,
        write: true,
        execute: false,
    },
    Prot {
        read: true,
        write: false,
        execute: false,
    },
];

/// The next of a row of numbers that look random.
fn next(draw: u64) -> u64 {
    draw.wrapping_mul(6364136223846793005)
        .wrapping_add(1442695040888963407)
}

/// A command on one of 3 spaces and 6 pages.
fn command(alloc: Global, draw: u64) -> Result<Command, AllocError> {
    let space = SpaceId::new(1 + (draw >> 20) % 3);
    let address = ((draw >> 24) % 6) * 4096;
    let length = ((draw >> 28) % 3) * 4096;
    let prot = PROTS[((draw >> 32) % 2) as usize];
    let bytes = Bytes::new(vec![in alloc; ((draw >> 40) % 256) as u8, 7]?);
    Ok(match (draw >> 50) % 9 {
        0 | 1 => Command::Mmap {
            space,
            address,
            length,
            prot,
        },
        2 => Command::Munmap {
            space,
            address,
            length,
        },
        3 => Command::Mprotect {
            space,
            address,
            length,
            prot,
        },
        4 => Command::Fork { space },
        5 => Command::Exit { space },
        6 => Command::TryStore {
            space,
            address: address + 4094,
            bytes,
        },
        7 => Command::Fault { space, address },
        _ => Command::Store {
            space,
            address: address + 100,
            bytes,
        },
    })
}

/// Whether a page of the memory has these permissions and bytes.
fn is_page(memory: &Memory, space: SpaceId, page: PageNo, found: &SnapshotPage) -> bool {
    let Some(areas) = memory.areas(space) else {
        return false;
    };
    let mut sector = [0; 512];
    for at in 0..8 {
        if !memory.read_sector(space, page, at, &mut sector)
            || sector.as_slice() != &found.bytes[at * 512..at * 512 + 512]
        {
            return false;
        }
    }
    areas.prot_of(page) == Some(found.prot)
}

/// How many pages the memory has.
fn page_count(memory: &Memory) -> u32 {
    let mut after = None;
    for count in 0..65536 {
        after = memory.next_page(after);
        if after.is_none() {
            return count;
        }
    }
    65536
}

/// How many living spaces the memory has.
fn space_count(memory: &Memory) -> usize {
    let mut count = 0usize;
    for number in 1..=16 {
        if memory.areas(SpaceId::new(number)).is_some() {
            count = count.wrapping_add(1);
        }
    }
    count
}

/// Whether the memory has exactly the spaces and pages of a snapshot.
fn has_just(memory: &Memory, made: &Snapshot) -> bool {
    let mut count: u32 = 0;
    for (space, pages) in &made.spaces {
        for (page, found) in pages {
            if !is_page(memory, *space, *page, found) {
                return false;
            }
            count = count.wrapping_add(1);
        }
    }
    count == page_count(memory) && made.spaces.len() == space_count(memory)
}

/// Applies random commands, and adds each as an entry.
fn tell_random(
    alloc: Global,
    memory: &mut Memory,
    entries: &mut Vec<Entry>,
) -> Result<(), AllocError>
    requires { TellsMemory entries.old.items memory.old }
    ensures { OnOk result (TellsMemory entries.new.items memory.new) }
{
    let mut draw = 20261123;
    for _ in 0..COMMANDS {
        draw = next(draw);
        tell(alloc, memory, entries, command(alloc, draw)?)?;
    }
    Ok(())
}

/// The memory that a run goes on from: space 1 alone.
fn start(alloc: Global) -> Result<Snapshot, AllocError>
    ensures { IfOk result (λ base. memory_of base ≡ empty_base.memory) }
{
    let mut base = Snapshot::new(alloc, 7);
    base.add_space(alloc, SpaceId::new(1))?;
    Ok(base)
}

/// Folds entries into the memory that a run goes on from.
fn folds(alloc: Global, base: &mut Snapshot, entries: &[Entry]) -> Result<(), AllocError>
    requires base { memory_of base.old ≡ empty_base.memory }
    requires legal { IsLegal empty_base (reverse entries.now) }
{
    fold(alloc, base, entries)
}

/// Whether a fold of a memory's entries gives that memory, and keeps the number of the checkpoint.
fn is_folded(alloc: Global, memory: &Memory, entries: &[Entry]) -> Result<bool, AllocError>
    requires { TellsMemory entries.now memory.now }
{
    let mut base = start(alloc)?;
    folds(alloc, &mut base, entries)?;
    Ok(has_just(memory, &base) && base.checkpoint == 7)
}

/// Whether a replay of them does.
fn is_replayed(alloc: Global, memory: &Memory, entries: &[Entry]) -> Result<bool, AllocError>
    requires { TellsMemory entries.now memory.now }
{
    let made = made(alloc, memory, entries)?;
    Ok(has_just(memory, &made))
}

/// Whether random commands leave pages, and both make the same of their entries.
fn are_made(
    alloc: Global,
    memory: &mut Memory,
    entries: &mut Vec<Entry>,
) -> Result<bool, AllocError>
    requires { TellsMemory entries.old.items memory.old }
{
    tell_random(alloc, memory, entries)?;
    Ok(
        page_count(memory) > 0
            && is_replayed(alloc, memory, entries)?
            && is_folded(alloc, memory, entries)?,
    )
}

#[test]
fn random_commands(rt: HostRuntime) -> Result<(), AllocError> {
    let mut memory = beginning(rt.alloc())?;
    assert!(rt; are_made(rt.alloc(), &mut memory, &mut Vec::new(rt.alloc()))?);
    Ok(())
}
