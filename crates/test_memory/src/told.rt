//! Commands on a memory, each noted as an entry.
ghost use Rattle.std.specs.Prelude.{◌≡◌, [], OnOk, IfOk, reverse};
ghost use Rattle.std.specs.FinMap as finmap;
ghost use Rattle.sd_areas.specs.Memory.{memory_of};
ghost use Rattle.test_memory.specs.Told.{TellsMemory};

use sd_areas::{Snapshot, SpaceId};
use sd_command::{Command, apply_to};
use sd_fold::replay;
use sd_journal::Entry;
use sd_pagetable::Memory;
use std::alloc::{AllocError, Global};

/// A memory as a run begins without a store: space 1 alone.
pub fn beginning(alloc: Global) -> Result<Memory, AllocError>
    ensures { IfOk result (TellsMemory []) }
{
    Memory::new(alloc, 65536)
}

/// Applies a command, and adds it with its reply as an entry.
pub fn tell(
    alloc: Global,
    memory: &mut Memory,
    entries: &mut Vec<Entry>,
    command: Command,
) -> Result<(), AllocError>
    requires { TellsMemory entries.old.items memory.old }
    ensures { OnOk result (TellsMemory entries.new.items memory.new) }
{
    let reply = apply_to(alloc, memory, &command)?;
    entries.push(Entry::Applied {
        seat: 0,
        command,
        reply,
    })?;
    Ok(())
}

/// The memory that the entries make of the beginning.
pub fn made(alloc: Global, memory: &Memory, entries: &[Entry]) -> Result<Snapshot, AllocError>
    requires { TellsMemory entries.now memory.now }
{
    let mut base = Snapshot::new(alloc, 0);
    base.add_space(alloc, SpaceId::new(1))?;
    replay(alloc, base, entries)
}
