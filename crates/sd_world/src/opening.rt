//! What a run starts from: a store that is synced and read.
ghost use Rattle.std.specs.Prelude.{◌≡◌, ◌≢◌, ◌≤◌, ◌<◌, ℕ, None, OnOk, IfOk, IfErr, IsErrOf, length, map};
ghost use Rattle.std.specs.FinMap as finmap;
ghost use Rattle.sd_areas.specs.Memory.{memory_of};
ghost use Rattle.sd_disk.specs.Reads.{OnlyReads};
ghost use Rattle.sd_gate.specs.Laws.{found_phase};
ghost use Rattle.sd_image.specs.Shows.{Shows};
ghost use Rattle.sd_pagetable.specs.Contents.{plain_of};
ghost use Rattle.sd_pagetable.specs.Tracking.{IsBeginning};
ghost use Rattle.sd_core.specs.Starts.{shown_base};
ghost use Rattle.sd_world.specs.Opens.{AreSynced, HasNoFrame, IsFaultOf, IsLackOf, bare_memory};

use crate::looking::{phase_in, sync_slot};
use crate::open_fault::OpenFault;
use sd_areas::{Snapshot, SpaceId};
use sd_core::Start;
use sd_disk::Disk;
use sd_gate::Phase;
use sd_pagetable::{Memory, MemoryError};
use sd_restore::{Fault, restore, shown_is_within_limits};
use std::alloc::{AllocError, Global};

/// Syncs each slot.
fn sync_all<D: Disk>(disk: &mut D) -> Result<(), OpenFault>
    ensures synced { OnOk result
        (AreSynced (length (D.contents disk.old)) (D.contents disk.old) (D.may_leave disk.new)) }
    ensures reads { OnlyReads D.Disk disk.old disk.new }
    ensures fault { IfErr result (IsFaultOf (D.contents disk.old) (D.failed disk.old) (D.failed disk.new)) }
    ensures frames { result ≢ Err OpenFault.NoFrame }
{
    for slot in 0..disk.slots() {
        sync_slot(disk, slot)?;
    }
    Ok(())
}

/// The phase that each slot's file shows.
fn phases_in<D: Disk>(alloc: Global, disk: &mut D) -> Result<Vec<Phase>, OpenFault>
    ensures phases { D.is_honest disk.new
        → IfOk result (λ phases. phases.items ≡ map found_phase (D.contents disk.old)) }
    ensures count { IfOk result (λ phases. length phases.items ≡ length (D.contents disk.old)) }
    ensures reads { OnlyReads D.Disk disk.old disk.new }
    ensures fault { IfErr result (IsFaultOf (D.contents disk.old) (D.failed disk.old) (D.failed disk.new)) }
    ensures frames { result ≢ Err OpenFault.NoFrame }
{
    let mut phases = Vec::new(alloc);
    for slot in 0..disk.slots() {
        phases.push(phase_in(disk, slot)?)?;
    }
    Ok(phases)
}

/// Space 1 alone, without areas.
fn bare(alloc: Global) -> Result<Snapshot, AllocError>
    ensures { IfOk result (λ snapshot. memory_of snapshot ≡ bare_memory) }
{
    let mut snapshot = Snapshot::new(alloc, 0);
    snapshot.add_space(alloc, SpaceId::new(1))?;
    Ok(snapshot)
}

/// The number of the checkpoint that a store shows, if it has one, and its memory, or else space 1 alone.
fn base_of<D: Disk>(alloc: Global, disk: &mut D) -> Result<(Option<u64>, Snapshot), OpenFault>
    ensures shows { D.is_honest disk.new → IfOk result (λ base. Shows (D.contents disk.old)
        (shown_base base.0 (memory_of base.1))) }
    ensures bare { IfOk result (λ base. base.0 ≡ None → memory_of base.1 ≡ bare_memory) }
    ensures reads { OnlyReads D.Disk disk.old disk.new }
    ensures fault { D.is_honest disk.new
        → IfErr result (IsFaultOf (D.contents disk.old) (D.failed disk.old) (D.failed disk.new)) }
    ensures frames { result ≢ Err OpenFault.NoFrame }
{
    match restore(alloc, disk) {
        Ok(snapshot) => Ok((Some(snapshot.checkpoint), snapshot)),
        Err(Fault::EmptyChain) => Ok((None, bare(alloc)?)),
        Err(Fault::Damaged { slot, reason }) => Err(OpenFault::Damaged { slot, reason }),
        Err(Fault::Device) => Err(OpenFault::Device),
        Err(Fault::OutOfMemory) => Err(OpenFault::OutOfMemory),
    }
}

/// The memory of a snapshot, over so many frames.
fn load(alloc: Global, frames: usize, snapshot: &Snapshot) -> Result<Memory, OpenFault>
    requires least { 1 ≤ frames }
    requires greatest { frames ≤ 65536 }
    ensures memory { IfOk result (λ memory. plain_of memory ≡ memory_of snapshot.now) }
    ensures begins { IfOk result IsBeginning }
    ensures pool { IfOk result (λ memory. memory.pool ≡ frames) }
    ensures fault { IfErr result (IsLackOf frames (memory_of snapshot.now)) }
{
    match Memory::from_snapshot(alloc, frames, snapshot) {
        Ok(memory) => Ok(memory),
        Err(MemoryError::Denied(_)) => Err(OpenFault::NoFrame),
        Err(MemoryError::OutOfMemory) => Err(OpenFault::OutOfMemory),
    }
}

/// Syncs each slot of a store, and reads what a run starts from.
pub(crate) fn start_of<D: Disk>(
    alloc: Global,
    disk: &mut D,
    frames: usize,
) -> Result<Start, OpenFault>
    requires least { 1 ≤ frames }
    requires greatest { frames ≤ 65536 }
    ensures begins { IfOk result (λ start. IsBeginning start.memory) }
    ensures pool { IfOk result (λ start. start.memory.pool ≡ frames) }
    ensures memory { IfOk result (λ start. plain_of start.memory ≡ memory_of start.base) }
    ensures shows { D.is_honest disk.new → IfOk result (λ start. Shows (D.contents disk.old)
        (shown_base start.number (memory_of start.base))) }
    ensures bare { IfOk result (λ start. start.number ≡ None → memory_of start.base ≡ bare_memory) }
    ensures phases { D.is_honest disk.new
        → IfOk result (λ start. start.phases.items ≡ map found_phase (D.contents disk.old)) }
    ensures count { IfOk result
        (λ start. length start.phases.items ≡ length (D.contents disk.old)) }
    ensures synced { OnOk result
        (AreSynced (length (D.contents disk.old)) (D.contents disk.old) (D.may_leave disk.new)) }
    ensures reads { OnlyReads D.Disk disk.old disk.new }
    ensures fault { D.is_honest disk.new → IfErr result
        (IsFaultOf (D.contents disk.old) (D.failed disk.old) (D.failed disk.new)) }
    ensures no_frame { D.is_honest disk.new → IsErrOf result OpenFault.NoFrame
        → HasNoFrame (D.contents disk.old) frames }
{
    shown_is_within_limits();
    sync_all(disk)?;
    let (number, base) = base_of(alloc, disk)?;
    let phases = phases_in(alloc, disk)?;
    let memory = match number {
        Some(_) => load(alloc, frames, &base)?,
        None => Memory::new(alloc, frames)?,
    };
    Ok(Start {
        number,
        base,
        memory,
        phases,
    })
}
