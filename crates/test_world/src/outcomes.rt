//! The outcome of a call that another core asked for. No world has it: two cores are driven by hand.
ghost use Rattle.std.specs.Prelude.{◌≡◌, IfOk};
ghost use Rattle.std.specs.FinMap as finmap;
ghost use Rattle.sd_areas.specs.Memory.{memory_of};
ghost use Rattle.sd_pagetable.specs.Contents.{plain_of};
ghost use Rattle.sd_pagetable.specs.Tracking.{IsBeginning};

use sd_areas::{Snapshot, SpaceId};
use sd_command::{Refusal, Reply};
use sd_core::{Core, Start, Taken};
use sd_disk::{Disk, MemDisk};
use sd_gate::{Phase, Worker, perform};
use sd_pagetable::Memory;
use std::alloc::{AllocError, Global};

/// The snapshot of space 1 without pages.
fn base(alloc: Global) -> Result<Snapshot, AllocError>
    ensures { IfOk result (λ base. memory_of base ≡ finmap.insert finmap.empty 1 finmap.empty) }
{
    let mut base = Snapshot::new(alloc, 0);
    match base.add_space(alloc, SpaceId::new(1)) {
        Ok(()) => Ok(base),
        Err(error) => Err(error),
    }
}

/// What a core over an empty store of one slot starts from.
fn start(alloc: Global) -> Result<Start, AllocError>
    ensures begins { IfOk result (λ start. IsBeginning start.memory) }
    ensures same { IfOk result (λ start. plain_of start.memory ≡ memory_of start.base) }
{
    let phases = vec![in alloc; Phase::Raw; 1]?;
    let base = base(alloc)?;
    match Memory::new(alloc, 16) {
        Ok(memory) => Ok(Start {
            number: None,
            base,
            memory,
            phases,
        }),
        Err(error) => Err(error),
    }
}

/// Takes up the next step of one core's opener, performs its call, and hands the outcome in to a second core.
fn hand_to<D: Disk>(from: &mut Core, to: &mut Core, disk: &mut D) -> Reply {
    match from.take_up(Worker::Opener) {
        Taken::Step(reply) => reply,
        Taken::Call(request) => {
            if request.id().slot >= disk.slots() {
                return Reply::Done;
            }
            to.hand_in(perform(disk, request))
        }
    }
}

/// Takes up the next step of a core's opener, performs its call, and hands the outcome in.
fn go_on<D: Disk>(core: &mut Core, disk: &mut D) -> Reply {
    match core.take_up(Worker::Opener) {
        Taken::Step(reply) => reply,
        Taken::Call(request) => {
            if request.id().slot >= disk.slots() {
                return Reply::Done;
            }
            core.hand_in(perform(disk, request))
        }
    }
}

/// Whether the outcome of a call of another core is refused, and the core's own is taken.
fn takes_its_own<D: Disk>(core: &mut Core, other: &mut Core, disk: &mut D) -> bool {
    matches!(core.reopen(), Reply::Worked)
        && matches!(other.reopen(), Reply::Worked)
        && matches!(hand_to(other, core, disk), Reply::Refused(Refusal::Idle))
        && matches!(go_on(core, disk), Reply::Worked)
}

/// Makes another core, and discards it.
fn with_another<D: Disk>(alloc: Global, core: &mut Core, disk: &mut D) -> Result<bool, AllocError> {
    let mut other = Core::new(alloc, start(alloc)?);
    let is_so = takes_its_own(core, &mut other, disk);
    other.discard();
    Ok(is_so)
}

/// Makes a core over an empty store of one slot, and discards it.
fn with_a_core(alloc: Global) -> Result<bool, AllocError> {
    let mut disk = MemDisk::new(alloc, 1, 512, 100)?;
    let mut core = Core::new(alloc, start(alloc)?);
    let is_so = with_another(alloc, &mut core, &mut disk);
    core.discard();
    is_so
}

#[test]
fn the_outcome_of_another_core_is_refused(rt: HostRuntime) -> Result<(), AllocError> {
    assert!(rt; with_a_core(rt.alloc())?);
    Ok(())
}
