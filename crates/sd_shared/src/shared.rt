//! A core and its disk, shared by threads.
ghost use Rattle.std.specs.Prelude.{◌≡◌, ◌≤◌, reverse, IfOk, IfErr};
ghost use Rattle.sd_crash_safety.specs.View.{CoreView, history_of};
ghost use Rattle.sd_disk.specs.Reads.{OnlyReads};
ghost use Rattle.sd_journal.specs.Receipts.{Accounts, IsFault};
ghost use Rattle.sd_world.specs.Opens.{HasNoFrame, IsFaultOf};
ghost use Rattle.sd_world.specs.Starting.{IsUnstarted};
ghost use Rattle.sd_shared.specs.Told.{seats_from_0};

use crate::booked::Booked;
use crate::seat::Seat;
use sd_core::Core;
use sd_disk::Disk;
use sd_journal::{CloseFault, Receipt};
use sd_settling::settle;
use sd_world::{OpenError, OpenFault, StartError, StartFault, World};
use std::alloc::{AllocError, Global};
use std::sync::{Condvar, Mutex};

/// A core behind one lock and its disk behind another. No thread holds both.
#[derive(Drop)]
pub struct Shared<D: Drop> {
    pub(crate) alloc: Global,
    pub(crate) core: Mutex<Booked>,
    pub(crate) disk: Mutex<D>,
    pub(crate) thawed: Condvar,
}

/// So many seats, numbered from 0.
fn seats_of(alloc: Global, count: usize) -> Result<Vec<Seat>, AllocError>
    ensures { IfOk result (λ seats. seats.items ≡ seats_from_0 count) }
{
    let mut seats = Vec::with_capacity(alloc, count)?;
    for number in 0..count {
        seats.push(Seat { number, turns: 0 })?;
    }
    Ok(seats)
}

/// A law: a disk that no call was made of was only read.
fn is_only_read<D: Disk>(disk: &D)
    ensures { OnlyReads D.Disk disk.now disk.now }
{}

impl<D: Disk + Drop> Shared<D> {
    /// Opens a store, as `World::open`, over so many frames, 1 to 65,536, and for so many seats, at most 1,000 for
    /// `close` to be quick; they are numbered from 0 in the order of the list, and each is moved to its thread. The
    /// core's store isn't open yet: call [`Shared::run_opener`] before a checkpoint or a merge, or [`Shared::start`] in
    /// the place of both.
    ///
    /// # Errors
    ///
    /// As `World::open`; `OutOfMemory` also where there is no room for the seats.
    pub fn open(
        alloc: Global,
        disk: D,
        frames: usize,
        seats: usize,
    ) -> Result<(Shared<D>, Vec<Seat>), OpenError<D>>
        requires least { 1 ≤ frames }
        requires greatest { frames ≤ 65536 }
        ensures seats { IfOk result (λ opened. opened.1.items ≡ seats_from_0 seats) }
        ensures refused { IfErr result (λ error. OnlyReads D.Disk disk error.disk) }
        ensures fault { IfErr result (λ error. D.is_honest error.disk
            → IsFaultOf (D.contents disk) (D.failed disk) (D.failed error.disk) error.fault) }
        ensures no_frame { IfErr result (λ error. D.is_honest error.disk
            → error.fault ≡ OpenFault.NoFrame → HasNoFrame (D.contents disk) frames) }
    {
        let Ok(seats) = seats_of(alloc, seats) else {
            is_only_read(&disk);
            return Err(OpenError {
                fault: OpenFault::OutOfMemory,
                disk,
            });
        };
        let world = World::open(alloc, disk, frames)?;
        Ok((Shared::over(alloc, world), seats))
    }

    /// Opens a store and opens it again, to its end, as `World::start`, over so many frames and for so many seats, as
    /// [`Shared::open`]. Commands, checkpoints and merges are next, and [`Shared::close`] at the end.
    ///
    /// # Errors
    ///
    /// As `World::start`, each with the disk: `Unopened` where it was only read, with `OutOfMemory` also where there is
    /// no room for the seats; `Refused` where its opening again was refused.
    pub fn start(
        alloc: Global,
        disk: D,
        frames: usize,
        seats: usize,
    ) -> Result<(Shared<D>, Vec<Seat>), StartError<D>>
        requires least { 1 ≤ frames }
        requires greatest { frames ≤ 65536 }
        ensures seats { IfOk result (λ started. started.1.items ≡ seats_from_0 seats) }
        ensures fault { IfErr result (λ error. IsUnstarted D.Disk disk frames error.fault error.disk) }
    {
        let Ok(seats) = seats_of(alloc, seats) else {
            is_only_read(&disk);
            return Err(StartError {
                fault: StartFault::Unopened(OpenFault::OutOfMemory),
                disk,
            });
        };
        let world = World::start(alloc, disk, frames)?;
        Ok((Shared::over(alloc, world), seats))
    }

    /// The core and the disk of a world, behind a lock each.
    fn over(alloc: Global, world: World<D>) -> Shared<D> {
        let (core, disk) = world.into_parts();
        Shared {
            alloc,
            core: Mutex::new(Booked::new(core)),
            disk: Mutex::new(disk),
            thawed: Condvar::new(),
        }
    }

    /// Gives the core and the disk back where the journal accounts for the receipts and the acknowledged numbers.
    ///
    /// # Errors
    ///
    /// The first fault, as `check_receipts`.
    pub fn close(self, receipts: &[Receipt], acks: &[u64]) -> Result<(Core, D), CloseFault>
        ensures accounts { IfOk result (λ parts. Accounts parts.0.base.folded (reverse (history_of parts.0))
            receipts.now acks.now) }
        // The fault is that of the core which was behind the lock.
        ensures fault { IfErr result (λ fault. (core : CoreView)
            × IsFault core.base.folded (reverse (history_of core)) receipts.now acks.now fault) }
    {
        let Shared { core, disk, .. } = self;
        settle(
            core.into_inner().into_core(),
            disk.into_inner(),
            receipts,
            acks,
        )
    }

    /// Drops the core and the disk. What was acknowledged is on the disk; a checkpoint that runs is given up, as by a
    /// crash. [`Shared::close`] gives both back instead, where the journal accounts for what was said.
    pub fn discard(self) {
        let Shared { core, .. } = self;
        core.into_inner().into_core().discard();
    }
}
