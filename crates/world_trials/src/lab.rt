//! A world over a disk in memory of which calls fail.
use sd_areas::Snapshot;
use sd_command::Reply;
use sd_disk::{Fused, MemDisk};
use sd_gate::Worker;
use sd_restore::Fault;
use sd_world::{Event, World};
use std::alloc::Global;

/// The frames of each world.
const FRAMES: usize = 16;

/// Which call of a disk fails, if one does.
#[derive(Clone, Copy, Debug)]
pub enum Failing {
    Nothing,
    /// After so many calls one fails; a write or a cut is made all the same.
    Made(u64),
    /// After so many calls one fails, and isn't made.
    Dropped(u64),
}

/// A world over such a disk. It isn't dropped but closed: a drop of a core takes the prover minutes.
pub(crate) struct Lab {
    world: World<Fused<MemDisk>>,
}

/// A disk of which a call fails.
fn fused(disk: MemDisk, failing: Failing) -> Fused<MemDisk> {
    match failing {
        Failing::Nothing => Fused::new(disk, u64::MAX),
        Failing::Made(calls) => Fused::new(disk, calls),
        Failing::Dropped(calls) => Fused::dropping(disk, calls),
    }
}

impl Lab {
    /// Opens a store.
    ///
    /// # Errors
    ///
    /// The disk, where it isn't opened.
    pub(crate) fn open(alloc: Global, disk: MemDisk, failing: Failing) -> Result<Lab, MemDisk> {
        match World::open(alloc, fused(disk, failing), FRAMES) {
            Ok(world) => Ok(Lab { world }),
            Err(error) => Err(error.disk.into_inner()),
        }
    }

    /// Makes one event.
    pub(crate) fn step(&mut self, event: &Event) -> Reply {
        self.world.step(event)
    }

    /// A worker's next event.
    pub(crate) fn next_event(&self, worker: Worker) -> Event {
        self.world.next_event(worker)
    }

    /// Restores what a crash left of the world's store, and closes the world.
    pub(crate) fn restored(self, left: &mut MemDisk) -> Result<Snapshot, Fault> {
        self.world.sound();
        let restored = self.world.restore_crashed(left);
        drop(self.close());
        restored
    }

    /// The disk.
    pub(crate) fn close(self) -> MemDisk {
        let Lab { world } = self;
        world.close().into_inner()
    }
}
