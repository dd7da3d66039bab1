//! A world over a store that can be worked on.
ghost use Rattle.std.specs.Prelude.{◌≡◌, ◌≤◌, [], ◌∷◌, IfOk, IfErr};
ghost use Rattle.sd_command.specs.declared.reply.Reply.TheVariants as reply;
ghost use Rattle.sd_image.specs.Shows.{Shows};
ghost use Rattle.sd_journal.specs.declared.entry.Entry.TheVariants as entry;
ghost use Rattle.sd_crash_safety.specs.declared.standing.Standing.TheVariants.{Open};
ghost use Rattle.sd_crash_safety.specs.View.{history_of};
ghost use Rattle.sd_core.specs.Starts.{shown_base};
ghost use Rattle.sd_world.specs.Starting.{IsReopened, IsUnstarted};

use crate::open_error::OpenError;
use crate::start_error::{StartError, StartFault};
use crate::world::World;
use sd_disk::Disk;
use std::alloc::Global;

impl<D: Disk> World<D> {
    /// Opens a store and opens it again, to its end, over so many frames, 1 to 65,536: a frame is 4,096 bytes, and each
    /// page that was stored into takes one. The run goes on from the memory that the store shows, or from space 1
    /// alone, without areas, where nothing was saved. Events, [`checkpoint`](World::checkpoint) and
    /// [`merge_now`](World::merge_now) are next, and [`close`](World::close) at the end.
    ///
    /// # Errors
    ///
    /// Each hands the disk back, and the store shows what it did. `Unopened`: what [`open`](World::open) says, and the
    /// disk was only read. `Refused`: `Damaged` where the store can't be read, `Device` or `StoreDown` where a device
    /// call failed, or `OutOfMemory`.
    pub fn start(alloc: Global, disk: D, frames: usize) -> Result<World<D>, StartError<D>>
        requires least { 1 ≤ frames }
        requires greatest { frames ≤ 65536 }

        // It was opened over this disk, and opened again, which found what the run starts from.
        ensures reopened { IfOk result (λ world. IsReopened D.Disk disk frames
            (reply.Reopened world.core.base.number) world) }
        // The store is open, and the journal has the one entry of that.
        ensures open { IfOk result (λ world. world.core.standing ≡ Open) }
        ensures journal { IfOk result (λ world.
            history_of world.core ≡ entry.Reopened world.core.base.number ∷ []) }
        // The contents show the base, or nothing saved where it has no number.
        ensures shows { IfOk result (λ world. D.is_honest world.disk → Shows (D.contents disk)
            (shown_base world.core.base.number world.core.base.memory)) }
        // Why it doesn't start, and what the disk is then.
        ensures fault { IfErr result (λ error. IsUnstarted D.Disk disk frames error.fault error.disk) }
    {
        match World::open(alloc, disk, frames) {
            Ok(mut world) => match world.reopen_now() {
                Ok(_) => Ok(world),
                Err(why) => Err(StartError {
                    fault: StartFault::Refused(why),
                    disk: world.close(),
                }),
            },
            Err(OpenError { fault, disk }) => Err(StartError {
                fault: StartFault::Unopened(fault),
                disk,
            }),
        }
    }
}
