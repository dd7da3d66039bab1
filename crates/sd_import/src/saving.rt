//! What the next checkpoint saves.
ghost use Rattle.sd_import.specs.Saved.{IsSavedNext};

use sd_disk::Disk;
use sd_world::World;

/// A law: a checkpoint that is made of a world as it stands saves its memory, since none is pending where one can
/// begin. Call it after [`import_core`](crate::import_core), before the events of the checkpoint.
pub fn saved_next<D: Disk>(world: &World<D>)
    ensures { IsSavedNext D.Disk world.now }
{
    world.sound();
    world.core().is_sound();
}
