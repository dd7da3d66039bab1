//! The event of a command that the journal keeps.
ghost use Rattle.sd_world.specs.Runs.{IsStep};
ghost use Rattle.sd_world.specs.declared.event.Event.TheVariants.{Command as CommandEvent};

use super::World;
use crate::laws::{store_laws, world_laws};
use crate::stepping::answer_of;
use sd_command::{Command, Reply};
use sd_disk::Disk;

impl<D: Disk> World<D> {
    /// Makes the event of a command, as [`World::step`] does, and answers it. The command goes into the journal itself,
    /// so the bytes of a store aren't copied.
    pub fn apply(&mut self, seat: usize, command: Command) -> Reply
        ensures { IsStep D.Disk (CommandEvent seat command) self.old result self.new }
    {
        store_laws();
        self.made_event_laws();
        world_laws(&self.core, &self.disk);
        let told = self.core.apply_owned(seat, command);
        world_laws(&self.core, &self.disk);
        answer_of(told)
    }
}
