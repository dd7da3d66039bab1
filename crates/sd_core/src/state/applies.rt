//! A core's commands: they are applied to the memory, and journaled.
ghost use Rattle.sd_core.specs.Called.{IsApplied};

use super::Core;
use crate::answering::answer;
use crate::next_laws::command_law;
use sd_command::{Command, Refusal, Reply};
use sd_journal::{Entry, tracked_laws};

impl Core {
    /// Applies a command of a seat, and journals it with its reply. Returns the entry's number, and the reply. While a
    /// checkpoint is pending a command is refused as frozen, which is a reply too. [`Core::apply_owned`] journals the
    /// command itself, and not a copy.
    ///
    /// # Errors
    ///
    /// `JournalFull` where no entry is free beside those held. `OutOfMemory` where a growth was refused. Nothing
    /// changes.
    pub fn apply(&mut self, seat: usize, command: &Command) -> Result<(u64, Reply), Refusal>
        ensures { IsApplied seat command.now result self.old self.new }
    {
        command_law();
        self.is_sound();
        let free = self.journal.free();
        if free == 0 {
            return Err(Refusal::JournalFull);
        }
        let Ok(command) = command.try_clone() else {
            return Err(Refusal::OutOfMemory);
        };
        self.apply_owned(seat, command)
    }

    /// As [`Core::apply`], of a command that goes into the journal: the bytes of a store aren't copied.
    ///
    /// # Errors
    ///
    /// As `apply`. The command is dropped then.
    pub fn apply_owned(&mut self, seat: usize, command: Command) -> Result<(u64, Reply), Refusal>
        ensures { IsApplied seat command result self.old self.new }
    {
        command_law();
        self.is_sound();
        tracked_laws();
        self.memory.sound();
        if self.journal.free() == 0 {
            return Err(Refusal::JournalFull);
        }
        let Ok(()) = self.journal.reserve() else {
            return Err(Refusal::OutOfMemory);
        };
        let Ok(reply) = answer(
            self.alloc,
            &mut self.memory,
            self.pending.is_some(),
            &command,
        ) else {
            return Err(Refusal::OutOfMemory);
        };
        let Ok(told) = reply.try_clone() else {
            return Err(Refusal::OutOfMemory);
        };
        let number = self.journal.next_number();
        self.journal.append(Entry::Applied {
            seat,
            command,
            reply,
        });
        Ok((number, told))
    }
}
