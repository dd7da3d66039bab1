//! Replies to commands.
ghost use Rattle.std.specs.Prelude.{◌≡◌, false, true, IfOk, OnErr, Some};
ghost use Rattle.sd_pagetable.specs.Contents.{plain_of};
ghost use Rattle.sd_pagetable.specs.Tracking.{Step};
ghost use Rattle.sd_command.specs.declared.refusal.Refusal.TheVariants.{Frozen};
ghost use Rattle.sd_command.specs.Events.{Chooses, event_of};
ghost use Rattle.sd_command.specs.Replies.{IsLegalReply};
ghost use Rattle.sd_core.specs.Answering.{IsAnswered};

use sd_command::{Command, Refusal, Reply, apply_to};
use sd_pagetable::Memory;
use std::alloc::{AllocError, Global};

/// Replies to a command: while the memory is frozen it is refused, and else applied.
///
/// # Errors
///
/// Out of memory where a growth was refused: nothing changes.
pub fn answer(
    alloc: Global,
    memory: &mut Memory,
    frozen: bool,
    command: &Command,
) -> Result<Reply, AllocError>
    ensures answered { IfOk result (λ reply. IsAnswered frozen command.now reply memory.old memory.new) }
    ensures err { OnErr result (memory.new ≡ memory.old) }
{
    if frozen {
        return Ok(Reply::Refused(Refusal::Frozen));
    }
    apply_to(alloc, memory, command)
}
