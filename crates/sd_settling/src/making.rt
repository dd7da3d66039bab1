//! A command of a seat, on the core that its lock gives.
ghost use Rattle.std.specs.Prelude.{◌≡◌, ◌↔◌, ◌+◌, length, is_some, Err, IfOk, IfErr};
ghost use Rattle.sd_command.specs.declared.refusal.Refusal.TheVariants.{JournalFull};
ghost use Rattle.sd_journal.specs.History.{pending};
ghost use Rattle.sd_crash_safety.specs.Calls.{Applies, IsUnjournaled, Stays};
ghost use Rattle.sd_crash_safety.specs.View.{history_of};
ghost use Rattle.sd_core.specs.Answering.{IsAnswered};
ghost use Rattle.sd_core.specs.Called.{IsApplied};
ghost use Rattle.sd_settling.specs.Told.{told};

use sd_command::{Command, Refusal};
use sd_core::Core;
use sd_journal::Receipt;

/// Applies a command of a seat, journals it with its reply, and says both, as `Core::apply`. The receipt is kept for
/// [`settle`](crate::settle).
///
/// # Errors
///
/// `JournalFull`, `OutOfMemory`: nothing changed, and nothing is journaled.
pub fn make(core: &mut Core, seat: usize, command: Command) -> Result<Receipt, Refusal>
    ensures seat { IfOk result (λ receipt. receipt.seat ≡ seat) }
    ensures command { IfOk result (λ receipt. receipt.command ≡ command) }
    ensures number { IfOk result (λ receipt. receipt.number ≡ core.old.base.folded + length (history_of core.old)) }
    ensures applies { Applies seat command (told result) core.old core.new }
    ensures refuses { IfErr result IsUnjournaled }
    ensures full { result ≡ Err JournalFull
        ↔ length (history_of core.old) + core.old.held ≡ core.old.limit }
    ensures answered { IfOk result (λ receipt. IsAnswered (is_some (pending (history_of core.old)))
        command receipt.reply core.old.memory core.new.memory) }
    ensures stands { core.new.standing ≡ core.old.standing }
    ensures job { core.new.dumper ≡ core.old.dumper }
    ensures keeps { Stays core.old core.new }
    ensures does { IsApplied seat command (told result) core.old core.new }
{
    match core.apply(seat, &command) {
        Ok((number, reply)) => Ok(Receipt {
            seat,
            number,
            command,
            reply,
        }),
        Err(why) => Err(why),
    }
}
