ghost use Rattle.std.specs.Prelude.{◌≡◌, Some};
ghost use Rattle.sd_command.specs.declared.refusal.Refusal.{Refusal as Why};
ghost use Rattle.sd_command.specs.declared.reply.Reply.TheVariants as reply;
ghost use Rattle.sd_shared.specs.Turns.{AreRefused, WasRefused};

use sd_command::{Refusal, Reply};

/// What the writers of a checkpoint report.
#[derive(Drop)]
pub(crate) struct Reports {
    /// How many writes they have made, whose outcomes were handed in.
    pub(crate) made: u64,
    /// Why the first outcome was refused that was.
    refused: Option<Refusal>,
    ghost told: { (why : Why) → refused ≡ Some why → WasRefused why },
}

impl Reports {
    /// Nothing was reported yet.
    pub(crate) fn new() -> Self {
        Reports {
            made: 0,
            refused: None,
        }
    }

    /// One more was made, and this was answered to its outcome.
    pub(crate) fn take(&mut self, answer: &Reply)
        requires { (why : Why) → answer.now ≡ reply.Refused why → WasRefused why }
    {
        self.made = self.made.saturating_add(1);
        if let Reply::Refused(why) = answer {
            self.refused = self.refused.or(Some(*why));
        }
    }

    /// Why the first outcome was refused that was.
    pub(crate) fn into_refused(self) -> Option<Refusal>
        ensures { AreRefused result }
    {
        self.refused
    }
}
