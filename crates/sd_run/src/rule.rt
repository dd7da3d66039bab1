//! Which answers end a run before its last request.
ghost use Rattle.std.specs.Prelude.{◌≡◌, true, false, IfErr, OnOk};
ghost use Rattle.sd_exit.specs.declared.stop.Stop.TheVariants as stop;
ghost use Rattle.sd_run.specs.declared.rule.Rule.TheVariants as rule;
ghost use Rattle.sd_run.specs.Strict.{is_failure};

use sd_command::Reply;
use sd_exit::Stop;
use sd_script::Answer;

/// Which answers end a run before its last request.
#[derive(Clone, Copy, Debug, PartialEq, Eq)]
pub enum Rule {
    /// None does.
    Plain,
    /// The first that is a refusal, that of a failed device among them, or `segv`.
    Strict,
}

impl Rule {
    /// Whether an answer ends a run.
    ///
    /// # Errors
    ///
    /// `Refused` where it does.
    pub(crate) fn check(self, given: &Answer) -> Result<(), Stop>
        ensures ends { IfErr result (λ why. (why ≡ stop.Refused) × (self ≡ rule.Strict)
            × (is_failure given.now ≡ true)) }
        ensures passes { OnOk result (self ≡ rule.Strict → is_failure given.now ≡ false) }
    {
        match self {
            Rule::Strict if is_failure(given) => Err(Stop::Refused),
            _ => Ok(()),
        }
    }
}

/// Whether an answer is a refusal or `segv`.
pub fn is_failure(given: &Answer) -> bool
    ensures { result ≡ is_failure given.now }
{
    match given {
        Answer::Reply(reply) => matches!(reply, Reply::Refused(_) | Reply::Segv(_)),
        Answer::Words(_) => false,
    }
}
