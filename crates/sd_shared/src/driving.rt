//! A worker's job, on to its end.
ghost use Rattle.std.specs.Prelude.{◌≡◌, ◌⊎◌, true};
ghost use Rattle.sd_command.specs.declared.reply.Reply.{Reply as Told};
ghost use Rattle.sd_shared.specs.Told.{ends_job};

use crate::hands::Hands;
use sd_command::Reply;
use std::sync::Wait;

/// Goes on with a job to its end, or until it is refused. The last reply stays with the hands: it is the one that was
/// there, or the worker was answered so by a step, or of a call of its own.
pub(crate) fn go_on<H: Hands>(rt: &impl Wait, hands: &mut H)
    ensures same { (reply : Told) → H.is_told hands.new reply → H.is_told hands.old reply }
    ensures over { ends_job (H.last hands.new) ≡ true }
    ensures told { (H.last hands.new ≡ H.last hands.old) ⊎ H.is_told hands.old (H.last hands.new) }
{
    for _ in rt.forever() {
        if ends_job(hands.last()) {
            return;
        }
        hands.go_on();
    }
    unreachable!()
}

/// Whether a reply to a worker is the last one of its job.
pub(crate) fn ends_job(reply: &Reply) -> bool
    ensures { result ≡ ends_job reply.now }
{
    matches!(
        reply,
        Reply::Acked(_) | Reply::Merged(_) | Reply::Reopened(_) | Reply::Refused(_)
    )
}
