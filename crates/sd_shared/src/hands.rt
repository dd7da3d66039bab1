ghost use Rattle.std.specs.Prelude.{◌≡◌};
ghost use Rattle.sd_command.specs.declared.reply.Reply.{Reply as Told};

use sd_command::Reply;

/// What a worker's job is made with, and what was answered last.
pub(crate) trait Hands {
    /// Whether a reply may be one to a step of this job, or to a call of its own.
    ghost is_told: { Self → Told → Type 0 };

    /// The last reply.
    ghost last: { Self → Told };

    /// Makes its next step, or its next device call.
    fn go_on(&mut self)
        ensures same { (reply : Told) → is_told self.new reply → is_told self.old reply }
        ensures told { is_told self.old (last self.new) };

    /// The last reply.
    fn last(&self) -> &Reply
        ensures { result.now ≡ last self.now };

    /// The last reply, of a job that is over.
    fn into_last(self) -> Reply
        ensures { result ≡ last self };
}
