use crate::owed_call::OwedCall;
use sd_command::Reply;

/// What is next of a worker's job. It can't be dropped, as its device call can't.
pub(crate) enum Next {
    /// A step was made, with this reply.
    Step(Reply),
    /// The write of a data page, which may be made beside others.
    PageWrite(OwedCall),
    /// Another device call, which is made before the next step.
    Call(OwedCall),
}
