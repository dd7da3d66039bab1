use sd_command::Reply;
use sd_gate::Request;

/// What a worker's next step is.
#[derive(Drop)]
pub enum Taken {
    /// It was made, with this reply.
    Step(Reply),
    /// It is this device call.
    Call(Request),
}
