//! One device call that was made.
ghost use Rattle.std.specs.Prelude.{◌≡◌};
ghost use Rattle.std.specs.Option.{option_map};
ghost use Rattle.sd_gate.specs.Calls.{buffer_back};

use crate::answer::Answer;
use crate::request::Request;
use crate::request_id::RequestId;
use std::marker::Model;

/// The request of a device call that was made, with the bytes that it wrote or the buffer that it filled, and how the
/// call ended. `perform` alone makes one.
#[derive(Drop)]
pub struct Outcome {
    pub(crate) request: Request,
    pub(crate) answer: Answer,
}

impl Model for Outcome {
    ghost use Rattle.sd_gate.specs.Requests.{Made};

    ghost Value = { Made };

    ghost view = { λ o. record { request = o.request; answer = o.answer } };
}

impl Outcome {
    /// What distinguishes its request from every other.
    pub fn id(&self) -> RequestId
        ensures { result ≡ self.now.request.id }
    {
        self.request.id()
    }

    /// How the call ended.
    pub fn answer(&self) -> Answer
        ensures { result ≡ self.now.answer }
    {
        self.answer
    }

    /// The buffer that the call wrote or filled, where it has one.
    pub fn into_buffer(self) -> Option<Vec<u8>>
        ensures { option_map (λ b. b.items) result
            ≡ buffer_back self.request.id.call self.request.bytes }
    {
        self.request.into_buffer()
    }
}
