//! The state of a slot.
ghost use Rattle.std.specs.Prelude.{◌≡◌};
ghost use Rattle.sd_show.specs.Slots.{state_by, state_word};

use sd_image::{GATE, HEADER_SIZE};

/// The state of a slot.
#[derive(Clone, Copy, PartialEq, Eq)]
pub enum State {
    /// Its file is empty, or begins with the gate byte 0.
    Raw,
    /// Its file begins with another byte, and isn't open.
    Closed,
    /// Its file has a header's length, and begins with the gate byte of an open slot.
    Open,
}

/// The state of a slot whose file has this gate byte, 0 of an empty one, and this length in bytes.
pub(crate) fn state_by(gate: u8, len: usize) -> State
    ensures { result ≡ state_by gate len }
{
    if gate == 0 {
        State::Raw
    } else if len >= HEADER_SIZE && gate == GATE {
        State::Open
    } else {
        State::Closed
    }
}

/// The word for a state.
pub(crate) fn state_word(state: State) -> &'static str
    ensures { result.now ≡ state_word state }
{
    match state {
        State::Raw => "raw",
        State::Closed => "closed",
        State::Open => "open",
    }
}
