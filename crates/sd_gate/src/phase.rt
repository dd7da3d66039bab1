ghost use Rattle.std.specs.Prelude.{◌≡◌};
ghost use Rattle.sd_gate.specs.Phases.{is_ready, after, given_up, state_of, may_close, may_write, synced, closing};
ghost use Rattle.sd_gate.specs.Phases.{filled};

use crate::call::Call;
use crate::slot_state::SlotState;

/// How far a slot has come, by the calls that were made on it: what is read from it, and what a crash may leave.
/// Its body is what stands after the gate, the first byte of its file.
#[derive(Clone, Copy, PartialEq, Eq)]
pub enum Phase {
    /// Shorter than a header.
    Raw,
    /// Shorter than a header, and closed as it reads.
    RawClosing,
    /// The body after an open gate, and nothing else.
    Whole,
    /// The body after any byte; closed as it reads.
    Closing,
    /// Closed, whatever stands after the gate.
    Shut,
    /// Closed, and a crash leaves what is read.
    ShutSynced,
    /// Closed, and one byte long as it reads.
    Bare,
    /// Closed, and the body after the gate as it reads.
    Writing,
    /// The body after a closed gate, and nothing else.
    Ready,
    /// The body after any byte; open as it reads.
    Opening,
    /// The body after any byte.
    Doubt,
    /// The body after any byte, and a crash leaves what is read.
    DoubtSynced,
}

impl Phase {
    /// Whether a slot in this phase takes the call.
    pub fn is_ready(self, call: Call) -> bool
        ensures { result ≡ is_ready self call }
    {
        match call {
            Call::Len | Call::Read { .. } | Call::Sync => true,
            Call::Write { .. } | Call::WriteHeader | Call::Cut => self.may_write(),
            Call::Close => self.may_close(),
            Call::Open => self == Phase::Ready,
        }
    }

    /// The phase after a call that the slot takes, done or failed.
    pub fn after(self, call: Call, done: bool) -> Phase
        ensures { result ≡ after self call done }
    {
        match call {
            Call::Len | Call::Read { .. } => self,
            Call::Write { .. } | Call::WriteHeader if done => self.filled(),
            Call::Write { .. } | Call::WriteHeader => Phase::Shut,
            Call::Close if done => self.closing(),
            Call::Close => self.closing().given_up(),
            Call::Open if done => Phase::Opening,
            Call::Open => Phase::Doubt,
            Call::Cut if done => Phase::Bare,
            Call::Cut => Phase::Shut,
            Call::Sync if done => self.synced(),
            Call::Sync => self.given_up(),
        }
    }

    /// The phase that is left where the slot's job is given up, or fails.
    pub fn given_up(self) -> Phase
        ensures { result ≡ given_up self }
    {
        match self {
            Phase::Raw | Phase::RawClosing => Phase::Raw,
            Phase::Whole => Phase::Whole,
            Phase::Shut | Phase::ShutSynced | Phase::Writing | Phase::Ready => Phase::Shut,
            Phase::Bare => Phase::Bare,
            Phase::Closing | Phase::Opening | Phase::Doubt | Phase::DoubtSynced => Phase::Doubt,
        }
    }

    /// What is known of a slot in this phase.
    pub fn state(self) -> SlotState
        ensures { result ≡ state_of self }
    {
        match self {
            Phase::Raw | Phase::RawClosing => SlotState::Raw,
            Phase::Shut | Phase::ShutSynced | Phase::Bare => SlotState::Closed,
            Phase::Writing | Phase::Ready => SlotState::Writing,
            Phase::Whole | Phase::Closing => SlotState::Open,
            Phase::Opening | Phase::Doubt | Phase::DoubtSynced => SlotState::Open,
        }
    }

    /// Whether a 0 may be written over the gate.
    fn may_close(self) -> bool
        ensures { result ≡ may_close self }
    {
        !self.may_write()
    }

    /// Whether the slot may be written and cut after its gate, which is closed.
    fn may_write(self) -> bool
        ensures { result ≡ may_write self }
    {
        match self {
            Phase::Shut | Phase::ShutSynced | Phase::Bare => true,
            Phase::Writing | Phase::Ready => true,
            Phase::Raw | Phase::RawClosing | Phase::Whole | Phase::Closing => false,
            Phase::Opening | Phase::Doubt | Phase::DoubtSynced => false,
        }
    }

    /// The phase after a sync.
    fn synced(self) -> Phase
        ensures { result ≡ synced self }
    {
        match self {
            Phase::Raw => Phase::Raw,
            Phase::RawClosing | Phase::Closing => Phase::Shut,
            Phase::Whole | Phase::Opening => Phase::Whole,
            Phase::Shut | Phase::ShutSynced | Phase::Bare => Phase::ShutSynced,
            Phase::Writing | Phase::Ready => Phase::Ready,
            Phase::Doubt | Phase::DoubtSynced => Phase::DoubtSynced,
        }
    }

    /// The phase after a 0 was written over the gate.
    fn closing(self) -> Phase
        ensures { result ≡ closing self }
    {
        match self {
            Phase::Raw | Phase::RawClosing => Phase::RawClosing,
            Phase::Shut | Phase::ShutSynced | Phase::Bare => Phase::Shut,
            Phase::Writing | Phase::Ready => Phase::Shut,
            Phase::Whole | Phase::Closing | Phase::Opening => Phase::Closing,
            Phase::Doubt | Phase::DoubtSynced => Phase::Closing,
        }
    }

    /// The phase after a write after the gate.
    fn filled(self) -> Phase
        ensures { result ≡ filled self }
    {
        match self {
            Phase::Bare | Phase::Writing | Phase::Ready => Phase::Writing,
            Phase::Shut | Phase::ShutSynced => Phase::Shut,
            other => other,
        }
    }
}
