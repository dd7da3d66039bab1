//! Plans whose calls are known from the start.
ghost use Rattle.std.specs.Prelude.{◌≡◌, ◌↔◌, ◌≤◌, length, [], ◌∷◌, IsTrue, MatchOption};
ghost use Rattle.sd_gate.specs.Calls.{call_of, bytes_of, IsSoundOrder};
ghost use Rattle.sd_gate.specs.Sequences.{calls_of_sequence, AreSound};

use crate::order::Order;
use sd_image::Header;

/// The calls that are left, by the next of them.
#[derive(Drop)]
pub enum CallSequence {
    /// The gate is closed: a 0 over it, a sync, and the cut.
    Close,
    SyncClosed,
    Cut,
    /// A page is read.
    ReadPage {
        at: usize,
        buffer: Vec<u8>,
    },
    /// A page is written.
    WritePage {
        at: usize,
        buffer: Vec<u8>,
    },
    /// The body is completed and the gate opened: the table, the header, a sync, 0xA5 over the gate, and a sync.
    Table {
        at: usize,
        table: Vec<u8>,
        header: Header,
    },
    Header {
        header: Header,
    },
    SyncBody,
    Open,
    SyncOpen,
    /// No call is left.
    Done,
}

impl CallSequence {
    /// The next call, and what is left after it.
    pub fn split(self) -> Option<(Order, Self)>
        requires { AreSound self }
        ensures next { MatchOption result (calls_of_sequence self ≡ [])
            (λ s. calls_of_sequence self ≡ (call_of s.0, bytes_of s.0) ∷ calls_of_sequence s.1) }
        ensures sound { MatchOption result (Unit {0}) (λ s. IsSoundOrder s.0 × AreSound s.1) }
    {
        match self {
            Self::Close => Some((Order::Close, Self::SyncClosed)),
            Self::SyncClosed => Some((Order::Sync, Self::Cut)),
            Self::Cut => Some((Order::Cut, Self::Done)),
            Self::ReadPage { at, buffer } => Some((Order::Read { at, buffer }, Self::Done)),
            Self::WritePage { at, buffer } => Some((Order::Write { at, buffer }, Self::Done)),
            Self::Table { at, table, header } => Some((
                Order::Write { at, buffer: table },
                Self::Header { header },
            )),
            Self::Header { header } => Some((Order::WriteHeader { header }, Self::SyncBody)),
            Self::SyncBody => Some((Order::Sync, Self::Open)),
            Self::Open => Some((Order::Open, Self::SyncOpen)),
            Self::SyncOpen => Some((Order::Sync, Self::Done)),
            Self::Done => None,
        }
    }

    /// How many calls are left.
    pub fn calls_left(&self) -> usize
        ensures count { result ≡ length (calls_of_sequence self.now) }
        ensures few { result ≤ 5 }
    {
        match self {
            Self::Table { .. } => 5,
            Self::Header { .. } => 4,
            Self::Close | Self::SyncBody => 3,
            Self::SyncClosed | Self::Open => 2,
            Self::Cut | Self::ReadPage { .. } | Self::WritePage { .. } | Self::SyncOpen => 1,
            Self::Done => 0,
        }
    }

    /// Whether no call is left.
    pub fn is_done(&self) -> bool
        ensures { IsTrue result ↔ calls_of_sequence self.now ≡ [] }
    {
        matches!(self, Self::Done)
    }
}
