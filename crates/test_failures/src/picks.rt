//! What a crash leaves, where it may leave several things.
use sd_disk::Pick;

/// The bytes of the places that may hold any.
#[derive(Clone, Copy)]
pub(crate) enum Bytes {
    /// What reads now.
    Now,
    /// What stood there at the last sync.
    Synced,
    /// This byte.
    All(u8),
}

/// The bytes, and whether each file has its greatest length or its least.
#[derive(Clone, Copy)]
pub(crate) struct Outcome {
    pub(crate) bytes: Bytes,
    pub(crate) is_long: bool,
}

/// All kinds of bytes, each with the least and the greatest lengths.
pub(crate) const ALL: &[Outcome] = &[
    Outcome {
        bytes: Bytes::Now,
        is_long: false,
    },
    Outcome {
        bytes: Bytes::Now,
        is_long: true,
    },
    Outcome {
        bytes: Bytes::Synced,
        is_long: false,
    },
    Outcome {
        bytes: Bytes::Synced,
        is_long: true,
    },
    Outcome {
        bytes: Bytes::All(0),
        is_long: false,
    },
    Outcome {
        bytes: Bytes::All(0),
        is_long: true,
    },
    Outcome {
        bytes: Bytes::All(0xA5),
        is_long: false,
    },
    Outcome {
        bytes: Bytes::All(0xA5),
        is_long: true,
    },
    Outcome {
        bytes: Bytes::All(0xFF),
        is_long: false,
    },
    Outcome {
        bytes: Bytes::All(0xFF),
        is_long: true,
    },
];

/// Four of them.
pub(crate) const FOUR: &[Outcome] = &[
    Outcome {
        bytes: Bytes::Now,
        is_long: true,
    },
    Outcome {
        bytes: Bytes::Synced,
        is_long: false,
    },
    Outcome {
        bytes: Bytes::All(0),
        is_long: false,
    },
    Outcome {
        bytes: Bytes::All(0xA5),
        is_long: true,
    },
];

impl Pick for Outcome {
    ghost aims = { λ _ _. ⊥ };

    fn len(&mut self, _slot: usize, least: u64, greatest: u64, _synced: u64, _now: u64) -> u64 {
        if self.is_long { greatest } else { least }
    }

    fn byte(&mut self, _slot: usize, _at: u64, synced: Option<u8>, now: Option<u8>) -> u8 {
        match self.bytes {
            Bytes::Now => now.unwrap_or(0),
            Bytes::Synced => synced.unwrap_or(0),
            Bytes::All(byte) => byte,
        }
    }
}
