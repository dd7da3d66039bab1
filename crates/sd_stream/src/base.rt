//! What a stream continues.

/// The checkpoint that a receiver has to show, so that the stream's images continue it.
#[derive(Clone, Copy, Debug, PartialEq, Eq)]
pub struct Base {
    /// Its number, from 1 on.
    pub number: u64,
    /// The SHA-256 of its memory.
    pub digest: [u8; 32],
}
