//! What a reader finds next.

/// What comes next in a stream.
#[derive(Clone, Copy, Debug, PartialEq, Eq)]
pub enum Item {
    /// An image, of so many bytes, which follow: 1 to `MAX_FILE_LEN`.
    Image(u64),
    /// The images since the last of these make the checkpoint of this number.
    Acknowledged(u64),
    /// The stream is whole, and nothing comes after it.
    End,
}
