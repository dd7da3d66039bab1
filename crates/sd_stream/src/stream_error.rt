//! Why a stream isn't read.

use std::io;
use thiserror::Error;

/// Why a stream isn't read, or no further.
#[derive(Debug, Drop, Error)]
pub enum StreamError {
    /// It begins with other bytes.
    #[error("not a stream of ckpt send")]
    NotAStream,
    /// It is of another version.
    #[error("stream of version {0}, not 1")]
    Version(u64),
    /// The base's number is 0, and its digest isn't zeros.
    #[error("digest of a base without a number")]
    BaseWithoutNumber,
    /// A record is of no kind.
    #[error("record of kind {0}")]
    UnknownKind(u64),
    /// An image has no bytes, or more than `MAX_FILE_LEN`.
    #[error("image of {0} bytes")]
    Length(u64),
    /// A checkpoint has no image.
    #[error("checkpoint {0} without an image")]
    WithoutImages(u64),
    /// A checkpoint's number isn't above the one before.
    #[error("checkpoint {0} isn't above the one before")]
    NotAbove(u64),
    /// The end comes before images are acknowledged.
    #[error("images without a checkpoint")]
    ImagesLeft,
    /// The end's record has another value than 0.
    #[error("end with the value {0}")]
    EndValue(u64),
    /// The bytes are not those that were sent.
    #[error("digest differs")]
    DigestDiffers,
    /// Bytes follow the end.
    #[error("bytes after the end")]
    BytesAfterEnd,
    /// The input has no more bytes, and the stream isn't whole.
    #[error("stream ends early")]
    EndsEarly,
    /// The input can't be read.
    #[error("cannot read the stream: {0}")]
    Input(io::Error),
    /// Bytes of an image weren't taken. Nothing was read, and they can still be taken.
    #[error("bytes of an image are left")]
    BytesLeft,
    /// The stream was read to its end, or to an error.
    #[error("the stream was read")]
    Over,
}
