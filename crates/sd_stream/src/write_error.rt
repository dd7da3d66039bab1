//! Why a stream isn't written.

use std::io;
use thiserror::Error;

/// Why a stream isn't written, or no further.
#[derive(Debug, Drop, Error)]
pub enum WriteError {
    /// The base's number is 0.
    #[error("base without a number")]
    BaseWithoutNumber,
    /// An image has no bytes, or more than `MAX_FILE_LEN`.
    #[error("image of {0} bytes")]
    Length(u64),
    /// Bytes of an image are left, that are to come first.
    #[error("bytes of an image are left")]
    BytesLeft,
    /// An image hasn't so many bytes left.
    #[error("too many bytes of an image")]
    TooManyBytes,
    /// A checkpoint has no image.
    #[error("checkpoint {0} without an image")]
    WithoutImages(u64),
    /// A checkpoint's number isn't above the one before.
    #[error("checkpoint {0} isn't above the one before")]
    NotAbove(u64),
    /// The end comes before images are acknowledged.
    #[error("images without a checkpoint")]
    ImagesLeft,
    /// The output can't be written.
    #[error("cannot write the stream: {0}")]
    Output(io::Error),
    /// The output failed before.
    #[error("the output failed")]
    Failed,
}
