use crate::retired::Retired;
use sd_writing::NewImage;

/// What an outcome, or the list of images to close, was to a merger.
#[derive(Drop)]
pub enum MergeProgress {
    /// It is of no request that is out, or no list is awaited. Nothing changed.
    Strange,
    /// The device failed: the merge has ended.
    Failed,
    /// It was done, and the merge goes on.
    More,
    /// The merged image is open. The merge waits for the list of the images to close.
    Opened(NewImage),
    /// An image of the list is closed for sure, and the merge goes on.
    Closed(Retired),
    /// The merge has ended, with the image of this serial.
    Merged(u64),
}
