use crate::new_image::NewImage;

/// What an outcome was to an image in the making.
#[derive(Drop)]
pub enum Written {
    /// It is of no request that is out. Nothing changed.
    Strange,
    /// The device failed: the image makes no further call.
    Failed,
    /// It was done, and the image goes on.
    More,
    /// It was the last: the image is open.
    Opened(NewImage),
}
