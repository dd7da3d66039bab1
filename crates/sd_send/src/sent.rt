//! How much was sent.

use std::fmt;

/// How many images were sent, and how many bytes they have.
#[derive(Clone, Copy, Default)]
pub struct Sent {
    pub images: usize,
    pub bytes: u64,
}

impl Sent {
    /// Counts what was sent more.
    pub(crate) fn add(&mut self, more: Sent) {
        self.images = self.images.saturating_add(more.images);
        self.bytes = self.bytes.saturating_add(more.bytes);
    }
}

impl fmt::Display for Sent {
    fn fmt<W: fmt::Write>(&self, f: &mut fmt::Formatter<W>) -> fmt::Result {
        let Sent { images, bytes } = self;
        write!(f, "sent {images} images {bytes} bytes")
    }
}
