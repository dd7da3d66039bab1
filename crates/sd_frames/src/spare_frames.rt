//! Frames that were freed, kept for new ones.
ghost use Rattle.std.specs.Prelude.{◌≡◌, ◌-◌, ◌≤◌, length};

use crate::frame::Frame;
use std::alloc::Global;
use std::marker::Model;

/// How many frames are kept at most: 16 MiB of pages.
const SPARE_LIMIT: usize = 4096;

/// Frames that were freed, for those that are needed next: the pages of these needn't be allocated.
#[derive(Drop)]
pub(crate) struct SpareFrames {
    frames: Vec<Frame>,
}

impl Model for SpareFrames {
    ghost use Rattle.std.specs.Prelude.{ℕ, ◌≤◌, length};

    // how many are kept
    ghost Value = { ℕ };

    ghost view = { λ s. length s.frames.items };

    ghost invariant = { λ s. length s.frames.items ≤ 4096 };
}

impl SpareFrames {
    /// None is kept.
    pub(crate) fn new(alloc: Global) -> Self
        ensures { result ≡ 0 }
    {
        SpareFrames {
            frames: Vec::new(alloc),
        }
    }

    /// Keeps a frame, where fewer than the limit are kept and the list can grow; gives its page back else.
    pub(crate) fn keep(&mut self, frame: Frame)
        ensures more { self.old ≤ self.new }
        ensures few { self.new ≤ 4096 }
    {
        if self.frames.len() < SPARE_LIMIT {
            let _kept = self.frames.push(frame);
        }
    }

    /// The frame that was kept last, if there is one. Its count and bytes are what they were.
    pub(crate) fn take(&mut self) -> Option<Frame>
        ensures { self.new ≡ self.old - 1 }
    {
        self.frames.pop()
    }
}
