ghost use Rattle.std.specs.Prelude.{ℕ, Option, Some, slice_get, ◌≡◌, ◌+◌, ◌-◌, ◌<◌, ◌≤◌, ◌^◌, length, IsSome, IfSome};
ghost use Rattle.std.specs.Option.{ForSome};
ghost use Rattle.sd_frames.specs.Bytes.{stored_at};
ghost use Rattle.sd_frames.specs.Frames.{Cell};

use crate::frame::Frame;
use std::mem;

/// A place for a frame: in use, or a link to the next free one.
#[derive(Drop)]
pub(crate) enum FrameCell {
    Used(Frame),
    Free(Option<u32>),
}

impl FrameCell {
    ghost use Rattle.sd_frames.specs.FrameCells.{cell_of};
    ghost use Rattle.sd_frames.specs.declared.frame_cell.FrameCell.TheVariants.{Used, Free};

    /// One entry more has its frame.
    pub(crate) fn share(&mut self)
        requires used { IsSome (cell_of self.old) }
        requires few { ForSome (cell_of self.old) (λ (cell : Cell). cell.count < 2 ^ 17) }
        ensures { IfSome (cell_of self.old)
            (λ (cell : Cell). self.new
            ≡ Used (record { count = cell.count + 1; bytes = cell.bytes })) }
    {
        if let FrameCell::Used(frame) = self {
            frame.share();
        }
    }

    /// One entry less has its frame.
    pub(crate) fn release(&mut self)
        requires used { IsSome (cell_of self.old) }
        requires some { ForSome (cell_of self.old) (λ (cell : Cell). 0 < cell.count) }
        ensures { IfSome (cell_of self.old)
            (λ (cell : Cell). self.new
            ≡ Used (record { count = cell.count - 1; bytes = cell.bytes })) }
    {
        if let FrameCell::Used(frame) = self {
            frame.release();
        }
    }

    /// Frees its place, which leads to the next free one, and gives its frame out.
    pub(crate) fn free(&mut self, next: Option<u32>) -> Option<Frame>
        ensures { self.new ≡ Free next }
    {
        match mem::replace(self, FrameCell::Free(next)) {
            FrameCell::Used(frame) => Some(frame),
            FrameCell::Free(_) => None,
        }
    }

    /// Writes bytes into its frame, from an offset on.
    pub(crate) fn write(&mut self, offset: usize, bytes: &[u8])
        requires used { IsSome (cell_of self.old) }
        requires within { offset + length bytes.now ≤ 4096 }
        ensures { IfSome (cell_of self.old)
            (λ (cell : Cell). self.new
            ≡ Used (record { count = cell.count; bytes = stored_at cell.bytes offset bytes.now })) }
    {
        if let FrameCell::Used(frame) = self {
            frame.write(offset, bytes);
        }
    }
}

/// The place that a free one leads to.
pub(crate) fn next_free(slots: &[FrameCell], number: u32) -> Option<u32>
    ensures { (next : Option ℕ) → slice_get slots.now number ≡ Some (FrameCell.Free next)
        → result ≡ next }
{
    match slots.get(number as usize) {
        Some(FrameCell::Free(next)) => *next,
        _ => None,
    }
}
