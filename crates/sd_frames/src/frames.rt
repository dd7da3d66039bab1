//! Counted frames with copy on write, from a pool.
ghost use Rattle.std.specs.Prelude.{◌≡◌, ◌+◌, ◌-◌, ◌<◌, ◌≤◌, ◌^◌, ◌==◌, length, [], Some, None, IsTrue, IsFalse};
ghost use Rattle.std.specs.Prelude.{IsSome, IsOk, OnErr, IfOk, if◌then◌else◌};
ghost use Rattle.std.specs.Option.{ForSome};
ghost use Rattle.sd_frames.specs.Bytes.{stored_at, zeros};
ghost use Rattle.sd_frames.specs.Frames.{Cell, cell_at, count_at, cell_bytes, SetsCell, IsExhausted, HasFree};
ghost use Rattle.sd_frames.specs.Frames.{HasWholeFrames, HasFreePlace, frame_bytes};

use crate::frame::Frame;
use crate::frame_cell::{FrameCell, next_free};
use crate::spare_frames::SpareFrames;
use sd_areas::PAGE_SIZE;
use std::alloc::{AllocError, Global};
use std::marker::Model;

static ZEROS: [u8; PAGE_SIZE] = [0; PAGE_SIZE];

/// The frames of a pool. A frame's bytes are allocated where it is first needed. Once no entry has it, its number is
/// used again, and its bytes are kept for another frame, up to a limit.
#[derive(Drop)]
pub struct Frames {
    alloc: Global,
    pool: u32,
    slots: Vec<FrameCell>,
    free: Option<u32>,
    spare: SpareFrames,
}

impl Model for Frames {
    ghost use Rattle.std.specs.Prelude.{◌≤◌, length};
    ghost use Rattle.sd_frames.specs.Frames.{Pool, pool_code, HasWholeFrames};
    ghost use Rattle.sd_frames.specs.FrameCells.{cells_of, IsFreeList};

    ghost Value = { Pool };

    ghost coded = { pool_code };

    ghost view = { λ f. record { size = f.pool; cells = cells_of f.slots.items } };

    ghost invariant = { λ f. (length f.slots.items ≤ f.pool) × IsFreeList f.slots.items f.free
        × HasWholeFrames (record { size = f.pool; cells = cells_of f.slots.items }) };
}

impl Frames {
    /// A pool of so many frames, none of them in use.
    pub fn new(alloc: Global, pool: u32) -> Self
        ensures { result ≡ record { size = pool; cells = [] } }
    {
        Frames {
            alloc,
            pool,
            slots: Vec::new(alloc),
            free: None,
            spare: SpareFrames::new(alloc),
        }
    }

    /// How many entries have a frame.
    pub fn count(&self, number: u32) -> u32
        ensures { result ≡ count_at self.now number }
    {
        match self.slots.get(number as usize) {
            Some(FrameCell::Used(frame)) => frame.count(),
            _ => 0,
        }
    }

    /// The bytes of a page with this frame; without one it reads as zeros.
    pub fn bytes_of(&self, frame: Option<u32>) -> &[u8]
        requires { ForSome frame (λ number. IsSome (cell_at self.now number)) }
        ensures value { result.now ≡ frame_bytes self.now frame }
        ensures length { length result.now ≡ 4096 }
    {
        match frame {
            Some(number) => self.bytes(number),
            None => &ZEROS,
        }
    }

    /// The bytes of a frame.
    pub fn bytes(&self, number: u32) -> &[u8]
        requires { IsSome (cell_at self.now number) }
        ensures value { result.now ≡ cell_bytes self.now number }
        ensures length { length result.now ≡ 4096 }
    {
        match self.slots.get(number as usize) {
            Some(FrameCell::Used(frame)) => frame.bytes(),
            _ => &ZEROS,
        }
    }

    /// Each frame in use has 4,096 bytes. It does nothing: a caller learns it.
    pub fn whole(&self)
        ensures { HasWholeFrames self.now }
    {
        let _pool = self.pool;
    }

    /// Whether every frame of the pool is in use.
    pub fn is_exhausted(&self) -> bool
        ensures yes_if { IsTrue result → IsExhausted self.now }
        ensures no_if { IsFalse result → HasFree self.now }
    {
        self.free.is_none() && self.slots.len() == self.pool as usize
    }

    /// Increments a frame's reference count.
    pub fn share(&mut self, number: u32)
        requires used { IsSome (cell_at self.old number) }
        requires few { count_at self.old number < 2 ^ 17 }
        ensures { SetsCell self.old self.new number
            (Some (record { count = count_at self.old number + 1; bytes = cell_bytes self.old number })) }
    {
        self.slots[number as usize].share();
    }

    /// Writes bytes into the page of a used frame, from an offset on, 0 to 4,095: they end within its 4,096 bytes. Each
    /// entry that shares the frame sees them, so whoever stores for one of them takes a frame of its own first.
    pub fn write(&mut self, number: u32, offset: usize, bytes: &[u8])
        requires used { IsSome (cell_at self.old number) }
        requires within { offset + length bytes.now ≤ 4096 }
        ensures { SetsCell self.old self.new number
            (Some (record {
              count = count_at self.old number;
              bytes = stored_at
                  (cell_bytes self.old number) offset bytes.now;
            })) }
    {
        self.slots[number as usize].write(offset, bytes);
    }

    /// Decrements a frame's reference count. Where that becomes 0, the frame is free. It needs no memory.
    pub fn release(&mut self, number: u32)
        requires { 0 < count_at self.old number }
        ensures { SetsCell self.old self.new number
            (if count_at self.old number == 1 then None
            else Some (record { count = count_at self.old number - 1; bytes = cell_bytes self.old number })) }
    {
        if self.count(number) == 1 {
            let frame = self.slots[number as usize].free(self.free);
            keep(&mut self.spare, frame);
            self.free = Some(number);
        } else {
            self.slots[number as usize].release();
        }
    }

    /// A frame of zeros that one entry has.
    ///
    /// # Errors
    ///
    /// Out of memory where its bytes can't be allocated: nothing changes.
    pub fn fresh(&mut self) -> Result<u32, AllocError>
        requires { HasFree self.old }
        ensures free { IfOk result
            (λ number. (number < self.old.size) × (cell_at self.old number ≡ None)) }
        ensures ok { IfOk result
            (λ number. SetsCell self.old self.new number
            (Some (record { count = 1; bytes = zeros }))) }
        ensures err { OnErr result (self.new ≡ self.old) }
    {
        let frame = self.frame_of_zeros()?;
        self.place(frame)
    }

    /// A copy of a frame, which one entry has.
    ///
    /// # Errors
    ///
    /// Out of memory where its bytes can't be allocated: nothing changes.
    pub fn copied(&mut self, from: u32) -> Result<u32, AllocError>
        requires free { HasFree self.old }
        requires used { IsSome (cell_at self.old from) }
        ensures free { IfOk result
            (λ number. (number < self.old.size) × (cell_at self.old number ≡ None)) }
        ensures ok { IfOk result
            (λ number. SetsCell self.old self.new number
            (Some (record { count = 1; bytes = cell_bytes self.old from }))) }
        ensures err { OnErr result (self.new ≡ self.old) }
    {
        let frame = self.frame_like(from)?;
        self.place(frame)
    }

    /// A frame of zeros, in no place yet.
    fn frame_of_zeros(&mut self) -> Result<Frame, AllocError>
        ensures zeros { IfOk result (λ frame. frame ≡ record { count = 1; bytes = zeros }) }
        ensures same { self.new ≡ self.old }
    {
        let Some(mut frame) = self.spare.take() else {
            return Frame::copy_of(self.alloc, &ZEROS);
        };
        frame.refill(&ZEROS);
        Ok(frame)
    }

    /// A frame with the bytes of another, in no place yet.
    fn frame_like(&mut self, from: u32) -> Result<Frame, AllocError>
        requires { IsSome (cell_at self.old from) }
        ensures copy { IfOk result (λ frame. frame ≡ record { count = 1; bytes = cell_bytes self.old from }) }
        ensures same { self.new ≡ self.old }
    {
        let Some(mut frame) = self.spare.take() else {
            return Frame::copy_of(self.alloc, self.bytes(from));
        };
        frame.refill(self.bytes(from));
        Ok(frame)
    }

    /// A frame with a copy of a page's bytes, which one entry has, in no place yet.
    ///
    /// # Errors
    ///
    /// Out of memory where its bytes can't be allocated.
    pub fn copy_of_page(&self, bytes: &[u8; PAGE_SIZE]) -> Result<Frame, AllocError>
        ensures copy { IfOk result (λ frame. frame ≡ record { count = 1; bytes = bytes.now }) }
        ensures whole { IfOk result (λ frame. length frame.bytes ≡ 4096) }
    {
        Frame::copy_of(self.alloc, bytes.as_slice())
    }

    /// Puts a frame into a free place.
    ///
    /// # Errors
    ///
    /// Out of memory where the list of places can't grow, which is only where each place that was made is in use:
    /// nothing changes.
    pub fn place(&mut self, frame: Frame) -> Result<u32, AllocError>
        requires free { HasFree self.old }
        requires whole { length frame.bytes ≡ 4096 }
        ensures free { IfOk result
            (λ number. (number < self.old.size) × (cell_at self.old number ≡ None)) }
        ensures ok { IfOk result (λ number. SetsCell self.old self.new number (Some frame)) }
        ensures made { HasFreePlace self.old → IsOk result }
        ensures err { OnErr result (self.new ≡ self.old) }
    {
        match self.free {
            Some(number) => {
                self.free = next_free(&self.slots, number);
                self.slots[number as usize] = FrameCell::Used(frame);
                Ok(number)
            }
            None => {
                let number = self.slots.len() as u32;
                self.slots.push(FrameCell::Used(frame))?;
                Ok(number)
            }
        }
    }
}

/// Keeps a frame that was freed, if there is one.
fn keep(spare: &mut SpareFrames, frame: Option<Frame>)
    ensures { spare.old ≤ spare.new }
{
    if let Some(frame) = frame {
        spare.keep(frame);
    }
}
