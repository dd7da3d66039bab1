//! Room for the data pages of a checkpoint.
ghost use Rattle.std.specs.Prelude.{◌≡◌, ◌+◌, ◌-◌, ◌<◌, ◌≤◌, IfOk};
ghost use Rattle.sd_rounds.specs.Buffers.{HasRoomForPage};

use crate::lanes::LANES;
use sd_areas::PAGE_SIZE;
use std::alloc::{AllocError, Global};
use std::marker::Model;

/// One page is copied while the writes of others are out.
const PAGES: usize = LANES + 1;

/// Buffers of a page each, for those that are copied and written.
#[derive(Drop)]
pub struct PageBuffers {
    alloc: Global,
    spare: Vec<Vec<u8>>,
}

impl Model for PageBuffers {
    ghost use Rattle.std.specs.Prelude.{ℕ, length};
    ghost use Rattle.sd_rounds.specs.Buffers.{AreSpare};

    // how many are spare
    ghost Value = { ℕ };

    ghost view = { λ b. length b.spare.items };

    // each has room for a page
    ghost invariant = { λ b. AreSpare b.spare };
}

impl PageBuffers {
    /// Room for nine pages: one that is copied, and eight whose writes are out.
    ///
    /// # Errors
    ///
    /// Out of memory where a page finds no room.
    pub fn reserve(alloc: Global) -> Result<Self, AllocError>
        ensures { IfOk result (λ buffers. buffers ≡ 9) }
    {
        let mut spare = Vec::with_capacity(alloc, PAGES)?;
        for _ in 0..PAGES {
            spare.push(Vec::with_capacity(alloc, PAGE_SIZE)?)?;
        }
        Ok(PageBuffers { alloc, spare })
    }

    /// One that is spare, with room for a page; or one without room, only where none is spare.
    pub(crate) fn take(&mut self) -> Vec<u8>
        ensures room { 0 < self.old → HasRoomForPage result }
        ensures taken { self.new ≡ self.old - 1 }
    {
        match self.spare.pop() {
            Some(buffer) => buffer,
            None => Vec::new(self.alloc),
        }
    }

    /// One is spare again, if it has room for a page. There is a place for each that was taken.
    pub(crate) fn give(&mut self, buffer: Vec<u8>)
        ensures kept { self.old < 9 → HasRoomForPage buffer → self.new ≡ self.old + 1 }
        ensures others { self.old ≤ self.new }
    {
        if buffer.capacity() >= PAGE_SIZE {
            let _kept = self.spare.push(buffer);
        }
    }
}
