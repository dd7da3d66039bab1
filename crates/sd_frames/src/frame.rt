ghost use Rattle.std.specs.Prelude.{◌≡◌, ◌+◌, ◌-◌, ◌<◌, ◌≤◌, ◌^◌, length, IfOk};
ghost use Rattle.sd_frames.specs.Bytes.{stored_at};

use std::alloc::{AllocError, Global};
use std::marker::Model;

/// A frame in use: how many entries have it, and its bytes. They lie in a vector, since that is filled from a slice by
/// one copy, where a box of an array is filled from a whole page that lies on the stack.
#[derive(Drop)]
pub struct Frame {
    count: u32,
    bytes: Vec<u8>,
}

impl Model for Frame {
    ghost use Rattle.std.specs.Prelude.{◌≡◌, length};
    ghost use Rattle.sd_frames.specs.Frames.{Cell, cell_code};

    ghost Value = { Cell };

    ghost coded = { cell_code };

    ghost view = { λ f. record { count = f.count; bytes = f.bytes.items } };

    ghost invariant = { λ f. length f.bytes.items ≡ 4096 };
}

impl Frame {
    /// A frame with a copy of a page's bytes, which one entry has.
    ///
    /// # Errors
    ///
    /// Out of memory where its bytes can't be allocated.
    pub(crate) fn copy_of(alloc: Global, page: &[u8]) -> Result<Frame, AllocError>
        requires { length page.now ≡ 4096 }
        ensures { IfOk result (λ frame. frame ≡ record { count = 1; bytes = page.now }) }
    {
        let bytes = Vec::from_slice(alloc, page)?;
        Ok(Frame { count: 1, bytes })
    }

    /// Gives it a copy of a page's bytes, and one entry.
    pub(crate) fn refill(&mut self, page: &[u8])
        requires { length page.now ≡ 4096 }
        ensures { self.new ≡ record { count = 1; bytes = page.now } }
    {
        self.count = 1;
        self.bytes.copy_from_slice(page);
    }

    /// How many entries have it.
    pub(crate) fn count(&self) -> u32
        ensures { result ≡ self.now.count }
    {
        self.count
    }

    /// Its bytes.
    pub(crate) fn bytes(&self) -> &[u8]
        ensures value { result.now ≡ self.now.bytes }
        ensures length { length result.now ≡ 4096 }
    {
        &self.bytes[..]
    }

    /// One entry more has it.
    pub(crate) fn share(&mut self)
        requires { self.old.count < 2 ^ 17 }
        ensures { self.new ≡ record { count = self.old.count + 1; bytes = self.old.bytes } }
    {
        self.count += 1;
    }

    /// One entry less has it.
    pub(crate) fn release(&mut self)
        requires { 0 < self.old.count }
        ensures { self.new ≡ record { count = self.old.count - 1; bytes = self.old.bytes } }
    {
        self.count -= 1;
    }

    /// Writes bytes from an offset on.
    pub(crate) fn write(&mut self, offset: usize, bytes: &[u8])
        requires { offset + length bytes.now ≤ 4096 }
        ensures { self.new
            ≡ record { count = self.old.count; bytes = stored_at self.old.bytes offset bytes.now } }
    {
        write(self.bytes.as_mut_slice(), offset, bytes);
    }
}

/// Writes bytes into a page.
fn write(page: &mut [u8], offset: usize, bytes: &[u8])
    requires { offset + length bytes.now ≤ length page.old }
    ensures { page.new ≡ stored_at page.old offset bytes.now }
{
    page[offset..offset + bytes.len()].copy_from_slice(bytes);
}
