//! A page that is copied sector by sector.
ghost use Rattle.std.specs.Prelude.{◌≡◌, ◌++◌, ◌+◌, ◌<◌, ◌≤◌, ◌^◌, ◌==◌, [], length, vec_capacity, vec_len, OnOk};
ghost use Rattle.std.specs.Prelude.{false, OnErr};
ghost use Rattle.std.specs.List.{list_all};
ghost use Rattle.sd_pagetable.specs.Sectors.{sector_bytes};
ghost use Rattle.sd_rounds.specs.PageCopies.{copied_bytes};

use sd_areas::PAGE_SIZE;
use sd_pagetable::SECTOR_SIZE;
use std::alloc::{AllocError, Global};
use std::marker::Model;

/// A page of zeros, which is compared with others many bytes at a time.
static ZEROS: [u8; PAGE_SIZE] = [0; PAGE_SIZE];

/// What was copied of a page so far. Zeros that come first aren't written before another byte is copied.
#[derive(Drop)]
pub(crate) struct PageCopy {
    /// How many zeros come before the bytes of the buffer, which is empty where there are some.
    front: usize,
    buffer: Vec<u8>,
    /// Whether all that was copied is zeros.
    zeros: bool,
}

impl Model for PageCopy {
    ghost use Rattle.std.specs.Prelude.{ℕ, List};
    ghost use Rattle.sd_rounds.specs.PageCopies.{IsPageCopy, copied_bytes};

    ghost Value = { List ℕ };

    ghost view = { λ c. copied_bytes c.front c.buffer.items };

    ghost invariant = { λ c. IsPageCopy c.front c.buffer.items c.zeros };
}

impl PageCopy {
    /// Nothing is copied yet; the room of a buffer is taken for it.
    pub(crate) fn new(buffer: Vec<u8>) -> Self
        ensures { result ≡ [] }
    {
        let mut buffer = buffer;
        buffer.clear();
        PageCopy {
            front: 0,
            buffer,
            zeros: true,
        }
    }

    /// How many bytes are copied.
    #[inline]
    pub(crate) fn len(&self) -> usize
        ensures value { result ≡ length self.now }
        ensures fits { result < 2 ^ 63 + 4097 }
    {
        self.front + self.buffer.len()
    }

    /// Nothing is copied yet.
    #[inline]
    pub(crate) fn clear(&mut self)
        ensures { self.new ≡ [] }
    {
        self.front = 0;
        self.buffer.clear();
        self.zeros = true;
    }

    /// Whether all that is copied with this sector is zeros: a page without a frame has no other bytes.
    #[inline]
    pub(crate) fn stays_zeros(&self, sector: Option<&[u8]>) -> bool
        requires { length (sector_bytes sector) ≡ 512 }
        ensures { result ≡ list_all (λ byte. byte == 0) (self.now ++ sector_bytes sector.entry) }
    {
        match sector {
            Some(bytes) => self.zeros && is_zero(bytes),
            None => self.zeros,
        }
    }

    /// Puts a sector after those that were copied.
    ///
    /// # Errors
    ///
    /// Out of memory where there is no room for it: nothing changes.
    #[inline]
    pub(crate) fn add(&mut self, sector: Option<&[u8]>) -> Result<(), AllocError>
        requires { length (sector_bytes sector) ≡ 512 }
        ensures items { OnOk result (self.new ≡ self.old ++ sector_bytes sector.entry) }
        ensures err { OnErr result (self.new ≡ self.old) }
    {
        let zeros = self.stays_zeros(sector);
        if zeros && self.buffer.is_empty() && self.front + SECTOR_SIZE <= PAGE_SIZE {
            self.front += SECTOR_SIZE;
            return Ok(());
        }
        write_zeros(&mut self.buffer, self.front)?;
        self.front = 0;
        add_bytes(&mut self.buffer, bytes_of(sector))?;
        self.zeros = zeros;
        Ok(())
    }

    /// The buffer with what was copied, which isn't zeros alone.
    pub(crate) fn into_buffer(self) -> Vec<u8>
        requires { list_all (λ byte. byte == 0) self ≡ false }
        ensures { result.items ≡ self }
    {
        let PageCopy { buffer, .. } = self;
        buffer
    }

    /// The buffer as room for another page.
    pub(crate) fn into_room(self) -> Vec<u8> {
        let PageCopy { buffer, .. } = self;
        buffer
    }
}

/// The bytes of a sector.
#[inline]
fn bytes_of(sector: Option<&[u8]>) -> &[u8]
    ensures { result.now ≡ sector_bytes sector.entry }
{
    match sector {
        Some(bytes) => bytes,
        None => &ZEROS[..SECTOR_SIZE],
    }
}

/// Whether bytes, a page of them at most, are zeros alone.
#[inline]
fn is_zero(bytes: &[u8]) -> bool
    requires { length bytes.now ≤ 4096 }
    ensures { result ≡ list_all (λ byte. byte == 0) bytes.now }
{
    bytes == &ZEROS[..bytes.len()]
}

/// Writes the zeros that come first into the buffer, which is empty where there are some.
///
/// # Errors
///
/// Out of memory where there is no room for them: what the buffer has stays.
#[inline]
fn write_zeros(buffer: &mut Vec<u8>, front: usize) -> Result<(), AllocError>
    requires few { front ≤ 4096 }
    requires bare { 0 < front → buffer.old.items ≡ [] }
    ensures items { OnOk result (buffer.new.items ≡ copied_bytes front buffer.old.items) }
    ensures err { OnErr result (buffer.new.items ≡ buffer.old.items) }
{
    if front == 0 {
        return Ok(());
    }
    add_bytes(buffer, &ZEROS[..front])?;
    Ok(())
}

/// Puts bytes after those of a buffer.
///
/// # Errors
///
/// Out of memory only where the buffer has no room for it: what it has stays.
#[inline]
fn add_bytes(buffer: &mut Vec<u8>, bytes: &[u8]) -> Result<(), AllocError>
    ensures items { OnOk result (buffer.new.items ≡ buffer.old.items ++ bytes.now) }
    ensures full { OnErr result (vec_capacity buffer.old < vec_len buffer.old + length bytes.now) }
    ensures err { OnErr result (buffer.new.items ≡ buffer.old.items) }
{
    buffer.extend_from_slice(bytes)
}
