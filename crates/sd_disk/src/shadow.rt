//! What a crash has to know of a file in memory: the file as last synced, and what befell it since.
ghost use Rattle.std.specs.Prelude.{◌≡◌, ℕ, ◌&&◌, ◌||◌, nat_le, nat_lt, ◌+◌, ◌≤◌, false, [], take, length};
ghost use Rattle.std.specs.Prelude.{slice_index_or, max, min, IfOk};

use std::alloc::{AllocError, Global};

#[derive(Drop)]
pub(crate) struct Shadow {
    synced: Vec<u8>,
    synced_len: usize,
    /// For each place, whether it was written or cut off since.
    touched: Vec<bool>,
    least: usize,
    greatest: usize,
    ghost rooms: { length synced.items ≡ length touched.items },
    ghost within: { synced_len ≤ length synced.items },
}

impl Shadow {
    ghost use Rattle.sd_disk.specs.Outcomes.{Unsynced, at_rest, with_write, with_cut};
    ghost use Rattle.sd_disk.specs.Slots.{shadow_room, ShadowTracks};

    /// Of an empty file that is synced, with room for so many bytes.
    pub(crate) fn new(alloc: Global, bytes: usize) -> Result<Shadow, AllocError>
        ensures empty { IfOk result (λ shadow. ShadowTracks shadow (at_rest [])) }
        ensures room { IfOk result (λ shadow. shadow_room shadow ≡ bytes) }
    {
        Ok(Shadow {
            synced: vec![in alloc; 0; bytes]?,
            synced_len: 0,
            touched: vec![in alloc; false; bytes]?,
            least: 0,
            greatest: 0,
        })
    }

    /// So many bytes are written at `at`.
    pub(crate) fn write(&mut self, at: usize, count: usize)
        requires { at + count ≤ shadow_room self.old }
        ensures tracks { (known : Unsynced) → ShadowTracks self.old known
            → ShadowTracks self.new (with_write at count known) }
        ensures room { shadow_room self.new ≡ shadow_room self.old }
        ensures least { self.new.least ≡ self.old.least }
        ensures greatest { self.new.greatest ≡ max self.old.greatest (at + count) }
    {
        mark(&mut self.touched, at, at + count);
        self.greatest = self.greatest.max(at + count);
    }

    /// A file of `count` bytes is cut to `len`.
    pub(crate) fn cut(&mut self, count: usize, len: usize)
        requires cut { len ≤ count }
        requires within { count ≤ shadow_room self.old }
        ensures tracks { (known : Unsynced) → ShadowTracks self.old known
            → ShadowTracks self.new (with_cut count len known) }
        ensures room { shadow_room self.new ≡ shadow_room self.old }
        ensures least { self.new.least ≡ min self.old.least len }
        ensures greatest { self.new.greatest ≡ self.old.greatest }
    {
        mark(&mut self.touched, len, count);
        self.least = self.least.min(len);
    }

    /// The file is synced.
    pub(crate) fn sync(&mut self, file: &[u8])
        requires { length file.now ≤ shadow_room self.old }
        ensures tracks { ShadowTracks self.new (at_rest file.now) }
        ensures room { shadow_room self.new ≡ shadow_room self.old }
        ensures least { self.new.least ≡ length file.now }
        ensures greatest { self.new.greatest ≡ length file.now }
    {
        copy_front(&mut self.synced, file);
        self.synced_len = file.len();
        self.touched.fill(false);
        self.least = file.len();
        self.greatest = file.len();
    }

    /// The least and the greatest length since the last sync.
    pub(crate) fn bounds(&self) -> (usize, usize)
        ensures least { result.0 ≡ self.now.least }
        ensures greatest { result.1 ≡ self.now.greatest }
    {
        (self.least, self.greatest)
    }

    /// The file as last synced.
    pub(crate) fn synced(&self) -> &[u8]
        ensures { result.now ≡ take self.now.synced_len self.now.synced.items }
    {
        &self.synced[..self.synced_len]
    }

    /// Whether a place was written or cut off since.
    pub(crate) fn is_touched(&self, place: usize) -> bool
        ensures { result ≡ slice_index_or self.now.touched.items place false }
    {
        self.touched.get(place).copied().unwrap_or(false)
    }
}

fn copy_front(room: &mut [u8], file: &[u8])
    requires { length file.now ≤ length room.old }
    ensures front { take (length file.now) room.new ≡ file.now }
    ensures room { length room.new ≡ length room.old }
{
    room[..file.len()].copy_from_slice(file);
}

/// Marks the places from one on and below another.
fn mark(touched: &mut [bool], from: usize, to: usize)
    requires ordered { from ≤ to }
    requires within { to ≤ length touched.old }
    ensures marked { (place : ℕ) → slice_index_or touched.new place false
        ≡ ((nat_le from place && nat_lt place to) || slice_index_or touched.old place false) }
    ensures room { length touched.new ≡ length touched.old }
{
    touched[from..to].fill(true);
}
