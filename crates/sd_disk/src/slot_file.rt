//! One file in memory, in room that was taken beforehand.
ghost use Rattle.std.specs.Prelude.{ℕ, ◌<◌, false, List, slice_index, slice_index_or, ◌≡◌, ◌+◌, ◌-◌, ◌≤◌, ◌↔◌, ◌++◌};
ghost use Rattle.std.specs.Prelude.{length, take, drop, replicate, [], IfOk, IsTrue, slice_range};

use crate::pick::Pick;
use crate::shadow::Shadow;
use std::alloc::{AllocError, Global};

#[derive(Drop)]
pub(crate) struct SlotFile {
    room: Vec<u8>,
    len: usize,
    shadow: Shadow,
    ghost within: { len ≤ length room.items },
    ghost rooms: { length shadow.touched.items ≡ length room.items },
    ghost no_shorter: { shadow.least ≤ len },
    ghost no_longer: { len ≤ shadow.greatest },
    ghost fits: { shadow.greatest ≤ length room.items },
}

impl SlotFile {
    ghost use Rattle.sd_disk.specs.Contents.{file_at, file_after_write};
    ghost use Rattle.sd_disk.specs.Outcomes.{Unsynced, Leaves, at_rest, with_write, with_cut};
    ghost use Rattle.sd_disk.specs.Slots.{held, room_of, ShadowTracks};

    /// An empty file with room for so many bytes.
    pub(crate) fn new(alloc: Global, bytes: usize) -> Result<SlotFile, AllocError>
        ensures empty { IfOk result (λ slot. held slot ≡ []) }
        ensures room { IfOk result (λ slot. room_of slot ≡ bytes) }
        ensures rest { IfOk result (λ slot. ShadowTracks slot.shadow (at_rest [])) }
    {
        Ok(SlotFile {
            room: vec![in alloc; 0; bytes]?,
            len: 0,
            shadow: Shadow::new(alloc, bytes)?,
        })
    }

    pub(crate) fn len(&self) -> usize
        ensures { result ≡ length (held self.now) }
    {
        self.len
    }

    /// Whether so many bytes at this place stay within the room.
    pub(crate) fn has_room(&self, at: usize, count: usize) -> bool
        ensures { IsTrue result ↔ (at + count ≤ room_of self.now) }
    {
        at <= self.room.len() && count <= self.room.len() - at
    }

    /// Whether so many bytes at this place stand in the file.
    pub(crate) fn has_bytes(&self, at: usize, count: usize) -> bool
        ensures { IsTrue result ↔ (at + count ≤ length (held self.now)) }
    {
        at <= self.len && count <= self.len - at
    }

    pub(crate) fn read(&self, at: usize, buffer: &mut [u8])
        requires { at + length buffer.old ≤ length (held self.now) }
        ensures { buffer.new ≡ slice_range (held self.now) at (at + length buffer.old) }
    {
        buffer.copy_from_slice(&self.room[at..at + buffer.len()]);
    }

    /// Zeros fill the gap where the bytes begin past the file's end.
    pub(crate) fn write(&mut self, at: usize, bytes: &[u8])
        requires { at + length bytes.now ≤ room_of self.old }
        ensures written { held self.new ≡ file_after_write (held self.old) at bytes.now }
        ensures room { room_of self.new ≡ room_of self.old }
        ensures tracks { (known : Unsynced) → ShadowTracks self.old.shadow known
            → ShadowTracks self.new.shadow (with_write at (length bytes.now) known) }
    {
        self.shadow.write(at, bytes.len());
        self.fill_to(at);
        self.overwrite(at, bytes);
    }

    /// Lengthens the file by zeros, if it ends before this place.
    fn fill_to(&mut self, at: usize)
        requires fits { at ≤ room_of self.old }
        requires grown { at ≤ self.old.shadow.greatest }
        ensures filled { held self.new
            ≡ held self.old ++ replicate (at - length (held self.old)) 0 }
        ensures room { room_of self.new ≡ room_of self.old }
        ensures shadow { self.new.shadow ≡ self.old.shadow }
    {
        if self.len < at {
            self.room[self.len..at].fill(0);
            self.len = at;
        }
    }

    fn overwrite(&mut self, at: usize, bytes: &[u8])
        requires inside { at ≤ length (held self.old) }
        requires fits { at + length bytes.now ≤ room_of self.old }
        requires grown { at + length bytes.now ≤ self.old.shadow.greatest }
        ensures written { held self.new
            ≡ take at (held self.old) ++ bytes.now ++ drop (at + length bytes.now) (held self.old) }
        ensures room { room_of self.new ≡ room_of self.old }
        ensures shadow { self.new.shadow ≡ self.old.shadow }
    {
        let end = at + bytes.len();
        self.room[at..end].copy_from_slice(bytes);
        self.len = self.len.max(end);
    }

    pub(crate) fn cut(&mut self, len: usize)
        requires { len ≤ length (held self.old) }
        ensures cut { held self.new ≡ take len (held self.old) }
        ensures room { room_of self.new ≡ room_of self.old }
        ensures tracks { (known : Unsynced) → ShadowTracks self.old.shadow known
            → ShadowTracks self.new.shadow (with_cut (length (held self.old)) len known) }
    {
        self.shadow.cut(self.len, len);
        self.len = len;
    }

    /// From now on a crash leaves the file as it is.
    pub(crate) fn sync(&mut self)
        ensures same { held self.new ≡ held self.old }
        ensures room { room_of self.new ≡ room_of self.old }
        ensures tracks { ShadowTracks self.new.shadow (at_rest (held self.old)) }
    {
        self.shadow.sync(&self.room[..self.len]);
    }

    /// The file after a crash, synced, in room of its own. `number` is the slot's, for `pick`.
    pub(crate) fn crash<P: Pick>(
        &self,
        alloc: Global,
        number: usize,
        pick: &mut P,
    ) -> Result<SlotFile, AllocError>
        ensures outcome { (known : Unsynced) → ShadowTracks self.now.shadow known
            → IfOk result (λ slot. Leaves known (held slot)) }
        ensures aimed { (known : Unsynced) (c : List (List ℕ)) → ShadowTracks self.now.shadow known
            → P.aims pick.old c
            → Leaves known (file_at c number)
            → IfOk result (λ slot. (held slot ≡ file_at c number) × P.aims pick.new c) }
        ensures rest { IfOk result (λ slot. ShadowTracks slot.shadow (at_rest (held slot))) }
        ensures room { IfOk result (λ slot. room_of slot ≡ room_of self.now) }
    {
        let len = self.picked_len(number, pick);
        let mut room = vec![in alloc; 0; self.room.len()]?;
        for at in 0..len {
            room[at] = self.picked_byte(number, at, pick);
        }
        SlotFile::at_rest(alloc, room, len)
    }

    /// A file that is synced.
    fn at_rest(alloc: Global, room: Vec<u8>, len: usize) -> Result<SlotFile, AllocError>
        requires { len ≤ length room.items }
        ensures held { IfOk result (λ slot. held slot ≡ take len room.items) }
        ensures rest { IfOk result (λ slot. ShadowTracks slot.shadow (at_rest (take len room.items))) }
        ensures room { IfOk result (λ slot. room_of slot ≡ length room.items) }
    {
        let mut shadow = Shadow::new(alloc, room.len())?;
        shadow.sync(&room[..len]);
        Ok(SlotFile { room, len, shadow })
    }

    /// A length that a crash may leave.
    fn picked_len<P: Pick>(&self, number: usize, pick: &mut P) -> usize
        ensures no_shorter { self.now.shadow.least ≤ result }
        ensures no_longer { result ≤ self.now.shadow.greatest }
        ensures aimed { (c : List (List ℕ)) → P.aims pick.old c
            → ((self.now.shadow.least ≤ length (file_at c number))
            → (length (file_at c number) ≤ self.now.shadow.greatest)
            → result ≡ length (file_at c number)) × P.aims pick.new c }
    {
        let (least, greatest) = self.shadow.bounds();
        let picked = pick.len(
            number,
            least as u64,
            greatest as u64,
            self.shadow.synced().len() as u64,
            self.len as u64,
        );
        (picked as usize).clamp(least, greatest)
    }

    /// A byte that a crash may leave at a place.
    fn picked_byte<P: Pick>(&self, number: usize, at: usize, pick: &mut P) -> u8
        ensures kept { slice_index_or self.now.shadow.touched.items at false ≡ false
            → at < self.now.shadow.synced_len
            → result ≡ slice_index self.now.shadow.synced.items at }
        ensures aimed { (c : List (List ℕ)) → P.aims pick.old c → P.aims pick.new c
            × (at < length (file_at c number)
            → (slice_index_or self.now.shadow.touched.items at false ≡ false
            → at < self.now.shadow.synced_len
            → slice_index (file_at c number) at ≡ slice_index self.now.shadow.synced.items at)
            → result ≡ slice_index (file_at c number) at) }
    {
        let synced = self.shadow.synced().get(at).copied();
        match synced {
            Some(byte) if !self.shadow.is_touched(at) => byte,
            synced => pick.byte(number, at as u64, synced, self.file().get(at).copied()),
        }
    }

    fn file(&self) -> &[u8]
        ensures { result.now ≡ held self.now }
    {
        &self.room[..self.len]
    }
}
