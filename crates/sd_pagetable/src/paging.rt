//! The pages of all spaces over the frames, one page at a time.
ghost use Rattle.std.specs.Prelude.{◌≡◌, ◌<◌, ◌≤◌, ◌^◌, if◌then◌else◌, ℕ, true, false, None, Some, length, IsSome};
ghost use Rattle.std.specs.Prelude.{OnOk, OnErr, IfOk, IfSome, IfNone};
ghost use Rattle.sd_areas.specs.Pages.{page_of};
ghost use Rattle.std.specs.Option.{option_map};
ghost use Rattle.std.specs.FinMap as finmap;
ghost use Rattle.sd_pagetable.specs.Nested.{inside, is_alive, put_at, value_at};
ghost use Rattle.sd_pagetable.specs.Page.{PageState};
ghost use Rattle.sd_pagetable.specs.Contents.{page_at, page_count, word_at, AreWhole, IsSound};
ghost use Rattle.sd_tables.specs.Firsts.{IsFirstFrom};
ghost use Rattle.std.specs.Prelude.{◌⊎◌, IfErr};
ghost use Rattle.std.specs.Option.{ForSome};
ghost use Rattle.sd_frames.specs.Frames.{count_at, HasFree};
ghost use Rattle.sd_pagetable.specs.Owning.{ReleasesFrame, SharesFrame, is_own, TakesFrame, OwnsFrame, FailsToTake};
ghost use Rattle.sd_pagetable.specs.Sectors.{framed_bytes};
ghost use Rattle.sd_pagetable.specs.View.{entry_of, contents_of, HasEntry, IsKept};
ghost use Rattle.sd_pagetable.specs.Tracking.{with_space};

use crate::memory_error::MemoryError;
use crate::memory_refusal::MemoryRefusal;
use sd_areas::{PAGE_BYTES, PageNo, SpaceId};
use sd_frames::Frames;
use sd_tables::{Entry, Tables};
use std::alloc::Global;
use std::marker::Model;
use std::ops::Bound;

mod changes;

/// Bit 63 of a word: the page has a frame.
const PRESENT: u64 = 1 << 63;

/// Bit 56 of a word: no other page has its frame.
const EXCLUSIVE: u64 = 1 << 56;

/// Bit 55 of a word: the page was touched since its clear.
const SOFT_DIRTY: u64 = 1 << 55;

/// The pages of all spaces: their entries, over the frames.
#[derive(Drop)]
pub(crate) struct Paging {
    frames: Frames,
    tables: Tables,
    mapped: u64,
}

impl Model for Paging {
    ghost use Rattle.sd_pagetable.specs.Contents.{Contents, contents_code};
    ghost use Rattle.sd_pagetable.specs.View.{contents_of, IsKept};

    ghost Value = { Contents };

    ghost coded = { contents_code };

    ghost view = { λ m. contents_of m.frames m.tables };

    ghost invariant = { λ m. IsKept m.frames m.tables m.mapped };
}

impl Paging {
    /// No space, over a pool of so many frames.
    pub(crate) fn new(alloc: Global, pool: u32) -> Self
        ensures { result ≡ record { pool = pool; spaces = finmap.empty } }
    {
        Paging {
            frames: Frames::new(alloc, pool),
            tables: Tables::new(alloc),
            mapped: 0,
        }
    }

    /// Whether a space is alive.
    pub(crate) fn is_alive(&self, space: SpaceId) -> bool
        ensures { result ≡ is_alive self.now.spaces space }
    {
        self.tables.is_alive(space)
    }

    /// How many spaces are alive.
    pub(crate) fn space_count(&self) -> usize
        ensures { result ≡ finmap.len self.now.spaces }
    {
        self.tables.len()
    }

    /// How many pages are mapped in all spaces.
    pub(crate) fn mapped(&self) -> u64
        ensures value { result ≡ page_count self.now.spaces }
        ensures few { result ≤ 65536 }
        ensures sound { IsSound self.now }
    {
        self.mapped
    }

    /// How many pages a space has.
    pub(crate) fn pages_in(&self, space: SpaceId) -> usize
        ensures { result ≡ finmap.len (inside self.now.spaces space) }
    {
        self.tables.pages_in(space)
    }

    /// The entry of a page, if it is mapped.
    #[inline(always)]
    pub(crate) fn entry(&self, space: SpaceId, page: PageNo) -> Option<Entry>
        ensures value { result ≡ option_map entry_of (page_at self.now space page) }
        ensures sound { IsSound self.now }
    {
        self.tables.get(space, page)
    }

    /// The page of an address and its entry, if it is mapped.
    #[inline(always)]
    pub(crate) fn find(&self, space: SpaceId, address: u64) -> Option<(PageNo, Entry)>
        ensures found { IfSome result (λ found. (found.0 ≡ page_of address)
            × (option_map entry_of (page_at self.now space (page_of address)) ≡ Some found.1)) }
        ensures none { IfNone result (page_at self.now space (page_of address) ≡ None) }
    {
        let tables = &self.tables;
        let Some(page) = PageNo::new(address / PAGE_BYTES) else {
            return None;
        };
        let Some(entry) = tables.get(space, page) else {
            return None;
        };
        Some((page, entry))
    }

    /// The bytes of a page, if it is mapped. A page without a frame reads as zeros.
    pub(crate) fn bytes(&self, space: SpaceId, page: PageNo) -> Option<&[u8]>
        ensures value { option_map (λ bytes. bytes.now) result
            ≡ option_map (λ (page : PageState). page.bytes) (page_at self.now space page) }
        ensures length { IfSome result (λ bytes. length bytes.now ≡ 4096) }
    {
        let entry = self.tables.get(space, page)?;
        Some(self.frames.bytes_of(entry.frame))
    }

    /// The bytes of a page's frame, if it is mapped: none inside where it has no frame, and reads as zeros.
    pub(crate) fn framed(&self, space: SpaceId, page: PageNo) -> Option<Option<&[u8]>>
        ensures value { option_map framed_bytes result
            ≡ option_map (λ (page : PageState). page.bytes) (page_at self.now space page) }
        ensures length { IfSome result (λ part. length (framed_bytes part) ≡ 4096) }
    {
        let entry = self.tables.get(space, page)?;
        let Some(frame) = entry.frame else {
            return Some(None);
        };
        Some(Some(self.frames.bytes(frame)))
    }

    /// The bytes of a page with this entry. Without a frame it reads as zeros.
    pub(crate) fn bytes_of(&self, space: SpaceId, page: PageNo, entry: Entry) -> &[u8]
        requires { HasEntry self.now space page entry }
        ensures value { IfSome (page_at self.now space page)
            (λ (found : PageState). result.now ≡ found.bytes) }
        ensures length { length result.now ≡ 4096 }
    {
        self.frames.bytes_of(entry.frame)
    }

    /// Each page has 4,096 bytes. It does nothing: a caller learns it.
    pub(crate) fn whole(&self)
        ensures { AreWhole self.now }
    {
        self.frames.whole();
    }

    /// The word of a page.
    pub(crate) fn word(&self, space: SpaceId, page: PageNo) -> u64
        ensures { result ≡ word_at self.now space page }
    {
        let Some(entry) = self.tables.get(space, page) else {
            return 0;
        };
        let soft_dirty = dirty_bit(entry);
        let Some(frame) = entry.frame else {
            return soft_dirty;
        };
        if self.frames.count(frame) == 1 {
            PRESENT + EXCLUSIVE + soft_dirty
        } else {
            PRESENT + soft_dirty
        }
    }

    /// The first page of a space from a bound on.
    pub(crate) fn first_from(&self, space: SpaceId, start: Bound<PageNo>) -> Option<PageNo>
        ensures { IsFirstFrom (inside self.now.spaces space) start result }
    {
        self.tables.first_from(space, start)
    }

    /// The first page of a space from a bound on, with its entry.
    pub(crate) fn first_entry_from(
        &self,
        space: SpaceId,
        start: Bound<PageNo>,
    ) -> Option<(PageNo, Entry)>
        ensures first { IsFirstFrom (inside self.now.spaces space) start
            (option_map (λ found. found.0) result) }
        ensures entry { IfSome result (λ found. HasEntry self.now space found.0 found.1) }
    {
        self.tables.first_entry_from(space, start)
    }

    /// The first page of a space.
    pub(crate) fn first_in(&self, space: SpaceId) -> Option<PageNo>
        ensures first { IsFirstFrom (inside self.now.spaces space) Bound.Unbounded result }
        ensures sound { IsSound self.now }
    {
        let _mapped = self.mapped;
        self.first_from(space, Bound::Unbounded)
    }

    /// The page up to which those of a space from one on are mapped, at most an end.
    pub(crate) fn mapped_to(&self, space: SpaceId, first: PageNo, end: u64) -> u64
        requires ordered { first ≤ end }
        requires within { end ≤ 2 ^ 35 }
        ensures reached { first ≤ result }
        ensures end { result ≤ end }
        ensures mapped { (page : ℕ) → first ≤ page → page < result
            → IsSome (page_at self.now space page) }
    {
        self.tables.mapped_to(space, first, end)
    }
}

/// Bit 55 of a word, where it is set.
fn dirty_bit(entry: Entry) -> u64
    ensures { result ≡ (if entry.soft_dirty then 2 ^ 55 else 0) }
{
    if entry.soft_dirty { SOFT_DIRTY } else { 0 }
}

/// Write-protects a page that has this entry. One that is write-protected already stays as it is.
fn protect_entry(tables: &mut Tables, space: SpaceId, page: PageNo, entry: Entry)
    requires { value_at tables.old space page ≡ Some entry }
    ensures { tables.new ≡ put_at tables.old space page
        (record { prot = entry.prot; frame = entry.frame; writable = false; soft_dirty = entry.soft_dirty }) }
{
    if entry.writable {
        tables.replace(space, page, entry.write_protected(entry.soft_dirty));
    }
}

/// Gives a child's page the entry that it inherits. One without a frame has it already, and stays as it is.
fn put_inherited(tables: &mut Tables, child: SpaceId, page: PageNo, entry: Entry)
    requires there { IsSome (value_at tables.old child page) }
    requires bare { entry.frame ≡ None → value_at tables.old child page ≡ Some entry }
    ensures { tables.new ≡ put_at tables.old child page entry }
{
    if entry.frame.is_some() {
        tables.replace(child, page, entry);
    }
}

/// Decrements the reference count of a frame, if there is one.
fn release(frames: &mut Frames, frame: Option<u32>)
    requires { ForSome frame (λ number. 0 < count_at frames.old number) }
    ensures { ReleasesFrame frames.old frames.new frame }
{
    let Some(number) = frame else {
        return;
    };
    frames.release(number);
}

/// Decrements the reference counts of the frames of a space's pages, whose tables are about to be let go.
fn release_all(frames: &mut Frames, tables: &Tables, space: SpaceId)
    requires alive { is_alive tables.now space ≡ true }
    requires kept { IsKept frames.old tables.now (page_count (contents_of frames.old tables.now).spaces) }
    ensures kept { IsKept frames.new (finmap.insert tables.now space finmap.empty)
        (page_count (contents_of frames.new (finmap.insert tables.now space finmap.empty)).spaces) }
    ensures value { contents_of frames.new (finmap.insert tables.now space finmap.empty)
        ≡ with_space (contents_of frames.old tables.now) space finmap.empty }
{
    let mut start = Bound::Unbounded;
    while let Some(found) = tables.first_entry_from(space, start) {
        release(frames, found.1.frame);
        start = Bound::Excluded(found.0);
    }
}

/// Increments the reference count of a frame, if there is one.
fn share(frames: &mut Frames, frame: Option<u32>)
    requires used { ForSome frame (λ number. 0 < count_at frames.old number) }
    requires few { ForSome frame (λ number. count_at frames.old number < 2 ^ 17) }
    ensures { SharesFrame frames.old frames.new frame }
{
    let Some(number) = frame else {
        return;
    };
    frames.share(number);
}

/// The frame that an entry has to itself: its own where no other has it, else a new one, with a
/// copy of what it had.
///
/// # Errors
///
/// No-frame where a new one is needed and every frame is used, and out of memory. Nothing changes.
fn own_frame(frames: &mut Frames, frame: Option<u32>) -> Result<u32, MemoryError>
    requires { ForSome frame (λ number. 0 < count_at frames.old number) }
    ensures owns { IfOk result (λ own. OwnsFrame frames.old frames.new frame own) }
    ensures shared { IfErr result (λ _. is_own frames.old frame ≡ false) }
    ensures refused { IfErr result (FailsToTake frames.old) }
    ensures room { IfOk result (λ _. (is_own frames.old frame ≡ true) ⊎ HasFree frames.old) }
    ensures err { OnErr result (frames.new ≡ frames.old) }
{
    let Some(shared) = frame else {
        return zero_frame(frames);
    };
    if frames.count(shared) == 1 {
        return Ok(shared);
    }
    copy_of(frames, shared)
}

/// A new frame of zeros.
fn zero_frame(frames: &mut Frames) -> Result<u32, MemoryError>
    ensures owns { IfOk result (λ own. TakesFrame frames.old frames.new None own) }
    ensures refused { IfErr result (FailsToTake frames.old) }
    ensures room { OnOk result (HasFree frames.old) }
    ensures err { OnErr result (frames.new ≡ frames.old) }
{
    if frames.is_exhausted() {
        return Err(MemoryRefusal::NoFrame.into());
    }
    Ok(frames.fresh()?)
}

/// A copy of a shared frame, which one entry less has then.
fn copy_of(frames: &mut Frames, shared: u32) -> Result<u32, MemoryError>
    requires some { 0 < count_at frames.old shared }
    requires more { count_at frames.old shared ≡ 1 → ⊥ }
    ensures owns { IfOk result (λ own. TakesFrame frames.old frames.new (Some shared) own) }
    ensures refused { IfErr result (FailsToTake frames.old) }
    ensures room { OnOk result (HasFree frames.old) }
    ensures err { OnErr result (frames.new ≡ frames.old) }
{
    if frames.is_exhausted() {
        return Err(MemoryRefusal::NoFrame.into());
    }
    let own = frames.copied(shared)?;
    frames.release(shared);
    Ok(own)
}
