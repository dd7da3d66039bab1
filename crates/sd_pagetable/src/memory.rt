ghost use Rattle.sd_pagetable.specs.Access.{allows, is_bad_access};
ghost use Rattle.std.specs.Prelude.{◌≡◌, ◌≢◌, ◌%◌, ◌<◌, ◌≤◌, ℕ, true, false, None, Err, OnOk, OnErr, IfOk};

use crate::access::Access;
use crate::access_error::AccessError;
use crate::limits::ACCESS_LIMIT;
use crate::memory_error::MemoryError;
use crate::paging::Paging;
use crate::{fork_calls, loading, range_calls};
use sd_areas::{AreaMap, PAGE_SIZE, PageNo, Prot, Snapshot, SpaceId};
use sd_tables::Entry;
use std::alloc::{AllocError, Global};
use std::collections::BTreeMap;
use std::marker::Model;

mod accesses;
mod pages;

/// Where an access begins, and the entry of its page.
#[derive(Clone, Copy)]
struct Place {
    page: PageNo,
    offset: usize,
    entry: Entry,
}

/// Address spaces of private anonymous memory, with the soft-dirty bits of their pages.
#[derive(Drop)]
pub struct Memory {
    paging: Paging,
    areas: BTreeMap<SpaceId, AreaMap>,
}

impl Model for Memory {
    ghost use Rattle.sd_pagetable.specs.Contents.{Contents, contents_code};
    ghost use Rattle.sd_pagetable.specs.Kept.{HasAreas};

    ghost Value = { Contents };

    ghost coded = { contents_code };

    ghost view = { λ m. m.paging };

    ghost invariant = { λ m. HasAreas m.areas m.paging };
}

impl Memory {
    ghost use Rattle.std.specs.FinMap as finmap;
    ghost use Rattle.std.specs.Option.{option_map};
    ghost use Rattle.sd_areas.specs.Pages.{page_of, pages_for};
    ghost use Rattle.sd_areas.specs.Calls.{has_hole, AllHave};
    ghost use Rattle.sd_areas.specs.Memory.{memory_of};
    ghost use Rattle.sd_pagetable.specs.Nested.{inside, is_alive};
    ghost use Rattle.sd_pagetable.specs.Contents.{page_count, plain_of, AreWhole, IsSound};
    ghost use Rattle.sd_pagetable.specs.Effects.{after_mmap, after_munmap, after_mprotect, after_fork, after_exit};
    ghost use Rattle.sd_pagetable.specs.Effects.{IsLeastFree};
    ghost use Rattle.sd_pagetable.specs.RefusalOrder.{answer, Answers, prots_in, mmap_refusal, munmap_refusal};
    ghost use Rattle.sd_pagetable.specs.RefusalOrder.{mprotect_refusal, fork_refusal};
    ghost use Rattle.sd_pagetable.specs.RefusalOrder.{exit_refusal};
    ghost use Rattle.sd_pagetable.specs.Tracking.{Step, IsBeginning, Mapped, Unmapped, Protected, Forked, Exited};
    ghost use Rattle.sd_pagetable.specs.RangeCalls.{IsRangeIn};
    ghost use Rattle.sd_pagetable.specs.Kept.{prots_of};
    ghost use Rattle.sd_pagetable.specs.Loaded.{nonzero_pages, snapshot_refusal, IsLoaded};
    ghost use Rattle.sd_pagetable.specs.declared.memory_error.MemoryError.TheVariants.{OutOfMemory};

    /// Space 1 alone, without pages, over a pool of so many frames, 1 to 65,536.
    ///
    /// # Errors
    ///
    /// Out of memory where there is no room for the space.
    pub fn new(alloc: Global, frames: usize) -> Result<Self, AllocError>
        requires least { 1 ≤ frames }
        requires greatest { frames ≤ 65536 }
        ensures empty { IfOk result
            (λ memory. memory
            ≡ record { pool = frames; spaces = finmap.insert finmap.empty 1 finmap.empty }) }
        ensures memory { IfOk result
            (λ memory. plain_of memory ≡ finmap.insert finmap.empty 1 finmap.empty) }
        ensures begins { IfOk result IsBeginning }
    {
        let space = SpaceId::new(1);
        let mut paging = Paging::new(alloc, frames as u32);
        paging.add_space(space)?;
        let mut areas = BTreeMap::new(alloc);
        areas.insert(space, AreaMap::new(alloc))?;
        Ok(Memory { paging, areas })
    }

    /// The spaces and pages of a snapshot, over a pool of so many frames, 1 to 65,536. Each page is
    /// soft-dirty, and none is writable. A page that isn't all zeros is alone in a frame with a copy
    /// of its bytes; a page of zeros has none. The snapshot stays as it is.
    ///
    /// # Errors
    ///
    /// In this order: no-frame where more pages than the pool has frames aren't all zeros; ENOMEM
    /// where a space has a number outside 1 to 16 or over 1,024 areas, or over 65,536 pages are
    /// mapped. Out of memory where a growth was refused, after the numbers of frames and pages.
    pub fn from_snapshot(
        alloc: Global,
        frames: usize,
        snapshot: &Snapshot,
    ) -> Result<Self, MemoryError>
        requires least { 1 ≤ frames }
        requires greatest { frames ≤ 65536 }
        ensures due { Answers (snapshot_refusal frames (memory_of snapshot.now)) result }
        ensures tested { result ≡ Err OutOfMemory
            → (nonzero_pages (memory_of snapshot.now) ≤ frames) × (page_count (memory_of snapshot.now) ≤ 65536) }
        ensures loaded { IfOk result (IsLoaded frames (memory_of snapshot.now)) }
    {
        let areas = loading::areas_of(alloc, frames, snapshot)?;
        let mut paging = Paging::new(alloc, frames as u32);
        loading::load(&mut paging, snapshot)?;
        Ok(Memory { paging, areas })
    }

    /// Maps the whole pages of a range with these permissions and zeros, whatever was mapped
    /// there, as `mmap` of POSIX.1-2017 does with MAP_FIXED, private and anonymous.
    /// The address and the length are in bytes; the last page is mapped whole.
    ///
    /// # Errors
    ///
    /// In this order: no-such-space; EINVAL for a length of 0 or an address that is no multiple of
    /// 4,096; ENOMEM for a range that ends past 2^47, and where there would be over 1,024 areas in
    /// the space or over 65,536 pages. Out of memory where a growth was refused, only after all of these but the
    /// number of areas, and only where a page of the range doesn't have these permissions yet. An error changes
    /// nothing.
    pub fn mmap(
        &mut self,
        space: SpaceId,
        address: u64,
        bytes: u64,
        prot: Prot,
    ) -> Result<(), MemoryError>
        ensures due { Answers (mmap_refusal (plain_of self.old) space address bytes prot) result }
        ensures tested { result ≡ Err OutOfMemory
            → IsRangeIn (is_alive self.old.spaces space ≡ true) address bytes }
        ensures fits { result ≡ Err OutOfMemory
            → page_count (after_mmap (plain_of self.old) space address bytes prot) ≤ 65536 }
        ensures changes { result ≡ Err OutOfMemory
            → AllHave (prots_in (inside (plain_of self.old) space)) (page_of address) (pages_for bytes) (Some prot)
            → ⊥ }
        ensures step { OnOk result
            (Step self.old (Mapped space (page_of address) (pages_for bytes) prot) self.new) }
        ensures memory { OnOk result
            (plain_of self.new ≡ after_mmap (plain_of self.old) space address bytes prot) }
        ensures err { OnErr result (self.new ≡ self.old) }
    {
        range_calls::mmap(
            &mut self.paging,
            &mut self.areas,
            space,
            address,
            bytes,
            prot,
        )
    }

    /// Unmaps each whole page that contains a part of a range, as `munmap` of POSIX.1-2017 does.
    /// Pages of it that aren't mapped have no effect. The address and the length are in bytes.
    ///
    /// # Errors
    ///
    /// In this order: no-such-space; EINVAL for a length of 0, an address that is no multiple of
    /// 4,096, or a range that ends past 2^47; ENOMEM where there would be over 1,024 areas in the
    /// space. Out of memory where a growth was refused, only after all of these but the number of areas, and only where
    /// a page of the range is mapped. An error changes nothing.
    pub fn munmap(&mut self, space: SpaceId, address: u64, bytes: u64) -> Result<(), MemoryError>
        ensures due { Answers (munmap_refusal (plain_of self.old) space address bytes) result }
        ensures tested { result ≡ Err OutOfMemory
            → IsRangeIn (is_alive self.old.spaces space ≡ true) address bytes }
        ensures some { result ≡ Err OutOfMemory
            → AllHave (prots_in (inside (plain_of self.old) space)) (page_of address) (pages_for bytes) None → ⊥ }
        ensures step { OnOk result
            (Step self.old (Unmapped space (page_of address) (pages_for bytes)) self.new) }
        ensures memory { OnOk result
            (plain_of self.new ≡ after_munmap (plain_of self.old) space address bytes) }
        ensures err { OnErr result (self.new ≡ self.old) }
    {
        range_calls::munmap(&mut self.paging, &mut self.areas, space, address, bytes)
    }

    /// Gives the whole pages of a range these permissions, as `mprotect` of POSIX.1-2017 does, and
    /// write-protects each. A length of 0 changes nothing.
    /// The address and the length are in bytes.
    ///
    /// # Errors
    ///
    /// In this order: no-such-space; EINVAL for an address that is no multiple of 4,096; ENOMEM for
    /// a range that ends past 2^47, where a page of it isn't mapped, and where there would be over
    /// 1,024 areas in the space. Out of memory where a growth was refused, only after all of these but the number of
    /// areas, and only where a page of the range doesn't have these permissions yet. An error changes nothing.
    pub fn mprotect(
        &mut self,
        space: SpaceId,
        address: u64,
        bytes: u64,
        prot: Prot,
    ) -> Result<(), MemoryError>
        ensures due { Answers (mprotect_refusal (plain_of self.old) space address bytes prot) result }
        ensures tested { result ≡ Err OutOfMemory
            → IsRangeIn (is_alive self.old.spaces space ≡ true) address bytes }
        ensures whole { result ≡ Err OutOfMemory
            → has_hole (prots_in (inside (plain_of self.old) space)) (page_of address) (pages_for bytes) ≡ false }
        ensures changes { result ≡ Err OutOfMemory
            → AllHave (prots_in (inside (plain_of self.old) space)) (page_of address) (pages_for bytes) (Some prot)
            → ⊥ }
        ensures step { OnOk result
            (Step self.old (Protected space (page_of address) (pages_for bytes) prot) self.new) }
        ensures memory { OnOk result
            (plain_of self.new ≡ after_mprotect (plain_of self.old) space address bytes prot) }
        ensures err { OnErr result (self.new ≡ self.old) }
    {
        range_calls::mprotect(
            &mut self.paging,
            &mut self.areas,
            space,
            address,
            bytes,
            prot,
        )
    }

    /// Makes a child with a copy of a space's memory, as `fork` of POSIX.1-2017 does. It takes the
    /// least number that isn't alive. The pages share their frames until one is stored to.
    ///
    /// # Errors
    ///
    /// In this order: no-such-space; too-many-spaces where 16 are alive; ENOMEM where there would
    /// be over 65,536 pages. Out of memory where a growth was refused. An error changes nothing.
    pub fn fork(&mut self, space: SpaceId) -> Result<SpaceId, MemoryError>
        ensures due { Answers (fork_refusal (plain_of self.old) space) result }
        ensures tested { result ≡ Err OutOfMemory → fork_refusal (plain_of self.old) space ≡ None }
        ensures child { IfOk result (λ child. IsLeastFree (plain_of self.old) child) }
        ensures step { IfOk result (λ child. Step self.old (Forked space child) self.new) }
        ensures memory { IfOk result
            (λ child. plain_of self.new ≡ after_fork (plain_of self.old) space child) }
        ensures err { OnErr result (self.new ≡ self.old) }
    {
        fork_calls::fork(&mut self.paging, &mut self.areas, space)
    }

    /// Ends a space. It needs no memory.
    ///
    /// # Errors
    ///
    /// In this order: no-such-space; last-space where it is the only one. An error changes nothing.
    pub fn exit(&mut self, space: SpaceId) -> Result<(), AccessError>
        ensures due { result ≡ answer (exit_refusal (plain_of self.old) space) tt }
        ensures step { OnOk result (Step self.old (Exited space) self.new) }
        ensures memory { OnOk result (plain_of self.new ≡ after_exit (plain_of self.old) space) }
        ensures err { OnErr result (self.new ≡ self.old) }
    {
        fork_calls::exit(&mut self.paging, &mut self.areas, space)
    }

    /// What holds of every memory, whatever was called on it: a page that can be stored to without
    /// a fault is soft-dirty, may be written, and is alone in its frame; each frame is one of the
    /// pool; the spaces are within 1 to 16, their pages below 2^35, and at most 65,536 in all.
    /// It does nothing: a caller learns it.
    pub fn sound(&self)
        ensures { IsSound self.now }
    {
        let _mapped = self.paging.mapped();
    }

    /// Each page of every memory has 4,096 bytes. It does nothing: a caller learns it.
    pub fn whole(&self)
        ensures { AreWhole self.now }
    {
        self.paging.whole();
    }

    /// The areas of a space, at most 1,024, or none where it isn't alive.
    pub fn areas(&self, space: SpaceId) -> Option<&AreaMap>
        ensures { option_map (λ areas. areas.now) result
            ≡ option_map prots_of (finmap.get self.now.spaces space) }
    {
        self.areas.get(&space)
    }
}

/// Whether an access from an offset of its page on has no bytes, over 64, or crosses the page's end.
fn is_bad_access(offset: usize, bytes: usize) -> bool
    requires { offset < 4096 }
    ensures { (address : ℕ) → offset ≡ address % 4096 → result ≡ is_bad_access address bytes }
{
    bytes == 0 || bytes > ACCESS_LIMIT || offset + bytes > PAGE_SIZE
}

/// Whether permissions allow an access.
fn allows(need: Access, prot: Prot) -> bool
    ensures { result ≡ allows need prot }
{
    match need {
        Access::Read => prot.read,
        Access::Write => prot.write,
    }
}
