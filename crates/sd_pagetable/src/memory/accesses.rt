//! Loads, stores and faults.
ghost use Rattle.std.specs.Prelude.{◌≡◌, ◌%◌, ◌+◌, ◌≤◌, true, None, Some, Ok, Err, length, slice_range, OnOk, OnErr};
ghost use Rattle.std.specs.Prelude.{IfOk, IfSome, IfErr};

use super::{Memory, Place, allows, is_bad_access};
use crate::access::Access;
use crate::access_error::AccessError;
use crate::memory_error::MemoryError;
use crate::memory_refusal::MemoryRefusal;
use crate::segv::Segv;
use crate::store_outcome::StoreOutcome;
use sd_areas::{PAGE_BYTES, PageNo, SpaceId};
use sd_tables::Entry;

impl Memory {
    ghost use Rattle.sd_areas.specs.Pages.{page_of};
    ghost use Rattle.sd_pagetable.specs.Nested.{value_at};
    ghost use Rattle.sd_pagetable.specs.Page.{PageState};
    ghost use Rattle.sd_pagetable.specs.Contents.{page_at, plain_of};
    ghost use Rattle.sd_pagetable.specs.Effects.{after_store};
    ghost use Rattle.sd_pagetable.specs.RefusalOrder.{answer, Answers, in_space, needs_frame, page_refusal};
    ghost use Rattle.sd_pagetable.specs.RefusalOrder.{access_refusal};
    ghost use Rattle.sd_pagetable.specs.RefusalOrder.{fault_refusal, store_refusal};
    ghost use Rattle.sd_pagetable.specs.RefusalOrder.{try_outcome};
    ghost use Rattle.sd_pagetable.specs.Tracking.{Step, Faulted, Tried as TriedEvent, Stored};
    ghost use Rattle.sd_pagetable.specs.View.{HasEntry};
    ghost use Rattle.sd_pagetable.specs.declared.memory_error.MemoryError.TheVariants.{OutOfMemory};
    ghost use Rattle.sd_pagetable.specs.declared.access.Access.TheVariants.{Read};
    ghost use Rattle.sd_pagetable.specs.declared.store_outcome.StoreOutcome.TheVariants.{Done, NeedsFault};

    /// Where an access is, if it may be made.
    #[inline(always)]
    pub(super) fn place(
        &self,
        space: SpaceId,
        address: u64,
        bytes: usize,
        need: Access,
    ) -> Result<Place, AccessError>
        ensures page { IfOk result (λ place. place.page ≡ page_of address) }
        ensures offset { IfOk result (λ place. place.offset ≡ address % 4096) }
        ensures within { IfOk result (λ place. place.offset + bytes ≤ 4096) }
        ensures entry { IfOk result (λ place. HasEntry self.now space place.page place.entry) }
        ensures permitted { OnOk result
            (page_refusal need (value_at (plain_of self.now) space (page_of address)) ≡ None) }
        ensures ok { OnOk result (access_refusal (plain_of self.now) space address bytes need ≡ None) }
        ensures refused { IfErr result
            (λ denied. access_refusal (plain_of self.now) space address bytes need ≡ Some denied) }
    {
        let offset = (address % PAGE_BYTES) as usize;
        if is_bad_access(offset, bytes) {
            return Err(self.refused_in(space, AccessError::Refused(MemoryRefusal::Einval)));
        }
        match self.permitted(space, address, need) {
            Ok((page, entry)) => Ok(Place {
                page,
                offset,
                entry,
            }),
            Err(denied) => Err(self.refused_in(space, denied)),
        }
    }

    /// Why an access is refused, if not for the space: that it isn't alive comes first.
    #[cold]
    fn refused_in(&self, space: SpaceId, denied: AccessError) -> AccessError
        ensures { in_space self.now.spaces space (Some denied) ≡ Some result }
    {
        if self.paging.is_alive(space) {
            denied
        } else {
            AccessError::Refused(MemoryRefusal::NoSuchSpace)
        }
    }

    /// The page of an address and its entry, if it is mapped with the permission that the access needs.
    pub(super) fn permitted(
        &self,
        space: SpaceId,
        address: u64,
        need: Access,
    ) -> Result<(PageNo, Entry), AccessError>
        ensures page { IfOk result (λ found. found.0 ≡ page_of address) }
        ensures entry { IfOk result (λ found. HasEntry self.now space found.0 found.1) }
        ensures ok { OnOk result
            (page_refusal need (value_at (plain_of self.now) space (page_of address)) ≡ None) }
        ensures refused { IfErr result
            (λ denied. page_refusal need (value_at (plain_of self.now) space (page_of address))
            ≡ Some denied) }
    {
        let Some(found) = self.paging.find(space, address) else {
            return Err(AccessError::Segv(Segv::Maperr));
        };
        if allows(need, found.1.prot) {
            Ok(found)
        } else {
            Err(AccessError::Segv(Segv::Accerr))
        }
    }

    /// Reads 1 to 64 bytes from an address on, within one page, into the buffer. A load changes
    /// no entry and takes no memory.
    ///
    /// # Errors
    ///
    /// In this order: no-such-space; EINVAL for 0 bytes, over 64, or across a page's end; maperr
    /// where the page isn't mapped; accerr where it can't be read. An error leaves the buffer.
    pub fn load(&self, space: SpaceId, address: u64, buffer: &mut [u8]) -> Result<(), AccessError>
        ensures due { result
            ≡ answer (access_refusal (plain_of self.now) space address (length buffer.old) Read) tt }
        ensures bytes { OnOk result
            (IfSome (page_at self.now space (page_of address)) (λ (page : PageState).
            buffer.new ≡ slice_range page.bytes (address % 4096)
            (address % 4096 + length buffer.old))) }
        ensures err { OnErr result (buffer.new ≡ buffer.old) }
    {
        let place = self.place(space, address, buffer.len(), Access::Read)?;
        let bytes = self.paging.bytes_of(space, place.page, place.entry);
        buffer.copy_from_slice(&bytes[place.offset..place.offset + buffer.len()]);
        Ok(())
    }

    /// Stores 1 to 64 bytes from an address on, within one page, where the page is writable.
    /// It takes no memory.
    ///
    /// # Errors
    ///
    /// As of `load`, where the permission is to write. An error changes nothing.
    pub fn try_store(
        &mut self,
        space: SpaceId,
        address: u64,
        bytes: &[u8],
    ) -> Result<StoreOutcome, AccessError>
        ensures due { result ≡ try_outcome self.old space address (length bytes.now) }
        ensures step { result ≡ Ok Done
            → Step self.old
            (TriedEvent space (page_of address) (address % 4096) bytes.now) self.new }
        ensures memory { result ≡ Ok Done
            → plain_of self.new ≡ after_store (plain_of self.old) space address bytes.now }
        ensures needs_fault { result ≡ Ok NeedsFault → self.new ≡ self.old }
        ensures err { OnErr result (self.new ≡ self.old) }
    {
        let place = self.place(space, address, bytes.len(), Access::Write)?;
        if !place.entry.writable {
            return Ok(StoreOutcome::NeedsFault);
        }
        self.paging
            .write(space, place.page, place.entry, place.offset, bytes);
        Ok(StoreOutcome::Done)
    }

    /// Takes a fault at an address: the page gets a frame of its own (a copy where it was shared),
    /// and becomes writable and soft-dirty. On a writable page it changes nothing.
    ///
    /// # Errors
    ///
    /// In this order: no-such-space; maperr where the page isn't mapped; accerr where it can't be
    /// written; no-frame where a frame is needed and every frame of the pool is used. Out of memory
    /// where a needed frame can't be allocated: only a page that isn't alone in a frame needs one.
    /// An error changes nothing.
    pub fn fault(&mut self, space: SpaceId, address: u64) -> Result<(), MemoryError>
        ensures due { Answers (fault_refusal self.old space address) result }
        ensures needed { result ≡ Err OutOfMemory
            → needs_frame self.old (page_at self.old space (page_of address)) ≡ true }
        ensures tested { result ≡ Err OutOfMemory → fault_refusal self.old space address ≡ None }
        ensures step { OnOk result (Step self.old (Faulted space (page_of address)) self.new) }
        ensures memory { plain_of self.new ≡ plain_of self.old }
        ensures err { OnErr result (self.new ≡ self.old) }
    {
        if !self.paging.is_alive(space) {
            return Err(MemoryRefusal::NoSuchSpace.into());
        }
        let (page, entry) = self.permitted(space, address, Access::Write)?;
        self.paging.make_writable(space, page, entry)?;
        Ok(())
    }

    /// Stores 1 to 64 bytes from an address on, within one page, with a fault where one is needed.
    ///
    /// # Errors
    ///
    /// As of `try_store`, and then as of `fault`. An error changes nothing.
    pub fn store_now(
        &mut self,
        space: SpaceId,
        address: u64,
        bytes: &[u8],
    ) -> Result<(), MemoryError>
        ensures due { Answers (store_refusal self.old space address (length bytes.now)) result }
        ensures needed { result ≡ Err OutOfMemory
            → needs_frame self.old (page_at self.old space (page_of address)) ≡ true }
        ensures tested { result ≡ Err OutOfMemory
            → store_refusal self.old space address (length bytes.now) ≡ None }
        ensures step { OnOk result
            (Step self.old (Stored space (page_of address) (address % 4096) bytes.now) self.new) }
        ensures memory { OnOk result
            (plain_of self.new ≡ after_store (plain_of self.old) space address bytes.now) }
        ensures err { OnErr result (self.new ≡ self.old) }
    {
        let place = self.place(space, address, bytes.len(), Access::Write)?;
        let entry = self.paging.make_writable(space, place.page, place.entry)?;
        self.paging
            .write(space, place.page, entry, place.offset, bytes);
        Ok(())
    }
}
