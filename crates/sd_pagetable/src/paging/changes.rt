//! Changes of pages: runs and spaces, single pages, copies on write.
ghost use Rattle.std.specs.Prelude.{◌≡◌, ◌+◌, ◌<◌, ◌≤◌, ◌^◌, ℕ, true, false, None, length, IsSome, OnOk, OnErr, IfOk};
ghost use Rattle.std.specs.Prelude.{IfSome};
ghost use Rattle.std.specs.FinMap as finmap;
ghost use Rattle.sd_pagetable.specs.Nested.{inside, is_alive};
ghost use Rattle.sd_pagetable.specs.Page.{PageState, fresh_page, shared_page, inherited_page, stored_page};
ghost use Rattle.sd_pagetable.specs.Page.{changed_page};
ghost use Rattle.sd_pagetable.specs.Contents.{page_at, put_page, remove_page, is_full, page_count};
ghost use Rattle.sd_pagetable.specs.Access.{stored_at};
ghost use Rattle.std.specs.Prelude.{Err};
ghost use Rattle.sd_pagetable.specs.declared.memory_error.MemoryError.TheVariants.{OutOfMemory};
ghost use Rattle.sd_pagetable.specs.RefusalOrder.{Answers, frame_refusal, needs_frame};
ghost use Rattle.std.specs.Prelude.{◌-◌};
ghost use Rattle.std.specs.Option.{option_map};
ghost use Rattle.sd_pagetable.specs.Ranges.{bare_page};
ghost use Rattle.sd_pagetable.specs.Nested.{change_within, fill_within, map_values};
ghost use Rattle.sd_pagetable.specs.Tracking.{MakesWritable, with_space};
ghost use Rattle.sd_pagetable.specs.View.{HasEntry};
ghost use Rattle.sd_areas.specs.Memory.{page_of_snapshot};
ghost use Rattle.sd_pagetable.specs.Loaded.{is_zero_page, Loads, GivesFrame};

use super::{Paging, own_frame, protect_entry, put_inherited, release, release_all, share};
use crate::loading::is_zero;
use crate::memory_error::MemoryError;
use sd_areas::{PAGE_SIZE, PageNo, Prot, SnapshotPage, SpaceId};
use sd_tables::{Entry, RunChange};
use std::alloc::AllocError;

impl Paging {
    /// Maps the pages of a space from one on, up to an end or one that is mapped. It returns the page
    /// that it came to.
    ///
    /// # Errors
    ///
    /// Out of memory where the table can't grow: nothing changes.
    pub(crate) fn fill_run(
        &mut self,
        space: SpaceId,
        first: PageNo,
        end: u64,
        prot: Prot,
    ) -> Result<u64, AllocError>
        requires alive { is_alive self.old.spaces space ≡ true }
        requires some { first < end }
        requires within { end ≤ 2 ^ 35 }
        requires few { page_count self.old.spaces + (end - first) ≤ 65536 }
        ensures more { IfOk result (λ to. page_at self.old space first ≡ None → first < to) }
        ensures end { IfOk result (λ to. to ≤ end) }
        ensures value { IfOk result (λ to. self.new
            ≡ with_space self.old space
            (fill_within (inside self.old.spaces space) first (to - first) (fresh_page prot))) }
        ensures err { OnErr result (self.new ≡ self.old) }
    {
        let from = first.number();
        let reached = self.tables.fill_run(space, first, end, Entry::fresh(prot))?;
        self.mapped += reached - from;
        Ok(reached)
    }

    /// Changes the pages of a space from one on, up to an end or one that isn't mapped or would give
    /// up its frame. It returns the page that it came to.
    pub(crate) fn change_run(
        &mut self,
        space: SpaceId,
        first: PageNo,
        end: u64,
        change: RunChange,
    ) -> u64
        requires alive { is_alive self.old.spaces space ≡ true }
        requires ordered { first ≤ end }
        requires within { end ≤ 2 ^ 35 }
        ensures reached { first ≤ result }
        ensures end { result ≤ end }
        ensures mapped { (page : ℕ) → first ≤ page → page < result
            → IsSome (page_at self.old space page) }
        ensures value { self.new
            ≡ with_space self.old space
            (change_within (changed_page change) (inside self.old.spaces space) first
            (result - first)) }
    {
        self.tables.change_run(space, first, end, change)
    }

    /// Adds a space without pages.
    ///
    /// # Errors
    ///
    /// Out of memory where there is no room for it: nothing changes.
    pub(crate) fn add_space(&mut self, space: SpaceId) -> Result<(), AllocError>
        requires fresh { is_alive self.old.spaces space ≡ false }
        requires least { 1 ≤ space }
        requires greatest { space ≤ 16 }
        ensures ok { OnOk result
            (self.new ≡ record { pool = self.old.pool; spaces = finmap.insert self.old.spaces space finmap.empty }) }
        ensures err { OnErr result (self.new ≡ self.old) }
    {
        self.tables.add_space(space)
    }

    /// Adds a child with the pages of a space, each without a frame.
    ///
    /// # Errors
    ///
    /// Out of memory where a table can't be allocated: nothing changes.
    pub(crate) fn add_copy(&mut self, space: SpaceId, child: SpaceId) -> Result<(), AllocError>
        requires fresh { is_alive self.old.spaces child ≡ false }
        requires least { 1 ≤ child }
        requires greatest { child ≤ 16 }
        requires few { page_count self.old.spaces + finmap.len
            (inside self.old.spaces space) ≤ 65536 }
        ensures ok { OnOk result
            (self.new ≡ with_space self.old child
            (map_values bare_page (inside self.old.spaces space))) }
        ensures err { OnErr result (self.new ≡ self.old) }
    {
        self.tables.add_copy(space, child)?;
        self.mapped += self.tables.pages_in(child) as u64;
        Ok(())
    }

    /// Ends a space with all its pages.
    pub(crate) fn end_space(&mut self, space: SpaceId)
        requires { is_alive self.old.spaces space ≡ true }
        ensures { self.new
            ≡ record { pool = self.old.pool; spaces = finmap.remove self.old.spaces space } }
    {
        release_all(&mut self.frames, &self.tables, space);
        self.mapped -= self.tables.pages_in(space) as u64;
        self.tables.remove_space(space);
    }

    /// Maps a page that isn't mapped.
    ///
    /// # Errors
    ///
    /// Out of memory where the table can't grow: nothing changes.
    pub(crate) fn add(&mut self, space: SpaceId, page: PageNo, prot: Prot) -> Result<(), AllocError>
        requires alive { is_alive self.old.spaces space ≡ true }
        requires hole { page_at self.old space page ≡ None }
        requires few { page_count self.old.spaces < 65536 }
        ensures ok { OnOk result (self.new ≡ put_page self.old space page (fresh_page prot)) }
        ensures err { OnErr result (self.new ≡ self.old) }
    {
        let _number = page.number();
        self.tables.insert(space, page, Entry::fresh(prot))?;
        self.mapped += 1;
        Ok(())
    }

    /// Maps a page of a snapshot that isn't mapped: without a frame where it is all zeros, else
    /// alone in one, with a copy of its bytes.
    ///
    /// # Errors
    ///
    /// Out of memory where the table or the list of frames can't grow.
    pub(crate) fn load(
        &mut self,
        space: SpaceId,
        page: PageNo,
        found: &SnapshotPage,
    ) -> Result<(), AllocError>
        requires alive { is_alive self.old.spaces space ≡ true }
        requires hole { page_at self.old space page ≡ None }
        requires few { page_count self.old.spaces < 65536 }
        requires room { is_zero_page found.now.bytes.value ≡ false → is_full self.old ≡ false }
        ensures { OnOk result (Loads self.old space page (page_of_snapshot found.now) self.new) }
    {
        self.add(space, page, found.prot)?;
        if is_zero(&found.bytes) {
            return Ok(());
        }
        self.put_bytes(space, page, &found.bytes)
    }

    /// Gives a page without a frame one of its own, with a copy of these bytes.
    ///
    /// # Errors
    ///
    /// Out of memory where the copy can't be allocated or the list of frames can't grow: nothing changes.
    pub(super) fn put_bytes(
        &mut self,
        space: SpaceId,
        page: PageNo,
        bytes: &[u8; PAGE_SIZE],
    ) -> Result<(), AllocError>
        requires there { IsSome (page_at self.old space page) }
        requires fresh { IfSome (page_at self.old space page)
            (λ (before : PageState). (before.class ≡ None) × (before.writable ≡ false)) }
        requires room { is_full self.old ≡ false }
        ensures { OnOk result
            (IfSome (page_at self.old space page)
            (λ (before : PageState). GivesFrame self.old space page before bytes.now self.new)) }
    {
        let Some(entry) = self.tables.get(space, page) else {
            return Ok(());
        };
        let copy = self.frames.copy_of_page(bytes)?;
        let frame = self.frames.place(copy)?;
        self.tables.replace(space, page, entry.with_frame(frame));
        Ok(())
    }

    /// Unmaps a page.
    pub(crate) fn remove(&mut self, space: SpaceId, page: PageNo)
        requires { IsSome (page_at self.old space page) }
        ensures { self.new ≡ remove_page self.old space page }
    {
        let Some(entry) = self.tables.take(space, page) else {
            return;
        };
        release(&mut self.frames, entry.frame);
        self.mapped -= 1;
    }

    /// Replaces a mapped page by a fresh one.
    pub(crate) fn renew(&mut self, space: SpaceId, page: PageNo, prot: Prot)
        requires { IsSome (page_at self.old space page) }
        ensures { self.new ≡ put_page self.old space page (fresh_page prot) }
    {
        let Some(entry) = self.tables.get(space, page) else {
            return;
        };
        self.tables.replace(space, page, Entry::fresh(prot));
        release(&mut self.frames, entry.frame);
    }

    /// Sets the permissions and the soft-dirty bit of a page with this entry, and write-protects it.
    pub(crate) fn write_protect(
        &mut self,
        space: SpaceId,
        page: PageNo,
        entry: Entry,
        prot: Prot,
        soft_dirty: bool,
    )
        requires { HasEntry self.old space page entry }
        ensures { IfSome (page_at self.old space page) (λ (before : PageState).
            self.new ≡ put_page self.old space page
            (record before { prot = prot; writable = false; soft_dirty = soft_dirty })) }
    {
        let frame = entry.frame;
        let protected = Entry {
            prot,
            frame,
            writable: false,
            soft_dirty,
        };
        self.tables.replace(space, page, protected);
    }

    /// Makes a child's page, a copy without a frame, share the frame of the parent's, which has this
    /// entry, and write-protects both.
    pub(crate) fn inherit(&mut self, parent: SpaceId, child: SpaceId, page: PageNo, entry: Entry)
        requires apart { parent ≡ child → ⊥ }
        requires there { HasEntry self.old parent page entry }
        requires copied { page_at self.old child page
            ≡ option_map bare_page (page_at self.old parent page) }
        ensures { IfSome (page_at self.old parent page) (λ (before : PageState).
            self.new ≡ put_page (put_page self.old parent page (shared_page before)) child page
            (inherited_page before)) }
    {
        protect_entry(&mut self.tables, parent, page, entry);
        let inherited = entry.write_protected(true);
        put_inherited(&mut self.tables, child, page, inherited);
        share(&mut self.frames, entry.frame);
    }

    /// Makes a page with this entry writable and soft-dirty, and returns its entry then. It gets a frame of its own: a
    /// copy where its frame was shared. A page that is writable stays as it is.
    ///
    /// # Errors
    ///
    /// No-frame where a frame is needed and every frame of the pool is used, and out of memory
    /// where the frame's bytes can't be allocated. An error changes nothing.
    pub(crate) fn make_writable(
        &mut self,
        space: SpaceId,
        page: PageNo,
        entry: Entry,
    ) -> Result<Entry, MemoryError>
        requires there { HasEntry self.old space page entry }
        requires permitted { IfSome (page_at self.old space page)
            (λ (before : PageState). before.prot.write ≡ true) }
        ensures writable { OnOk result
            (MakesWritable self.old space page (λ bytes. bytes) self.new) }
        ensures entry { IfOk result (λ made. HasEntry self.new space page made) }
        ensures stores { IfOk result (λ made. made.writable ≡ true) }
        ensures due { Answers (frame_refusal self.old (page_at self.old space page)) result }
        ensures needed { result ≡ Err OutOfMemory
            → needs_frame self.old (page_at self.old space page) ≡ true }
        ensures tested { result ≡ Err OutOfMemory
            → frame_refusal self.old (page_at self.old space page) ≡ None }
        ensures err { OnErr result (self.new ≡ self.old) }
    {
        let _mapped = self.mapped;
        if entry.writable {
            return Ok(entry);
        }
        let frame = own_frame(&mut self.frames, entry.frame)?;
        let made = entry.made_writable(frame);
        self.tables.replace(space, page, made);
        Ok(made)
    }

    /// Writes bytes into a page with this entry, a writable one, from an offset on.
    pub(crate) fn write(
        &mut self,
        space: SpaceId,
        page: PageNo,
        entry: Entry,
        offset: usize,
        bytes: &[u8],
    )
        requires there { HasEntry self.old space page entry }
        requires writable { entry.writable ≡ true }
        requires within { offset + length bytes.now ≤ 4096 }
        ensures { IfSome (page_at self.old space page) (λ (before : PageState).
            self.new ≡ put_page self.old space page
            (stored_page before (stored_at before.bytes offset bytes.now))) }
    {
        let _mapped = self.mapped;
        let Some(frame) = entry.frame else {
            return;
        };
        self.frames.write(frame, offset, bytes);
    }
}
