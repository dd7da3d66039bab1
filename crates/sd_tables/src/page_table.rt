ghost use Rattle.std.specs.Prelude.{◌≡◌, ◌<◌, ◌≤◌, ◌^◌, ℕ, Bool, true, false, Some, None, IsSome, OnOk, OnErr, IfOk};
ghost use Rattle.std.specs.FinMap as finmap;
ghost use Rattle.std.specs.Prelude.{IfSome};
ghost use Rattle.std.specs.Option.{option_map};
ghost use Rattle.sd_tables.specs.Copies.{bare_entry};
ghost use Rattle.sd_tables.specs.Firsts.{first_allowed, IsFirstFrom};
ghost use Rattle.sd_tables.specs.Runs.{AreMapped, ChangesRun, FillsRun};

use crate::entry::Entry;
use crate::leaf::Leaf;
use crate::level::Level;
use crate::node::Node;
use crate::run_change::RunChange;
use crate::slot::{
    bare_copy_in, change_in, fill_in, get_in, insert_in, mapped_in, next_in, remove_in, replace_in,
};
use sd_areas::PageNo;
use std::alloc::{AllocError, Global};
use std::marker::Model;
use std::ops::Bound;

/// Bits 9 to 17 of a page's number choose the place in a lower table, bits 18 to 26 in an upper one,
/// and bits 27 to 35 in the top.
type Lower = Level<Leaf>;

type Upper = Level<Lower>;

type Top = Level<Upper>;

/// The page table of a space, a tree of four levels: the entry of each mapped page. Without pages it
/// has no table.
#[derive(Drop)]
pub(crate) struct PageTable {
    alloc: Global,
    top: Option<Box<Top>>,
    mapped: usize,
}

impl Model for PageTable {
    ghost use Rattle.std.specs.Prelude.{◌≡◌, ℕ, ◌^◌};
    ghost use Rattle.std.specs.FinMap as finmap;
    ghost use Rattle.std.specs.Coded.{coded_ℕ};
    ghost use Rattle.sd_tables.specs.Tables.{Table};
    ghost use Rattle.sd_tables.specs.Entries.{entry_code};
    ghost use Rattle.sd_tables.specs.Radix.{table_of, slot_at, IsSlot};
    ghost use Rattle.sd_tables.specs.declared.entry.Entry.{Entry};

    ghost Value = { Table Entry };

    ghost coded = { finmap.code coded_ℕ entry_code };

    ghost view = { λ t. table_of (2 ^ 35) (slot_at (λ top. ⟦<Top as Node>⟧.at top.value) t.top) };

    ghost invariant = { λ t. IsSlot (λ top. ⟦<Top as Node>⟧.at top.value) (λ top. ⟦<Top as Node>⟧.IsKept top.value)
        (2 ^ 36) t.top
        × (t.mapped ≡ finmap.len (table_of (2 ^ 35) (slot_at (λ top. ⟦<Top as Node>⟧.at top.value) t.top))) };
}

impl PageTable {
    /// A table without pages.
    pub(crate) fn new(alloc: Global) -> Self
        ensures { result ≡ finmap.empty }
    {
        PageTable {
            alloc,
            top: None,
            mapped: 0,
        }
    }

    /// The entry of a page, if it is mapped.
    #[inline(always)]
    pub(crate) fn get(&self, page: PageNo) -> Option<Entry>
        ensures { result ≡ finmap.get self.now page }
    {
        get_in(&self.top, page.number())
    }

    /// How many pages are mapped.
    pub(crate) fn len(&self) -> usize
        ensures { result ≡ finmap.len self.now }
    {
        self.mapped
    }

    /// Puts the entry of a page.
    ///
    /// # Errors
    ///
    /// Out of memory where the table can't grow: nothing changes.
    pub(crate) fn insert(&mut self, page: PageNo, entry: Entry) -> Result<(), AllocError>
        ensures ok { OnOk result (self.new ≡ finmap.insert self.old page entry) }
        ensures err { OnErr result (self.new ≡ self.old) }
    {
        let before = insert_in(&mut self.top, self.alloc, page.number(), entry)?;
        if before.is_none() {
            self.mapped += 1;
        }
        Ok(())
    }

    /// Replaces the entry of a mapped page. It takes no memory.
    pub(crate) fn replace(&mut self, page: PageNo, entry: Entry)
        requires { IsSome (finmap.get self.old page) }
        ensures { self.new ≡ finmap.insert self.old page entry }
    {
        replace_in(&mut self.top, page.number(), entry);
    }

    /// Takes the entry of a page out, and returns it, if the page is mapped.
    pub(crate) fn take(&mut self, page: PageNo) -> Option<Entry>
        ensures entry { result ≡ finmap.get self.old page }
        ensures taken { self.new ≡ finmap.remove self.old page }
    {
        let before = remove_in(&mut self.top, page.number());
        if before.is_some() {
            self.mapped -= 1;
        }
        before
    }

    /// The page up to which those from one on are mapped, at most an end.
    pub(crate) fn mapped_to(&self, first: PageNo, end: u64) -> u64
        requires ordered { first ≤ end }
        requires within { end ≤ 2 ^ 35 }
        ensures reached { first ≤ result }
        ensures end { result ≤ end }
        ensures mapped { AreMapped (finmap.get self.now) first result }
    {
        mapped_in(&self.top, first.number(), end)
    }

    /// Puts an entry at the pages from one on, up to an end or one that is mapped. It returns the page
    /// that it came to.
    ///
    /// # Errors
    ///
    /// Out of memory where the table can't grow: nothing changes.
    pub(crate) fn fill_run(
        &mut self,
        first: PageNo,
        end: u64,
        entry: Entry,
    ) -> Result<u64, AllocError>
        requires some { first < end }
        requires within { end ≤ 2 ^ 35 }
        ensures reached { IfOk result (λ to. first ≤ to) }
        ensures more { IfOk result (λ to. finmap.get self.old first ≡ None → first < to) }
        ensures end { IfOk result (λ to. to ≤ end) }
        ensures run { IfOk result
            (λ to. FillsRun entry (finmap.get self.old) (finmap.get self.new) first to) }
        ensures err { OnErr result (self.new ≡ self.old) }
    {
        let from = first.number();
        let reached = fill_in(&mut self.top, self.alloc, from, end, entry)?;
        self.mapped += (reached - from) as usize;
        Ok(reached)
    }

    /// Changes the pages from one on, up to an end or one that isn't mapped or would give up its
    /// frame. It returns the page that it came to.
    pub(crate) fn change_run(&mut self, first: PageNo, end: u64, change: RunChange) -> u64
        requires ordered { first ≤ end }
        requires within { end ≤ 2 ^ 35 }
        ensures reached { first ≤ result }
        ensures end { result ≤ end }
        ensures run { ChangesRun change (finmap.get self.old) (finmap.get self.new) first result }
    {
        change_in(&mut self.top, first.number(), end, change)
    }

    /// A table with the same pages, each as one just mapped with its permissions.
    ///
    /// # Errors
    ///
    /// Out of memory: nothing is left.
    pub(crate) fn bare_copy(&self) -> Result<Self, AllocError>
        ensures { IfOk result (λ copy. (page : ℕ)
            → finmap.get copy page ≡ option_map bare_entry (finmap.get self.now page)) }
    {
        let top = bare_copy_in(&self.top, self.alloc)?;
        Ok(PageTable {
            alloc: self.alloc,
            top,
            mapped: self.mapped,
        })
    }

    /// The first mapped page from a bound on, with its entry.
    pub(crate) fn first_entry_from(&self, start: Bound<PageNo>) -> Option<(PageNo, Entry)>
        ensures first { IsFirstFrom self.now start (option_map (λ found. found.0) result) }
        ensures entry { IfSome result (λ found. finmap.get self.now found.0 ≡ Some found.1) }
    {
        let (number, entry) = next_in(&self.top, start_of(start))?;
        let page = PageNo::new(number)?;
        Some((page, entry))
    }
}

/// The number of the first page that a bound allows.
fn start_of(start: Bound<PageNo>) -> u64
    ensures value { result ≡ first_allowed start }
    ensures within { result ≤ 2 ^ 35 }
{
    match start {
        Bound::Included(page) => page.number(),
        Bound::Excluded(page) => page.number() + 1,
        Bound::Unbounded => 0,
    }
}
