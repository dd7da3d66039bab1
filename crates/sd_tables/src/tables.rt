ghost use Rattle.std.specs.Prelude.{◌≡◌, ◌<◌, ◌≤◌, ◌^◌, true, false, None, IsSome, OnOk, OnErr, IfOk};
ghost use Rattle.std.specs.Prelude.{ℕ, Some, IfSome};
ghost use Rattle.std.specs.Option.{option_map};
ghost use Rattle.std.specs.FinMap as finmap;
ghost use Rattle.sd_tables.specs.Copies.{bare_entry};
ghost use Rattle.sd_tables.specs.Tables.{inside, value_at, is_alive, put_at, remove_at};
ghost use Rattle.sd_tables.specs.Firsts.{IsFirstFrom};
ghost use Rattle.sd_tables.specs.Runs.{AreMapped, ChangesRun, FillsRun};

use crate::entry::Entry;
use crate::page_table::PageTable;
use crate::run_change::RunChange;
use sd_areas::{PageNo, SpaceId};
use std::alloc::{AllocError, Global};
use std::collections::BTreeMap;
use std::marker::Model;
use std::ops::Bound;

/// The page tables of the living spaces.
#[derive(Drop)]
pub struct Tables {
    alloc: Global,
    spaces: BTreeMap<SpaceId, PageTable>,
}

impl Model for Tables {
    ghost use Rattle.std.specs.FinMap as finmap;
    ghost use Rattle.std.specs.Coded.{coded_ℕ};
    ghost use Rattle.sd_tables.specs.Tables.{Nested};
    ghost use Rattle.sd_tables.specs.Entries.{entry_code};
    ghost use Rattle.sd_tables.specs.declared.entry.Entry.{Entry};

    ghost Value = { Nested Entry };

    ghost coded = { finmap.code coded_ℕ (finmap.code coded_ℕ entry_code) };

    ghost view = { λ t. finmap.from_entries t.spaces.entries };
}

impl Tables {
    /// No space.
    pub fn new(alloc: Global) -> Self
        ensures { result ≡ finmap.empty }
    {
        Tables {
            alloc,
            spaces: BTreeMap::new(alloc),
        }
    }

    /// Whether a space is alive.
    pub fn is_alive(&self, space: SpaceId) -> bool
        ensures { result ≡ is_alive self.now space }
    {
        self.spaces.contains_key(&space)
    }

    /// How many spaces are alive.
    pub fn len(&self) -> usize
        ensures { result ≡ finmap.len self.now }
    {
        self.spaces.len()
    }

    /// The entry of a page, if it is mapped.
    #[inline(always)]
    pub fn get(&self, space: SpaceId, page: PageNo) -> Option<Entry>
        ensures { result ≡ value_at self.now space page }
    {
        self.table(space)?.get(page)
    }

    /// The table of a space, if it is alive. The first space is tried first, since most memories have one.
    #[inline(always)]
    fn table(&self, space: SpaceId) -> Option<&PageTable>
        ensures { option_map (λ table. table.now) result ≡ finmap.get self.now space }
    {
        match self.spaces.first_key_value() {
            Some((first, table)) if *first == space => Some(table),
            _ => self.spaces.get(&space),
        }
    }

    /// How many pages a space has.
    pub fn pages_in(&self, space: SpaceId) -> usize
        ensures { result ≡ finmap.len (inside self.now space) }
    {
        match self.spaces.get(&space) {
            Some(table) => table.len(),
            None => 0,
        }
    }

    /// The first page of a space from a bound on.
    pub fn first_from(&self, space: SpaceId, start: Bound<PageNo>) -> Option<PageNo>
        ensures { IsFirstFrom (inside self.now space) start result }
    {
        let (page, _) = self.first_entry_from(space, start)?;
        Some(page)
    }

    /// The first page of a space from a bound on, with its entry.
    pub fn first_entry_from(&self, space: SpaceId, start: Bound<PageNo>) -> Option<(PageNo, Entry)>
        ensures first { IsFirstFrom (inside self.now space) start (option_map (λ found. found.0) result) }
        ensures entry { IfSome result (λ found. value_at self.now space found.0 ≡ Some found.1) }
    {
        self.table(space)?.first_entry_from(start)
    }

    /// The page up to which those of a space from one on are mapped, at most an end.
    pub fn mapped_to(&self, space: SpaceId, first: PageNo, end: u64) -> u64
        requires ordered { first ≤ end }
        requires within { end ≤ 2 ^ 35 }
        ensures reached { first ≤ result }
        ensures end { result ≤ end }
        ensures mapped { AreMapped (value_at self.now space) first result }
    {
        match self.spaces.get(&space) {
            Some(table) => table.mapped_to(first, end),
            None => first.number(),
        }
    }

    /// Puts an entry at the pages of a space from one on, up to an end or one that is mapped. It returns
    /// the page that it came to.
    ///
    /// # Errors
    ///
    /// Out of memory where the table can't grow: nothing changes.
    pub fn fill_run(
        &mut self,
        space: SpaceId,
        first: PageNo,
        end: u64,
        entry: Entry,
    ) -> Result<u64, AllocError>
        requires alive { is_alive self.old space ≡ true }
        requires some { first < end }
        requires within { end ≤ 2 ^ 35 }
        ensures reached { IfOk result (λ to. first ≤ to) }
        ensures more { IfOk result (λ to. value_at self.old space first ≡ None → first < to) }
        ensures end { IfOk result (λ to. to ≤ end) }
        ensures run { IfOk result
            (λ to. FillsRun entry (value_at self.old space) (value_at self.new space) first to) }
        ensures others { OnOk result
            (self.new ≡ finmap.insert self.old space (inside self.new space)) }
        ensures err { OnErr result (self.new ≡ self.old) }
    {
        let Some(table) = self.spaces.get_mut(&space) else {
            return Ok(first.number());
        };
        table.fill_run(first, end, entry)
    }

    /// Changes the pages of a space from one on, up to an end or one that isn't mapped or would give
    /// up its frame. It returns the page that it came to.
    pub fn change_run(&mut self, space: SpaceId, first: PageNo, end: u64, change: RunChange) -> u64
        requires alive { is_alive self.old space ≡ true }
        requires ordered { first ≤ end }
        requires within { end ≤ 2 ^ 35 }
        ensures reached { first ≤ result }
        ensures end { result ≤ end }
        ensures run { ChangesRun change (value_at self.old space) (value_at self.new space) first result }
        ensures others { self.new ≡ finmap.insert self.old space (inside self.new space) }
    {
        let Some(table) = self.spaces.get_mut(&space) else {
            return first.number();
        };
        table.change_run(first, end, change)
    }

    /// Adds a space without pages.
    ///
    /// # Errors
    ///
    /// Out of memory where there is no room for it: nothing changes.
    pub fn add_space(&mut self, space: SpaceId) -> Result<(), AllocError>
        ensures ok { OnOk result (self.new ≡ finmap.insert self.old space finmap.empty) }
        ensures err { OnErr result (self.new ≡ self.old) }
    {
        self.spaces.insert(space, PageTable::new(self.alloc))?;
        Ok(())
    }

    /// Adds a space with the pages of another, each as one just mapped with its permissions.
    ///
    /// # Errors
    ///
    /// Out of memory where a table can't be allocated: nothing changes.
    pub fn add_copy(&mut self, space: SpaceId, child: SpaceId) -> Result<(), AllocError>
        ensures pages { OnOk result ((page : ℕ) → value_at self.new child page
            ≡ option_map bare_entry (value_at self.old space page)) }
        ensures others { OnOk result
            (self.new ≡ finmap.insert self.old child (inside self.new child)) }
        ensures err { OnErr result (self.new ≡ self.old) }
    {
        let copy = self.copy_of(space)?;
        self.spaces.insert(child, copy)?;
        Ok(())
    }

    /// A table with the pages of a space, each as one just mapped with its permissions.
    ///
    /// # Errors
    ///
    /// Out of memory: nothing is left.
    fn copy_of(&self, space: SpaceId) -> Result<PageTable, AllocError>
        ensures { IfOk result (λ copy. (page : ℕ)
            → finmap.get copy page ≡ option_map bare_entry (value_at self.now space page)) }
    {
        match self.spaces.get(&space) {
            Some(table) => table.bare_copy(),
            None => Ok(PageTable::new(self.alloc)),
        }
    }

    /// Takes a space away.
    pub fn remove_space(&mut self, space: SpaceId)
        ensures { self.new ≡ finmap.remove self.old space }
    {
        self.spaces.remove(&space);
    }

    /// Puts the entry of a page.
    ///
    /// # Errors
    ///
    /// Out of memory where the table can't grow: nothing changes.
    pub fn insert(&mut self, space: SpaceId, page: PageNo, entry: Entry) -> Result<(), AllocError>
        requires { is_alive self.old space ≡ true }
        ensures ok { OnOk result (self.new ≡ put_at self.old space page entry) }
        ensures err { OnErr result (self.new ≡ self.old) }
    {
        let Some(table) = self.spaces.get_mut(&space) else {
            return Ok(());
        };
        table.insert(page, entry)
    }

    /// Replaces the entry of a mapped page. It takes no memory.
    pub fn replace(&mut self, space: SpaceId, page: PageNo, entry: Entry)
        requires { IsSome (value_at self.old space page) }
        ensures { self.new ≡ put_at self.old space page entry }
    {
        let Some(table) = self.spaces.get_mut(&space) else {
            return;
        };
        table.replace(page, entry);
    }

    /// Takes the entry of a page out.
    pub fn remove(&mut self, space: SpaceId, page: PageNo)
        requires { is_alive self.old space ≡ true }
        ensures { self.new ≡ remove_at self.old space page }
    {
        let _entry = self.take(space, page);
    }

    /// Takes the entry of a page out, and returns it, if the page is mapped.
    pub fn take(&mut self, space: SpaceId, page: PageNo) -> Option<Entry>
        requires { is_alive self.old space ≡ true }
        ensures entry { result ≡ value_at self.old space page }
        ensures taken { self.new ≡ remove_at self.old space page }
    {
        let Some(table) = self.spaces.get_mut(&space) else {
            return None;
        };
        table.take(page)
    }
}
