ghost use Rattle.std.specs.Prelude.{◌≡◌, ℕ, Option, None, ◌<◌, ◌≤◌, ◌^◌, ◌==◌, if◌then◌else◌, Some, IfOk, OnErr};
ghost use Rattle.std.specs.Prelude.{IsSome, IfSome, IfNone, true, false};
ghost use Rattle.sd_tables.specs.declared.entry.Entry.{Entry as EntryValue};
ghost use Rattle.std.specs.Option.{option_map};
ghost use Rattle.sd_tables.specs.Copies.{bare_entry};
ghost use Rattle.sd_tables.specs.Radix.{HasMappedPage, IsFirstAt};
ghost use Rattle.sd_tables.specs.Runs.{AreMapped, ChangesRun, FillsRun};

use crate::entry::Entry;
use crate::run_change::RunChange;
use std::alloc::{AllocError, Global};

/// A table of some level of a page table. It counts pages from the first that it spans; it has at
/// least one page wherever another table holds it.
pub(crate) trait Node: Drop {
    /// How many pages it spans.
    ghost span: { ℕ };

    /// The entry that it has at a page.
    ghost at: { Self → ℕ → Option EntryValue };

    /// Its bits of used places are right, and no table below it is empty.
    ghost IsKept: { Self → Type 0 };

    /// How many pages a table spans.
    fn span() -> u64
        requires fits { span ≤ 2 ^ 36 }
        ensures { result ≡ span };

    /// A table with one page.
    ///
    /// # Errors
    ///
    /// Out of memory: nothing is left.
    fn with_page(alloc: Global, page: u64, entry: Entry) -> Result<Box<Self>, AllocError>
        requires fits { span ≤ 2 ^ 36 }
        requires within { page < span }
        ensures kept { IfOk result (λ table. IsKept table.value) }
        ensures value { IfOk result (λ table. (other : ℕ)
            → at table.value other ≡ (if other == page then Some entry else None)) };

    /// The entry of a page, if it is mapped.
    fn get(&self, page: u64) -> Option<Entry>
        requires fits { span ≤ 2 ^ 36 }
        requires kept { IsKept self.now }
        requires within { page < span }
        ensures { result ≡ at self.now page };

    /// Puts the entry of a page, and returns the one that it had.
    ///
    /// # Errors
    ///
    /// Out of memory where a table below can't be allocated: nothing changes. None is needed where
    /// the page is mapped.
    fn insert(
        &mut self,
        alloc: Global,
        page: u64,
        entry: Entry,
    ) -> Result<Option<Entry>, AllocError>
        requires fits { span ≤ 2 ^ 36 }
        requires kept { IsKept self.old }
        requires within { page < span }
        ensures kept { IsKept self.new }
        ensures before { IfOk result (λ before. before ≡ at self.old page) }
        ensures value { IfOk result (λ before. (other : ℕ)
            → at self.new other ≡ (if other == page then Some entry else at self.old other)) }
        ensures err { OnErr result ((other : ℕ) → at self.new other ≡ at self.old other) }
        ensures full { OnErr result (at self.old page ≡ None) };

    /// Replaces the entry of a mapped page.
    fn replace(&mut self, page: u64, entry: Entry)
        requires fits { span ≤ 2 ^ 36 }
        requires kept { IsKept self.old }
        requires within { page < span }
        requires there { IsSome (at self.old page) }
        ensures kept { IsKept self.new }
        ensures value { (other : ℕ)
            → at self.new other ≡ (if other == page then Some entry else at self.old other) };

    /// Takes the entry of a page out, and returns it.
    fn remove(&mut self, page: u64) -> Option<Entry>
        requires fits { span ≤ 2 ^ 36 }
        requires kept { IsKept self.old }
        requires within { page < span }
        ensures kept { IsKept self.new }
        ensures before { result ≡ at self.old page }
        ensures value { (other : ℕ)
            → at self.new other ≡ (if other == page then None else at self.old other) };

    /// The page up to which those from one on are mapped, at most an end.
    fn mapped_to(&self, from: u64, end: u64) -> u64
        requires fits { span ≤ 2 ^ 36 }
        requires kept { IsKept self.now }
        requires within { from < span }
        requires ordered { from ≤ end }
        ensures reached { from ≤ result }
        ensures end { result ≤ end }
        ensures span { result ≤ span }
        ensures mapped { AreMapped (at self.now) from result };

    /// Puts an entry at the pages from one on, up to an end or one that is mapped. It returns the page
    /// that it came to.
    ///
    /// # Errors
    ///
    /// Out of memory where a table below can't be allocated: nothing changes.
    fn fill_run(
        &mut self,
        alloc: Global,
        from: u64,
        end: u64,
        entry: Entry,
    ) -> Result<u64, AllocError>
        requires fits { span ≤ 2 ^ 36 }
        requires kept { IsKept self.old }
        requires within { from < span }
        requires some { from < end }
        ensures kept { IsKept self.new }
        ensures reached { IfOk result (λ to. from ≤ to) }
        ensures more { IfOk result (λ to. at self.old from ≡ None → from < to) }
        ensures end { IfOk result (λ to. to ≤ end) }
        ensures span { IfOk result (λ to. to ≤ span) }
        ensures run { IfOk result (λ to. FillsRun entry (at self.old) (at self.new) from to) }
        ensures err { OnErr result ((other : ℕ) → at self.new other ≡ at self.old other) };

    /// Changes the pages from one on, up to an end or one that isn't mapped or would give up its frame.
    /// It returns the page that it came to.
    fn change_run(&mut self, from: u64, end: u64, change: RunChange) -> u64
        requires fits { span ≤ 2 ^ 36 }
        requires kept { IsKept self.old }
        requires within { from < span }
        requires ordered { from ≤ end }
        ensures kept { IsKept self.new }
        ensures reached { from ≤ result }
        ensures end { result ≤ end }
        ensures span { result ≤ span }
        ensures run { ChangesRun change (at self.old) (at self.new) from result };

    /// A table with the same pages, each as one just mapped with its permissions.
    ///
    /// # Errors
    ///
    /// Out of memory: nothing is left.
    fn bare_copy(&self, alloc: Global) -> Result<Box<Self>, AllocError>
        requires fits { span ≤ 2 ^ 36 }
        requires kept { IsKept self.now }
        ensures kept { IfOk result (λ table. IsKept table.value) }
        ensures value { IfOk result (λ table. (page : ℕ)
            → at table.value page ≡ option_map bare_entry (at self.now page)) };

    /// The first mapped page from one on, with its entry.
    fn first_from(&self, page: u64) -> Option<(u64, Entry)>
        requires fits { span ≤ 2 ^ 36 }
        requires kept { IsKept self.now }
        requires within { page < span }
        ensures { IsFirstAt span (at self.now) page result };

    /// Whether it has no page.
    fn is_empty(&self) -> bool
        requires fits { span ≤ 2 ^ 36 }
        requires kept { IsKept self.now }
        ensures empty { result ≡ true → (page : ℕ) → at self.now page ≡ None }
        ensures some { result ≡ false → HasMappedPage span (at self.now) };

    /// Every table spans some pages.
    ghost some_span: { 1 ≤ span };
}
