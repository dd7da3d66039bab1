ghost use Rattle.std.specs.Prelude.{◌≡◌, ℕ, ◌+◌, ◌*◌, ◌/◌, ◌%◌, ◌^◌, ◌<◌, ◌≤◌, ◌==◌, ◌||◌, false, None};
ghost use Rattle.std.specs.Prelude.{OnOk};
ghost use Rattle.std.specs.Option.{option_map};
ghost use Rattle.sd_tables.specs.Copies.{bare_entry};
ghost use Rattle.sd_tables.specs.Radix.{is_used, inner_table, level_at, IsFirstInTable, IsLevel};

use crate::entry::Entry;
use crate::node::Node;
use crate::run_change::RunChange;
use crate::slot::{
    bare_copy_in, change_in, fill_in, first_in, get_in, insert_in, mapped_in, remove_in, replace_in,
};
use crate::used_places::{PLACES, UsedPlaces};
use std::alloc::{AllocError, Global};
use std::array;

/// A table above the lowest level: up to 512 tables of the level below.
#[derive(Drop)]
pub(crate) struct Level<T: Node> {
    used: UsedPlaces,
    tables: [Option<Box<T>>; PLACES],
}

impl<T: Node> Level<T> {
    /// A table without tables.
    fn new() -> Self
        ensures tables { (place : ℕ) → inner_table result.tables place ≡ None }
        ensures used { (place : ℕ) → is_used result.used.words place ≡ false }
    {
        Level {
            used: UsedPlaces::new(),
            tables: array::from_fn(|_| None),
        }
    }

    /// Puts copies of another table's tables.
    ///
    /// # Errors
    ///
    /// Out of memory where a table can't be allocated: some of them are there.
    fn put_bare(&mut self, alloc: Global, other: &Self) -> Result<(), AllocError>
        requires fits { T.span ≤ 2 ^ 36 }
        requires empty { (place : ℕ) → inner_table self.old.tables place ≡ None }
        requires own { IsLevel (λ table. T.at table.value)
            (λ table. T.IsKept table.value) T.span self.old.used.words self.old.tables }
        requires kept { IsLevel (λ table. T.at table.value)
            (λ table. T.IsKept table.value) T.span other.now.used.words other.now.tables }
        ensures kept { OnOk result (IsLevel (λ table. T.at table.value)
            (λ table. T.IsKept table.value) T.span self.new.used.words self.new.tables) }
        ensures value { OnOk result ((page : ℕ)
            → level_at (λ table. T.at table.value) T.span self.new.tables page
            ≡ option_map bare_entry (level_at (λ table. T.at table.value) T.span other.now.tables page)) }
    {
        let mut from = 0;
        while let Some(place) = other.used.next(from) {
            self.tables[place] = bare_copy_in(&other.tables[place], alloc)?;
            self.used.add(place);
            from = place + 1;
        }
        Ok(())
    }

    /// The first page from one on, of the table in a place, with its entry.
    fn first_of(&self, place: usize, page: u64) -> Option<(u64, Entry)>
        requires fits { 512 * T.span ≤ 2 ^ 36 }
        requires place { place < 512 }
        requires page { page < T.span }
        requires kept { IsLevel (λ table. T.at table.value)
            (λ table. T.IsKept table.value) T.span self.now.used.words self.now.tables }
        ensures { IsFirstInTable T.span
            (level_at (λ table. T.at table.value) T.span self.now.tables) place page result }
    {
        let (found, entry) = first_in(&self.tables[place], page)?;
        Some((place as u64 * T::span() + found, entry))
    }
}

impl<T: Node> Node for Level<T> {
    ghost span = { 512 * T.span };

    ghost at = { λ level page. level_at (λ table. T.at table.value) T.span level.tables page };

    ghost IsKept = { λ level. IsLevel (λ table. T.at table.value)
        (λ table. T.IsKept table.value) T.span level.used.words level.tables };

    fn span() -> u64 {
        PLACES as u64 * T::span()
    }

    fn with_page(alloc: Global, page: u64, entry: Entry) -> Result<Box<Self>, AllocError> {
        let mut level = Box::new(alloc, Level::new())?;
        level.insert(alloc, page, entry)?;
        Ok(level)
    }

    #[inline(always)]
    fn get(&self, page: u64) -> Option<Entry> {
        let place = (page / T::span()) as usize;
        get_in(&self.tables[place], page % T::span())
    }

    #[inline]
    fn insert(
        &mut self,
        alloc: Global,
        page: u64,
        entry: Entry,
    ) -> Result<Option<Entry>, AllocError> {
        let place = (page / T::span()) as usize;
        let before = insert_in(&mut self.tables[place], alloc, page % T::span(), entry)?;
        self.used.add(place);
        Ok(before)
    }

    #[inline]
    fn replace(&mut self, page: u64, entry: Entry) {
        let place = (page / T::span()) as usize;
        replace_in(&mut self.tables[place], page % T::span(), entry);
    }

    #[inline]
    fn remove(&mut self, page: u64) -> Option<Entry> {
        let place = (page / T::span()) as usize;
        let slot = &mut self.tables[place];
        let before = remove_in(slot, page % T::span());
        if slot.is_none() {
            self.used.remove(place);
        }
        before
    }

    fn mapped_to(&self, from: u64, end: u64) -> u64 {
        let place = (from / T::span()) as usize;
        let first = place as u64 * T::span();
        first + mapped_in(&self.tables[place], from % T::span(), end - first)
    }

    fn fill_run(
        &mut self,
        alloc: Global,
        from: u64,
        end: u64,
        entry: Entry,
    ) -> Result<u64, AllocError> {
        let place = (from / T::span()) as usize;
        let first = place as u64 * T::span();
        let slot = &mut self.tables[place];
        let reached = fill_in(slot, alloc, from % T::span(), end - first, entry)?;
        self.used.add(place);
        Ok(first + reached)
    }

    fn change_run(&mut self, from: u64, end: u64, change: RunChange) -> u64 {
        let place = (from / T::span()) as usize;
        let first = place as u64 * T::span();
        let slot = &mut self.tables[place];
        first + change_in(slot, from % T::span(), end - first, change)
    }

    fn bare_copy(&self, alloc: Global) -> Result<Box<Self>, AllocError> {
        let mut level = Box::new(alloc, Level::new())?;
        level.put_bare(alloc, self)?;
        Ok(level)
    }

    fn first_from(&self, page: u64) -> Option<(u64, Entry)> {
        let place = (page / T::span()) as usize;
        let found = self.first_of(place, page % T::span());
        if found.is_some() {
            return found;
        }
        let next = self.used.next(place + 1)?;
        self.first_of(next, 0)
    }

    fn is_empty(&self) -> bool {
        self.used.next(0).is_none()
    }

    ghost use Rattle.std.proofs.Common.{arith};

    ghost some_span = { Prim.omega (arith, T.some_span) };
}
