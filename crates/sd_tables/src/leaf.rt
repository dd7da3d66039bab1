ghost use Rattle.std.specs.Prelude.{◌≡◌, ℕ, ◌+◌, ◌==◌, ◌<◌, if◌then◌else◌, true, false, Some, None, IsSome};

use crate::entry::Entry;
use crate::leaf_entry::LeafEntry;
use crate::node::Node;
use crate::run_change::RunChange;
use crate::used_places::{PLACES, UsedPlaces};
use std::alloc::{AllocError, Global};

/// A table of the lowest level: the entries of up to 512 pages.
#[derive(Drop)]
pub(crate) struct Leaf {
    used: UsedPlaces,
    entries: [LeafEntry; PLACES],
}

impl Leaf {
    ghost use Rattle.sd_tables.specs.Radix.{leaf_at};
    ghost use Rattle.sd_tables.specs.Runs.{ChangesRun};
    ghost use Rattle.sd_tables.specs.Copies.{bare_entry};
    ghost use Rattle.std.specs.Option.{option_map};

    /// A leaf without pages.
    fn new() -> Self
        ensures { (page : ℕ) → leaf_at result.used.words result.entries page ≡ None }
    {
        Leaf {
            used: UsedPlaces::new(),
            entries: [LeafEntry::UNUSED; PLACES],
        }
    }

    /// Puts an entry into a place.
    #[inline]
    fn put(&mut self, place: usize, entry: Entry)
        requires { place < 512 }
        ensures { (page : ℕ) → leaf_at self.new.used.words self.new.entries page
            ≡ (if page == place then Some entry else leaf_at self.old.used.words self.old.entries page) }
    {
        self.entries[place] = LeafEntry::of(entry);
        self.used.add(place);
    }

    /// Changes the entry in a used place, where it keeps its frame, and returns whether it does.
    #[inline]
    fn change(&mut self, place: usize, change: RunChange) -> bool
        requires within { place < 512 }
        requires there { IsSome (leaf_at self.old.used.words self.old.entries place) }
        ensures changed { result ≡ true
            → ChangesRun change (leaf_at self.old.used.words self.old.entries)
            (leaf_at self.new.used.words self.new.entries) place (place + 1) }
        ensures same { result ≡ false → (page : ℕ) → leaf_at self.new.used.words self.new.entries page
            ≡ leaf_at self.old.used.words self.old.entries page }
    {
        let Some(entry) = change.of(self.entries[place].entry()) else {
            return false;
        };
        self.entries[place] = LeafEntry::of(entry);
        true
    }

    /// Puts the pages of another leaf, each as one just mapped with its permissions.
    fn put_bare(&mut self, other: &Self)
        requires { (page : ℕ) → leaf_at self.old.used.words self.old.entries page ≡ None }
        ensures { (page : ℕ) → leaf_at self.new.used.words self.new.entries page
            ≡ option_map bare_entry (leaf_at other.now.used.words other.now.entries page) }
    {
        let mut from = 0;
        while let Some(place) = other.used.next(from) {
            let entry = other.entries[place].entry();
            self.put(place, Entry::fresh(entry.prot));
            from = place + 1;
        }
    }
}

impl Node for Leaf {
    ghost use Rattle.sd_tables.specs.Radix.{leaf_at};

    ghost span = { 512 };

    ghost at = { λ leaf page. leaf_at leaf.used.words leaf.entries page };

    ghost IsKept = { λ _. Unit {0} };

    fn span() -> u64 {
        PLACES as u64
    }

    fn with_page(alloc: Global, page: u64, entry: Entry) -> Result<Box<Self>, AllocError> {
        let mut leaf = Box::new(alloc, Leaf::new())?;
        leaf.put(page as usize, entry);
        Ok(leaf)
    }

    #[inline(always)]
    fn get(&self, page: u64) -> Option<Entry> {
        let place = page as usize;
        if self.used.has(place) {
            Some(self.entries[place].entry())
        } else {
            None
        }
    }

    #[inline]
    fn insert(
        &mut self,
        _alloc: Global,
        page: u64,
        entry: Entry,
    ) -> Result<Option<Entry>, AllocError> {
        let before = self.get(page);
        self.put(page as usize, entry);
        Ok(before)
    }

    #[inline]
    fn replace(&mut self, page: u64, entry: Entry) {
        self.put(page as usize, entry);
    }

    #[inline]
    fn remove(&mut self, page: u64) -> Option<Entry> {
        let before = self.get(page);
        self.used.remove(page as usize);
        before
    }

    fn mapped_to(&self, from: u64, end: u64) -> u64 {
        let reached = self.used.used_to(from as usize);
        end.min(reached as u64)
    }

    fn fill_run(
        &mut self,
        _alloc: Global,
        from: u64,
        end: u64,
        entry: Entry,
    ) -> Result<u64, AllocError> {
        let end = end.min(PLACES as u64);
        for page in from..end {
            if self.get(page).is_some() {
                return Ok(page);
            }
            self.put(page as usize, entry);
        }
        Ok(end)
    }

    fn change_run(&mut self, from: u64, end: u64, change: RunChange) -> u64 {
        let end = self.mapped_to(from, end);
        for page in from..end {
            if !self.change(page as usize, change) {
                return page;
            }
        }
        end
    }

    fn bare_copy(&self, alloc: Global) -> Result<Box<Self>, AllocError> {
        let mut leaf = Box::new(alloc, Leaf::new())?;
        leaf.put_bare(self);
        Ok(leaf)
    }

    fn first_from(&self, page: u64) -> Option<(u64, Entry)> {
        let place = self.used.next(page as usize)?;
        Some((place as u64, self.entries[place].entry()))
    }

    fn is_empty(&self) -> bool {
        self.used.next(0).is_none()
    }

    ghost use Rattle.std.proofs.Common.{arith};

    ghost some_span = { Prim.omega arith };
}
