//! The journal of a run.
ghost use Rattle.std.specs.Prelude.{◌≡◌, ◌↔◌, ◌+◌, ◌-◌, ◌<◌, ◌≤◌, ◌^◌, ◌∷◌, ◌++◌, [], ℕ, length, drop, map, reverse};
ghost use Rattle.std.specs.Prelude.{take, vec_len, vec_capacity, IfOk, IfSome, IsTrue, MatchOption, OnOk, OnErr};
ghost use Rattle.std.specs.List.{filter};
ghost use Rattle.sd_journal.specs.Kept.{HasGrown, HasSameNumbers, JournalView, entry_count, is_after_entries};
ghost use Rattle.sd_journal.specs.Kept.{next_number};
ghost use Rattle.sd_journal.specs.History.{History, pending};
ghost use Rattle.sd_journal.specs.Marked.{Told, Noted, entries_of};
ghost use Rattle.sd_journal.specs.Trimming.{Ends, EndsAt, TakesFront};

use crate::entry::Entry;
use crate::mark::Mark;
use crate::numbers::pending_after;
use crate::placed_mark::PlacedMark;
use std::alloc::{AllocError, Global};
use std::marker::Model;
use std::mem;

/// The most entries that a journal may have.
pub const ENTRY_LIMIT: usize = 1_048_576;

/// The entries of a run in order of time, numbered from 0, with the dumper's marks between them. Entries can be taken
/// from the front: the others keep their numbers. Some of the free entries can be held for what has to be written
/// later, whatever comes before.
#[derive(Drop)]
pub struct Journal {
    first: u64,
    limit: usize,
    held: usize,
    entries: Vec<Entry>,
    marks: Vec<PlacedMark>,
}

impl Model for Journal {
    ghost use Rattle.std.specs.Prelude.{◌≡◌, ◌+◌, ◌-◌, ◌≤◌, ◌*◌, length, reverse, vec_len, vec_capacity};
    ghost use Rattle.sd_journal.specs.Kept.{JournalView, woven};

    ghost Value = { JournalView };

    ghost view = { λ j. record {
      first = j.first;
      items = woven (j.first + length j.entries.items) (reverse j.entries.items) (reverse j.marks.items);
      held = j.held;
      limit = j.limit;
      room = vec_capacity j.entries - length j.entries.items;
      mark_room = vec_capacity j.marks - length j.marks.items;
    } };

    ghost use Rattle.sd_journal.specs.KeptInside.{IsKeptJournal};

    ghost invariant = { IsKeptJournal };
}

impl Journal {
    /// A journal without entries that may have `ENTRY_LIMIT` of them. It takes no memory yet.
    pub fn new(alloc: Global) -> Self
        ensures first { result.first ≡ 0 }
        ensures items { result.items ≡ [] }
        ensures held { result.held ≡ 0 }
        ensures limit { result.limit ≡ 1048576 }
    {
        Journal::with_limit(alloc, ENTRY_LIMIT)
    }

    /// A journal without entries that may have so many of them, at most `ENTRY_LIMIT`. It takes no memory yet.
    pub fn with_limit(alloc: Global, limit: usize) -> Self
        requires { limit ≤ 1048576 }
        ensures first { result.first ≡ 0 }
        ensures items { result.items ≡ [] }
        ensures held { result.held ≡ 0 }
        ensures limit { result.limit ≡ limit }
    {
        Journal {
            first: 0,
            limit,
            held: 0,
            entries: Vec::new(alloc),
            marks: Vec::new(alloc),
        }
    }

    /// The number of the first entry.
    pub fn first(&self) -> u64
        ensures { result ≡ self.now.first }
    {
        self.first
    }

    /// The number that the next entry gets.
    pub fn next_number(&self) -> u64
        ensures { result ≡ next_number self.now }
    {
        self.first + self.entries.len() as u64
    }

    /// The entries in order of time, without the marks.
    pub fn entries(&self) -> &[Entry]
        ensures { result.now ≡ reverse (entries_of self.now.items) }
    {
        &self.entries
    }

    /// How many entries may still be added beside those that are held.
    pub fn free(&self) -> usize
        ensures { entry_count self.now + self.now.held + result ≡ self.now.limit }
    {
        self.limit - self.entries.len() - self.held
    }

    /// How many free entries are held.
    pub fn held(&self) -> usize
        ensures { result ≡ self.now.held }
    {
        self.held
    }

    /// Makes room for one entry beside those that are held.
    ///
    /// # Errors
    ///
    /// Out of memory where there is no room and the list of entries can't grow: nothing changes.
    pub fn reserve(&mut self) -> Result<(), AllocError>
        ensures ok { OnOk result (self.new.held < self.new.room) }
        ensures full { OnErr result (self.old.room ≤ self.old.held) }
        ensures grown { HasGrown self.old self.new }
        ensures err { OnErr result (self.new ≡ self.old) }
    {
        let wanted = self.held + 1;
        self.entries.try_reserve(wanted)
    }

    /// Adds an entry at the next number. It takes no memory: the room was made by `reserve`, or is left beside the held
    /// entries, and an entry that is held stays free for `append_held`.
    pub fn append(&mut self, entry: Entry)
        requires free { entry_count self.old + self.old.held < self.old.limit }
        requires room { self.old.held < self.old.room }
        ensures items { self.new.items ≡ Told entry ∷ self.old.items }
        ensures held { self.new.held ≡ self.old.held }
        ensures numbers { HasSameNumbers self.old self.new }
        ensures marks { self.old.mark_room ≤ self.new.mark_room }
    {
        push_into_room(&mut self.entries, entry);
    }

    /// Holds so many free entries more, and makes room for them.
    ///
    /// # Errors
    ///
    /// Out of memory where there is no room and the list of entries can't grow: nothing changes.
    pub fn hold(&mut self, count: usize) -> Result<(), AllocError>
        requires { entry_count self.old + self.old.held + count ≤ self.old.limit }
        ensures ok { OnOk result (HasGrown (record self.old { held = self.old.held + count }) self.new) }
        ensures full { OnErr result (self.old.room < self.old.held + count) }
        ensures err { OnErr result (self.new ≡ self.old) }
    {
        let wanted = self.held + count;
        self.entries.try_reserve(wanted)?;
        self.held = wanted;
        Ok(())
    }

    /// Adds an entry in place of one that is held, which takes no memory.
    pub fn append_held(&mut self, entry: Entry)
        requires { 0 < self.old.held }
        ensures items { self.new.items ≡ Told entry ∷ self.old.items }
        ensures held { self.new.held + 1 ≡ self.old.held }
        ensures numbers { HasSameNumbers self.old self.new }
        ensures marks { self.old.mark_room ≤ self.new.mark_room }
    {
        self.held -= 1;
        push_into_room(&mut self.entries, entry);
    }

    /// Frees so many of the entries that are held.
    pub fn release(&mut self, count: usize)
        requires { count ≤ self.old.held }
        ensures { self.new ≡ record self.old { held = self.old.held - count } }
    {
        self.held -= count;
    }

    /// Makes room for one mark.
    ///
    /// # Errors
    ///
    /// Out of memory where there is no room and the list of marks can't grow: nothing changes.
    pub fn reserve_mark(&mut self) -> Result<(), AllocError>
        ensures ok { OnOk result (0 < self.new.mark_room) }
        ensures full { OnErr result (self.old.mark_room ≡ 0) }
        ensures grown { HasGrown self.old self.new }
        ensures err { OnErr result (self.new ≡ self.old) }
    {
        self.marks.try_reserve(1)
    }

    /// Adds a mark after all entries so far, which takes no memory.
    pub fn note(&mut self, mark: Mark)
        requires { 0 < self.old.mark_room }
        ensures items { self.new.items ≡ Noted mark ∷ self.old.items }
        ensures held { self.new.held ≡ self.old.held }
        ensures numbers { HasSameNumbers self.old self.new }
        ensures room { self.old.room ≤ self.new.room }
    {
        let before = self.next_number();
        note_after(&mut self.marks, before, mark);
    }

    /// How many entries from the front on end with the one that ended the pending of a checkpoint: its acknowledgement,
    /// or the reopening that found it while it was pending.
    pub fn ended_at(&self, checkpoint: u64) -> Option<usize>
        ensures ends { MatchOption result
            ((count : ℕ) → EndsAt checkpoint (reverse (entries_of self.now.items)) count → ⊥)
            (EndsAt checkpoint (reverse (entries_of self.now.items))) }
        ensures some { IfSome result (λ count. 0 < count) }
    {
        ended_at(&self.entries, checkpoint)
    }

    /// An empty list with room for the entries that are left once so many are taken from the front, and for those that
    /// are held.
    ///
    /// # Errors
    ///
    /// Out of memory where the list finds no room, which is only where some entries are left or held.
    pub fn room_after(&self, alloc: Global, count: usize) -> Result<Vec<Entry>, AllocError>
        requires { count ≤ entry_count self.now }
        ensures empty { IfOk result (λ room. room.items ≡ []) }
        ensures room { IfOk result (λ room. entry_count self.now + self.now.held ≤ vec_capacity room + count) }
        ensures some { OnErr result (count < entry_count self.now + self.now.held) }
    {
        let mut room = Vec::new(alloc);
        room.try_reserve(self.entries.len() - count + self.held)?;
        Ok(room)
    }

    /// Takes so many entries from the front, in order of time, with the marks between them. A mark after the last of
    /// them is kept. The others keep their numbers, and what is held stays. They move into a list with room for them,
    /// so that no memory is taken.
    pub fn take_front(&mut self, room: Vec<Entry>, count: usize) -> Vec<Entry>
        requires some { 0 < count }
        requires within { count ≤ entry_count self.old }
        requires numbers { self.old.first + count ≤ 2 ^ 62 }
        requires empty { room.items ≡ [] }
        requires room { entry_count self.old + self.old.held ≤ vec_capacity room + count }
        ensures { TakesFront count result.items self.old self.new }
    {
        let taken = split_front(&mut self.entries, room, count);
        self.first += count as u64;
        forget_before(&mut self.marks, self.first);
        taken
    }
}

/// Takes so many entries from the front of a list. The others move into a list with room for them.
fn split_front(entries: &mut Vec<Entry>, mut kept: Vec<Entry>, count: usize) -> Vec<Entry>
    requires within { count ≤ vec_len entries.old }
    requires empty { kept.items ≡ [] }
    requires room { vec_len entries.old ≤ vec_capacity kept + count }
    ensures taken { result.items ≡ take count entries.old.items }
    ensures kept { entries.new.items ≡ drop count entries.old.items }
    ensures capacity { vec_capacity kept ≤ vec_capacity entries.new }
{
    move_behind(entries, count, &mut kept);
    mem::replace(entries, kept)
}

/// Moves the entries after the first so many into an empty list with room for them.
fn move_behind(entries: &mut Vec<Entry>, count: usize, kept: &mut Vec<Entry>)
    requires within { count ≤ vec_len entries.old }
    requires empty { kept.old.items ≡ [] }
    requires room { vec_len entries.old ≤ vec_capacity kept.old + count }
    ensures front { entries.new.items ≡ take count entries.old.items }
    ensures behind { kept.new.items ≡ drop count entries.old.items }
    ensures capacity { vec_capacity kept.old ≤ vec_capacity kept.new }
{
    while entries.len() > count {
        let entry = entries.pop().unwrap();
        push_into_room(kept, entry);
    }
    kept.reverse();
}

/// How many entries from the front on end with the one that ended the pending of a checkpoint.
fn ended_at(entries: &[Entry], checkpoint: u64) -> Option<usize>
    ensures ends { MatchOption result ((count : ℕ) → EndsAt checkpoint entries.now count → ⊥)
        (EndsAt checkpoint entries.now) }
    ensures some { IfSome result (λ count. 0 < count) }
{
    let mut found = None;
    for (place, entry) in entries.iter().enumerate() {
        if ends(found, entry, checkpoint) {
            return Some(place + 1);
        }
        found = pending_after(found, entry);
    }
    None
}

/// Whether an entry ended the pending of a checkpoint, where that is found to be pending before.
fn ends(found: Option<u64>, entry: &Entry, checkpoint: u64) -> bool
    ensures { (before : History) → found ≡ pending before → IsTrue result ↔ Ends checkpoint before entry.now }
{
    let named = match entry {
        Entry::Acked(number) => Some(*number),
        Entry::Reopened(number) => *number,
        _ => None,
    };
    found == Some(checkpoint) && named == Some(checkpoint)
}

/// Adds an entry to a list with room for it.
fn push_into_room(entries: &mut Vec<Entry>, entry: Entry)
    requires { vec_len entries.old < vec_capacity entries.old }
    ensures items { entries.new.items ≡ entries.old.items ++ entry ∷ [] }
    ensures capacity { vec_capacity entries.old ≤ vec_capacity entries.new }
{
    entries.push(entry).unwrap();
}

/// Adds a mark before the entry with this number to a list with room for it.
fn note_after(marks: &mut Vec<PlacedMark>, before: u64, mark: Mark)
    requires { vec_len marks.old < vec_capacity marks.old }
    ensures items { marks.new.items
        ≡ marks.old.items ++ (record { before = before; mark = mark }) ∷ [] }
    ensures capacity { vec_capacity marks.old ≤ vec_capacity marks.new }
{
    marks.push(PlacedMark { before, mark }).unwrap();
}

/// Forgets the marks that stand before the last of the entries before a number.
fn forget_before(marks: &mut Vec<PlacedMark>, number: u64)
    ensures { marks.new.items ≡ filter (is_after_entries number) marks.old.items }
{
    marks.retain(|placed| number <= placed.before);
}
