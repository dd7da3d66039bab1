//! A place for a table: it has none, or one with a page.
ghost use Rattle.std.specs.Prelude.{◌≡◌, ℕ, ◌<◌, ◌≤◌, ◌^◌, ◌==◌, if◌then◌else◌, is_some, true, false, None, Some, IfOk};
ghost use Rattle.std.specs.Prelude.{OnOk, OnErr, IsSome};
ghost use Rattle.std.specs.Option.{ForSome, option_map};
ghost use Rattle.sd_tables.specs.Copies.{bare_entry};
ghost use Rattle.sd_tables.specs.Radix.{slot_at, IsSlot, IsFirstAt};
ghost use Rattle.sd_tables.specs.Runs.{AreMapped, ChangesRun, FillsRun};

use crate::entry::Entry;
use crate::node::Node;
use crate::run_change::RunChange;
use std::alloc::{AllocError, Global};

/// The entry of a page, if there is a table that has it.
#[inline(always)]
pub(crate) fn get_in<T: Node>(slot: &Option<Box<T>>, page: u64) -> Option<Entry>
    requires fits { T.span ≤ 2 ^ 36 }
    requires kept { IsSlot (λ table. T.at table.value) (λ table. T.IsKept table.value) T.span slot.now }
    requires within { page < T.span }
    ensures { result ≡ slot_at (λ table. T.at table.value) slot.now page }
{
    match slot {
        Some(table) => table.get(page),
        None => None,
    }
}

/// A copy of the table, if there is one, with each page as one just mapped with its permissions.
///
/// # Errors
///
/// Out of memory: nothing is left.
pub(crate) fn bare_copy_in<T: Node>(
    slot: &Option<Box<T>>,
    alloc: Global,
) -> Result<Option<Box<T>>, AllocError>
    requires fits { T.span ≤ 2 ^ 36 }
    requires kept { IsSlot (λ table. T.at table.value) (λ table. T.IsKept table.value) T.span slot.now }
    ensures kept { IfOk result
        (λ copy. IsSlot (λ table. T.at table.value) (λ table. T.IsKept table.value) T.span copy) }
    ensures there { IfOk result (λ copy. is_some copy ≡ is_some slot.now) }
    ensures value { IfOk result (λ copy. (page : ℕ) → slot_at (λ table. T.at table.value) copy page
        ≡ option_map bare_entry (slot_at (λ table. T.at table.value) slot.now page)) }
{
    let Some(table) = slot else {
        return Ok(None);
    };
    Ok(Some(table.bare_copy(alloc)?))
}

/// The first mapped page from one on with its entry, if there is a table that has one.
#[inline]
pub(crate) fn first_in<T: Node>(slot: &Option<Box<T>>, page: u64) -> Option<(u64, Entry)>
    requires fits { T.span ≤ 2 ^ 36 }
    requires kept { IsSlot (λ table. T.at table.value) (λ table. T.IsKept table.value) T.span slot.now }
    requires within { page < T.span }
    ensures { IsFirstAt T.span (slot_at (λ table. T.at table.value) slot.now) page result }
{
    match slot {
        Some(table) => table.first_from(page),
        None => None,
    }
}

/// The first mapped page from one on with its entry, as `first_in` finds it. Pages lie side by side, so that one is
/// tried first.
#[inline(always)]
pub(crate) fn next_in<T: Node>(slot: &Option<Box<T>>, page: u64) -> Option<(u64, Entry)>
    requires fits { T.span ≤ 2 ^ 36 }
    requires kept { IsSlot (λ table. T.at table.value) (λ table. T.IsKept table.value) T.span slot.now }
    requires within { page < T.span }
    ensures { IsFirstAt T.span (slot_at (λ table. T.at table.value) slot.now) page result }
{
    match get_in(slot, page) {
        Some(entry) => Some((page, entry)),
        None => first_in(slot, page),
    }
}

/// The page up to which those from one on are mapped, at most an end.
#[inline]
pub(crate) fn mapped_in<T: Node>(slot: &Option<Box<T>>, from: u64, end: u64) -> u64
    requires fits { T.span ≤ 2 ^ 36 }
    requires kept { IsSlot (λ table. T.at table.value) (λ table. T.IsKept table.value) T.span slot.now }
    requires within { from < T.span }
    requires ordered { from ≤ end }
    ensures reached { from ≤ result }
    ensures end { result ≤ end }
    ensures span { result ≤ T.span }
    ensures mapped { AreMapped (slot_at (λ table. T.at table.value) slot.now) from result }
{
    match slot {
        Some(table) => table.mapped_to(from, end),
        None => from,
    }
}

/// Changes the pages from one on, up to an end or one that isn't mapped or would give up its frame. It
/// returns the page that it came to.
#[inline]
pub(crate) fn change_in<T: Node>(
    slot: &mut Option<Box<T>>,
    from: u64,
    end: u64,
    change: RunChange,
) -> u64
    requires fits { T.span ≤ 2 ^ 36 }
    requires kept { IsSlot (λ table. T.at table.value) (λ table. T.IsKept table.value) T.span slot.old }
    requires within { from < T.span }
    requires ordered { from ≤ end }
    ensures kept { IsSlot (λ table. T.at table.value) (λ table. T.IsKept table.value) T.span slot.new }
    ensures there { is_some slot.new ≡ is_some slot.old }
    ensures reached { from ≤ result }
    ensures end { result ≤ end }
    ensures span { result ≤ T.span }
    ensures run { ChangesRun change (slot_at (λ table. T.at table.value) slot.old)
        (slot_at (λ table. T.at table.value) slot.new) from result }
{
    match slot {
        Some(table) => table.change_run(from, end, change),
        None => from,
    }
}

/// Puts an entry at the pages from one on, up to an end or one that is mapped. It returns the page that
/// it came to: where there is no table, one with the first of them is made.
///
/// # Errors
///
/// Out of memory where a table can't be allocated: nothing changes.
#[inline]
pub(crate) fn fill_in<T: Node>(
    slot: &mut Option<Box<T>>,
    alloc: Global,
    from: u64,
    end: u64,
    entry: Entry,
) -> Result<u64, AllocError>
    requires fits { T.span ≤ 2 ^ 36 }
    requires kept { IsSlot (λ table. T.at table.value) (λ table. T.IsKept table.value) T.span slot.old }
    requires within { from < T.span }
    requires some { from < end }
    ensures kept { IsSlot (λ table. T.at table.value) (λ table. T.IsKept table.value) T.span slot.new }
    ensures there { OnOk result (is_some slot.new ≡ true) }
    ensures reached { IfOk result (λ to. from ≤ to) }
    ensures more { IfOk result (λ to. slot_at (λ table. T.at table.value) slot.old from ≡ None
        → from < to) }
    ensures end { IfOk result (λ to. to ≤ end) }
    ensures span { IfOk result (λ to. to ≤ T.span) }
    ensures run { IfOk result (λ to. FillsRun entry (slot_at (λ table. T.at table.value) slot.old)
        (slot_at (λ table. T.at table.value) slot.new) from to) }
    ensures same { OnErr result (is_some slot.new ≡ is_some slot.old) }
    ensures err { OnErr result ((other : ℕ) → slot_at (λ table. T.at table.value) slot.new other
        ≡ slot_at (λ table. T.at table.value) slot.old other) }
{
    if let Some(table) = slot {
        return table.fill_run(alloc, from, end, entry);
    }
    *slot = Some(T::with_page(alloc, from, entry)?);
    Ok(from + 1)
}

/// Puts the entry of a page, into a table made for it where there is none. It returns the entry that
/// the page had.
///
/// # Errors
///
/// Out of memory where a table can't be allocated: nothing changes. None is needed where the page is
/// mapped.
#[inline]
pub(crate) fn insert_in<T: Node>(
    slot: &mut Option<Box<T>>,
    alloc: Global,
    page: u64,
    entry: Entry,
) -> Result<Option<Entry>, AllocError>
    requires fits { T.span ≤ 2 ^ 36 }
    requires kept { IsSlot (λ table. T.at table.value) (λ table. T.IsKept table.value) T.span slot.old }
    requires within { page < T.span }
    ensures kept { IsSlot (λ table. T.at table.value) (λ table. T.IsKept table.value) T.span slot.new }
    ensures before { IfOk result
        (λ before. before ≡ slot_at (λ table. T.at table.value) slot.old page) }
    ensures there { OnOk result (is_some slot.new ≡ true) }
    ensures value { OnOk result ((other : ℕ) → slot_at (λ table. T.at table.value) slot.new other
        ≡ (if other == page then Some entry else slot_at (λ table. T.at table.value) slot.old other)) }
    ensures same { OnErr result (is_some slot.new ≡ is_some slot.old) }
    ensures err { OnErr result ((other : ℕ) → slot_at (λ table. T.at table.value) slot.new other
        ≡ slot_at (λ table. T.at table.value) slot.old other) }
    ensures full { OnErr result (slot_at (λ table. T.at table.value) slot.old page ≡ None) }
{
    if let Some(table) = slot {
        return table.insert(alloc, page, entry);
    }
    *slot = Some(T::with_page(alloc, page, entry)?);
    Ok(None)
}

/// Replaces the entry of a page, which the table has.
#[inline]
pub(crate) fn replace_in<T: Node>(slot: &mut Option<Box<T>>, page: u64, entry: Entry)
    requires fits { T.span ≤ 2 ^ 36 }
    requires kept { IsSlot (λ table. T.at table.value) (λ table. T.IsKept table.value) T.span slot.old }
    requires within { page < T.span }
    requires mapped { IsSome (slot_at (λ table. T.at table.value) slot.old page) }
    ensures kept { IsSlot (λ table. T.at table.value) (λ table. T.IsKept table.value) T.span slot.new }
    ensures there { is_some slot.new ≡ is_some slot.old }
    ensures value { (other : ℕ) → slot_at (λ table. T.at table.value) slot.new other
        ≡ (if other == page then Some entry else slot_at (λ table. T.at table.value) slot.old other) }
{
    if let Some(table) = slot {
        table.replace(page, entry);
    }
}

/// Takes the entry of a page out, and with the last one the table. It returns the entry.
#[inline]
pub(crate) fn remove_in<T: Node>(slot: &mut Option<Box<T>>, page: u64) -> Option<Entry>
    requires fits { T.span ≤ 2 ^ 36 }
    requires kept { IsSlot (λ table. T.at table.value) (λ table. T.IsKept table.value) T.span slot.old }
    requires within { page < T.span }
    ensures kept { IsSlot (λ table. T.at table.value) (λ table. T.IsKept table.value) T.span slot.new }
    ensures there { is_some slot.new ≡ true → is_some slot.old ≡ true }
    ensures before { result ≡ slot_at (λ table. T.at table.value) slot.old page }
    ensures value { (other : ℕ) → slot_at (λ table. T.at table.value) slot.new other
        ≡ (if other == page then None else slot_at (λ table. T.at table.value) slot.old other) }
{
    let before = take_out(slot, page);
    if is_bare(slot) {
        *slot = None;
    }
    before
}

/// Takes the entry of a page out, and returns it. The table may be left without pages.
#[inline]
fn take_out<T: Node>(slot: &mut Option<Box<T>>, page: u64) -> Option<Entry>
    requires fits { T.span ≤ 2 ^ 36 }
    requires kept { IsSlot (λ table. T.at table.value) (λ table. T.IsKept table.value) T.span slot.old }
    requires within { page < T.span }
    ensures kept { ForSome slot.new (λ table. T.IsKept table.value) }
    ensures there { is_some slot.new ≡ is_some slot.old }
    ensures before { result ≡ slot_at (λ table. T.at table.value) slot.old page }
    ensures value { (other : ℕ) → slot_at (λ table. T.at table.value) slot.new other
        ≡ (if other == page then None else slot_at (λ table. T.at table.value) slot.old other) }
{
    match slot {
        Some(table) => table.remove(page),
        None => None,
    }
}

/// Whether there is a table without pages.
#[inline]
fn is_bare<T: Node>(slot: &Option<Box<T>>) -> bool
    requires fits { T.span ≤ 2 ^ 36 }
    requires kept { ForSome slot.now (λ table. T.IsKept table.value) }
    ensures bare { result ≡ true → (page : ℕ) → slot_at (λ table. T.at table.value) slot.now page ≡ None }
    ensures some { result ≡ false
        → IsSlot (λ table. T.at table.value) (λ table. T.IsKept table.value) T.span slot.now }
{
    match slot {
        Some(table) => table.is_empty(),
        None => false,
    }
}
