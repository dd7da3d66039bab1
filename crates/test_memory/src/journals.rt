//! A journal with entries, marks and entries that are held.
ghost use Rattle.std.specs.Prelude.{◌≡◌, []};

use sd_journal::{ENTRY_LIMIT, Entry, Journal, Mark};
use std::alloc::{AllocError, Global};

/// Whether so many entries are free, and so many held.
fn has_room(journal: &Journal, free: usize, held: usize) -> bool {
    journal.free() == free && journal.held() == held
}

/// Whether the first entry and the one after the last have these numbers.
fn has_numbers(journal: &Journal, first: u64, next: u64) -> bool {
    journal.first() == first && journal.next_number() == next
}

/// Whether the entries of an empty journal with room for three are numbered and held.
fn numbers_entries(journal: &mut Journal) -> Result<bool, AllocError>
    requires items { journal.old.items ≡ [] }
    requires held { journal.old.held ≡ 0 }
    requires limit { journal.old.limit ≡ 3 }
{
    journal.hold(2)?;
    let is_held = has_room(journal, 1, 2);
    journal.reserve()?;
    journal.append(Entry::Reopened(None));
    let is_full = journal.free() == 0 && has_numbers(journal, 0, 1);
    journal.reserve_mark()?;
    journal.note(Mark::Start(1));
    journal.append_held(Entry::Freeze(1));
    journal.release(1);
    Ok(is_held && is_full && has_room(journal, 1, 0) && has_numbers(journal, 0, 2))
}

/// Whether entries are a reopening that finds no checkpoint, and a freeze.
fn are_two(entries: &[Entry]) -> bool {
    matches!(entries, [Entry::Reopened(None), Entry::Freeze(1)])
}

fn is_fresh(journal: &Journal) -> bool {
    has_numbers(journal, 0, 0) && journal.free() == ENTRY_LIMIT
}

/// Adds a checkpoint that was acknowledged, named again by a reopening, and a mark after the acknowledgement.
fn save_once(journal: &mut Journal) -> Result<(), AllocError>
    requires items { journal.old.items ≡ [] }
    requires held { journal.old.held ≡ 0 }
    requires limit { journal.old.limit ≡ 8 }
{
    journal.hold(5)?;
    journal.append_held(Entry::Reopened(None));
    journal.reserve_mark()?;
    journal.note(Mark::Start(1));
    journal.append_held(Entry::Freeze(1));
    journal.append_held(Entry::Acked(1));
    journal.reserve_mark()?;
    journal.note(Mark::Start(2));
    journal.append_held(Entry::Reopened(Some(1)));
    Ok(())
}

/// Whether entries are those up to the acknowledgement.
fn are_front(entries: &[Entry]) -> bool {
    matches!(
        entries,
        [Entry::Reopened(None), Entry::Freeze(1), Entry::Acked(1)]
    )
}

/// Whether the entry after the front is left, and has kept its number.
fn is_cut(journal: &Journal) -> bool {
    matches!(journal.entries(), [Entry::Reopened(Some(1))])
        && has_numbers(journal, 3, 4)
        && has_room(journal, 6, 1)
        && journal.ended_at(1) == None
}

/// Whether the front that the checkpoint ended has three entries, and is taken.
fn takes_front(alloc: Global, journal: &mut Journal) -> Result<bool, AllocError> {
    let Some(3) = journal.ended_at(1) else {
        return Ok(false);
    };
    if journal.first() > 1 {
        return Ok(false);
    }
    let room = journal.room_after(alloc, 3)?;
    let taken = journal.take_front(room, 3);
    Ok(are_front(&taken))
}

/// Whether the front of a journal ends with the acknowledgement.
fn has_front(alloc: Global, journal: &mut Journal) -> Result<bool, AllocError>
    requires items { journal.old.items ≡ [] }
    requires held { journal.old.held ≡ 0 }
    requires limit { journal.old.limit ≡ 8 }
{
    save_once(journal)?;
    Ok(journal.ended_at(2) == None && takes_front(alloc, journal)? && is_cut(journal))
}

/// Whether a journal with room for three entries holds and numbers them.
fn holds_entries(alloc: Global) -> Result<bool, AllocError> {
    let mut journal = Journal::with_limit(alloc, 3);
    Ok(numbers_entries(&mut journal)? && are_two(journal.entries()))
}

#[test]
fn entries_are_numbered_held_and_taken(rt: HostRuntime) -> Result<(), AllocError> {
    assert!(rt; is_fresh(&Journal::new(rt.alloc())));
    assert!(rt; holds_entries(rt.alloc())?);
    assert!(rt; has_front(rt.alloc(), &mut Journal::with_limit(rt.alloc(), 8))?);
    Ok(())
}
