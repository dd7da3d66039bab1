//! The numbers of the last and of the pending checkpoint, as a run's entries give them.
ghost use Rattle.std.specs.Prelude.{◌≡◌, ◌∷◌, reverse};
ghost use Rattle.sd_journal.specs.History.{Base, History, last, pending, unless_it_is};

use crate::entry::Entry;

/// The number of the last checkpoint: that in the latest acknowledgement or reopening, else the one that the run
/// started from.
pub fn last_number(number: Option<u64>, entries: &[Entry]) -> Option<u64>
    ensures { (base : Base) → base.number ≡ number → result ≡ last base (reverse entries.now) }
{
    let mut found = number;
    for entry in entries {
        found = last_after(found, entry);
    }
    found
}

/// The number of the last checkpoint, with one more entry.
fn last_after(before: Option<u64>, entry: &Entry) -> Option<u64>
    ensures { (base : Base) (earlier : History) → before ≡ last base earlier
        → result ≡ last base (entry.now ∷ earlier) }
{
    match entry {
        Entry::Acked(number) => Some(*number),
        Entry::Reopened(number) => *number,
        _ => before,
    }
}

/// The number of the pending checkpoint: of a freeze after which the entries neither acknowledge nor cancel it, and
/// have no reopening.
pub fn pending_number(entries: &[Entry]) -> Option<u64>
    ensures { result ≡ pending (reverse entries.now) }
{
    let mut found = None;
    for entry in entries {
        found = pending_after(found, entry);
    }
    found
}

/// The number of the pending checkpoint, with one more entry.
pub(crate) fn pending_after(before: Option<u64>, entry: &Entry) -> Option<u64>
    ensures { (earlier : History) → before ≡ pending earlier
        → result ≡ pending (entry.now ∷ earlier) }
{
    match entry {
        Entry::Applied { .. } => before,
        Entry::Freeze(number) => Some(*number),
        Entry::Acked(number) | Entry::Cancelled(number) => unless_it_is(*number, before),
        Entry::Reopened(_) => None,
    }
}

/// A pending checkpoint's number, unless it is the one that ended.
fn unless_it_is(ended: u64, before: Option<u64>) -> Option<u64>
    ensures { result ≡ unless_it_is ended before }
{
    if before == Some(ended) { None } else { before }
}
