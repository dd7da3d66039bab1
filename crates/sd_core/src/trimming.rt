//! Folding the front of a journal into the base.
ghost use Rattle.std.specs.Prelude.{◌≡◌, ◌↔◌, ◌+◌, ◌<◌, ◌≤◌, ◌^◌, reverse, IfOk, IsTrue, OnErr};
ghost use Rattle.sd_journal.specs.Legal.{IsLegal};
ghost use Rattle.sd_journal.specs.Marked.{entries_of};
ghost use Rattle.sd_journal.specs.Trimming.{EndsAt, is_acknowledged};
ghost use Rattle.sd_core.specs.Starts.{base_of};
ghost use Rattle.sd_core.specs.Trims.{FoldsFront, unfolded};

use crate::base::CoreBase;
use sd_fold::fold;
use sd_journal::{Entry, Journal, Origin, marked_trim_laws};
use sd_receipts::Folded;
use std::alloc::{AllocError, Global};

/// The most entries that may be folded in all.
pub(crate) const FOLDED_LIMIT: u64 = 1 << 62;

/// The last checkpoint, unless it is the base's.
pub(crate) fn unfolded(last: Option<u64>, number: Option<u64>) -> Option<u64>
    ensures { result ≡ unfolded last number }
{
    if last == number { None } else { last }
}

/// Whether more entries would have been folded than may be, with so many more.
pub(crate) fn are_too_many(folded: u64, count: usize) -> bool
    ensures { IsTrue result ↔ 2 ^ 62 < folded + count }
{
    folded > FOLDED_LIMIT || count as u64 > FOLDED_LIMIT - folded
}

/// Whether these entries, in order of time, end with an acknowledgement.
fn is_acknowledged(entries: &[Entry]) -> bool
    ensures { result ≡ is_acknowledged (reverse entries.now) }
{
    matches!(entries.last(), Some(Entry::Acked(_)))
}

/// Folds the front of a journal into the base, which then is the checkpoint that the front ended. Returns what was
/// folded.
///
/// # Errors
///
/// Out of memory where a growth was refused: nothing changes.
pub(crate) fn fold_front(
    alloc: Global,
    base: &mut CoreBase,
    journal: &mut Journal,
    checkpoint: u64,
    count: usize,
) -> Result<Folded, AllocError>
    requires legal { IsLegal (base_of base.old) (entries_of journal.old.items) }
    requires ends { EndsAt checkpoint (reverse (entries_of journal.old.items)) count }
    requires some { 0 < count }
    requires first { journal.old.first ≡ base.old.folded }
    requires numbers { base.old.folded + count ≤ 2 ^ 62 }
    ensures ok { IfOk result (λ folded. FoldsFront checkpoint folded base.old journal.old base.new journal.new) }
    ensures base { OnErr result (base_of base.new ≡ base_of base.old) }
    ensures journal { OnErr result (journal.new ≡ journal.old) }
{
    marked_trim_laws();
    let room = journal.room_after(alloc, count)?;
    fold(alloc, &mut base.memory, &journal.entries()[..count])?;
    let entries = journal.take_front(room, count);
    base.number = Some(checkpoint);
    base.memory.checkpoint = checkpoint;
    base.origin = Origin::Trimmed {
        acknowledged: is_acknowledged(&entries),
    };
    let first = base.folded;
    base.folded += count as u64;
    Ok(Folded { first, entries })
}
