//! The memory that a journal makes of the one that its run started from.
ghost use Rattle.std.specs.Prelude.{◌≡◌, reverse, IfOk};
ghost use Rattle.sd_areas.specs.Memory.{memory_of};
ghost use Rattle.sd_journal.specs.History.{Base, memory_after};
ghost use Rattle.sd_journal.specs.Legal.{IsLegal};

use crate::folding::fold;
use sd_areas::Snapshot;
use sd_journal::Entry;
use std::alloc::{AllocError, Global};

/// The memory that the entries of a legal journal make of the one that a run started from, which is given away: one
/// that is still needed is copied first, and else [`fold`] does the same in place.
///
/// # Errors
///
/// Out of memory where a growth was refused.
pub fn replay(alloc: Global, base: Snapshot, entries: &[Entry]) -> Result<Snapshot, AllocError>
    requires legal { (start : Base) × (start.memory ≡ memory_of base)
        × IsLegal start (reverse entries.now) }
    ensures { (start : Base) → start.memory ≡ memory_of base
        → IfOk result (λ made. memory_of made ≡ memory_after start (reverse entries.now)) }
{
    let mut memory = base;
    fold(alloc, &mut memory, entries)?;
    Ok(memory)
}
