//! Folding entries into a base.
ghost use Rattle.std.specs.Prelude.{◌≡◌, reverse, IsTrue, OnOk, OnErr};
ghost use Rattle.std.specs.List.{list_any};
ghost use Rattle.sd_areas.specs.Memory.{memory_of};
ghost use Rattle.sd_journal.specs.History.{Base, memory_after};
ghost use Rattle.sd_journal.specs.Legal.{IsLegal};
ghost use Rattle.sd_fold.specs.Effective.{is_effective};

use crate::effective::any_effective;
use crate::effects::changes_by;
use crate::room::make_room;
use crate::settling::settle;
use sd_areas::Snapshot;
use sd_journal::Entry;
use std::alloc::{AllocError, Global};

/// Makes of a memory what the entries of a legal journal make of it. The checkpoint number that stands beside the
/// memory stays.
///
/// What the entries change is made beside the memory, then room is made in it for all that is new, and then the changes
/// are put in, which needs no memory. So the time is that of the entries and of the pages that they touch.
///
/// # Errors
///
/// Out of memory where a growth was refused, which is only where an entry changes a memory: a command that was carried
/// out and stores, maps, unmaps, protects, forks or exits. The memory is as before.
pub fn fold(alloc: Global, base: &mut Snapshot, entries: &[Entry]) -> Result<(), AllocError>
    requires legal { (start : Base) × (start.memory ≡ memory_of base.old)
        × IsLegal start (reverse entries.now) }
    ensures ok { (start : Base) → start.memory ≡ memory_of base.old
        → OnOk result (memory_of base.new ≡ memory_after start (reverse entries.now)) }
    ensures some { OnErr result (IsTrue (list_any is_effective entries.now)) }
    ensures err { OnErr result (memory_of base.new ≡ memory_of base.old) }
    ensures checkpoint { base.new.checkpoint ≡ base.old.checkpoint }
{
    if !any_effective(entries) {
        return Ok(());
    }
    let overlay = changes_by(alloc, base, entries)?;
    let left = make_room(alloc, base, overlay)?;
    settle(base, left);
    Ok(())
}
