//! What a store shows against what the journal of a core allows.
ghost use Rattle.std.specs.Prelude.{◌≡◌, ◌≢◌, ◌↔◌, ◌⊎◌, ◌<◌, ℕ, Option, Err, IfOk, IfErr, IsErrOf, IsTrue};
ghost use Rattle.sd_areas.specs.PlainMemory.{PlainMemory};
ghost use Rattle.sd_crash_safety.specs.Shown.{ShowsAllowed};
ghost use Rattle.sd_crash_safety.specs.View.{history_of};
ghost use Rattle.sd_disk.specs.Reads.{OnlyReads};
ghost use Rattle.sd_image.specs.Shows.{Shows};
ghost use Rattle.sd_restore.specs.Faulty.{FaultNames, IsBrokenChain, IsDamage};

use sd_audit::audit as audit_entries;
use sd_core::Core;
use sd_disk::Disk;
use sd_journal::{journal_laws, tracked_laws};
use sd_restore::Fault;
use std::alloc::Global;

/// Whether the contents of a disk show a pair that the journal of a core allows: the last checkpoint with the memory at
/// its freeze, or the pending one; or nothing saved, where nothing was. It replays the journal on plain memory,
/// restores the disk, and compares. It only reads.
///
/// # Errors
///
/// Those of `restore`, but for the empty chain. `OutOfMemory` also where the replay takes memory.
pub fn audit<D: Disk>(alloc: Global, core: &Core, disk: &mut D) -> Result<bool, Fault>
    ensures exact { D.is_honest disk.new → IfOk result (λ told. IsTrue told
        ↔ ShowsAllowed core.now.base (history_of core.now) (D.contents disk.old)) }
    ensures damaged { D.is_honest disk.new
        → IfErr result (FaultNames
        (λ slot reason. IsDamage (D.contents disk.old) slot reason
        ⊎ IsBrokenChain (D.contents disk.old) slot reason)) }
    // Contents that show something are never called damaged.
    ensures good { D.is_honest disk.new → (shown : Option (ℕ × PlainMemory))
        → Shows (D.contents disk.old) shown → IfErr result (FaultNames (λ _ _. ⊥)) }
    ensures saved { result ≢ Err Fault.EmptyChain }
    ensures reads { OnlyReads D.Disk disk.old disk.new }
    ensures device { IsErrOf result Fault.Device → D.failed disk.old < D.failed disk.new }
    // A failed call ends it.
    ensures stops { D.failed disk.old < D.failed disk.new → IsErrOf result Fault.Device }
{
    tracked_laws();
    journal_laws();
    core.sound();
    let entries = core.journal().entries();
    audit_entries(alloc, core.base_number(), core.base(), entries, disk)
}
