//! The memories of a store at two checkpoints, compared.
ghost use Rattle.std.specs.Prelude.{◌≡◌, ◌≢◌, ◌⊎◌, ◌<◌, ℕ, All, length, IfOk, IfErr, IsErrOf};
ghost use Rattle.sd_areas.specs.PlainMemory.{PlainMemory};
ghost use Rattle.sd_disk.specs.Reads.{OnlyReads};
ghost use Rattle.sd_chain.specs.Catalog.{images};
ghost use Rattle.sd_chain.specs.Store.{IsCatalogOf};
ghost use Rattle.sd_chain.specs.Ways.{AreImages};
ghost use Rattle.sd_restore.specs.At.{IsBrokenAt, LacksAt, ShowsAt};
ghost use Rattle.sd_restore.specs.Faulty.{IsDamage};
ghost use Rattle.sd_diff.specs.Difference.{HasBoth, IsDifference};
ghost use Rattle.sd_diff.specs.Faults.{Names};

use crate::diff_fault::DiffFault;
use crate::difference::Difference;
use crate::spaces::diff_spaces;
use sd_chain::Catalog;
use sd_disk::Disk;
use sd_image::one_store;
use sd_restore::{place_at, scan};
use std::alloc::Global;

/// What differs between the memories of a catalog at two checkpoints.
fn diff_from<D: Disk>(
    alloc: Global,
    disk: &mut D,
    catalog: &Catalog,
    old: u64,
    new: u64,
) -> Result<Difference, DiffFault>
    requires images { AreImages catalog.now }
    requires slots { All (λ i. i.slot < length (D.contents disk.old)) (images catalog.now) }
    ensures exact { D.is_honest disk.new → IsCatalogOf (D.contents disk.old) catalog.now
        → (before after : PlainMemory) → ShowsAt (D.contents disk.old) old before
        → ShowsAt (D.contents disk.old) new after → IfOk result (IsDifference before after) }
    ensures shown { IsCatalogOf (D.contents disk.old) catalog.now
        → IfOk result (λ _. HasBoth (D.contents disk.old) old new) }
    ensures named { IsCatalogOf (D.contents disk.old) catalog.now → IfErr result (Names
        (λ number. ((number ≡ old) ⊎ (number ≡ new)) × LacksAt (D.contents disk.old) number)
        (λ slot reason. IsBrokenAt (D.contents disk.old) old slot reason
        ⊎ IsBrokenAt (D.contents disk.old) new slot reason)) }
    ensures good { IsCatalogOf (D.contents disk.old) catalog.now
        → HasBoth (D.contents disk.old) old new → IfErr result (Names (λ _. ⊥) (λ _ _. ⊥)) }
    ensures reads { OnlyReads D.Disk disk.old disk.new }
    ensures device { IsErrOf result DiffFault.Device → D.failed disk.old < D.failed disk.new }
{
    one_store();
    let before = match place_at(alloc, catalog, old) {
        Ok(placed) => placed,
        Err(fault) => return Err(DiffFault::at(old, fault)),
    };
    let after = match place_at(alloc, catalog, new) {
        Ok(placed) => placed,
        Err(fault) => return Err(DiffFault::at(new, fault)),
    };
    match diff_spaces(alloc, disk, &before.runs, &after.runs) {
        Ok(difference) => Ok(difference),
        Err(fault) => Err(DiffFault::at(old, fault)),
    }
}

/// What differs between the memories of a store at two checkpoints, whether one of them is the newest or not. It makes
/// the checks of [`sd_restore::restore_at`] once. Pages that both take from one place of one image aren't read; of the
/// others it holds two at a time.
///
/// # Errors
///
/// `NoCheckpoint` where no dump and no merged image with the number stands in an open slot: the old one's before the
/// new one's. `Damaged` names what `restore_at` names at one of the two. `Device` and `OutOfMemory` end it at once.
pub fn diff<D: Disk>(
    alloc: Global,
    disk: &mut D,
    old: u64,
    new: u64,
) -> Result<Difference, DiffFault>
    // It is exactly what differs between the memories that the store has at the two checkpoints.
    ensures exact { D.is_honest disk.new → (before after : PlainMemory)
        → ShowsAt (D.contents disk.old) old before → ShowsAt (D.contents disk.old) new after
        → IfOk result (IsDifference before after) }
    // And it has both.
    ensures shown { D.is_honest disk.new
        → IfOk result (λ _. HasBoth (D.contents disk.old) old new) }
    ensures named { D.is_honest disk.new → IfErr result (Names
        (λ number. ((number ≡ old) ⊎ (number ≡ new)) × LacksAt (D.contents disk.old) number)
        (λ slot reason. IsDamage (D.contents disk.old) slot reason
        ⊎ (IsBrokenAt (D.contents disk.old) old slot reason
        ⊎ IsBrokenAt (D.contents disk.old) new slot reason))) }
    // A store that has both is never called damaged, nor is a checkpoint called missing.
    ensures good { D.is_honest disk.new → HasBoth (D.contents disk.old) old new
        → IfErr result (Names (λ _. ⊥) (λ _ _. ⊥)) }
    // It only reads: the contents stay, and no crash, afterwards or within it, leaves more than one before it.
    ensures reads { OnlyReads D.Disk disk.old disk.new }
    ensures device { IsErrOf result DiffFault.Device → D.failed disk.old < D.failed disk.new }
{
    match scan(alloc, disk) {
        Ok(catalog) => diff_from(alloc, disk, &catalog, old, new),
        Err(fault) => Err(DiffFault::at(old, fault)),
    }
}
