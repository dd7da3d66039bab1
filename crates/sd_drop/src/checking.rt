//! Whether the newest checkpoint needs the image of a slot.
ghost use Rattle.std.specs.Prelude.{◌≡◌, ◌≢◌, ◌⊎◌, ◌<◌, true, false, IfErr, OnOk, IsErrOf};
ghost use Rattle.sd_disk.specs.Reads.{OnlyReads};
ghost use Rattle.sd_image.specs.declared.reason.Reason.{Reason};
ghost use Rattle.sd_chain.specs.Reaches.{ParentsFall};
ghost use Rattle.sd_restore.specs.Faulty.{IsDamage, FaultNames};
ghost use Rattle.sd_restore.specs.declared.fault.Fault.TheVariants.{Damaged};
ghost use Rattle.sd_drop.specs.Errors.{ErrorSays};
ghost use Rattle.sd_drop.specs.Needed.{IsDamagedBeside, IsNeeded, IsUnneeded};
ghost use Rattle.sd_drop.specs.Reached.{IsReachedIn};

use crate::drop_error::DropError;
use crate::others::scan_without;
use crate::reached::is_reached;
use sd_chain::Catalog;
use sd_disk::Disk;
use sd_restore::{Fault, place_newest, scan};
use std::alloc::Global;

/// Checks that the newest checkpoint of a store in order doesn't need the image of a slot.
fn check_reached(catalog: &Catalog, slot: usize) -> Result<(), DropError>
    ensures needed { ParentsFall catalog.now
        → IfErr result (λ error. (error ≡ DropError.Needed) × IsReachedIn catalog.now slot) }
    ensures unneeded { ParentsFall catalog.now → OnOk result (IsReachedIn catalog.now slot → ⊥) }
{
    if is_reached(catalog, slot) {
        return Err(DropError::Needed);
    }
    Ok(())
}

/// Checks that a store shows a memory with a damaged slot counted as closed.
fn check_without<D: Disk>(alloc: Global, disk: &mut D, slot: usize) -> Result<(), DropError>
    requires damage { D.is_honest disk.old
        → (reason : Reason) × IsDamage (D.contents disk.old) slot reason }
    ensures says { D.is_honest disk.new → IfErr result (ErrorSays ⊥
        (IsNeeded (D.contents disk.old) slot) (IsDamagedBeside (D.contents disk.old) slot)) }
    ensures unneeded { D.is_honest disk.new → OnOk result (IsUnneeded (D.contents disk.old) slot) }
    ensures reads { OnlyReads D.Disk disk.old disk.new }
    ensures device { IsErrOf result DropError.Device → D.failed disk.old < D.failed disk.new }
{
    let catalog = match scan_without(alloc, disk, slot) {
        Ok(catalog) => catalog,
        Err(fault) => return Err(DropError::of(fault)),
    };
    match place_newest(alloc, &catalog) {
        Ok(_) => Ok(()),
        Err(fault) => Err(DropError::without(fault)),
    }
}

/// Whether a fault is that a slot is damaged.
fn is_of_slot(fault: Fault, slot: usize) -> bool
    ensures yes { result ≡ true → (reason : Reason) × (fault ≡ Damaged slot reason) }
    ensures no { result ≡ false → (reason : Reason) → fault ≢ Damaged slot reason }
{
    match fault {
        Fault::Damaged { slot: damaged, .. } => damaged == slot,
        Fault::EmptyChain | Fault::Device | Fault::OutOfMemory => false,
    }
}

/// The same where a store wasn't read for a fault: of the slot, or another.
fn check_fault<D: Disk>(
    alloc: Global,
    disk: &mut D,
    slot: usize,
    fault: Fault,
) -> Result<(), DropError>
    requires damage { D.is_honest disk.old → FaultNames (IsDamage (D.contents disk.old)) fault }
    requires empty { fault ≢ Fault.EmptyChain }
    ensures says { D.is_honest disk.new → IfErr result (ErrorSays ⊥
        (IsNeeded (D.contents disk.old) slot) (IsDamagedBeside (D.contents disk.old) slot)) }
    ensures unneeded { D.is_honest disk.new → OnOk result (IsUnneeded (D.contents disk.old) slot) }
    ensures reads { OnlyReads D.Disk disk.old disk.new }
    ensures device { IsErrOf result DropError.Device
        → (fault ≡ Fault.Device) ⊎ (D.failed disk.old < D.failed disk.new) }
{
    if is_of_slot(fault, slot) {
        return check_without(alloc, disk, slot);
    }
    Err(DropError::of(fault))
}

/// Checks that the newest checkpoint doesn't need the image of a slot, which is open. It only reads.
///
/// # Errors
///
/// As [`crate::drop_image`], but for `Closed`.
pub(crate) fn check<D: Disk>(alloc: Global, disk: &mut D, slot: usize) -> Result<(), DropError>
    ensures says { D.is_honest disk.new → IfErr result (ErrorSays ⊥
        (IsNeeded (D.contents disk.old) slot) (IsDamagedBeside (D.contents disk.old) slot)) }
    ensures unneeded { D.is_honest disk.new → OnOk result (IsUnneeded (D.contents disk.old) slot) }
    ensures reads { OnlyReads D.Disk disk.old disk.new }
    ensures device { IsErrOf result DropError.Device → D.failed disk.old < D.failed disk.new }
{
    match scan(alloc, disk) {
        Ok(catalog) => {
            catalog.sound();
            catalog.has_the_images();
            check_reached(&catalog, slot)
        }
        Err(fault) => check_fault(alloc, disk, slot, fault),
    }
}
