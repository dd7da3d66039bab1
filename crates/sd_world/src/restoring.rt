//! Reading back what a crash left.
ghost use Rattle.std.specs.Prelude.{◌<◌, IsErrOf};
ghost use Rattle.sd_image.specs.Shows.{Shows};
ghost use Rattle.sd_journal.specs.Allowed.{Shown};
ghost use Rattle.sd_journal.specs.History.{Base, History};
ghost use Rattle.sd_crash_safety.specs.Shown.{ShowsAllowed};
ghost use Rattle.sd_world.specs.Restored.{IsRestored, IsRestoredAs};

use sd_areas::Snapshot;
use sd_disk::Disk;
use sd_image::shown_once;
use sd_restore::{Fault, restore};
use std::alloc::Global;

/// Restores a disk that holds what a crash left: where its contents show what a journal allows, what is restored is
/// exactly the pair that they show, or the empty chain where nothing was saved.
pub fn restore_left<D: Disk>(alloc: Global, disk: &mut D) -> Result<Snapshot, Fault>
    ensures restored { (base : Base) (history : History) → D.is_honest disk.new
        → ShowsAllowed base history (D.contents disk.old) → IsRestored base history result }
    // The same, of what the contents show.
    ensures given { (shown : Shown) → D.is_honest disk.new → Shows (D.contents disk.old) shown
        → IsRestoredAs shown result }
    ensures device { IsErrOf result Fault.Device → D.failed disk.old < D.failed disk.new }
{
    shown_once();
    restore(alloc, disk)
}
