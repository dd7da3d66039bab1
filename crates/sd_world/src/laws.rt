//! What each event of a world rests on.
ghost use Rattle.sd_gate.specs.Laws.{WritesCommute};
ghost use Rattle.sd_store_laws.specs.Beliefs.{ContentsShow};
ghost use Rattle.sd_store_laws.specs.Gates.{LeftAsBelieved};
ghost use Rattle.sd_crash_safety.specs.Laws.{PerformedIsBelieved};
ghost use Rattle.sd_world.specs.Made.{IsSoundCore, IsSoundDisk};

use sd_core::Core;
use sd_crash_safety::performed_law;
use sd_disk::Disk;
use sd_gate::{given_up_fits, writes_commute};
use sd_store_laws::{contents_show, left_as_believed, synced_is_found};

/// The laws of device calls, and of what a crash leaves. It does nothing: a caller learns them.
#[inline]
pub(crate) fn store_laws()
    ensures performed { PerformedIsBelieved }
    ensures commute { WritesCommute }
    ensures left { LeftAsBelieved }
    ensures show { ContentsShow }
{
    performed_law();
    writes_commute();
    left_as_believed();
    contents_show();
}

/// What is so of every core and of every disk. It does nothing: a caller learns it.
#[inline]
pub(crate) fn world_laws<D: Disk>(core: &Core, disk: &D)
    ensures core { IsSoundCore core.now }
    ensures disk { IsSoundDisk D.Disk disk.now }
{
    given_up_fits(disk);
    synced_is_found(disk);
    core.goes_on();
    core.merged_stands();
    core.pre_dumps_rest();
    core.pre_dumps();
    core.sound();
}
