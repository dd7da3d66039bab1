//! How the beliefs about slots follow the phases of the slots, and the catalog the beliefs.
ghost use Rattle.sd_store_laws.specs.Gates.{BeliefsWeaken, GivenUpIsBelieved};
ghost use Rattle.sd_store_laws.specs.GateSteps.{BeliefsFollowCalls, FilesAreBelieved, FoundIsExact, GivenUpSyncs};
ghost use Rattle.sd_store_laws.specs.GateSteps.{OneBeliefChanges, SyncedIsFound};
ghost use Rattle.sd_store_laws.specs.LiveImages.{CatalogFollows, LiveCatalogAgrees, CatalogIsFound, RecordedReachesSo};
ghost use Rattle.sd_store_laws.specs.SlotSteps.{ClosingRetires, SlotsDrop};

use sd_chain::Catalog;
use sd_disk::Disk;
use sd_gate::found_fits;
use sd_image::one_image;

/// A slot that is being opened may be formatted: its image, that was given up, is in no catalog.
pub fn slots_drop()
    ensures { SlotsDrop }
{}

/// A catalog without the image that a slot is closing is a list, and has all that is needed.
pub fn closing_retires()
    ensures { ClosingRetires }
{}

/// A slot may be believed as its phase says it is, and less: what is kept or closed may be believed to be closing or
/// opening.
pub fn beliefs_weaken()
    ensures { BeliefsWeaken }
{}

/// A belief that a slot's phase allows is allowed after each call, done or failed, but an open and the close of a whole
/// file: these weaken it first, and a sync that is done makes it strong again. Giving up the slot's job leaves it.
pub fn beliefs_follow_calls()
    ensures { BeliefsFollowCalls }
{}

/// Where one slot's phase, body and belief change, the other slots are believed as before.
pub fn one_belief_changes()
    ensures { OneBeliefChanges }
{}

/// Where all jobs are given up, as when a store goes down, each slot is believed as before.
pub fn given_up_is_believed()
    ensures { GivenUpIsBelieved }
{}

/// A slot that was found closed, or with its image, is believed so in the phase that its file shows.
pub fn found_is_believed()
    ensures { FilesAreBelieved }
{}

/// A slot that was synced, or is shorter than a header for sure, is in the phase that its file shows, whatever was
/// known of it before.
pub fn synced_is_found<D: Disk>(disk: &D)
    ensures { SyncedIsFound (D.contents disk.now) (D.may_leave disk.now) }
{
    found_fits(disk);
}

/// Slots that were found are believed to be exactly what the phases say that their files show.
pub fn found_is_exact()
    ensures { FoundIsExact }
{}

/// After its job was given up and it was synced, each slot is such a one.
pub fn given_up_syncs()
    ensures { GivenUpSyncs }
{}

/// A catalog whose images are those that the slots keep or are closing describes the store: by [`Catalog::agrees`] the
/// tip, what numbers name and where pages lie are the store's.
pub fn live_catalog_agrees(catalog: &Catalog)
    ensures { LiveCatalogAgrees catalog.now }
{
    catalog.sound();
}

/// What an image of a catalog reaches is what the image reaches that it stands for. So [`Catalog::reachable`] finds it.
pub fn recorded_reaches_so(catalog: &Catalog)
    ensures { RecordedReachesSo catalog.now }
{
    catalog.agrees();
}

/// The catalog of contents is that of the slots as they are found.
pub fn catalog_is_found()
    ensures { CatalogIsFound }
{
    one_image();
}

/// A catalog follows the slots: an image that was opened is added, and that of a slot that was closed is removed.
pub fn catalog_follows()
    ensures { CatalogFollows }
{}
