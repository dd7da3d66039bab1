//! What has to be kept of a live store, what may be closed, and what whoever makes an image has to show of it.
ghost use Rattle.sd_store_laws.specs.Below.{BelowStays, OwnIsNeeded, StepsGive};
ghost use Rattle.sd_store_laws.specs.Kept.{LiveIsNeeded, RetiresUnneeded, WorkStays};
ghost use Rattle.sd_store_laws.specs.Makers.{AboveIsFresh, DumpShows, MergedRepeats};
ghost use Rattle.sd_store_laws.specs.Needs.{NeedsNoMore, UnneededStays};
ghost use Rattle.sd_store_laws.specs.Pending.{PendingShows};

/// What is needed after a step was needed before, or is the image that the step adds.
pub fn needs_no_more()
    ensures { NeedsNoMore }
{}

/// An image of the catalog that isn't needed stays so through every step, until it is closed.
pub fn unneeded_stays()
    ensures { UnneededStays }
{}

/// What a referenced number gives at a page it gives in whatever is left of the catalog, and nothing else.
pub fn below_stays()
    ensures { BelowStays }
{}

/// It gives the same after each step that changes the catalog.
pub fn steps_give()
    ensures { StepsGive }
{}

/// Where the tip's number names the tip, nothing more is needed if a job asks for that number.
pub fn own_is_needed()
    ensures { OwnIsNeeded }
{}

/// What the store would show with the pending dump stays, while a merged image enters and images are closed.
pub fn pending_shows()
    ensures { PendingShows }
{}

/// The live images, those that the tip, the running checkpoint and the source of a running merge reach, are the
/// needed ones and the source.
pub fn live_is_needed()
    ensures { LiveIsNeeded }
{}

/// What a merge closes are images of the catalog that nobody needs, and no needed image stands in a free slot.
pub fn retires_unneeded()
    ensures { RetiresUnneeded }
{}

/// Each step keeps what a running merge asks for the parent of its source.
pub fn work_stays()
    ensures { WorkStays }
{}

/// An image that leaves no page to a parent, with the source's checkpoint, number and areas and at each page what the
/// source holds, repeats it.
pub fn merged_repeats()
    ensures { MergedRepeats }
{}

/// With a dump of the running checkpoint that has a memory, the images show its checkpoint and that memory.
pub fn dump_shows()
    ensures { DumpShows }
{}

/// An image is fresh whose number is above all numbers of the store.
pub fn above_is_fresh()
    ensures { AboveIsFresh }
{}
