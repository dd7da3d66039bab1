//! What a set of images shows, whatever a crash leaves of it. Each law is the contract of a function that does nothing.
ghost use Rattle.sd_store_laws.specs.Beliefs.{ContentsShow, LeftImagesShow};
ghost use Rattle.sd_store_laws.specs.Cut.{CutHoldsTheSame, CutShowsTheSame, CutShowsLastOrPending};
ghost use Rattle.sd_store_laws.specs.Gates.{LeftAsBelieved};
ghost use Rattle.sd_store_laws.specs.ShownStays.{DumpIsPending, PreDumpLeavesShown, MergedCopyLeavesShown};
ghost use Rattle.sd_store_laws.specs.ShownStays.{UnusedIsUncalled};
ghost use Rattle.sd_store_laws.specs.Needed.{NeededIsReached};
ghost use Rattle.sd_store_laws.specs.SlotSteps.{SlotsAreFound, SlotsFollowCalls, SlotsFollowImages, SlotsFollowJobs};
ghost use Rattle.sd_store_laws.specs.Stays.{DumpStays, FreshStays, SourceReachesNeeded, MergedCopyStays};
ghost use Rattle.sd_store_laws.specs.Steps.{StepsKeep};
ghost use Rattle.sd_store_laws.specs.Opens.{OpenedIsSound, OrderIsFree, StepsShow};
ghost use Rattle.sd_store_laws.specs.Reached.{CatalogFalls, CatalogReachesSo};
ghost use Rattle.std.specs.Prelude.{ℕ, List};
ghost use Rattle.sd_store_laws.specs.Worked.{ChainRows, MergeBesideRound, WhyItGrows};
ghost use Rattle.sd_store_laws.specs.WorkedSlots.{DumpInDoubt, MergeAfterTip, PreDumpGivenUp};

use sd_chain::Catalog;
use sd_gate::image_whole_or_closed;

/// What an image of a catalog reaches is what the image of the store's contents reaches. So [`Catalog::reachable`]
/// finds exactly the serials of what is reached.
pub fn catalog_reaches_so(catalog: &Catalog)
    ensures falls { CatalogFalls catalog.now }
    ensures reached { CatalogReachesSo catalog.now }
{
    catalog.has_the_images();
}

/// An image is needed exactly where the tip, or what a job's number names, reaches it.
pub fn needed_is_reached()
    ensures { NeededIsReached }
{}

/// All needed images of a catalog, with any others of it and any that leave what is shown, show what the catalog shows.
pub fn cut_shows_the_same()
    ensures { CutShowsTheSame }
{}

/// In what is left, an image whose parent number is referenced holds what it holds in the catalog, and nothing else.
pub fn cut_holds_the_same()
    ensures { CutHoldsTheSame }
{}

/// With a pending dump among those being added they show that, or the pending checkpoint and its memory.
pub fn cut_shows_last_or_pending()
    ensures { CutShowsLastOrPending }
{}

/// A number that no image and no job has isn't referenced.
pub fn unused_is_uncalled()
    ensures { UnusedIsUncalled }
{}

/// A pre-dump that stands for an unused number leaves what is shown.
pub fn pre_dump_leaves_shown()
    ensures { PreDumpLeavesShown }
{}

/// An image that repeats the source of a merge leaves what is shown.
pub fn merged_copy_leaves_shown()
    ensures { MergedCopyLeavesShown }
{}

/// A dump that stands for an unused number and names a job's number is pending, where its checkpoint is above all
/// others.
pub fn dump_is_pending()
    ensures { DumpIsPending }
{}

/// Each step keeps a store sound.
pub fn steps_keep()
    ensures { StepsKeep }
{}

/// What the source of a running merge reaches is needed, itself aside.
pub fn source_reaches_needed()
    ensures { SourceReachesNeeded }
{}

/// A store that is read without a fault is sound as it is opened.
pub fn opened_is_sound()
    ensures { OpenedIsSound }
{}

/// What is shown depends on which images there are, and not on their order.
pub fn order_is_free()
    ensures { OrderIsFree }
{}

/// Only a commit changes what a store shows.
pub fn steps_show()
    ensures { StepsShow }
{}

/// What is new about an image to come stays new through the steps that others make meanwhile.
pub fn fresh_stays()
    ensures { FreshStays }
{}

/// A dump of the running checkpoint stays its next image while a merge begins, ends, and closes images.
pub fn dump_stays()
    ensures { DumpStays }
{}

/// A merged image goes on repeating its source while images of the running checkpoint enter the catalog, and others are
/// closed.
pub fn merged_copy_stays()
    ensures { MergedCopyStays }
{}

/// The slots of a store that is read without a fault are those of the store as it is opened: each is closed, or keeps
/// its image.
pub fn slots_are_found()
    ensures { SlotsAreFound }
{}

/// How the beliefs about slots follow the calls on one slot: its gate begins to be opened or closed, or it is closed
/// and its image leaves the catalog.
pub fn slots_follow_calls()
    ensures { SlotsFollowCalls }
{}

/// They follow an image that enters the catalog: a pre-dump, the pending dump, or the image of the running merge.
pub fn slots_follow_images()
    ensures { SlotsFollowImages }
{}

/// A checkpoint or a merge that begins, and a checkpoint that is cancelled, leave the beliefs about slots.
pub fn slots_follow_jobs()
    ensures { SlotsFollowJobs }
{}

/// Whatever a crash leaves of a sound store's slots shows what the store shows, or the pending checkpoint and its
/// memory.
pub fn left_images_show()
    ensures { LeftImagesShow }
{}

/// The same of contents: where each slot's file is as believed, they show what the store shows, or the pending
/// checkpoint and its memory.
pub fn contents_show()
    ensures { ContentsShow }
{}

/// What a crash leaves of slots in their phases is as believed: no image before the gate is opened, none or the whole
/// one while it is opened or closed, and the image once the open gate is synced.
pub fn left_as_believed()
    ensures { LeftAsBelieved }
{
    image_whole_or_closed();
}

/// Worked stores of one page: a dump, a second one that names it, and a merged image in the first one's place; a merge
/// beside a round, with the gates of both images being opened; and a store whose tip isn't named by its own number,
/// where an incremental checkpoint would show other bytes.
pub fn worked_stores()
    ensures chain { (bytes other : List ℕ) → ChainRows bytes other }
    ensures busy { (bytes : List ℕ) → MergeBesideRound bytes }
    ensures grows { (bytes other : List ℕ) → WhyItGrows bytes other }
{}

/// Worked stores with their slots: a pre-dump that is given up and formatted; a store that goes down with its dump in
/// doubt, and is opened without it or with it; and a merge whose source isn't the tip any more.
pub fn worked_slots()
    ensures pre_dump { (bytes other : List ℕ) → PreDumpGivenUp bytes other }
    ensures doubt { (bytes : List ℕ) → DumpInDoubt bytes }
    ensures behind { (bytes : List ℕ) → MergeAfterTip bytes }
{}
