//! Laws of memories, each the contract of a function that does nothing.
ghost use Rattle.sd_pagetable.specs.Law.{TrackingLaw, ClearLaw, PlainLaw, PageLimitLaw};
ghost use Rattle.sd_pagetable.specs.Tracking.{TracksLaw};
ghost use Rattle.sd_pagetable.specs.PageLaw.{PageLaw, CleanLaw};
ghost use Rattle.sd_pagetable.specs.EventEffects.{EventEffectLaw};

/// After every list of calls and clears a mapped page is soft-dirty exactly where something since its last clear
/// touched it, or it was never cleared; it is writable exactly where a fault or store was accepted at it and nothing
/// since write-protected it; and a try of a store that is permitted needs a fault exactly where the page isn't
/// writable. After the kernel document `soft-dirty`.
pub fn tracking_law()
    ensures { TrackingLaw }
{}

/// The law by one event: a memory that begins has the bits of the empty history, and one event more keeps the bits
/// those that the history says. A caller that makes one call after the other needs no memory of the start.
pub fn tracks_law()
    ensures { TracksLaw }
{}

/// Each page after an event was there before, with its bits and its bytes changed as the event says, or was made by it.
pub fn page_law()
    ensures { PageLaw }
{}

/// A page that is clean after an event other than its own clear was clean before, with the same bytes.
pub fn clean_law()
    ensures { CleanLaw }
{}

/// What an event makes of the plain memory: a history gives it alone.
pub fn effect_law()
    ensures { EventEffectLaw }
{}

/// What a clear does to each page.
pub fn clear_law()
    ensures { ClearLaw }
{}

/// What the plain memory and the areas of a memory have at each page.
pub fn plain_law()
    ensures { PlainLaw }
{}

/// The spaces have together at most 65,536 pages.
pub fn count_law()
    ensures { PageLimitLaw }
{}
