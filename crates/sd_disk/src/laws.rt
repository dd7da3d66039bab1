//! Laws of what a crash may leave, each the contract of a function that does nothing.
ghost use Rattle.sd_disk.specs.Laws.{CrashOutcomes};

/// What a crash may leave after a call is what it might have left before, with the call done in whole, in part or
/// not at all; after a successful sync, only what has that slot as it reads; and there is no other outcome.
pub fn crash_outcomes()
    ensures { CrashOutcomes }
{}
