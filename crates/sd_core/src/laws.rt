//! What the steps and the outcomes of a core's workers rest on. Each function does nothing: a caller learns its laws.
ghost use Rattle.sd_journal.specs.TrackedLaws.{MustDumpLaws, TrackedLaws};
ghost use Rattle.sd_rounds.specs.Dumper.{AreRunning as MakesInOrder};
ghost use Rattle.sd_rounds.specs.LittleWork.{LittleLaws};
ghost use Rattle.sd_merge.specs.Merger.{AreRunning, HasSoundCopy};

use sd_journal::{must_dump_laws, tracked_laws};
use sd_merge::Merger;
use sd_rounds::{Dumper, little_law};

/// The laws of a journal with marks, and of the pages that a dump takes.
#[inline]
pub(crate) fn journal_laws()
    ensures tracked { TrackedLaws }
    ensures due { MustDumpLaws }
    ensures little { LittleLaws }
{
    tracked_laws();
    must_dump_laws();
    little_law();
}

/// What holds of both workers.
#[inline]
pub(crate) fn merging_laws(merger: &Merger, dumper: &Dumper)
    ensures running { AreRunning merger.now }
    ensures copy { HasSoundCopy merger.now }
    ensures makes { MakesInOrder dumper.now.since_freeze dumper.now.running }
{
    merger.sound();
    dumper.sound();
}
