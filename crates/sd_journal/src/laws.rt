//! Laws of journals, each the contract of a function that does nothing.
ghost use Rattle.sd_journal.specs.Laws.{JournalLaws};
ghost use Rattle.sd_journal.specs.RunLaws.{RunLaws};
ghost use Rattle.sd_journal.specs.TrackedLaws.{TrackedLaws, MustDumpLaws};
ghost use Rattle.sd_journal.specs.Trimming.{MarkedTrimLaws, TrimLaws};
ghost use Rattle.sd_journal.specs.Worked.{WorkedJournals};

use sd_command::effect_law as command_law;
use sd_pagetable::{clear_law, effect_law, page_law, plain_law};

/// What each entry of a legal journal makes of what it allows to be shown.
pub fn journal_laws()
    ensures { JournalLaws }
{}

/// What a journal says is what its entries say of the last and the pending checkpoint.
pub fn run_laws()
    ensures { RunLaws }
{}

/// A memory stays tracked by its marked journal, with one item more of each kind.
pub fn tracked_laws()
    ensures { TrackedLaws }
{
    command_law();
    effect_law();
    plain_law();
    page_law();
    clear_law();
}

/// Which pages a dump finds soft-dirty: those that were touched since their last visit, or never visited.
pub fn must_dump_laws()
    ensures { MustDumpLaws }
{}

/// What a trim leaves of a legal journal: it makes the same memory, allows the same to be shown, and goes on from the
/// checkpoint whose entries were folded.
pub fn trim_laws()
    ensures { TrimLaws }
{}

/// What a trim leaves of a marked journal: its marks are of the same visits, and where each page of the folded memory
/// was visited, the memory stays tracked, with the pages to be dumped that had to be.
pub fn marked_trim_laws()
    ensures { MarkedTrimLaws }
{
    plain_law();
}

/// Journals of two checkpoints, worked out one entry after the other.
pub fn worked_journals()
    ensures { WorkedJournals }
{}
