//! What follows from a core's steps. Each law is the contract of a function that does nothing: of a step of a core that
//! is sound before it, and where it says so after it, all that is said of the call that made it.
ghost use Rattle.std.specs.Prelude.{◌≡◌, ℕ, None, Result};
ghost use Rattle.sd_command.specs.declared.command.Command.{Command};
ghost use Rattle.sd_command.specs.declared.refusal.Refusal.{Refusal};
ghost use Rattle.sd_command.specs.declared.reply.Reply.{Reply};
ghost use Rattle.sd_gate.specs.declared.worker.Worker.TheVariants.{Dumper, Merger, Opener};
ghost use Rattle.sd_gate.specs.Requests.{Made};
ghost use Rattle.sd_crash_safety.specs.View.{CoreView};
ghost use Rattle.sd_core.specs.declared.taken.Taken.{Taken};
ghost use Rattle.sd_core.specs.Called.{IsApplied, IsBegun, IsCancelOrder, IsHandedIn, IsMergeOrder, IsReopenOrder};
ghost use Rattle.sd_core.specs.Called.{IsTakenUp};
ghost use Rattle.sd_core.specs.Next.{NextByBegin, NextByCancel, NextByCommand, NextByDumper, NextByMerge, NextByMerger};
ghost use Rattle.sd_core.specs.Next.{NextByOpener, NextByOutcome, NextByReopen};
ghost use Rattle.sd_core.specs.Refusals.{work_refusal};
ghost use Rattle.sd_core.specs.SoundView.{IsSoundView};

use crate::laws::journal_laws;
use sd_chain::Catalog;
use sd_crash_safety::{
    beginning_law, cancelling_law, core_steps, dumper_outcomes, dumper_steps, merge_beginning_law,
    merger_outcomes, merger_steps, opener_finds, opener_steps, reopened_law,
};
use sd_free_slots::free_law;
use sd_journal::tracked_laws;
use sd_pagetable::plain_law;
use sd_rounds::rises_law;

/// A command.
pub(crate) fn command_law()
    ensures { (seat : ℕ) (command : Command) (told : Result (ℕ × Reply) Refusal) (old new : CoreView)
        → IsSoundView old → NextByCommand seat command old told new
        → IsApplied seat command told old new }
{
    core_steps();
}

/// The order to begin a checkpoint, over the catalog of the core.
pub(crate) fn begin_law(catalog: &Catalog)
    ensures { (rounds : ℕ) (old : CoreView) (answer : Reply) (new : CoreView) → IsSoundView old
        → old.catalog ≡ catalog.now → NextByBegin rounds old answer new
        → IsBegun rounds answer old new }
{
    beginning_law(catalog);
    core_steps();
    free_law();
}

/// The order to begin a merge, over the catalog of the core.
pub(crate) fn merge_order_law(catalog: &Catalog)
    ensures { (old : CoreView) (answer : Reply) (new : CoreView) → IsSoundView old → old.catalog ≡ catalog.now
        → NextByMerge old answer new
        → IsMergeOrder answer old new }
{
    merge_beginning_law(catalog);
    core_steps();
    free_law();
}

/// The order to cancel.
pub(crate) fn cancel_law()
    ensures { (old : CoreView) (answer : Reply) (new : CoreView) → IsSoundView old → NextByCancel old answer new
        → IsCancelOrder answer old new }
{
    cancelling_law();
    core_steps();
}

/// The order to open the store again.
pub(crate) fn reopen_law()
    ensures { (old : CoreView) (answer : Reply) (new : CoreView) → IsSoundView old → NextByReopen old answer new
        → IsReopenOrder answer old new }
{
    opener_steps();
    core_steps();
}

/// A step of the dumper.
pub(crate) fn dumper_law()
    ensures { (old : CoreView) (made : Taken) (new : CoreView) → IsSoundView old → work_refusal old Dumper ≡ None
        → NextByDumper old made new
        → IsTakenUp Dumper old made new }
{
    core_steps();
    dumper_steps();
    tracked_laws();
    rises_law();
    sd_rounds::left_law();
}

/// A step of the merger, over the catalog of the core after it.
pub(crate) fn merger_law(catalog: &Catalog)
    ensures { (old : CoreView) (made : Taken) (new : CoreView) → IsSoundView old → work_refusal old Merger ≡ None
        → new.catalog ≡ catalog.now → NextByMerger old made new
        → IsTakenUp Merger old made new }
{
    merger_steps(catalog);
    core_steps();
    sd_merge::left_law();
}

/// A step of the opener, of a core that is sound after it too.
pub(crate) fn opener_law()
    ensures { (old : CoreView) (made : Taken) (new : CoreView) → IsSoundView old → IsSoundView new
        → work_refusal old Opener ≡ None → NextByOpener old made new
        → IsTakenUp Opener old made new }
{
    opener_steps();
    opener_finds();
    reopened_law();
    core_steps();
    tracked_laws();
    plain_law();
}

/// An outcome, of a core that is sound after it too, over its catalog then.
pub(crate) fn outcome_law(catalog: &Catalog)
    ensures { (old : CoreView) (made : Made) (answer : Reply) (new : CoreView) → IsSoundView old → IsSoundView new
        → new.catalog ≡ catalog.now → NextByOutcome old made answer new
        → IsHandedIn made answer old new }
{
    dumper_outcomes();
    merger_outcomes(catalog);
    opener_steps();
    journal_laws();
    sd_rounds::left_law();
    sd_merge::left_law();
    plain_law();
}
