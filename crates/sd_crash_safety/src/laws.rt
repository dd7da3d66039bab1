//! What a core goes on believing. Each law is the contract of a function that does nothing.
ghost use Rattle.sd_crash_safety.specs.CheckpointSteps.{BeginningIsBelieved, CancellingIsBelieved};
ghost use Rattle.sd_crash_safety.specs.CoreSteps.{CoreSteps};
ghost use Rattle.sd_crash_safety.specs.DumperOutcomes.{DumperOutcomes};
ghost use Rattle.sd_crash_safety.specs.DumperSteps.{DumperSteps};
ghost use Rattle.sd_crash_safety.specs.GateSteps.{GateSteps};
ghost use Rattle.sd_crash_safety.specs.Laws.{FoundIsBelieved, LeftShowsAllowed, OpenerFinds, PerformedIsBelieved};
ghost use Rattle.sd_crash_safety.specs.Laws.{ReopenedIsBelieved};
ghost use Rattle.sd_crash_safety.specs.MergerOutcomes.{MergerOutcomes};
ghost use Rattle.sd_crash_safety.specs.MergerSteps.{MergeBeginningIsBelieved, MergerSteps};
ghost use Rattle.sd_crash_safety.specs.OpenerSteps.{OpenerSteps};
ghost use Rattle.sd_crash_safety.specs.StoreSteps.{QuietSteps};
ghost use Rattle.sd_crash_safety.specs.Trims.{TrimStep};

use sd_chain::Catalog;
use sd_gate::{bodies_fill, plans_lead, writes_commute};
use sd_image::page_in_file;
use sd_journal::{journal_laws, marked_trim_laws, trim_laws};
use sd_merge::{merge_law, merged_file_law};
use sd_rounds::{file_law, keeps_law, made_law, making_law};
use sd_store_laws::{
    beliefs_follow_calls, catalog_follows, catalog_is_found, closing_retires, contents_show,
    cut_holds_the_same, dump_shows, found_is_believed, found_is_exact, given_up_syncs,
    left_as_believed, live_catalog_agrees, merged_repeats, needed_is_reached, needs_no_more,
    one_belief_changes, opened_is_sound, pending_shows, recorded_reaches_so, slots_are_found,
    slots_drop, slots_follow_calls, slots_follow_images, slots_follow_jobs, source_reaches_needed,
    steps_give, steps_keep, steps_show, unused_is_uncalled,
};

/// A device call that was made leaves what is believed: its request is still out, as its outcome wasn't handed in.
pub fn performed_law()
    ensures { PerformedIsBelieved }
{}

/// Files of slots that were synced, and that show the last checkpoint, are believed to do so.
pub fn found_law()
    ensures { FoundIsBelieved }
{
    catalog_is_found();
    found_is_believed();
    found_is_exact();
    opened_is_sound();
    slots_are_found();
}

/// Whatever a crash leaves of the slots shows a pair that the journal allows.
pub fn left_law()
    ensures { LeftShowsAllowed }
{
    left_as_believed();
    contents_show();
}

/// An opener that rests sees the files, and what a crash could have left of them shows the last checkpoint, or, where
/// the opening of its dump's gate was taken up, the pending one.
pub fn opener_finds()
    ensures { OpenerFinds }
{
    left_as_believed();
    contents_show();
}

/// A store that is opened again is believed to show what its files show, which is what a crash could have left.
pub fn reopened_law()
    ensures { ReopenedIsBelieved }
{
    left_law();
    found_law();
    journal_laws();
}

/// Steps that leave what is believed of the slots: requests and outcomes that open and close nothing, jobs that are
/// given up, commands, a freeze, and a checkpoint that is cancelled before its dump's gate is opened.
pub fn quiet_steps()
    ensures { QuietSteps }
{
    beliefs_follow_calls();
    one_belief_changes();
    journal_laws();
}

/// Steps that leave the store: nothing that is known of it changes, or a command is applied.
pub fn core_steps()
    ensures { CoreSteps }
{
    quiet_steps();
    keeps_law();
    making_law();
}

/// A trim of the journal leaves what is believed.
pub fn trim_step()
    ensures { TrimStep }
{
    trim_laws();
    marked_trim_laws();
}

/// Steps of a dumper: the next image begins, a device call is asked for, a page is visited or a sector copied, and the
/// memory is frozen.
pub fn dumper_steps()
    ensures { DumperSteps }
{
    quiet_steps();
    gate_steps();
    catalog_follows();
    dump_shows();
    making_law();
    made_law();
    file_law();
    plans_lead();
    bodies_fill();
    writes_commute();
}

/// Outcomes of a dumper's calls: one that failed, after which the store is down, one with which the image goes on, and
/// the last of a pre-dump, which enters the catalog.
pub fn dumper_outcomes()
    ensures { DumperOutcomes }
{
    writes_commute();
    file_law();
    quiet_steps();
    gate_steps();
    making_law();
    closing_retires();
    steps_give();
    needs_no_more();
    catalog_follows();
    cut_holds_the_same();
    unused_is_uncalled();
}

/// Outcomes of a merger's calls, over the catalog of the store: one that failed, after which the store is down, one
/// with which the merged image goes on, the last of it, with which it enters the catalog, and those of the calls that
/// close the images that nobody needs any more. What entered is a copy of its source, and what was closed is one byte
/// long.
pub fn merger_outcomes(catalog: &Catalog)
    ensures { MergerOutcomes catalog.now }
{
    quiet_steps();
    gate_steps();
    making_law();
    merge_law();
    merged_file_law();
    closing_retires();
    steps_keep();
    steps_give();
    needs_no_more();
    catalog_follows();
    cut_holds_the_same();
    page_in_file();
    plans_lead();
    needed_is_reached();
    source_reaches_needed();
    live_catalog_agrees(catalog);
    recorded_reaches_so(catalog);
    catalog.agrees();
}

/// A checkpoint begins, over the catalog of the store.
pub fn beginning_law(catalog: &Catalog)
    ensures { BeginningIsBelieved catalog.now }
{
    gate_steps();
    needs_no_more();
    needed_is_reached();
    live_catalog_agrees(catalog);
    recorded_reaches_so(catalog);
    catalog.agrees();
}

/// A merge of the tip begins, over the catalog of the store.
pub fn merge_beginning_law(catalog: &Catalog)
    ensures { MergeBeginningIsBelieved catalog.now }
{
    gate_steps();
    needs_no_more();
    making_law();
    needed_is_reached();
    live_catalog_agrees(catalog);
    recorded_reaches_so(catalog);
    catalog.agrees();
}

/// Steps of a merger, over the catalog of the store: its image begins, a device call is asked for, a page of the source
/// is read, or written, or has only zeros, the table is written, and an image is closed that nobody needs any more.
pub fn merger_steps(catalog: &Catalog)
    ensures { MergerSteps catalog.now }
{
    quiet_steps();
    gate_steps();
    merge_law();
    merged_file_law();
    merged_repeats();
    source_reaches_needed();
    catalog_follows();
    making_law();
    plans_lead();
    bodies_fill();
    page_in_file();
    live_catalog_agrees(catalog);
    catalog.sound();
    catalog.agrees();
}

/// A checkpoint is cancelled, before anybody began to open its dump's gate.
pub fn cancelling_law()
    ensures { CancellingIsBelieved }
{
    quiet_steps();
    gate_steps();
    needs_no_more();
}

/// Steps of an opener: it begins, asks for its next call, decodes an open slot, takes an outcome, and ends.
pub fn opener_steps()
    ensures { OpenerSteps }
{
    quiet_steps();
    given_up_syncs();
}

/// Steps that change the store: a gate begins to be opened or closed, an image enters the catalog or leaves it, a
/// checkpoint or a merge begins, or a checkpoint is cancelled.
pub fn gate_steps()
    ensures { GateSteps }
{
    beliefs_follow_calls();
    one_belief_changes();
    steps_keep();
    steps_show();
    pending_shows();
    closing_retires();
    slots_drop();
    slots_follow_calls();
    slots_follow_images();
    slots_follow_jobs();
}
