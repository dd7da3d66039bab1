//! The opener of a core: its steps, and what it leaves.
ghost use Rattle.std.specs.Prelude.{◌≡◌, ◌↔◌, ◌<◌, ◌≤◌, ◌+◌, Option, None, Some, Err, IfOk, IfSome, OnErr, length, map};
ghost use Rattle.std.specs.Prelude.{true, IsTrue, List, ℕ, if◌then◌else◌};
ghost use Rattle.sd_chain.specs.Store.{IsCatalogOf};
ghost use Rattle.sd_image.specs.Image.{Image};
ghost use Rattle.sd_image.specs.Shows.{IsStore, Shows};
ghost use Rattle.sd_journal.specs.Allowed.{Shown, shown_number};
ghost use Rattle.sd_gate.specs.Phases.{given_up, phases_after};
ghost use Rattle.sd_gate.specs.declared.phase.Phase.{Phase};
ghost use Rattle.std.specs.Prelude.{slice_get};
ghost use Rattle.sd_journal.specs.Kept.{entry_count};
ghost use Rattle.sd_core.specs.Opening.{HoldsForOpening, IsExpected, IsFreshOpener, IsResting, IsTipNumber, LetsGo};
ghost use Rattle.sd_core.specs.Opening.{OpensAnew, SawDamage, SawStrange, TeachesOpener, WorksOpener};
ghost use Rattle.sd_core.specs.Refusals.{is_store_open};
ghost use Rattle.sd_core.specs.Working.{opener_left};

use sd_chain::Catalog;
use sd_crash_safety::Standing;
use sd_gate::{Outcome, Phase, RequestId};
use sd_image::{one_store, tip_once};
use sd_journal::Journal;
use sd_opener::{OpenError, Opened, Opener, OpenerProgress, OpenerStep};
use sd_restore::store_is_rightly_digested;
use std::alloc::{AllocError, Global};
use std::mem;

/// Whether a store is open.
pub(crate) fn is_open(standing: Standing) -> bool
    ensures { result ≡ is_store_open standing }
{
    matches!(standing, Standing::Open)
}

/// Gives up the job of each slot.
pub(crate) fn give_up_all(phases: &mut Vec<Phase>)
    ensures { phases.new.items ≡ map given_up phases.old.items }
{
    for phase in phases.iter_mut() {
        *phase = phase.given_up();
    }
}

/// A slot is in the phase that follows a call on it.
pub(crate) fn follow_call(phases: &mut Vec<Phase>, id: &RequestId, done: bool)
    requires { id.now.slot < length phases.old.items }
    ensures { (phase : Phase) → slice_get phases.old.items id.now.slot ≡ Some phase
        → phases.new.items ≡ phases_after phases.old.items id.now phase done }
{
    phases[id.slot] = phases[id.slot].after(id.call, done);
}

/// Holds an entry for an opener: while a checkpoint is pending, one is held already.
///
/// # Errors
///
/// Out of memory where the list of entries can't grow. Nothing changed.
fn hold_for_opening(journal: &mut Journal, pending: Option<u64>) -> Result<(), AllocError>
    requires { pending ≡ None → entry_count journal.old + journal.old.held + 1 ≤ journal.old.limit }
    ensures { HoldsForOpening pending journal.old result journal.new }
{
    if pending.is_some() {
        return Ok(());
    }
    journal.hold(1)
}

/// An opener that has looked at none of so many slots, for which an entry is held.
///
/// # Errors
///
/// Out of memory where a list can't grow. Nothing changed.
pub(crate) fn fresh_opener(
    alloc: Global,
    slots: usize,
    journal: &mut Journal,
    pending: Option<u64>,
) -> Result<Opener, AllocError>
    requires { pending ≡ None → entry_count journal.old + journal.old.held + 1 ≤ journal.old.limit }
    ensures opener { IfOk result (IsFreshOpener slots) }
    ensures holds { HoldsForOpening pending journal.old result journal.new }
{
    let opener = Opener::new(alloc, slots)?;
    hold_for_opening(journal, pending)?;
    Ok(opener)
}

/// Lets go of the entry that was held for an opener.
pub(crate) fn release_for_opening(journal: &mut Journal, pending: Option<u64>)
    requires { pending ≡ None → 0 < journal.old.held }
    ensures { LetsGo pending journal.old journal.new }
{
    if pending.is_none() {
        journal.release(1);
    }
}

/// Lets go of an opener, and of the entry that was held for it.
pub(crate) fn let_go(opener: &mut Option<Opener>, journal: &mut Journal, pending: Option<u64>)
    requires { pending ≡ None → 0 < journal.old.held }
    ensures opener { opener.new ≡ None }
    ensures journal { LetsGo pending journal.old journal.new }
{
    *opener = None;
    release_for_opening(journal, pending);
}

/// An opener begins.
pub(crate) fn put_opener(opener: &mut Option<Opener>, next: Opener)
    ensures { opener.new ≡ Some next }
{
    *opener = Some(next);
}

/// Takes the opener out, which ends it.
pub(crate) fn take_opener(opener: &mut Option<Opener>) -> Option<Opener>
    ensures taken { result ≡ opener.old }
    ensures left { opener.new ≡ None }
{
    mem::replace(opener, None)
}

/// Hands an outcome to the opener. Returns whether it goes on.
pub(crate) fn teach(opener: &mut Option<Opener>, outcome: Outcome) -> bool
    ensures { TeachesOpener opener.old outcome result opener.new }
{
    match opener {
        Some(opener) => matches!(opener.hand_in(outcome), OpenerProgress::More),
        None => {
            drop(outcome);
            false
        }
    }
}

/// Makes the next step of an opener that has no request out.
///
/// # Errors
///
/// Out of memory where a growth was refused. Nothing changed.
pub(crate) fn step_opener(
    opener: &mut Option<Opener>,
    ticket: u64,
) -> Result<OpenerStep, AllocError>
    requires { IsResting opener.old }
    ensures works { IfOk result (λ step. WorksOpener opener.old ticket step opener.new) }
    ensures err { OnErr result (opener.new ≡ opener.old) }
{
    let Some(opener) = opener else {
        unreachable!();
    };
    match opener.work(ticket) {
        Ok(step) => Ok(step),
        Err(OpenError::Busy) => unreachable!(),
        Err(OpenError::OutOfMemory) => Err(AllocError),
    }
}

/// How many steps and outcomes an opener has before it, at most: none where none runs.
pub(crate) fn left_of_opener(opener: &Option<Opener>) -> u128
    ensures { result ≡ opener_left opener.now }
{
    match opener {
        Some(opener) => opener.left(),
        None => 0,
    }
}

/// The checkpoint that a catalog shows, if any.
fn shown_by(catalog: &Catalog) -> Option<u64>
    ensures shown { (files : List (List ℕ)) → IsCatalogOf files catalog.now
        → (shown : Shown) → Shows files shown → shown_number shown ≡ result }
    ensures tip { (files : List (List ℕ)) → IsCatalogOf files catalog.now → (images : List Image)
        → IsStore files images → (number : Option ℕ) → IsTipNumber images number → number ≡ result }
{
    one_store();
    tip_once();
    Some(catalog.tip()?.header().checkpoint)
}

/// Whether a store that shows this checkpoint is the one that the run wrote: it is the last one, or the pending one.
fn is_expected(found: Option<u64>, last: Option<u64>, pending: Option<u64>) -> bool
    ensures { IsTrue result ↔ IsExpected last pending found }
{
    if found == last {
        return true;
    }
    pending.is_some() && found == pending
}

/// The pending checkpoint, where its dump visited each page: only then can the store show it.
pub(crate) fn visited_checkpoint(swept: bool, pending: Option<u64>) -> Option<u64>
    ensures { result ≡ (if swept then pending else None) }
{
    if swept { pending } else { None }
}

/// What an opener read, and the checkpoint that the store shows. None where a serial stands twice, or the checkpoint is
/// neither the last nor the pending one.
pub(crate) fn read_by(
    opener: Opener,
    last: Option<u64>,
    pending: Option<u64>,
) -> Option<(Opened, Option<u64>)>
    ensures opens { IfSome result (λ read. OpensAnew opener last pending read.0 read.1) }
    ensures strange { result ≡ None → SawStrange opener last pending }
    ensures damaged { result ≡ None → SawDamage opener last pending }
{
    store_is_rightly_digested();
    let Ok(opened) = opener.finish() else {
        return None;
    };
    let found = shown_by(&opened.catalog);
    if !is_expected(found, last, pending) {
        return None;
    }
    Some((opened, found))
}
