//! The opener.
ghost use Rattle.std.specs.Prelude.{◌≤◌, ◌^◌, ◌≡◌, ◌≢◌, ◌↔◌, ◌<◌, ◌+◌, ℕ, List, [], Option, None, Some, false, length};
ghost use Rattle.std.specs.Prelude.{Err, IsErr, IsSome, IfOk, IfErr, MatchOption, OnOk, OnErr};
ghost use Rattle.sd_disk.specs.Contents.{file_at};
ghost use Rattle.sd_gate.specs.Calls.{is_done};
ghost use Rattle.sd_gate.specs.Inspections.{the_length};
ghost use Rattle.sd_gate.specs.Plans.{Planned, begun, found_of};
ghost use Rattle.sd_gate.specs.Requests.{Asked};
ghost use Rattle.sd_gate.specs.Sequences.{first_looks};
ghost use Rattle.sd_restore.specs.Faulty.{FaultNames, IsDamage, IsFirstFaulty};
ghost use Rattle.sd_restore.specs.Reading.{AreRightlyDigested};
ghost use Rattle.sd_opener.specs.declared.open_error.OpenError.TheVariants.{Busy};
ghost use Rattle.sd_opener.specs.declared.opener_progress.OpenerProgress.TheVariants.{Strange as IsStrange};
ghost use Rattle.sd_opener.specs.declared.opener_progress.OpenerProgress.TheVariants.{Failed as HasFailed};
ghost use Rattle.sd_opener.specs.declared.opener_progress.OpenerProgress.TheVariants.{More as GoesOn};
ghost use Rattle.sd_opener.specs.Left.{LowersByStep, LowersLooking, looking_left, slot_left};
ghost use Rattle.sd_opener.specs.Looking.{IsDoneAsAsked, Looking, LooksFurther, StepMoves, out_of_look};
ghost use Rattle.sd_opener.specs.Sees.{IsNoStore, IsLookOf, Sees, SeesAfter, StepNames, StoreIsRead};

use crate::open_error::OpenError;
use crate::opened::Opened;
use crate::opener_progress::OpenerProgress;
use crate::opener_step::OpenerStep;
use crate::slot_end::{SlotEnd, slot_end};
use crate::stage::Stage;
use sd_gate::{Found, Outcome, Phase, Plan, Settled, Worker, inspection_finds};
use sd_image::good_store_has_no_reason;
use sd_restore::{Fault, Scanned, decode_slot, store_is_rightly_digested};
use std::alloc::{AllocError, Global};
use std::marker::Model;
use std::mem;

/// Reads the slots of a store, rising: it syncs each slot, asks for the length of its file, and reads the header and
/// the table of an open image.
#[derive(Drop)]
pub struct Opener {
    alloc: Global,
    slots: usize,
    told: Vec<Phase>,
    stage: Stage,
    scanned: Scanned,
}

impl Model for Opener {
    ghost use Rattle.std.specs.Prelude.{vec_capacity};
    ghost use Rattle.sd_opener.specs.Looking.{Looking, IsLooking};

    ghost Value = { Looking };

    ghost view = { λ o. record {
      slots = o.slots;
      told = o.told.items;
      stage = o.stage;
      scanned = o.scanned;
    } };

    ghost invariant = { λ o. IsLooking o.slots o.told.items (vec_capacity o.told) o.stage o.scanned };
}

/// A slot whose inspection begins.
fn first_stage(alloc: Global, slot: usize) -> Stage
    ensures { result ≡ Stage.Asking (begun slot first_looks the_length) }
{
    Stage::Asking(Plan::inspect(alloc, slot))
}

/// Gives a slot its next stage.
fn put_stage(stage: &mut Stage, next: Stage)
    ensures { stage.new ≡ next }
{
    *stage = next;
}

/// What came back to the plan of a stage, whose place another stage takes.
fn replace_stage(stage: &mut Stage, next: Stage) -> Option<Found>
    ensures next { stage.new ≡ next }
    ensures found { MatchOption result
        ((plan : Planned) → stage.old ≡ Stage.Asking plan → ⊥)
        (λ found. (plan : Planned) × (stage.old ≡ Stage.Asking plan) × (found_of found ≡ plan.found)) }
{
    match mem::replace(stage, next) {
        Stage::Asking(plan) => Some(plan.into_found()),
        _ => None,
    }
}

/// How many steps and outcomes the slot of a stage has before it, at most.
fn stage_left(stage: &Stage) -> u128
    ensures left { result ≡ slot_left stage.now }
    ensures few { result ≤ 2 ^ 64 }
{
    match stage {
        Stage::Asking(plan) => plan.left() as u128 + 1,
        _ => 1,
    }
}

impl Opener {
    /// An opener that has looked at none of so many slots.
    ///
    /// # Errors
    ///
    /// Out of memory where the list of phases finds no room.
    pub fn new(alloc: Global, slots: usize) -> Result<Opener, AllocError>
        ensures slots { IfOk result (λ opener. opener.slots ≡ slots) }
        ensures free { IfOk result (λ opener. out_of_look opener.stage ≡ None) }
        ensures told { IfOk result (λ opener. opener.told ≡ []) }
        ensures stage { IfOk result (λ opener. opener.stage
            ≡ Stage.Asking (begun 0 first_looks the_length)) }
        ensures sees { IfOk result (λ opener. (files : List (List ℕ)) → length files ≡ slots
            → Sees files None opener) }
    {
        inspection_finds();
        Ok(Opener {
            alloc,
            slots,
            told: Vec::with_capacity(alloc, slots)?,
            stage: first_stage(alloc, 0),
            scanned: Scanned::new(alloc),
        })
    }

    /// Makes the next step: asks for the next call, or decodes the open slot that was read.
    ///
    /// # Errors
    ///
    /// Busy where a request is out. Out of memory where a buffer or an image finds no room. Nothing changed.
    pub fn work(&mut self, ticket: u64) -> Result<OpenerStep, OpenError>
        ensures sees { IfOk result (λ step. (files : List (List ℕ)) → Sees files None self.old
            → SeesAfter files step self.new) }
        // It names the first faulty slot, with its reason, as a scan of these files does.
        ensures names { IfOk result (λ step. (files : List (List ℕ)) → Sees files None self.old
            → AreRightlyDigested files → StepNames (IsFirstFaulty files) step) }
        ensures moves { IfOk result (λ step. StepMoves ticket self.old step self.new) }
        ensures lowers { IfOk result (λ step. LowersByStep step self.old self.new) }
        ensures slots { self.new.slots ≡ self.old.slots }
        ensures busy { result ≡ Err Busy → IsSome (out_of_look self.old.stage) }
        ensures out { IsSome (out_of_look self.old.stage) → IsErr result }
        ensures err { OnErr result (self.new ≡ self.old) }
    {
        good_store_has_no_reason();
        inspection_finds();
        let slot = self.told.len();
        if slot == self.slots {
            return Ok(OpenerStep::AllRead);
        }
        match &mut self.stage {
            Stage::Asking(plan) => {
                let Some(request) = plan.take(Worker::Opener, ticket)? else {
                    return Err(OpenError::Busy);
                };
                Ok(OpenerStep::Call(request))
            }
            Stage::Broken(reason) => Ok(OpenerStep::Damaged {
                slot,
                reason: *reason,
            }),
            Stage::Read { header, table } => match decode_slot(self.alloc, slot, *header, table) {
                Ok(decoded) => {
                    self.scanned.take_in(self.alloc, slot, Some(decoded))?;
                    self.told.push(Phase::Whole).unwrap();
                    put_stage(&mut self.stage, first_stage(self.alloc, slot + 1));
                    Ok(OpenerStep::Decoded)
                }
                Err(Fault::Damaged { slot, reason }) => Ok(OpenerStep::Damaged { slot, reason }),
                Err(_) => Err(OpenError::OutOfMemory),
            },
        }
    }

    /// Takes the outcome of the request that is out.
    pub fn hand_in(&mut self, outcome: Outcome) -> OpenerProgress
        ensures strange { out_of_look self.old.stage ≢ Some outcome.request.id
            → (result ≡ IsStrange) × (self.new ≡ self.old) }
        ensures failed { out_of_look self.old.stage ≡ Some outcome.request.id
            → is_done outcome.answer ≡ false → result ≡ HasFailed }
        ensures goes_on { out_of_look self.old.stage ≡ Some outcome.request.id → IsDoneAsAsked outcome
            → result ≡ GoesOn }
        // Where it gave the file as it is, the opener goes on.
        ensures sees { (files : List (List ℕ)) (request : Asked)
            → IsLookOf (file_at files (length self.old.told)) request outcome
            → Sees files (Some request) self.old → (result ≡ GoesOn) × Sees files None self.new }
        ensures moves { LooksFurther self.old self.new }
        ensures lowers { out_of_look self.old.stage ≡ Some outcome.request.id → result ≡ GoesOn
            → LowersLooking self.old self.new }
        ensures slots { self.new.slots ≡ self.old.slots }
        ensures free { out_of_look self.old.stage ≡ Some outcome.request.id → out_of_look self.new.stage ≡ None }
    {
        inspection_finds();
        let slot = self.told.len();
        let Stage::Asking(plan) = &mut self.stage else {
            return OpenerProgress::Strange;
        };
        if !plan.is_out(&outcome.id()) {
            return OpenerProgress::Strange;
        }
        match plan.settle(outcome) {
            Settled::Strange => OpenerProgress::Strange,
            Settled::More => OpenerProgress::More,
            Settled::Failed => {
                put_stage(&mut self.stage, first_stage(self.alloc, slot));
                OpenerProgress::Failed
            }
            Settled::Finished => {
                let next = first_stage(self.alloc, slot);
                let Some(found) = replace_stage(&mut self.stage, next) else {
                    return OpenerProgress::Failed;
                };
                match slot_end(found) {
                    None => return OpenerProgress::Failed,
                    Some(SlotEnd::Open(stage)) => put_stage(&mut self.stage, stage),
                    Some(SlotEnd::Closed(phase)) => {
                        self.scanned.skip(slot);
                        self.told.push(phase).unwrap();
                        put_stage(&mut self.stage, first_stage(self.alloc, slot + 1));
                    }
                }
                OpenerProgress::More
            }
        }
    }

    /// How many steps and outcomes it has before it, at most: one where every slot was read. Each step that doesn't end
    /// it lowers this, and so does each outcome after which it goes on.
    pub fn left(&self) -> u128
        ensures { result ≡ looking_left self.now }
    {
        let slots = self.slots - self.told.len();
        if slots == 0 {
            return 1;
        }
        9 * (slots as u128 - 1) + stage_left(&self.stage) + 1
    }

    /// What was read, once every slot was.
    ///
    /// # Errors
    ///
    /// `Damaged` names the least slot whose serial stands in an earlier open one.
    pub fn finish(self) -> Result<Opened, Fault>
        ensures opened { (files : List (List ℕ)) → Sees files None self → length self.told ≡ length files
            → AreRightlyDigested files → IfOk result (StoreIsRead files) }
        ensures told { IfOk result (λ opened. opened.phases.items ≡ self.told) }
        ensures damaged { (files : List (List ℕ)) → Sees files None self → length self.told ≡ length files
            → IfErr result (λ _. IsNoStore files) }
        ensures names { (files : List (List ℕ)) → Sees files None self → length self.told ≡ length files
            → AreRightlyDigested files → IfErr result (FaultNames (IsDamage files)) }
        ensures empty { result ≢ Err Fault.EmptyChain }
        ensures device { result ≢ Err Fault.Device }
        ensures memory { result ≢ Err Fault.OutOfMemory }
    {
        store_is_rightly_digested();
        let Opener { told, scanned, .. } = self;
        scanned.check()?;
        Ok(Opened {
            catalog: scanned.catalog,
            phases: told,
        })
    }
}
