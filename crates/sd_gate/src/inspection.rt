//! The inspection of a slot, whose calls depend on what is found.
ghost use Rattle.std.specs.Prelude.{◌≡◌, ◌↔◌, ◌+◌, ◌≤◌, ◌∷◌, [], ℕ, Option, length, IsSome, IsTrue, IfOk, IsErr};
ghost use Rattle.std.specs.Prelude.{MatchOption};
ghost use Rattle.sd_image.specs.Words.{zero_bytes};
ghost use Rattle.sd_gate.specs.Calls.{call_of, bytes_of, IsSoundOrder};
ghost use Rattle.sd_gate.specs.Inspections.{KnowsLength, calls_awaited, calls_of_stage, awaits_of, IsReadNext};
ghost use Rattle.sd_gate.specs.Inspections.{after_length, after_first, calls_then};
ghost use Rattle.sd_gate.specs.Plans.{length_looked_up};
ghost use Rattle.std.specs.Option.{option_map};

use crate::answer::Answer;
use crate::inspection_stage::InspectionStage;
use crate::order::Order;
use sd_areas::PAGE_SIZE;
use sd_image::{GATE, HEADER_SIZE, decode_header};
use std::alloc::{AllocError, Global};

/// A sync, the length, the header of a file that has one, and the table of an open image.
#[derive(Drop)]
pub struct Inspection {
    pub alloc: Global,
    pub stage: InspectionStage,
}

/// A buffer of zeros.
#[tactic(auto, unfolding(sd_image::specs::Words::zero_bytes))]
fn zeros(alloc: Global, len: usize) -> Result<Vec<u8>, AllocError>
    ensures { IfOk result (λ buffer. buffer.items ≡ zero_bytes len) }
{
    vec![in alloc; 0u8; len]
}

/// What follows the length.
fn after_length(answer: Answer) -> InspectionStage
    ensures calls { (calls_of_stage result, awaits_of result) ≡ after_length answer }
    ensures told { (len : Option ℕ) → KnowsLength result (length_looked_up len answer) }
{
    match answer {
        Answer::Len(len) if len >= HEADER_SIZE => InspectionStage::First { len },
        _ => InspectionStage::Done,
    }
}

/// What follows the first bytes of a file of this length.
fn after_first(bytes: &[u8], len: usize) -> InspectionStage
    ensures calls { (calls_of_stage result, awaits_of result) ≡ after_first bytes.now len }
    ensures told { (known : Option ℕ) → IsSome known → KnowsLength result known }
{
    if bytes.len() != HEADER_SIZE || bytes[0] != GATE {
        return InspectionStage::Done;
    }
    match decode_header(bytes, len as u64) {
        Ok(header) => InspectionStage::Table {
            at: HEADER_SIZE + PAGE_SIZE * header.pages as usize,
            len: header.table_len as usize,
        },
        Err(_) => InspectionStage::Done,
    }
}

impl Inspection {
    /// Takes the next call, with memory for its buffer.
    pub fn take(&mut self) -> Result<Option<Order>, AllocError>
        ensures next { IfOk result (λ taken. MatchOption taken
            (calls_of_stage self.old.stage ≡ [])
            (λ order. calls_of_stage self.old.stage
            ≡ (call_of order, bytes_of order) ∷ calls_of_stage self.new.stage)) }
        ensures none { IfOk result
            (λ taken. MatchOption taken (self.new.stage ≡ self.old.stage)
            (λ order. IsSoundOrder order)) }
        ensures awaits { awaits_of self.new.stage ≡ awaits_of self.old.stage }
        ensures refused { IsErr result
            → (self.new.stage ≡ self.old.stage) × IsReadNext (calls_of_stage self.old.stage) }
        ensures told { (len : Option ℕ) → KnowsLength self.old.stage len
            → KnowsLength self.new.stage len }
        ensures knows { IsErr result → (len : Option ℕ) → KnowsLength self.old.stage len
            → IsSome len }
    {
        let (order, next) = match self.stage {
            InspectionStage::Sync => (Order::Sync, InspectionStage::Len),
            InspectionStage::Len => (Order::Len, InspectionStage::AwaitLen),
            InspectionStage::First { len } => {
                let buffer = zeros(self.alloc, HEADER_SIZE)?;
                (
                    Order::Read { at: 0, buffer },
                    InspectionStage::AwaitFirst { len },
                )
            }
            InspectionStage::Table { at, len } => {
                let buffer = zeros(self.alloc, len)?;
                (Order::Read { at, buffer }, InspectionStage::Done)
            }
            InspectionStage::AwaitLen
            | InspectionStage::AwaitFirst { .. }
            | InspectionStage::Done => return Ok(None),
        };
        self.stage = next;
        Ok(Some(order))
    }

    /// Goes on after an outcome.
    pub fn resume(&mut self, answer: Answer, buffer: &Option<Vec<u8>>)
        ensures calls { (calls_of_stage self.new.stage, awaits_of self.new.stage)
            ≡ calls_then (calls_of_stage self.old.stage) (awaits_of self.old.stage) answer
            (option_map (λ b. b.items) buffer.now) }
        ensures told { (len : Option ℕ) → KnowsLength self.old.stage len
            → KnowsLength self.new.stage (length_looked_up len answer) }
    {
        match self.stage {
            InspectionStage::AwaitLen => self.stage = after_length(answer),
            InspectionStage::AwaitFirst { len } => {
                self.stage = match buffer {
                    Some(bytes) => after_first(bytes, len),
                    None => InspectionStage::Done,
                };
            }
            InspectionStage::Sync
            | InspectionStage::Len
            | InspectionStage::First { .. }
            | InspectionStage::Table { .. }
            | InspectionStage::Done => {}
        }
    }

    /// How many calls are left at most.
    pub fn calls_left(&self) -> usize
        ensures count { result
            ≡ length (calls_of_stage self.now.stage) + calls_awaited (awaits_of self.now.stage) }
        ensures few { result ≤ 4 }
    {
        match self.stage {
            InspectionStage::Sync => 4,
            InspectionStage::Len => 3,
            InspectionStage::AwaitLen | InspectionStage::First { .. } => 2,
            InspectionStage::AwaitFirst { .. } | InspectionStage::Table { .. } => 1,
            InspectionStage::Done => 0,
        }
    }

    /// Whether no call is left.
    pub fn is_done(&self) -> bool
        ensures { IsTrue result ↔ calls_of_stage self.now.stage ≡ [] }
    {
        matches!(
            self.stage,
            InspectionStage::AwaitLen | InspectionStage::AwaitFirst { .. } | InspectionStage::Done
        )
    }
}
