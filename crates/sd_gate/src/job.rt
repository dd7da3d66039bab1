//! What a plan has still to do.
ghost use Rattle.std.specs.Prelude.{◌≡◌, ◌↔◌, ◌+◌, ◌≤◌, ◌∷◌, [], ℕ, Option, length, IsSome, IsTrue, IfOk, IsErr};
ghost use Rattle.std.specs.Prelude.{MatchOption};
ghost use Rattle.std.specs.Option.{option_map};
ghost use Rattle.sd_gate.specs.Calls.{call_of, bytes_of, IsSoundOrder};
ghost use Rattle.sd_gate.specs.Inspections.{IsReadNext, calls_awaited, calls_then};
ghost use Rattle.sd_gate.specs.Plans.{calls_of, awaited_by, length_looked_up, IsSoundJob, KnowsItsLength};

use crate::answer::Answer;
use crate::call_sequence::CallSequence;
use crate::inspection::Inspection;
use crate::order::Order;
use std::alloc::AllocError;
use std::mem;

#[derive(Drop)]
pub enum Job {
    Sequence(CallSequence),
    Inspection(Inspection),
}

impl Job {
    /// Takes the next call.
    pub fn take(&mut self) -> Result<Option<Order>, AllocError>
        requires { IsSoundJob self.old }
        ensures next { IfOk result (λ taken. MatchOption taken
            (calls_of self.old ≡ [])
            (λ order. calls_of self.old ≡ (call_of order, bytes_of order) ∷ calls_of self.new)) }
        ensures none { IfOk result
            (λ taken. MatchOption taken (calls_of self.new ≡ []) (λ order. IsSoundOrder order)) }
        ensures sound { IsSoundJob self.new }
        ensures awaits { awaited_by self.new ≡ awaited_by self.old }
        ensures refused { IsErr result
            → (calls_of self.new ≡ calls_of self.old) × IsReadNext (calls_of self.old) }
        ensures told { (len : Option ℕ) → KnowsItsLength self.old len
            → KnowsItsLength self.new len }
        ensures knows { IsErr result → (len : Option ℕ) → KnowsItsLength self.old len → IsSome len }
    {
        match self {
            Job::Sequence(sequence) => {
                let Some((order, left)) = mem::replace(sequence, CallSequence::Done).split() else {
                    return Ok(None);
                };
                *sequence = left;
                Ok(Some(order))
            }
            Job::Inspection(inspection) => inspection.take(),
        }
    }

    /// Goes on after an outcome.
    pub fn resume(&mut self, answer: Answer, buffer: &Option<Vec<u8>>)
        ensures calls { (calls_of self.new, awaited_by self.new)
            ≡ calls_then (calls_of self.old) (awaited_by self.old) answer
            (option_map (λ b. b.items) buffer.now) }
        ensures sound { IsSoundJob self.old → IsSoundJob self.new }
        ensures told { (len : Option ℕ) → KnowsItsLength self.old len
            → KnowsItsLength self.new (length_looked_up len answer) }
    {
        if let Job::Inspection(inspection) = self {
            inspection.resume(answer, buffer);
        }
    }

    /// How many calls are left at most.
    pub fn calls_left(&self) -> usize
        ensures count { result ≡ length (calls_of self.now) + calls_awaited (awaited_by self.now) }
        ensures few { result ≤ 5 }
    {
        match self {
            Job::Sequence(sequence) => sequence.calls_left(),
            Job::Inspection(inspection) => inspection.calls_left(),
        }
    }

    /// Whether no call is left.
    pub fn is_done(&self) -> bool
        ensures { IsTrue result ↔ calls_of self.now ≡ [] }
    {
        match self {
            Job::Sequence(sequence) => sequence.is_done(),
            Job::Inspection(inspection) => inspection.is_done(),
        }
    }
}
