//! Plans of device calls.
ghost use Rattle.std.specs.Prelude.{◌≡◌, ◌≢◌, ◌⊎◌, ◌↔◌, ◌<◌, ◌≤◌, ◌^◌, [], ◌∷◌, true, None, Some, IsTrue, IsSome};
ghost use Rattle.std.specs.Prelude.{IsErr, is_some, IfOk, MatchOption};
ghost use Rattle.sd_gate.specs.declared.call.Call.TheVariants.{Read, Write};
ghost use Rattle.sd_gate.specs.Calls.{is_done};
ghost use Rattle.sd_gate.specs.Sequences.{format_calls, closing_calls, body_calls, data_place, first_looks, IsPage};
ghost use Rattle.sd_gate.specs.Sequences.{IsBody};
ghost use Rattle.sd_gate.specs.Inspections.{nothing, the_length, IsReadNext};
ghost use Rattle.sd_gate.specs.Plans.{calls_of, awaited_by, IsSoundJob, KnowsItsLength, found_of, begun, Gives};
ghost use Rattle.sd_gate.specs.Plans.{calls_after, settled, plan_after, steps_left};

use crate::call_sequence::CallSequence;
use crate::found::Found;
use crate::inspection::Inspection;
use crate::inspection_stage::InspectionStage;
use crate::job::Job;
use crate::layout::DATA_PAGE_LIMIT;
use crate::outcome::Outcome;
use crate::request::Request;
use crate::request_id::RequestId;
use crate::settled::Settled;
use crate::slot_state::SlotState;
use crate::worker::Worker;
use sd_areas::PAGE_SIZE;
use sd_image::{HEADER_SIZE, Header};
use std::alloc::{AllocError, Global};
use std::marker::Model;
use std::mem;

/// Device calls on one slot, one after the other: each is asked for when the one before is done.
#[derive(Drop)]
pub struct Plan {
    slot: usize,
    job: Job,
    out: Option<RequestId>,
    found: Found,
}

impl Model for Plan {
    ghost use Rattle.sd_gate.specs.Plans.{Planned, calls_of, awaited_by, found_of, IsSoundJob, KnowsItsLength};

    ghost Value = { Planned };

    ghost view = { λ p. record {
      slot = p.slot;
      calls = calls_of p.job;
      awaits = awaited_by p.job;
      out = p.out;
      found = found_of p.found;
    } };

    ghost invariant = { λ p. IsSoundJob p.job × KnowsItsLength p.job p.found.len };
}

/// Whether this is the place of a data page and a page's bytes.
fn is_page(place: usize, buffer: &[u8]) -> bool
    ensures { IsTrue result ↔ IsPage place buffer.now }
{
    place < DATA_PAGE_LIMIT && buffer.len() == PAGE_SIZE
}

/// Whether these close the body of an image.
fn is_body(header: &Header, table: &[u8]) -> bool
    ensures { IsTrue result ↔ IsBody header.now table.now }
{
    header.pages <= DATA_PAGE_LIMIT as u64 && !table.is_empty()
}

/// Where a data page begins.
fn data_place(place: usize) -> usize
    requires { place ≤ 2 ^ 39 }
    ensures { result ≡ data_place place }
{
    HEADER_SIZE + PAGE_SIZE * place
}

/// What an outcome that is done is to a plan.
fn settled(job: &Job) -> Settled
    ensures { result ≡ settled true (calls_of job.now) }
{
    if job.is_done() {
        Settled::Finished
    } else {
        Settled::More
    }
}

impl Plan {
    fn new(slot: usize, job: Job) -> Self
        requires sound { IsSoundJob job }
        requires begins { KnowsItsLength job None }
        ensures { result ≡ begun slot (calls_of job) (awaited_by job) }
    {
        Plan {
            slot,
            job,
            out: None,
            found: Found::new(),
        }
    }

    /// Makes a slot one closed byte. Of a slot that isn't closed a 0 is written over the gate first, and synced.
    pub fn format(slot: usize, state: SlotState) -> Self
        ensures { result ≡ begun slot (format_calls state) nothing }
    {
        match state {
            SlotState::Raw | SlotState::Open => Plan::new(slot, Job::Sequence(CallSequence::Close)),
            SlotState::Closed | SlotState::Writing => Plan::new(
                slot,
                Job::Sequence(CallSequence::Cut),
            ),
        }
    }

    /// Writes the data page with this number: a slot's data pages are counted from 0, and their numbers are below 2^39.
    /// A number beyond these and a buffer of other than 4,096 bytes are no page: the plan has no call then.
    pub fn write_page(slot: usize, place: usize, buffer: Vec<u8>) -> Self
        ensures page { IsPage place buffer.items
            → result ≡ begun slot ((Write (data_place place), buffer.items) ∷ []) nothing }
        ensures other { (IsPage place buffer.items → ⊥) → result ≡ begun slot [] nothing }
    {
        if !is_page(place, &buffer) {
            return Plan::new(slot, Job::Sequence(CallSequence::Done));
        }
        let at = data_place(place);
        Plan::new(slot, Job::Sequence(CallSequence::WritePage { at, buffer }))
    }

    /// Reads the data page with this number into the buffer. What is no page has no call, as in `write_page`.
    pub fn read_page(slot: usize, place: usize, buffer: Vec<u8>) -> Self
        ensures page { IsPage place buffer.items
            → result ≡ begun slot ((Read (data_place place), buffer.items) ∷ []) nothing }
        ensures other { (IsPage place buffer.items → ⊥) → result ≡ begun slot [] nothing }
    {
        if !is_page(place, &buffer) {
            return Plan::new(slot, Job::Sequence(CallSequence::Done));
        }
        let at = data_place(place);
        Plan::new(slot, Job::Sequence(CallSequence::ReadPage { at, buffer }))
    }

    /// Writes the table after the data pages and the header before them, syncs them, and opens the gate.
    /// The image is there once the last sync is done. A table without bytes and a header that counts more than
    /// 2^39 data pages are of no image: the plan has no call then.
    pub fn close_body(slot: usize, header: Header, table: Vec<u8>) -> Self
        ensures body { IsBody header table.items
            → result ≡ begun slot (body_calls header table.items) nothing }
        ensures other { (IsBody header table.items → ⊥) → result ≡ begun slot [] nothing }
    {
        if !is_body(&header, &table) {
            return Plan::new(slot, Job::Sequence(CallSequence::Done));
        }
        let at = data_place(header.pages as usize);
        Plan::new(
            slot,
            Job::Sequence(CallSequence::Table { at, table, header }),
        )
    }

    /// Closes an image that nobody needs, and makes its slot one closed byte.
    pub fn retire(slot: usize) -> Self
        ensures { result ≡ begun slot closing_calls nothing }
    {
        Plan::new(slot, Job::Sequence(CallSequence::Close))
    }

    /// Syncs a slot and looks at it: its length, the header of a file that has one, and the table of an open image.
    pub fn inspect(alloc: Global, slot: usize) -> Self
        ensures { result ≡ begun slot first_looks the_length }
    {
        Plan::new(
            slot,
            Job::Inspection(Inspection {
                alloc,
                stage: InspectionStage::Sync,
            }),
        )
    }

    /// The request for the next call, with the ticket that the worker gives it. None where a request is out, and where
    /// no call is left.
    ///
    /// # Errors
    ///
    /// `AllocError` where an inspection finds no memory for a buffer: nothing changed.
    pub fn take(&mut self, worker: Worker, ticket: u64) -> Result<Option<Request>, AllocError>
        ensures fewer { IfOk result
            (λ given. IsSome given → steps_left self.new < steps_left self.old) }
        ensures given { IfOk result (λ given. MatchOption given
            ((self.new ≡ self.old) × (IsSome self.old.out ⊎ (self.old.calls ≡ [])))
            (λ request. Gives self.old self.new request × (request.id.worker ≡ worker)
            × (request.id.ticket ≡ ticket))) }
        // A plan that asks for no length is never refused.
        ensures refused { IsErr result → (self.new ≡ self.old) × IsReadNext self.old.calls
            × IsSome self.old.found.len }
    {
        if self.out.is_some() {
            return Ok(None);
        }
        let Some(order) = self.job.take()? else {
            return Ok(None);
        };
        let request = Request {
            worker,
            ticket,
            slot: self.slot,
            order,
        };
        self.out = Some(request.id());
        Ok(Some(request))
    }

    /// Whether this is the request that is out.
    pub fn is_out(&self, id: &RequestId) -> bool
        ensures { IsTrue result ↔ self.now.out ≡ Some id.now }
    {
        self.out == Some(*id)
    }

    /// Whether a request is out.
    pub fn is_waiting(&self) -> bool
        ensures { result ≡ is_some self.now.out }
    {
        self.out.is_some()
    }

    /// How many takes and settles the plan has at most before it. Each that gives out a request, and each that isn't
    /// strange, lowers it by at least one.
    pub fn left(&self) -> usize
        ensures { result ≡ steps_left self.now }
    {
        2 * self.job.calls_left() + usize::from(self.out.is_some())
    }

    /// Takes the outcome of the request that is out. One of any other request is strange, and changes nothing.
    /// After one that failed no call is left.
    pub fn settle(&mut self, outcome: Outcome) -> Settled
        ensures fewer { self.old.out ≡ Some outcome.request.id
            → steps_left self.new < steps_left self.old }
        ensures strange { self.old.out ≢ Some outcome.request.id
            → (self.new ≡ self.old) × (result ≡ Settled.Strange) }
        ensures settled { self.old.out ≡ Some outcome.request.id
            → (self.new ≡ plan_after self.old outcome)
            × (result ≡ settled (is_done outcome.answer) (calls_after self.old outcome).0) }
    {
        if !self.is_out(&outcome.id()) {
            return Settled::Strange;
        }
        let Outcome { request, answer } = outcome;
        self.out = None;
        let buffer = request.into_buffer();
        let ended = if answer.is_done() {
            self.job.resume(answer, &buffer);
            settled(&self.job)
        } else {
            self.job = Job::Sequence(CallSequence::Done);
            Settled::Failed
        };
        self.found = mem::replace(&mut self.found, Found::new()).with(answer, buffer);
        ended
    }

    /// What came back with the outcomes.
    pub fn into_found(self) -> Found
        ensures { found_of result ≡ self.found }
    {
        let Plan { found, .. } = self;
        found
    }
}
