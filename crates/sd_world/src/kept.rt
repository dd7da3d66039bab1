//! What is kept of the workers between their events.
ghost use Rattle.std.specs.Prelude.{◌≡◌, ◌↔◌, ◌<◌, Some, IfSome, IsTrue, MatchOption, slice_get, slice_set};
ghost use Rattle.sd_crash_safety.specs.View.{index};
ghost use Rattle.sd_world.specs.declared.kept.Kept.TheVariants.{Nothing};
ghost use Rattle.sd_world.specs.View.{IsAt, IsNowhere, asked_id, busy_of, earlier, id_in, is_asked, is_before};
ghost use Rattle.sd_world.specs.View.{is_of_worker};
ghost use Rattle.sd_world.specs.View.{made_id, nothing_kept};

use crate::call_state::CallState;
use sd_core::LANES;
use sd_gate::{Outcome, Request, RequestId, Worker};
use std::marker::Model;
use std::mem;

/// What is kept of a lane in which a request may be out.
#[derive(Drop)]
pub enum Kept {
    /// No device call is out in it.
    Nothing,
    /// The device call that was asked for, which wasn't made yet.
    Request(Request),
    /// The device call that was made, whose outcome wasn't handed in yet.
    Outcome(Outcome),
}

/// Nothing is kept in any lane.
fn nothing_kept() -> [Kept; LANES]
    ensures { result ≡ nothing_kept }
{
    [
        Kept::Nothing,
        Kept::Nothing,
        Kept::Nothing,
        Kept::Nothing,
        Kept::Nothing,
        Kept::Nothing,
        Kept::Nothing,
        Kept::Nothing,
        Kept::Nothing,
        Kept::Nothing,
        Kept::Nothing,
    ]
}

/// The number of a worker.
fn number(worker: Worker) -> usize
    ensures { result ≡ index worker }
{
    match worker {
        Worker::Dumper => 0,
        Worker::Merger => 1,
        Worker::Opener => 2,
    }
}

/// The id of a device call that wasn't made yet.
fn asked_id(kept: &Kept) -> Option<RequestId>
    ensures { result ≡ asked_id kept.now }
{
    match kept {
        Kept::Nothing | Kept::Outcome(_) => None,
        Kept::Request(request) => Some(request.id()),
    }
}

/// The id of a device call that was made.
fn made_id(kept: &Kept) -> Option<RequestId>
    ensures { result ≡ made_id kept.now }
{
    match kept {
        Kept::Nothing | Kept::Request(_) => None,
        Kept::Outcome(outcome) => Some(outcome.id()),
    }
}

/// The id of a device call in this state.
fn id_in(kept: &Kept, state: CallState) -> Option<RequestId>
    ensures { result ≡ id_in state kept.now }
{
    match state {
        CallState::Asked => asked_id(kept),
        CallState::Made => made_id(kept),
    }
}

/// Whether a device call is a worker's.
fn is_of(worker: Worker, id: Option<RequestId>) -> bool
    ensures { result ≡ is_of_worker worker id }
{
    match id {
        Some(id) => number(id.worker) == number(worker),
        None => false,
    }
}

/// Whether a device call is a worker's, with a lesser ticket than this.
fn is_before(worker: Worker, ticket: u64, id: Option<RequestId>) -> bool
    ensures { result ≡ is_before worker ticket id }
{
    match id {
        Some(id) => number(id.worker) == number(worker) && id.ticket < ticket,
        None => false,
    }
}

/// How many device calls of a worker in this state have a lesser ticket than this.
fn earlier(kept: &[Kept; LANES], state: CallState, worker: Worker, ticket: u64) -> usize
    ensures { result ≡ earlier kept.now state worker ticket }
{
    kept.iter()
        .filter(|one| is_before(worker, ticket, id_in(one, state)))
        .count()
}

/// Whether the worker's device call at this place is in this lane.
fn is_at(kept: &[Kept; LANES], state: CallState, worker: Worker, place: u64, lane: usize) -> bool
    requires { lane < 11 }
    ensures { IsTrue result ↔ IsAt kept.now state worker place lane }
{
    match id_in(&kept[lane], state) {
        Some(id) => id.worker == worker && earlier(kept, state, worker, id.ticket) as u64 == place,
        None => false,
    }
}

/// The lane of the worker's device call at this place, from 0, of those in this state by rising ticket.
fn lane_at(kept: &[Kept; LANES], state: CallState, worker: Worker, place: u64) -> Option<usize>
    ensures found { MatchOption result (IsNowhere kept.now state worker place)
        (IsAt kept.now state worker place) }
    ensures within { IfSome result (λ lane. lane < 11) }
{
    for lane in 0..LANES {
        if is_at(kept, state, worker, place, lane) {
            return Some(lane);
        }
    }
    None
}

/// 1 for a lane that keeps something, and 0 for another.
fn busy_of(kept: &Kept) -> usize
    ensures { result ≡ busy_of kept.now }
{
    match kept {
        Kept::Nothing => 0,
        Kept::Request(_) | Kept::Outcome(_) => 1,
    }
}

/// Whether a device call of a worker is out that wasn't made yet.
fn is_asked(kept: &[Kept; LANES], worker: Worker) -> bool
    ensures { result ≡ is_asked kept.now worker }
{
    kept.iter().any(|one| is_of(worker, asked_id(one)))
}

/// What is kept of each lane. It looks through them only where some lane keeps something.
#[derive(Drop)]
pub(crate) struct Lanes {
    kept: [Kept; LANES],
    /// How many keep something.
    busy: usize,
}

impl Model for Lanes {
    ghost use Rattle.std.specs.Prelude.{◌≡◌, List};
    ghost use Rattle.sd_world.specs.declared.kept.Kept.{Kept};
    ghost use Rattle.sd_world.specs.View.{busy_count};

    ghost Value = { List Kept };

    ghost view = { λ l. l.kept };

    ghost invariant = { λ l. l.busy ≡ busy_count l.kept };
}

impl Lanes {
    /// Nothing is kept in any lane.
    pub(crate) fn new() -> Lanes
        ensures { result ≡ nothing_kept }
    {
        Lanes {
            kept: nothing_kept(),
            busy: 0,
        }
    }

    /// The lane of the worker's device call at this place, from 0, of those in this state by rising ticket.
    pub(crate) fn lane_at(&self, state: CallState, worker: Worker, place: u64) -> Option<usize>
        ensures found { MatchOption result (IsNowhere self.now state worker place)
            (IsAt self.now state worker place) }
        ensures within { IfSome result (λ lane. lane < 11) }
    {
        if self.busy == 0 {
            return None;
        }
        lane_at(&self.kept, state, worker, place)
    }

    /// Whether a device call of a worker is out that wasn't made yet.
    pub(crate) fn is_asked(&self, worker: Worker) -> bool
        ensures { result ≡ is_asked self.now worker }
    {
        if self.busy == 0 {
            return false;
        }
        is_asked(&self.kept, worker)
    }

    /// Keeps this in a lane, and returns what was kept there.
    fn replace(&mut self, lane: usize, new: Kept) -> Kept
        requires { lane < 11 }
        ensures taken { slice_get self.old lane ≡ Some result }
        ensures left { self.new ≡ slice_set self.old lane new }
    {
        let more = busy_of(&new);
        let old = mem::replace(&mut self.kept[lane], new);
        let less = busy_of(&old);
        self.busy = self.busy + more - less;
        old
    }

    /// Takes out what is kept in a lane.
    pub(crate) fn take(&mut self, lane: usize) -> Kept
        requires { lane < 11 }
        ensures taken { slice_get self.old lane ≡ Some result }
        ensures left { self.new ≡ slice_set self.old lane Nothing }
    {
        self.replace(lane, Kept::Nothing)
    }

    /// Keeps this in a lane.
    pub(crate) fn put(&mut self, lane: usize, new: Kept)
        requires { lane < 11 }
        ensures { self.new ≡ slice_set self.old lane new }
    {
        drop(self.replace(lane, new));
    }
}
