//! What an event does to a core, a disk and what is kept.
ghost use Rattle.std.specs.Prelude.{◌≡◌, ◌<◌, ℕ, List, Option, Some, length, slice_get};
ghost use Rattle.sd_gate.specs.Requests.{Asked, Made};
ghost use Rattle.sd_gate.specs.Lanes.{IsInLane};
ghost use Rattle.sd_crash_safety.specs.Calls.{StaysBelieved};
ghost use Rattle.sd_world.specs.Steps.{Does, HandsInIfAny, HandsInKept, KeepsOutcome, KeepsRequest, Performs};
ghost use Rattle.sd_world.specs.Steps.{WorkerTakesUp};
ghost use Rattle.sd_world.specs.Steps.{WorkerWorks, answer_of, reply_of_answer};
ghost use Rattle.sd_world.specs.Trims.{TrimsJournal};
ghost use Rattle.sd_world.specs.declared.kept.Kept.TheVariants.{Outcome as OutcomeKept, Request as RequestKept};

use crate::call_state::CallState;
use crate::event::Event;
use crate::kept::{Kept, Lanes};
use sd_command::{Refusal, Reply};
use sd_core::{Core, Taken};
use sd_disk::Disk;
use sd_gate::{Answer, Request, Worker, perform};

/// How a command is answered.
pub(crate) fn answer_of(told: Result<(u64, Reply), Refusal>) -> Reply
    ensures { result ≡ answer_of told }
{
    match told {
        Ok((_, answer)) => answer,
        Err(why) => Reply::Refused(why),
    }
}

/// How a device call is answered.
fn reply_of(answer: Answer) -> Reply
    ensures { result ≡ reply_of_answer answer }
{
    match answer {
        Answer::Done | Answer::Len(_) => Reply::Worked,
        Answer::Failed => Reply::Refused(Refusal::Device),
    }
}

/// Keeps a request in the lane in which it is out.
fn keep_request(core: &Core, kept: &mut Lanes, request: Request)
    requires { IsInLane core.now.outs request.id }
    ensures { KeepsRequest core.now.outs kept.old request kept.new }
{
    let Some(lane) = core.lane_of(&request.id()) else {
        return;
    };
    kept.put(lane, Kept::Request(request));
}

/// Makes a worker's next step, or keeps the request for its next device call.
fn take_up(core: &mut Core, kept: &mut Lanes, worker: Worker) -> Reply
    ensures { WorkerTakesUp worker core.old kept.old result core.new kept.new }
{
    match core.take_up(worker) {
        Taken::Step(answer) => answer,
        Taken::Call(request) => {
            keep_request(core, kept, request);
            Reply::Worked
        }
    }
}

/// Hands in the outcome that is kept in a lane.
fn hand_in(core: &mut Core, kept: &mut Lanes, lane: usize) -> Reply
    requires within { lane < 11 }
    ensures { (made : Made) → slice_get kept.old lane ≡ Some (OutcomeKept made)
        → HandsInKept lane core.old kept.old made result core.new kept.new }
{
    match kept.take(lane) {
        Kept::Outcome(outcome) => core.hand_in(outcome),
        Kept::Nothing | Kept::Request(_) => Reply::Refused(Refusal::Idle),
    }
}

/// A worker's event: its outcome with the least ticket is handed in; else it makes its next step, or its next request
/// is kept.
fn work(core: &mut Core, kept: &mut Lanes, worker: Worker) -> Reply
    ensures { WorkerWorks worker core.old kept.old result core.new kept.new }
{
    match kept.lane_at(CallState::Made, worker, 0) {
        Some(lane) => hand_in(core, kept, lane),
        None => take_up(core, kept, worker),
    }
}

/// Hands in the outcome of a worker at this place. Refused as idle where there is none.
fn hand_in_at(core: &mut Core, kept: &mut Lanes, worker: Worker, place: u64) -> Reply
    ensures { HandsInIfAny worker place core.old kept.old result core.new kept.new }
{
    match kept.lane_at(CallState::Made, worker, place) {
        Some(lane) => hand_in(core, kept, lane),
        None => Reply::Refused(Refusal::Idle),
    }
}

/// Performs the request that is kept in a lane, and keeps its outcome.
fn perform_in<D: Disk>(disk: &mut D, kept: &mut Lanes, lane: usize) -> Reply
    requires within { lane < 11 }
    requires slot { (request : Asked) → slice_get kept.old lane ≡ Some (RequestKept request)
        → request.id.slot < length (D.contents disk.old) }
    ensures { (request : Asked) → slice_get kept.old lane ≡ Some (RequestKept request)
        → KeepsOutcome D.Disk lane request disk.old kept.old result disk.new kept.new }
{
    match kept.take(lane) {
        Kept::Request(request) => {
            let outcome = perform(disk, request);
            let answer = outcome.answer();
            kept.put(lane, Kept::Outcome(outcome));
            reply_of(answer)
        }
        Kept::Nothing | Kept::Outcome(_) => Reply::Refused(Refusal::Idle),
    }
}

/// Performs the request of a worker at this place, and keeps its outcome. Refused as idle where there is none.
fn perform_at<D: Disk>(disk: &mut D, kept: &mut Lanes, worker: Worker, place: u64) -> Reply
    requires { (lane : ℕ) (request : Asked) → slice_get kept.old lane ≡ Some (RequestKept request)
        → request.id.slot < length (D.contents disk.old) }
    ensures { Performs D.Disk worker place disk.old kept.old result disk.new kept.new }
{
    match kept.lane_at(CallState::Asked, worker, place) {
        Some(lane) => perform_in(disk, kept, lane),
        None => Reply::Refused(Refusal::Idle),
    }
}

/// Trims the core's journal, and answers how many entries were folded. They are dropped.
fn trim(core: &mut Core) -> Reply
    ensures trims { TrimsJournal core.old result core.new }
    ensures goes_on { (asked : List (Option Asked)) → StaysBelieved core.old asked core.new asked }
{
    match core.trim() {
        Ok(folded) => Reply::Trimmed(folded.entries.len() as u64),
        Err(why) => Reply::Refused(why),
    }
}

/// Makes one event.
pub(crate) fn make_step<D: Disk>(
    core: &mut Core,
    disk: &mut D,
    kept: &mut Lanes,
    event: &Event,
) -> Reply
    requires { (lane : ℕ) (request : Asked) → slice_get kept.old lane ≡ Some (RequestKept request)
        → request.id.slot < length (D.contents disk.old) }
    ensures { Does D.Disk event.now (record { core = core.old; disk = disk.old; kept = kept.old }) result
        (record { core = core.new; disk = disk.new; kept = kept.new }) }
{
    match event {
        Event::Command { seat, command } => answer_of(core.apply(*seat, command)),
        Event::Begin(rounds) => core.begin(*rounds),
        Event::Work(worker) => work(core, kept, *worker),
        Event::TakeUp(worker) => take_up(core, kept, *worker),
        Event::HandInAt(worker, place) => hand_in_at(core, kept, *worker, *place),
        Event::Perform(worker) => perform_at(disk, kept, *worker, 0),
        Event::PerformAt(worker, place) => perform_at(disk, kept, *worker, *place),
        Event::Merge => core.merge(),
        Event::Cancel => core.cancel(),
        Event::Reopen => core.reopen(),
        Event::Trim => trim(core),
    }
}
