//! Making one device call.
ghost use Rattle.std.specs.Prelude.{◌≡◌, ◌≢◌, ◌⊎◌, ◌<◌, ℕ, true, List, length, MatchResult};
ghost use Rattle.sd_disk.specs.Contents.{file_at};
ghost use Rattle.sd_disk.specs.Crash.{Follows, OnlyAt};
ghost use Rattle.sd_disk.specs.OneCall.{IsOneCall};
ghost use Rattle.sd_disk.specs.Spans.{LeavesOnly};
ghost use Rattle.sd_image.specs.Header.{header_text};
ghost use Rattle.sd_gate.specs.Calls.{call_of, bytes_of, is_done, contents_after, Makes, IsInside, IsSoundOrder};
ghost use Rattle.sd_gate.specs.Calls.{IsAnswerTo};
ghost use Rattle.sd_gate.specs.Calls.{IsLook, AreKept, CallFinds, AnswerHasCause};
ghost use Rattle.sd_gate.specs.Phases.{is_ready, after, body_after, Waits, phases_after, bodies_after};
ghost use Rattle.sd_gate.specs.Fits.{PhaseLeaves, SlotFits, DiskFits, DiskLeaves};
ghost use Rattle.sd_gate.specs.declared.call.Call.TheVariants.{Sync, WriteHeader};
ghost use Rattle.sd_gate.specs.declared.phase.Phase.{Phase};

use crate::answer::Answer;
use crate::order::Order;
use crate::outcome::Outcome;
use crate::request::Request;
use sd_disk::{DeviceError, Disk};
use sd_image::{GATE, Header, encode_header};

/// How a call ended that says nothing else.
fn answer_of(ended: Result<(), DeviceError>) -> Answer
    ensures { MatchResult ended (λ _. result ≡ Answer.Done) (λ _. result ≡ Answer.Failed) }
{
    match ended {
        Ok(()) => Answer::Done,
        Err(_) => Answer::Failed,
    }
}

/// How the question for a length ended.
fn length_of(ended: Result<usize, DeviceError>) -> Answer
    ensures { MatchResult ended (λ n. result ≡ Answer.Len n) (λ _. result ≡ Answer.Failed) }
{
    match ended {
        Ok(len) => Answer::Len(len),
        Err(_) => Answer::Failed,
    }
}

/// Writes a header after the gate. It alone has room for a header's bytes, so that no other call clears them.
fn write_header<D: Disk>(disk: &mut D, slot: usize, header: &Header) -> Answer
    requires slot { slot < length (D.contents disk.old) }
    ensures answer { is_done result ≡ true → result ≡ Answer.Done }
    ensures done { is_done result ≡ true → D.contents disk.new
        ≡ contents_after WriteHeader (header_text header.now) slot (D.contents disk.old) }
    ensures torn { Makes WriteHeader (header_text header.now) slot (D.contents disk.old)
        (D.contents disk.new) }
    ensures crash { Follows (Makes WriteHeader (header_text header.now) slot) (D.may_leave disk.old)
        (D.may_leave disk.new) }
    ensures one_call { IsOneCall D.Disk disk.old disk.new }
    ensures cause { AnswerHasCause (D.failed disk.old) (D.failed disk.new) result }
{
    answer_of(disk.write_at(slot, 1, &encode_header(header)))
}

/// Makes the call of an order, and no other.
fn make<D: Disk>(disk: &mut D, slot: usize, order: Order) -> (Order, Answer)
    requires slot { slot < length (D.contents disk.old) }
    requires sound { IsSoundOrder order }
    ensures call { call_of result.0 ≡ call_of order }
    ensures sound { IsSoundOrder result.0 }
    ensures bytes { AreKept (call_of order) (bytes_of order) (bytes_of result.0) }
    ensures answer { is_done result.1 ≡ true → IsAnswerTo (call_of order) result.1 }
    ensures inside { D.is_honest disk.new → is_done result.1 ≡ true
        → IsInside (call_of order) (bytes_of order) (file_at (D.contents disk.old) slot) }
    ensures tells { D.is_honest disk.new → is_done result.1 ≡ true
        → CallFinds (call_of order) (file_at (D.contents disk.old) slot) result.1 (bytes_of result.0) }
    ensures done { is_done result.1 ≡ true
        → D.contents disk.new
        ≡ contents_after (call_of order) (bytes_of order) slot (D.contents disk.old) }
    ensures torn { Makes (call_of order) (bytes_of order) slot (D.contents disk.old)
        (D.contents disk.new) }
    ensures crash { Follows (Makes (call_of order) (bytes_of order) slot) (D.may_leave disk.old)
        (D.may_leave disk.new) }
    ensures durable { call_of order ≡ Sync → is_done result.1 ≡ true
        → OnlyAt slot (file_at (D.contents disk.old) slot) (D.may_leave disk.new) }
    ensures one_call { IsOneCall D.Disk disk.old disk.new }
    ensures cause { AnswerHasCause (D.failed disk.old) (D.failed disk.new) result.1 }
{
    match order {
        Order::Len => (Order::Len, length_of(disk.len(slot))),
        Order::Read { at, mut buffer } => {
            let answer = answer_of(disk.read(slot, at, &mut buffer));
            (Order::Read { at, buffer }, answer)
        }
        Order::Write { at, buffer } => {
            let answer = answer_of(disk.write_at(slot, at, &buffer));
            (Order::Write { at, buffer }, answer)
        }
        Order::WriteHeader { header } => {
            let answer = write_header(disk, slot, &header);
            (Order::WriteHeader { header }, answer)
        }
        Order::Close => (Order::Close, answer_of(disk.write_at(slot, 0, &[0]))),
        Order::Open => (Order::Open, answer_of(disk.write_at(slot, 0, &[GATE]))),
        Order::Cut => (Order::Cut, answer_of(disk.cut(slot, 1))),
        Order::Sync => (Order::Sync, answer_of(disk.sync(slot))),
    }
}

/// Makes the one device call of a request, and no other. It takes no memory, and gives the buffer back in the outcome.
pub fn perform<D: Disk>(disk: &mut D, request: Request) -> Outcome
    requires slot { request.id.slot < length (D.contents disk.old) }
    ensures id { result.request.id ≡ request.id }
    ensures bytes { AreKept request.id.call request.bytes result.request.bytes }
    ensures answer { is_done result.answer ≡ true → IsAnswerTo request.id.call result.answer }
    // A read of bytes past the end fails, and so does a cut that would lengthen the file.
    ensures inside { D.is_honest disk.new → is_done result.answer ≡ true
        → IsInside request.id.call request.bytes (file_at (D.contents disk.old) request.id.slot) }
    ensures tells { D.is_honest disk.new → is_done result.answer ≡ true
        → CallFinds request.id.call
        (file_at (D.contents disk.old) request.id.slot) result.answer result.request.bytes }
    ensures done { is_done result.answer ≡ true
        → D.contents disk.new
        ≡ contents_after request.id.call request.bytes request.id.slot (D.contents disk.old) }
    ensures torn { Makes request.id.call request.bytes request.id.slot (D.contents disk.old)
        (D.contents disk.new) }
    ensures crash { Follows (Makes request.id.call request.bytes request.id.slot)
        (D.may_leave disk.old) (D.may_leave disk.new) }
    ensures durable { request.id.call ≡ Sync → is_done result.answer ≡ true
        → OnlyAt request.id.slot (file_at (D.contents disk.old) request.id.slot)
        (D.may_leave disk.new) }
    // One call is made, and no other.
    ensures one_call { IsOneCall D.Disk disk.old disk.new }
    ensures cause { AnswerHasCause (D.failed disk.old) (D.failed disk.new) result.answer }
    // A call that only looks changes nothing, and every other slot keeps its file.
    ensures looks { IsLook request.id.call → D.contents disk.new ≡ D.contents disk.old }
    ensures others { (other : ℕ) → other ≢ request.id.slot
        → file_at (D.contents disk.new) other ≡ file_at (D.contents disk.old) other }
    // A slot that waits for the call is afterwards in the phase that follows.
    ensures fits { (phase : Phase) (body : List ℕ) → is_ready phase request.id.call ≡ true
        → SlotFits phase body request.id.slot (D.contents disk.old) (D.may_leave disk.old)
        → SlotFits (after phase request.id.call (is_done result.answer))
        (body_after body request.id.call request.bytes) request.id.slot (D.contents disk.new)
        (D.may_leave disk.new) }
    // Every other slot is in the phase in which it was.
    ensures elsewhere { (other : ℕ) (phase : Phase) (body : List ℕ) → other ≢ request.id.slot
        → SlotFits phase body other (D.contents disk.old) (D.may_leave disk.old)
        → SlotFits phase body other (D.contents disk.new) (D.may_leave disk.new) }
    // A crash at any moment of the call leaves what one of the two phases leaves.
    ensures any_moment { (phase : Phase) (body : List ℕ) → is_ready phase request.id.call ≡ true
        → SlotFits phase body request.id.slot (D.contents disk.old) (D.may_leave disk.old)
        → LeavesOnly D.Disk disk.old disk.new (λ c. PhaseLeaves phase body (file_at c request.id.slot)
        ⊎ PhaseLeaves (after phase request.id.call (is_done result.answer))
        (body_after body request.id.call request.bytes) (file_at c request.id.slot)) }
    // Of all slots together.
    ensures every_slot { (phases : List Phase) (bodies : List (List ℕ)) (phase : Phase)
        → Waits phases request.id phase
        → DiskFits phases bodies (D.contents disk.old) (D.may_leave disk.old)
        → DiskFits (phases_after phases request.id phase (is_done result.answer))
        (bodies_after bodies request.id request.bytes) (D.contents disk.new)
        (D.may_leave disk.new) }
    ensures every_moment { (phases : List Phase) (bodies : List (List ℕ)) (phase : Phase)
        → Waits phases request.id phase
        → DiskFits phases bodies (D.contents disk.old) (D.may_leave disk.old)
        → LeavesOnly D.Disk disk.old disk.new (λ c. DiskLeaves phases bodies c
        ⊎ DiskLeaves (phases_after phases request.id phase (is_done result.answer))
        (bodies_after bodies request.id request.bytes) c) }
{
    let Request {
        worker,
        ticket,
        slot,
        order,
    } = request;
    let (order, answer) = make(disk, slot, order);
    let request = Request {
        worker,
        ticket,
        slot,
        order,
    };
    Outcome { request, answer }
}
