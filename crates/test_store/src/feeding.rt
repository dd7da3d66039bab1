//! A feeder that puts errands with rising tickets.
ghost use Rattle.std.specs.Prelude.{◌≡◌, ◌+◌, length, cond};
ghost use Rattle.sd_relay.specs.Fronts.{put_into, StaysOnChannel};

use sd_gate::{Plan, Request, SlotState, Worker};
use sd_relay::{Errand, Feeder, Front};
use std::sync::Wait;
use std::thread;

/// How often an errand that was handed back is put again.
pub(crate) const TRIES: u64 = 10_000_000;

/// Puts errands with the tickets from 1 on.
#[derive(Drop)]
pub(crate) struct Stream<'a, R> {
    rt: &'a R,
    /// The last ticket.
    last: u64,
    /// How often an errand that is handed back is put again.
    tries: u64,
    /// How many errands were put.
    pub(crate) sent: u64,
    is_done: bool,
}

/// The request to cut the first slot.
fn request(ticket: u64) -> Option<Request> {
    let mut plan = Plan::format(0, SlotState::Closed);
    match plan.take(Worker::Dumper, ticket) {
        Ok(request) => request,
        Err(_) => None,
    }
}

/// Puts the errand with this ticket, again and again where it is handed back. Returns whether it was put.
fn send<R: Wait>(rt: &R, front: &mut Front, ticket: u64, tries: u64) -> bool
    ensures stays { StaysOnChannel front.old front.new }
    ensures put { length (put_into front.new) ≡ length (put_into front.old) + cond result 1 0 }
{
    let Some(request) = request(ticket) else {
        return false;
    };
    let mut errand = Errand {
        call: ticket,
        request,
    };
    for _ in 0..tries {
        match front.put(rt, errand) {
            Ok(()) => return true,
            Err(back) => errand = back,
        }
        thread::yield_now();
    }
    false
}

/// Puts the errands with the tickets from 1 on. Returns how many were put.
fn send_all<R: Wait>(rt: &R, front: &mut Front, last: u64, tries: u64) -> u64
    ensures stays { StaysOnChannel front.old front.new }
    ensures put { length (put_into front.new) ≡ length (put_into front.old) + result }
{
    let mut sent = 0u64;
    for ticket in 1..=last {
        if send(rt, front, ticket, tries) {
            sent += 1;
        }
    }
    sent
}

impl<R: Wait> Feeder for Stream<'_, R> {
    ghost use Rattle.std.specs.Prelude.{◌≡◌, true, length};

    ghost fed = { λ _ stream. stream.is_done ≡ true };

    ghost has_put = { λ stream put. length put ≡ stream.sent };

    fn feed(&mut self, front: &mut Front) {
        self.sent = send_all(self.rt, front, self.last, self.tries);
        self.is_done = true;
    }
}

impl<'a, R> Stream<'a, R> {
    pub(crate) fn new(rt: &'a R, last: u64, tries: u64) -> Self {
        Stream {
            rt,
            last,
            tries,
            sent: 0,
            is_done: false,
        }
    }
}
