//! Checkpoints whose pages are written by several threads.
use crate::cases::Store;
use crate::holds::{FIRST_PAGE, Free, await_flag};
use crate::jobs::Job;
use crate::replies::{is_acked, is_opened, is_refused};
use sd_command::{Refusal, Reply};
use sd_shared::{Hold, Shared};
use std::sync::Wait;
use std::sync::atomic::{AtomicU64, Ordering};
use std::thread;
use std::thread::Threads;
use std::time::{Clock, Duration};

/// How often a checkpoint is gone on with.
const TRIES: u64 = 10;

/// How many device calls a checkpoint of one round makes whose first image has two pages, and the sum of their numbers.
const CALLS: u64 = 18;

const SUM: u64 = 171;

/// What a hold has seen.
#[derive(Drop)]
struct Seen {
    /// How many calls there were, and the sum of their numbers.
    calls: AtomicU64,
    sum: AtomicU64,
    /// Whether it was asked for the second page's write.
    second: AtomicU64,
    /// Whether the first page's write wasn't held until then.
    missed: AtomicU64,
}

impl Seen {
    fn new() -> Self {
        Seen {
            calls: AtomicU64::new(0),
            sum: AtomicU64::new(0),
            second: AtomicU64::new(0),
            missed: AtomicU64::new(0),
        }
    }
}

/// A hold that keeps the first page's write until it is asked for the second's.
#[derive(Drop)]
struct Keeping<'a, R> {
    rt: &'a R,
    seen: &'a Seen,
}

impl<R: Clock> Hold for Keeping<'_, R> {
    fn before(&self, call: u64) {
        self.seen.calls.fetch_add(1, Ordering::SeqCst);
        self.seen.sum.fetch_add(call, Ordering::SeqCst);
        if call == FIRST_PAGE + 1 {
            self.seen.second.store(1, Ordering::SeqCst);
        }
        if call == FIRST_PAGE && !await_flag(self.rt, &self.seen.second) {
            self.seen.missed.store(1, Ordering::SeqCst);
        }
    }
}

impl Seen {
    /// Whether it has seen each call of a checkpoint once, and held the first page's write.
    fn is_right(&self) -> bool {
        self.missed.load(Ordering::SeqCst) == 0
            && self.calls.load(Ordering::SeqCst) == CALLS
            && self.sum.load(Ordering::SeqCst) == SUM
    }
}

/// Whether a checkpoint by so many writers is refused.
fn is_invalid<R: Threads + Wait + Sync>(rt: &R, shared: &Shared<Store>, writers: usize) -> bool {
    is_refused(&shared.run_relay(rt, 1, writers, &Free), Refusal::Einval)
}

/// Whether two pages are written beside each other by two writers: the first page's write is held until the second's
/// begins. The hold is called once for each call. No writers, and nine of them, are refused before anything begins.
pub(crate) fn writes_beside<R: Threads + Wait + Clock + Sync>(
    rt: &R,
    shared: &Shared<Store>,
) -> bool {
    let seen = Seen::new();
    let hold = Keeping { rt, seen: &seen };
    is_invalid(rt, shared, 0)
        && is_invalid(rt, shared, 9)
        && is_acked(shared.run_relay(rt, 1, 2, &hold), 1)
        && seen.is_right()
}

/// The device fails at the first page's write, which a writer makes. Returns whether the checkpoint ends with the store
/// down, it is opened again, and a checkpoint with eight writers is made.
pub(crate) fn falls_beside<R: Threads + Wait + Sync>(rt: &R, shared: &Shared<Store>) -> bool {
    is_refused(&shared.run_relay(rt, 0, 2, &Free), Refusal::StoreDown)
        && is_opened(Job::Opening.make(rt, shared, &Free))
        && is_acked(shared.run_relay(rt, 0, 8, &Free), 2)
}

/// A hold that delays each call by another length.
#[derive(Drop)]
struct Delaying<'a, R> {
    rt: &'a R,
}

impl<R: Clock> Hold for Delaying<'_, R> {
    fn before(&self, call: u64) {
        let length = call.wrapping_mul(397) % 700;
        thread::sleep(self.rt, Duration::from_micros(length));
    }
}

/// Goes on with a checkpoint of eight writers that was answered so, where memory was refused, or begins it again.
fn go_further<R: Threads + Wait + Sync, H: Hold + Sync>(
    rt: &R,
    shared: &Shared<Store>,
    hold: &H,
    answered: Reply,
) -> Reply {
    match answered {
        Reply::Refused(why) if why == Refusal::OutOfMemory => shared.go_on_dumper(rt, hold),
        Reply::Refused(why) if why == Refusal::Idle => shared.run_relay(rt, 1, 8, hold),
        reply => reply,
    }
}

/// Whether eight writers make a checkpoint of one round. Where memory was refused it is gone on with, or begun again.
pub(crate) fn writes_twenty_pages<R: Threads + Wait + Clock + Sync>(
    rt: &R,
    shared: &Shared<Store>,
) -> bool {
    let hold = Delaying { rt };
    let mut reply = shared.run_relay(rt, 1, 8, &hold);
    for _ in 0..TRIES {
        reply = go_further(rt, shared, &hold, reply);
    }
    is_acked(reply, 1)
}
