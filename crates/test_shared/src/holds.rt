//! What is called before device calls, and waits for other threads.
use crate::cases::Store;
use crate::jobs::Job;
use crate::replies::{is_acked, is_merged};
use sd_shared::{Hold, Shared};
use std::sync::Wait;
use std::sync::atomic::{AtomicU64, Ordering};
use std::thread;
use std::time::{Clock, Duration};

/// The device call that writes the first page, or else the table, of a checkpoint's first image. Without pre-dumps all
/// is frozen then.
pub(crate) const FIRST_PAGE: u64 = 4;

/// How many turns of a millisecond a thread waits for another.
pub(crate) const TURNS: u64 = 10_000;

/// A hold that lets each call go on.
pub(crate) struct Free;

impl Hold for Free {
    fn before(&self, _call: u64) {}
}

/// A hold that counts the calls, where each comes with the next number.
#[derive(Drop)]
struct Counting<'a> {
    calls: &'a AtomicU64,
}

impl Hold for Counting<'_> {
    fn before(&self, call: u64) {
        if self.calls.load(Ordering::SeqCst).saturating_add(1) == call {
            self.calls.store(call, Ordering::SeqCst);
        }
    }
}

/// Whether a checkpoint of one round after another one, of which no page was touched since, makes eight calls for each
/// of its images.
pub(crate) fn saves_in_16_calls(rt: &impl Wait, shared: &Shared<Store>) -> bool {
    let calls = AtomicU64::new(0);
    let hold = Counting { calls: &calls };
    is_acked(Job::Saving(1).run(rt, shared, &hold), 2) && calls.load(Ordering::SeqCst) == 16
}

/// Whether a merge makes 13 device calls, on a fresh store, after a checkpoint without rounds of which one page isn't
/// all zeros.
pub(crate) fn merges_in_13_calls(rt: &impl Wait, shared: &Shared<Store>) -> bool {
    let calls = AtomicU64::new(0);
    let hold = Counting { calls: &calls };
    is_merged(Job::Merging.run(rt, shared, &hold), 2) && calls.load(Ordering::SeqCst) == 13
}

/// What a hold and other threads say to each other.
#[derive(Drop)]
pub(crate) struct Flags {
    /// The call of the first page is held.
    pub(crate) begun: AtomicU64,
    /// It needn't be held longer, or isn't held any more.
    pub(crate) ended: AtomicU64,
    /// Nobody said so in time.
    pub(crate) missed: AtomicU64,
}

impl Flags {
    pub(crate) fn new() -> Flags {
        Flags {
            begun: AtomicU64::new(0),
            ended: AtomicU64::new(0),
            missed: AtomicU64::new(0),
        }
    }
}

/// Waits so many turns of a millisecond until a flag isn't 0. Returns whether it came.
pub(crate) fn await_in<R: Clock>(rt: &R, flag: &AtomicU64, turns: u64) -> bool {
    for _ in 0..turns {
        if flag.load(Ordering::SeqCst) != 0 {
            return true;
        }
        thread::sleep(rt, Duration::from_millis(1));
    }
    false
}

/// Waits until a flag isn't 0. Returns whether it came.
pub(crate) fn await_flag<R: Clock>(rt: &R, flag: &AtomicU64) -> bool {
    await_in(rt, flag, TURNS)
}

/// A hold that at the first page's write lets other threads begin. It waits until they are through, or else keeps the
/// write for so many milliseconds, and says when that ends.
#[derive(Drop)]
pub(crate) struct Gate<'a, R> {
    pub(crate) rt: &'a R,
    pub(crate) flags: &'a Flags,
    /// 0: until they are through.
    pub(crate) millis: u64,
}

impl<R: Clock> Gate<'_, R> {
    /// Holds the first page's write.
    fn hold(&self) {
        self.flags.begun.store(1, Ordering::SeqCst);
        if self.millis != 0 {
            thread::sleep(self.rt, Duration::from_millis(self.millis));
            self.flags.ended.store(1, Ordering::SeqCst);
        } else if !await_flag(self.rt, &self.flags.ended) {
            self.flags.missed.store(1, Ordering::SeqCst);
        }
    }
}

impl<R: Clock> Hold for Gate<'_, R> {
    fn before(&self, call: u64) {
        if call == FIRST_PAGE {
            self.hold();
        }
    }
}
