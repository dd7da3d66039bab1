//! Writers that report what they were given.
use sd_relay::{Errand, Writer};
use std::sync::atomic::{AtomicU64, Ordering};
use std::thread;
use std::time::{Clock, Duration};

/// How many turns of a millisecond a writer waits for the other.
const TURNS: u64 = 10_000;

/// Counts how often each ticket is written.
#[derive(Drop)]
pub(crate) struct Tally<'a> {
    /// By ticket, from 1.
    pub(crate) written: &'a [AtomicU64],
    /// How many were written whose ticket is none of these, or isn't the number of the call.
    pub(crate) strange: AtomicU64,
}

impl Writer for Tally<'_> {
    fn write(&self, errand: Errand) {
        let ticket = errand.request.id().ticket;
        match usize::try_from(ticket) {
            Ok(place) if place < self.written.len() && ticket == errand.call => {
                self.written[place].fetch_add(1, Ordering::SeqCst);
            }
            _ => {
                self.strange.fetch_add(1, Ordering::SeqCst);
            }
        }
    }
}

/// Writes ticket 1 only once ticket 2 is being written.
#[derive(Drop)]
pub(crate) struct Pair<'a, R> {
    pub(crate) rt: &'a R,
    pub(crate) second: AtomicU64,
    pub(crate) missed: AtomicU64,
}

impl<R: Clock> Pair<'_, R> {
    /// Waits until ticket 2 is being written. Returns whether it came.
    fn await_second(&self) -> bool {
        for _ in 0..TURNS {
            if self.second.load(Ordering::SeqCst) != 0 {
                return true;
            }
            thread::sleep(self.rt, Duration::from_millis(1));
        }
        false
    }
}

impl<R: Clock> Writer for Pair<'_, R> {
    fn write(&self, errand: Errand) {
        if errand.request.id().ticket == 2 {
            self.second.store(1, Ordering::SeqCst);
        } else if !self.await_second() {
            self.missed.store(1, Ordering::SeqCst);
        }
    }
}
