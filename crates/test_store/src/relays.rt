//! Whole relays.
use crate::feeding::{Stream, TRIES};
use crate::writing::{Pair, Tally};
use sd_relay::relay;
use std::alloc::{AllocError, Global};
use std::sync::Wait;
use std::sync::atomic::{AtomicU64, Ordering};
use std::thread::Threads;
use std::time::Clock;

/// How many errands go through.
const ERRANDS: u64 = 5_000;

/// Counters from 0 to `ERRANDS`.
fn counters(alloc: Global) -> Result<Vec<AtomicU64>, AllocError> {
    let mut written = Vec::new(alloc);
    for _ in 0..=ERRANDS {
        written.push(AtomicU64::new(0))?;
    }
    Ok(written)
}

/// Whether the tickets from 1 up to a last one were written once, and no other.
fn are_written_once(written: &[AtomicU64], last: u64) -> bool {
    let mut once = true;
    for (ticket, count) in written.iter().enumerate() {
        let wanted = u64::from(0 < ticket && ticket as u64 <= last);
        once &= count.load(Ordering::SeqCst) == wanted;
    }
    once
}

/// A relay: its writers, the errands, how often one that is handed back is put again, and how many are put.
type Relay = (usize, u64, u64, u64);

/// Whether so many errands are put, and each of them is written once.
fn goes_through<R: Threads + Wait + Sync>(
    rt: &R,
    alloc: Global,
    written: &[AtomicU64],
    row: Relay,
) -> Result<bool, AllocError> {
    let (writers, errands, tries, put) = row;
    let tally = Tally {
        written,
        strange: AtomicU64::new(0),
    };
    let mut stream = Stream::new(rt, errands, tries);
    relay(rt, alloc, writers, &mut stream, &tally)?;
    let none_is_strange = tally.strange.load(Ordering::SeqCst) == 0;
    Ok(stream.sent == put && none_is_strange && are_written_once(written, put))
}

/// With no writer everything is handed back.
const RELAYS: &[Relay] = &[
    (1, ERRANDS, TRIES, ERRANDS),
    (2, ERRANDS, TRIES, ERRANDS),
    (8, ERRANDS, TRIES, ERRANDS),
    (100, ERRANDS, TRIES, ERRANDS),
    (0, 100, 1, 0),
];

/// Whether each errand that is put is written once, in each relay.
fn all_go_through<R: Threads + Wait + Sync>(rt: &R, alloc: Global) -> Result<bool, AllocError> {
    for row in RELAYS {
        if !goes_through(rt, alloc, &counters(alloc)?, *row)? {
            return Ok(false);
        }
    }
    Ok(true)
}

/// Whether two errands are written at once: the first waits for the second.
fn two_are_at_once<R: Threads + Wait + Clock + Sync>(
    rt: &R,
    alloc: Global,
) -> Result<bool, AllocError> {
    let pair = Pair {
        rt,
        second: AtomicU64::new(0),
        missed: AtomicU64::new(0),
    };
    let mut stream = Stream::new(rt, 2, TRIES);
    relay(rt, alloc, 2, &mut stream, &pair)?;
    Ok(stream.sent == 2 && pair.missed.load(Ordering::SeqCst) == 0)
}

#[test]
fn each_is_written_once(rt: HostRuntime) -> Result<(), AllocError> {
    assert!(rt; all_go_through(&rt, rt.alloc())?);
    assert!(rt; two_are_at_once(&rt, rt.alloc())?);
    Ok(())
}
