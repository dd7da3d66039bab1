//! Merges that are cut in at each place of a checkpoint in rounds, with a stop after each call.
use crate::line::{HELLO, Line};
use crate::picks::FOUR;
use crate::stops::shown_by_stops;
use crate::told::{Ended, Told};
use crate::worlds::{MOST, made_of};
use sd_command::Reply;
use sd_gate::Worker;
use std::alloc::{AllocError, Global};

/// What the second checkpoint saves.
const BELLO: &[u8] = b"bello";

/// Bytes of zeros.
const ZEROS: &[u8] = &[0; 5];

/// A merge is cut in at the first place, and at each that is so many after. tests/quick raises it in its copy.
const EACH: u64 = 1;

/// How many places there are.
const PLACES: u64 = 87;

/// How many lines come before the merge.
const BEFORE_THE_MERGE: usize = 8;

/// A checkpoint, and a second one of two pre-dumps, in which after so many events a merge is made.
fn cut_in(first: &'static [u8], events: u64) -> [Line; 11] {
    [
        Line::Open,
        Line::Map,
        Line::Store(first),
        Line::Begin(0),
        Line::Finish(Worker::Dumper),
        Line::Store(BELLO),
        Line::Begin(2),
        Line::Steps(Worker::Dumper, events),
        Line::Merge,
        Line::Finish(Worker::Merger),
        Line::Finish(Worker::Dumper),
    ]
}

/// How lines end of which the call after so many fails.
fn ended_of(
    rt: &impl Eprint,
    alloc: Global,
    lines: &[Line],
    calls: u64,
) -> Result<Ended, AllocError> {
    let mut told = Told::new(alloc)?;
    let _disk = made_of(rt, alloc, lines, calls, &mut told)?;
    Ok(told.end())
}

/// How many calls lines make, which are so many at least; `MOST` where they never end.
fn calls_of(
    rt: &impl Eprint,
    alloc: Global,
    lines: &[Line],
    least: u64,
) -> Result<u64, AllocError> {
    for calls in least..MOST {
        if ended_of(rt, alloc, lines, calls)? == Ended::Done {
            return Ok(calls);
        }
    }
    Ok(MOST)
}

/// Whether the checkpoint that was acknowledged last is shown, or the one after it.
fn is_next(numbers: Option<(u64, u64)>, last: u64) -> bool {
    match numbers {
        Some((least, greatest)) => last <= least && greatest <= last.saturating_add(1),
        None => false,
    }
}

/// Stops a run after this call. Returns how it ended, and whether what is shown is the checkpoint that was acknowledged
/// last, or the one after it.
fn stops(
    rt: &impl Eprint,
    alloc: Global,
    lines: &[Line],
    saved: &[&[u8]],
    calls: u64,
) -> Result<(Ended, bool), AllocError> {
    let mut told = Told::new(alloc)?;
    let disk = made_of(rt, alloc, lines, calls, &mut told)?;
    let numbers = shown_by_stops(alloc, &disk, FOUR, saved)?;
    Ok((told.end(), is_next(numbers, told.last())))
}

/// Stops a run after each of its calls that come after so many. Returns whether that is shown each time, and the run
/// ends.
fn stops_everywhere(
    rt: &impl Eprint,
    alloc: Global,
    lines: &[Line],
    saved: &[&[u8]],
    behind: u64,
) -> Result<bool, AllocError> {
    for calls in behind..MOST {
        let (ended, is_next) = stops(rt, alloc, lines, saved, calls)?;
        if !is_next || ended == Ended::Done {
            return Ok(is_next);
        }
    }
    Ok(false)
}

/// A merge is cut in at each place of the checkpoint. A run that stops before its merge is the one that stops there
/// before a later merge, so calls that were made before the merge of the last run are after it. Returns how many
/// places there are; 0 where something else is shown, or the checkpoint never ends.
fn cuts_in(rt: &impl Eprint, alloc: Global, first: &'static [u8]) -> Result<u64, AllocError> {
    let mut behind = calls_of(rt, alloc, &[Line::Open], 0)?;
    for events in (0..MOST).step_by(EACH as usize) {
        let lines = cut_in(first, events);
        if !stops_everywhere(rt, alloc, &lines, &[&[], first, BELLO], behind)? {
            return Ok(0);
        }
        if is_over(rt, alloc, &lines)? {
            return Ok(events);
        }
        behind = calls_of(rt, alloc, &lines[..BEFORE_THE_MERGE], behind)?;
    }
    Ok(0)
}

/// Whether the second checkpoint is acknowledged before a merge ends.
fn is_saved_first(replies: &[Reply]) -> bool {
    for reply in replies {
        match reply {
            Reply::Merged(_) => return false,
            Reply::Acked(2) => return true,
            _ => {}
        }
    }
    false
}

/// Whether the checkpoint is over before the merge begins.
fn is_over(rt: &impl Eprint, alloc: Global, lines: &[Line]) -> Result<bool, AllocError> {
    let mut told = Told::new(alloc)?;
    let _disk = made_of(rt, alloc, lines, u64::MAX, &mut told)?;
    Ok(is_saved_first(&told.replies))
}

/// Whether there are as many places as there should be.
fn are_all_cut(rt: &impl Eprint, alloc: Global, first: &'static [u8]) -> Result<bool, AllocError> {
    Ok(cuts_in(rt, alloc, first)? == PLACES.div_ceil(EACH).saturating_mul(EACH))
}

#[test]
fn merges_of_a_page_are_cut_into_rounds(rt: HostRuntime) -> Result<(), AllocError> {
    assert!(rt; are_all_cut(&rt, rt.alloc(), HELLO)?);
    Ok(())
}

#[test]
fn merges_of_zeros_are_cut_into_rounds(rt: HostRuntime) -> Result<(), AllocError> {
    assert!(rt; are_all_cut(&rt, rt.alloc(), ZEROS)?);
    Ok(())
}
