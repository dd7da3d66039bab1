//! Scripts under refused memory, with a device call that fails, and with a stop at each call.
use crate::line::{HELLO, Line, MERGE_BESIDE_ROUND, MERGED, REOPENED, STALE_BITS, TRIMMED, TWO};
use crate::picks::ALL;
use crate::stops::shown_by_stops;
use crate::told::{Ended, Told};
use crate::worlds::{MOST, Run, fused, made_of, make};
use sd_command::{Refusal, Reply};
use sd_disk::{Fused, MemDisk};
use sd_gate::Worker;
use sd_restore::scan;
use std::alloc::{AllocError, Global};

/// What is done once the device has failed.
const AFTERWARDS: &[Line] = &[Line::Open, Line::Begin(0), Line::Finish(Worker::Dumper)];

/// Makes a script over a store, and then another one over what it left, if there is one. Returns whether there was room
/// for the replies.
fn reply(
    rt: &impl Eprint,
    alloc: Global,
    lines: &[Line],
    after: Option<&[Line]>,
    told: &mut Told,
) -> Result<bool, AllocError> {
    let disk = made_of(rt, alloc, lines, u64::MAX, told)?;
    if let Some(lines) = after {
        let run = Run { lines, then: None };
        let _disk = make(rt, alloc, Fused::new(disk, u64::MAX), run, told);
    }
    Ok(!told.is_lost)
}

/// Whether scripts that are run twice are answered alike, though memory may be refused in one of the runs, by so many
/// replies, of which this is the last.
fn is_answered(
    rt: &impl Eprint,
    alloc: Global,
    lines: &[Line],
    after: Option<&[Line]>,
    count: usize,
    last: &Reply,
) -> Result<bool, AllocError> {
    let mut first = Told::new(alloc)?;
    let are_kept = reply(rt, alloc, lines, after, &mut first)?;
    let mut again = Told::new(alloc)?;
    Ok(
        are_kept
            && reply(rt, alloc, lines, after, &mut again)?
            && first.replies == again.replies
            && again.replies.len() == count
            && again.replies.last() == Some(last),
    )
}

#[test]
fn two_checkpoints_under_refused_memory(rt: HostRuntime) -> Result<(), AllocError> {
    assert!(rt; is_answered(&rt, rt.alloc(), TWO, None, 117, &Reply::Acked(2))?);
    Ok(())
}

#[test]
fn a_merge_under_refused_memory(rt: HostRuntime) -> Result<(), AllocError> {
    assert!(rt; is_answered(&rt, rt.alloc(), MERGED, None, 130, &Reply::Merged(2))?);
    Ok(())
}

#[test]
fn stale_bits_under_refused_memory(rt: HostRuntime) -> Result<(), AllocError> {
    assert!(rt; is_answered(&rt, rt.alloc(), STALE_BITS, None, 135, &Reply::Acked(3))?);
    Ok(())
}

#[test]
fn a_merge_beside_a_round_under_refused_memory(rt: HostRuntime) -> Result<(), AllocError> {
    assert!(rt;
        is_answered(
            &rt,
            rt.alloc(),
            MERGE_BESIDE_ROUND,
            None,
            194,
            &Reply::Acked(2)
        )?
    );
    Ok(())
}

#[test]
fn trims_under_refused_memory(rt: HostRuntime) -> Result<(), AllocError> {
    assert!(rt; is_answered(&rt, rt.alloc(), TRIMMED, None, 133, &Reply::Trimmed(4))?);
    Ok(())
}

/// The second run's opener reads the pre-dump, the merged image and the dump that the first one left: six events for
/// each of eight slots, seven more for each image, and the one that ends it. Its checkpoint takes the page in 37
/// events.
const OPENED: usize = 194 + (1 + 8 * 6 + 3 * 7 + 1) + (1 + 37);

#[test]
fn an_opening_of_images_under_refused_memory(rt: HostRuntime) -> Result<(), AllocError> {
    let (lines, after) = (MERGE_BESIDE_ROUND, Some(REOPENED));
    assert!(rt; is_answered(&rt, rt.alloc(), lines, after, OPENED, &Reply::Acked(3))?);
    Ok(())
}

/// Whether the call that failed was answered as one of the device, and the worker's next event as down; and the store
/// was opened again then, and the next checkpoint acknowledged.
fn goes_on(replies: &[Reply]) -> bool {
    let mut behind = replies.iter();
    behind.any(|reply| matches!(reply, Reply::Refused(Refusal::Device)))
        && matches!(behind.next(), Some(Reply::Refused(Refusal::StoreDown)))
        && matches!(behind.next(), Some(Reply::Worked))
        && behind.any(|reply| matches!(reply, Reply::Reopened(_)))
        && matches!(behind.next(), Some(Reply::Begun(_)))
        && matches!(behind.last(), Some(Reply::Acked(_)))
}

/// Whether the newest image of a store names no parent, and has the page.
fn is_whole(alloc: Global, disk: &mut MemDisk) -> bool {
    match scan(alloc, disk) {
        Ok(catalog) => {
            catalog
                .tip()
                .is_some_and(|tip| tip.header().parent == 0 && tip.header().pages == 1)
        }
        Err(_) => false,
    }
}

/// How lines end of which the call after so many fails, and whether all went on as it should where it fails.
fn fails_after(
    rt: &impl Eprint,
    alloc: Global,
    lines: &[Line],
    drops: bool,
    calls: u64,
) -> Result<(Ended, bool), AllocError> {
    let mut told = Told::new(alloc)?;
    let disk = fused(alloc, calls, drops)?;
    let run = Run {
        lines,
        then: Some(AFTERWARDS),
    };
    let mut disk = make(rt, alloc, disk, run, &mut told);
    let ended = told.end();
    let is_right = ended != Ended::Failed || goes_on(&told.replies) && is_whole(alloc, &mut disk);
    Ok((ended, is_right))
}

/// Each call of a script fails in turn, made or dropped. Returns how many came once the store took commands; 0 where
/// something went wrong, or there is no end.
fn fails(rt: &impl Eprint, alloc: Global, lines: &[Line], drops: bool) -> Result<u64, AllocError> {
    let mut count: u64 = 0;
    for calls in 0..MOST {
        let (ended, is_right) = fails_after(rt, alloc, lines, drops, calls)?;
        if !is_right {
            return Ok(0);
        }
        if ended == Ended::Done {
            return Ok(count);
        }
        count = count.saturating_add(u64::from(ended == Ended::Failed));
    }
    Ok(0)
}

/// Each call of two checkpoints, and of a checkpoint with a merge, fails in turn.
#[test]
fn each_call_fails_in_turn(rt: HostRuntime) -> Result<(), AllocError> {
    for drops in [false, true] {
        assert!(rt; fails(&rt, rt.alloc(), TWO, drops)? == 17);
        assert!(rt; fails(&rt, rt.alloc(), MERGED, drops)? == 22);
    }
    Ok(())
}

/// The least and the greatest number that a stop after this call may leave.
fn allowed(call: u64, last: u64) -> (u64, u64) {
    match call {
        0..=7 => (0, 0),
        8 | 9 => (0, 1),
        16 | 17 => (1, last),
        _ => (1, 1),
    }
}

/// Stops a run after so many calls, where this is the number of the call once the store took commands. Returns how it
/// ended, and whether that left what it may.
fn stops(
    rt: &impl Eprint,
    alloc: Global,
    lines: &[Line],
    calls: u64,
    wanted: (u64, u64),
) -> Result<(Ended, bool), AllocError> {
    let mut told = Told::new(alloc)?;
    let disk = made_of(rt, alloc, lines, calls, &mut told)?;
    let ended = told.end();
    let is_right = ended != Ended::Failed
        || shown_by_stops(alloc, &disk, ALL, &[HELLO, HELLO, HELLO])? == Some(wanted);
    Ok((ended, is_right))
}

/// Stops a run after each of its calls. Returns whether each leaves what it may, and the run ends.
fn stops_everywhere(
    rt: &impl Eprint,
    alloc: Global,
    lines: &[Line],
    last: u64,
) -> Result<bool, AllocError> {
    let mut call: u64 = 1;
    for calls in 0..MOST {
        let (ended, is_right) = stops(rt, alloc, lines, calls, allowed(call, last))?;
        if !is_right || ended == Ended::Done {
            return Ok(is_right);
        }
        call = call.saturating_add(u64::from(ended == Ended::Failed));
    }
    Ok(false)
}

#[test]
fn two_checkpoints_stop_at_each_call(rt: HostRuntime) -> Result<(), AllocError> {
    assert!(rt; stops_everywhere(&rt, rt.alloc(), TWO, 2)?);
    Ok(())
}

#[test]
fn a_merge_stops_at_each_call(rt: HostRuntime) -> Result<(), AllocError> {
    assert!(rt; stops_everywhere(&rt, rt.alloc(), MERGED, 1)?);
    Ok(())
}
