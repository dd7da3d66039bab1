//! Crashes after each device call of runs, and runs of which each call fails.
use sd_disk::MemDisk;
use std::alloc::Global;
use world_trials::{Failing, Figures, Line, Trouble, store_of, try_by_chance, try_lines};

/// More device calls than any of the runs makes.
const MOST: u64 = 500;

/// How many random lists of events are run.
const LISTS: u64 = 5;

/// Of so many calls, one fails, and of so many lists, one is run. tests/quick raises it in its copy.
const EACH: usize = 1;

/// No line.
const NONE: &[Line] = &[];

/// Two checkpoints.
const TWO: &[Line] = &[
    Line::Map(2),
    Line::Store(0, 1),
    Line::Begin(0),
    Line::Finish,
    Line::Store(4096, 2),
    Line::Begin(0),
    Line::Finish,
];

/// A checkpoint of two pre-dumps, with stores between its steps, and another one.
const ROUNDS: &[Line] = &[
    Line::Map(2),
    Line::Store(0, 1),
    Line::Store(4096, 2),
    Line::Begin(2),
    Line::Steps(14),
    Line::Store(0, 3),
    Line::Steps(20),
    Line::Store(4096, 4),
    Line::Steps(20),
    Line::Store(0, 5),
    Line::Finish,
    Line::Store(0, 6),
    Line::Begin(0),
    Line::Finish,
];

/// A checkpoint that is cancelled after its pre-dump, and two that aren't.
const CANCEL: &[Line] = &[
    Line::Map(2),
    Line::Store(0, 1),
    Line::Begin(1),
    Line::Steps(30),
    Line::Store(4096, 2),
    Line::Steps(14),
    Line::Cancel,
    Line::Begin(0),
    Line::Finish,
    Line::Store(0, 3),
    Line::Begin(0),
    Line::Finish,
];

/// A store that is opened again, and two checkpoints.
const AGAIN: &[Line] = &[
    Line::Store(0, 7),
    Line::Begin(0),
    Line::Finish,
    Line::Store(0, 8),
    Line::Begin(0),
    Line::Finish,
];

/// Whether each crash of a run leaves what it may, and so many checkpoints are acknowledged.
fn is_right(alloc: Global, before: &[Line], lines: &[Line], acked: u64) -> Result<bool, Trouble> {
    let store = store_of(alloc, before, lines)?;
    let figures = try_lines(alloc, &store, lines, Failing::Nothing)?;
    let crashed = figures.pending > 0 && figures.last > 0;
    Ok(figures.is_right() && crashed && figures.acked == acked)
}

/// A call of a run fails. Returns whether one did; nothing where a crash after it, or one at the end, leaves what it
/// may not, or no checkpoint is acknowledged.
fn fails(
    alloc: Global,
    store: &MemDisk,
    lines: &[Line],
    failing: Failing,
) -> Result<Option<bool>, Trouble> {
    let figures = try_lines(alloc, store, lines, failing)?;
    let acked = figures.events == 0 || figures.acked > 0;
    if figures.is_right() && acked {
        Ok(Some(figures.events == 0 || figures.failed > 0))
    } else {
        Ok(None)
    }
}

/// The call of a run after so many fails, and is made or dropped. Returns the same of both.
fn fail_both(
    alloc: Global,
    store: &MemDisk,
    lines: &[Line],
    calls: u64,
) -> Result<Option<bool>, Trouble> {
    let made = fails(alloc, store, lines, Failing::Made(calls))?;
    let dropped = fails(alloc, store, lines, Failing::Dropped(calls))?;
    match (made, dropped) {
        (Some(made), Some(dropped)) => Ok(Some(made || dropped)),
        _ => Ok(None),
    }
}

/// Each call of a run fails in turn, up to a run of which no call fails. Returns whether all is right, and there is
/// one.
fn each_fails(alloc: Global, before: &[Line], lines: &[Line]) -> Result<bool, Trouble> {
    let store = store_of(alloc, before, lines)?;
    for calls in (0..MOST).step_by(EACH) {
        match fail_both(alloc, &store, lines, calls)? {
            Some(true) => {}
            Some(false) => return Ok(true),
            None => return Ok(false),
        }
    }
    Ok(false)
}

/// A crash comes after each call of two checkpoints.
#[test]
fn two_checkpoints(rt: HostRuntime) -> Result<(), Trouble> {
    assert!(rt; is_right(rt.alloc(), NONE, TWO, 2)?);
    Ok(())
}

/// A crash comes after each call of a checkpoint of two pre-dumps, between whose steps bytes are stored.
#[test]
fn a_checkpoint_in_rounds(rt: HostRuntime) -> Result<(), Trouble> {
    assert!(rt; is_right(rt.alloc(), TWO, ROUNDS, 2)?);
    Ok(())
}

/// A crash comes after each call of a checkpoint that is cancelled, and of the next one.
#[test]
fn a_checkpoint_that_is_cancelled(rt: HostRuntime) -> Result<(), Trouble> {
    assert!(rt; is_right(rt.alloc(), TWO, CANCEL, 2)?);
    Ok(())
}

/// A crash comes after each call of a store that is opened again, and of its checkpoints.
#[test]
fn a_store_that_is_opened_again(rt: HostRuntime) -> Result<(), Trouble> {
    assert!(rt; is_right(rt.alloc(), TWO, AGAIN, 2)?);
    Ok(())
}

/// Of two checkpoints each call fails in turn.
#[test]
fn two_checkpoints_of_which_calls_fail(rt: HostRuntime) -> Result<(), Trouble> {
    assert!(rt; each_fails(rt.alloc(), NONE, TWO)?);
    Ok(())
}

/// The same of a checkpoint in rounds.
#[test]
fn rounds_of_which_calls_fail(rt: HostRuntime) -> Result<(), Trouble> {
    assert!(rt; each_fails(rt.alloc(), TWO, ROUNDS)?);
    Ok(())
}

/// The same of one that is cancelled.
#[test]
fn cancels_of_which_calls_fail(rt: HostRuntime) -> Result<(), Trouble> {
    assert!(rt; each_fails(rt.alloc(), TWO, CANCEL)?);
    Ok(())
}

/// The same of a store that is opened again.
#[test]
fn openings_of_which_calls_fail(rt: HostRuntime) -> Result<(), Trouble> {
    assert!(rt; each_fails(rt.alloc(), TWO, AGAIN)?);
    Ok(())
}

/// Whether the crashes of random lists of events leave what they may.
fn are_right(alloc: Global, figures: &mut Figures) -> Result<bool, Trouble> {
    for seed in (0..LISTS).step_by(EACH) {
        try_by_chance(alloc, seed, figures)?;
    }
    Ok(figures.is_right() && figures.lists == LISTS.div_ceil(EACH as u64) && figures.events > 0)
}

/// Random lists of events.
#[test]
fn lists_by_chance(rt: HostRuntime) -> Result<(), Trouble> {
    assert!(rt; are_right(rt.alloc(), &mut Figures::default())?);
    Ok(())
}
