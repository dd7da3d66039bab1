//! What worlds are asked, and what they answer.
use crate::runs::{Run, is_run};
use crate::store::{EIGHT, FOUR, Store, THREE, TWO};
use std::alloc::{AllocError, Global};

/// An opener begins.
const BEGINS: &str = "\
reopen = worked
reopen = refused 11 busy";

/// An opener's device call: it is asked for, isn't asked for again, is made, and its outcome is taken.
const CALL: &str = "\
work-opener = worked
work-opener = refused 11 busy
perform-opener = worked
work-opener = worked";

/// An opener's last step. Then it is idle, and the store isn't opened again.
const ENDS: &str = "\
work-opener = reopened none
work-opener = refused 14 idle
reopen = refused 11 busy";

/// The opener's second call fails: the opener ends, and the store can be opened again.
const ENDS_WITH_ITS_FAILURE: &str = "\
reopen = worked
work-opener = worked
perform-opener = worked
work-opener = worked
work-opener = worked
perform-opener = refused 22 device
work-opener = refused 13 store-down
work-opener = refused 14 idle
begin 0 = refused 10 not-open
reopen = worked";

/// A page that is mapped and loaded before the store is opened. Of an empty store no worker has anything to do.
const NOT_OPEN: &str = "\
map = done
load = bytes 00
perform-dumper = refused 14 idle
work-merger = refused 14 idle
perform-opener = refused 14 idle
cancel = refused 14 idle
begin 1 = refused 10 not-open
merge = refused 10 not-open";

/// No call of the dumper is out.
const NO_CALL: &str = "out-dumper = done";

/// A checkpoint, whose one page is visited and copied in one call, and a store after it.
const FIRST: &str = "\
reopen = worked
finish-opener = reopened none
map = done
store 4 = done
pass 1 = done
begin 0 = begun 1
pass 1 = done
steps 10 = worked
pass 9 = worked
pass 1 = done
finish-dumper = acked 1
store 5 = done";

/// What was acknowledged is what a second run starts from, also before it opens the store again; the checkpoints of
/// a store are numbered on.
const SECOND: &str = "\
begin 0 = refused 10 not-open
merge = refused 10 not-open
load = bytes 04
reopen = worked
finish-opener = reopened 1
begin 0 = begun 2
finish-dumper = acked 2";

/// A call of the second checkpoint fails at its gate or after it: it is in doubt, and can't be cancelled.
const DOUBTFUL: &str = "\
reopen = worked
finish-opener = reopened none
map = done
store 1 = done
begin 0 = begun 1
finish-dumper = acked 1
begin 0 = begun 2
finish-dumper = refused 22 device
steps 1 = refused 13 store-down
load = refused 6 frozen
cancel = refused 11 busy
begin 0 = refused 13 store-down
merge = refused 13 store-down";

/// The opener finds the checkpoint.
const FOUND: &str = "\
reopen = worked
finish-opener = reopened 2
load = bytes 01
begin 0 = begun 3
finish-dumper = acked 3";

/// The opener finds the checkpoint before.
const NOT_FOUND: &str = "\
reopen = worked
finish-opener = reopened 1
load = bytes 01
begin 0 = begun 3
finish-dumper = acked 3";

/// What a beginning is refused for, by priority, in a store of four slots.
const REFUSED: &str = "\
reopen = worked
finish-opener = reopened none
begin 9 = refused 1 EINVAL
begin 3 = refused 12 no-slot
begin 1 = begun 1
finish-dumper = acked 1
begin 1 = refused 12 no-slot
begin 0 = begun 2
finish-dumper = acked 2";

/// In a store of two slots the first checkpoint is acknowledged, and for a second one a slot is missing.
const TWO_SLOTS: &str = "\
reopen = worked
finish-opener = reopened none
begin 0 = begun 1
finish-dumper = acked 1
begin 0 = refused 12 no-slot";

/// Five entries, up to the acknowledgement, and loads until the journal has 1,048,576 entries. Another load is
/// refused, and so is a checkpoint, which needs two entries; after a trim both are there.
const FULL: &str = "\
reopen = worked
finish-opener = reopened none
map = done
store 97 = done
begin 0 = begun 1
finish-dumper = acked 1
loads 1048571 = bytes 61
load = refused 7 journal-full
begin 0 = refused 7 journal-full
trim = trimmed 5
begin 0 = begun 2
finish-dumper = acked 2
trim = trimmed 1048573
load = bytes 61";

/// All is refused but to open. The opener has so many events left for three slots.
const NOTHING_IS_OPEN: &str = "\
begin 0 = refused 10 not-open
merge = refused 10 not-open
cancel = refused 14 idle
left-opener 0 = worked
reopen = worked
left-opener 28 = worked
reopen = refused 11 busy";

/// What is refused once a store of three slots is open, and a checkpoint runs.
const OPENED_ONCE: &str = "\
open = reopened none
left-opener 0 = worked
reopen = refused 11 busy
begin 9 = refused 1 EINVAL
begin 2 = refused 12 no-slot
begin 1 = begun 1
begin 0 = refused 11 busy
cancel = cancelled 1
cancel = refused 14 idle";

/// A checkpoint holds two entries: commands find none, and it freezes and is acknowledged in them. Then none is free:
/// no checkpoint begins, and nothing is journaled.
const SAVED_IN_HELD_ENTRIES: &str = "\
open = reopened none
map = done
loads 1048571 = bytes 00
begin 0 = begun 1
load = bytes 00
load = refused 7 journal-full
finish-dumper = acked 1
load = refused 7 journal-full
begin 0 = refused 7 journal-full";

/// A store is opened, and a checkpoint fails, of which a device call fails.
const FAILED: &str = "\
open = reopened none
save = refused 22 device
steps 1 = refused 13 store-down
idle-dumper = worked
left-dumper 0 = worked
save = refused 13 store-down";

/// How it is cancelled then.
const NONE_IS_CANCELLED: &str = "cancel = refused 14 idle";

const IT_IS_CANCELLED: &str = "cancel = cancelled 1";

const IT_IS_BUSY: &str = "cancel = refused 11 busy";

/// While the store is down nothing begins or merges; it is opened again.
const OPENED_WHEN_DOWN: &str = "\
open = reopened none
save = refused 22 device
steps 1 = refused 13 store-down
merge = refused 13 store-down
steps 1 = refused 14 idle
open = reopened none
begin 0 = begun 2";

/// A checkpoint is acknowledged and the next one cancelled, so that the third takes every page; the sync after the
/// gate of its dump fails. Whether it stands is in doubt, and it can't be cancelled. The store is opened again and
/// names it. What was in doubt is over then: the next checkpoint has the next number and may be cancelled, and so may
/// the one after it.
const DOUBT_IS_OVER: &str = "\
open = reopened none
map = done
save = acked 1
begin 0 = begun 2
cancel = cancelled 2
save = refused 22 device
steps 1 = refused 13 store-down
cancel = refused 11 busy
begin 0 = refused 13 store-down
merge = refused 13 store-down
open = reopened 3
cancel = refused 14 idle
begin 0 = begun 4
cancel = cancelled 4
cancel = refused 14 idle
save = acked 5
begin 0 = begun 6
cancel = cancelled 6
save = acked 7
cancel = refused 14 idle";

/// A call of the merger is out while one of the dumper fails, which takes the store down: what it brings comes late.
const LATE: &str = "\
open = reopened none
map = done
save = acked 1
merge = worked
work-merger = worked
begin 0 = begun 2
finish-dumper = refused 22 device
steps 1 = refused 13 store-down
work-merger = refused 11 busy
perform-merger = worked
work-merger = refused 13 store-down
work-merger = refused 14 idle
open = reopened 1";

/// A run of one world over a store of two slots.
const ONE: Run = Run {
    store: TWO,
    at_once: false,
    first: &[],
    second: &[],
};

const RUNS: &[Run] = &[
    // An empty store is opened again: of each of two slots a sync and a length, three events a call, and a last step.
    Run {
        first: &[BEGINS, CALL, CALL, CALL, CALL, ENDS],
        ..ONE
    },
    // The opening of the world makes 6 calls; the opener's second call is the one that fails.
    Run {
        store: Store { calls: 7, ..TWO },
        at_once: true,
        first: &[ENDS_WITH_ITS_FAILURE],
        ..ONE
    },
    Run {
        at_once: true,
        first: &[NOT_OPEN],
        ..ONE
    },
    Run {
        first: &[NOT_OPEN, NO_CALL],
        ..ONE
    },
    Run {
        store: EIGHT,
        first: &[FIRST],
        second: &[SECOND],
        ..ONE
    },
    // The sync after the gate fails.
    Run {
        store: Store { calls: 56, ..EIGHT },
        first: &[DOUBTFUL, FOUND],
        ..ONE
    },
    // The write of the gate fails, and isn't made.
    Run {
        store: Store {
            calls: 55,
            drops: true,
            ..EIGHT
        },
        first: &[DOUBTFUL, NOT_FOUND],
        ..ONE
    },
    Run {
        store: FOUR,
        first: &[REFUSED],
        ..ONE
    },
    // The opening of the world makes twelve calls and the opener eight, and a checkpoint of a page of zeros eight.
    Run {
        store: Store { calls: 29, ..FOUR },
        first: &[LATE],
        ..ONE
    },
    Run {
        first: &[TWO_SLOTS],
        ..ONE
    },
    Run {
        store: THREE,
        first: &[NOTHING_IS_OPEN],
        ..ONE
    },
    Run {
        store: THREE,
        first: &[OPENED_ONCE],
        ..ONE
    },
];

/// After how many calls one fails of a store of three slots, and what a world over it is asked. A checkpoint that
/// failed is pending from its freeze on, and may be cancelled until the opening of its gate was taken up: the opening
/// of the world makes nine calls and the opener six, the format three, and five close the body; the memory is frozen
/// after the format.
const FAILING: &[(u64, &[&str])] = &[
    (15, &[FAILED, NONE_IS_CANCELLED]),
    (16, &[OPENED_WHEN_DOWN]),
    (17, &[FAILED, NONE_IS_CANCELLED]),
    (18, &[FAILED, IT_IS_CANCELLED]),
    (20, &[FAILED, IT_IS_CANCELLED]),
    (21, &[FAILED, IT_IS_BUSY]),
    (22, &[FAILED, IT_IS_BUSY]),
    // The first checkpoint of a page of zeros makes eight calls; of the third one three form its slot, and four are its
    // table, its header, their sync and its gate.
    (30, &[DOUBT_IS_OVER]),
];

/// Whether a world over a store of three slots, of which the call after so many fails, answers what scripts say.
fn is_answered(
    alloc: Global,
    calls: u64,
    first: &'static [&'static str],
) -> Result<bool, AllocError> {
    let store = Store { calls, ..THREE };
    is_run(
        alloc,
        &Run {
            store,
            first,
            ..ONE
        },
    )
}

/// Whether each world answers what its scripts say.
fn all_answer(alloc: Global) -> Result<bool, AllocError> {
    for run in RUNS {
        if !is_run(alloc, run)? {
            return Ok(false);
        }
    }
    Ok(true)
}

/// Whether each does over a store of which a call fails.
fn all_failing_answer(alloc: Global) -> Result<bool, AllocError> {
    for (calls, scripts) in FAILING {
        if !is_answered(alloc, *calls, scripts)? {
            return Ok(false);
        }
    }
    Ok(true)
}

#[test]
fn worlds_answer(rt: HostRuntime) -> Result<(), AllocError> {
    assert!(rt; all_answer(rt.alloc())?);
    assert!(rt; all_failing_answer(rt.alloc())?);
    Ok(())
}

/// A run with a journal that is full.
const FILLED: Run = Run {
    store: FOUR,
    first: &[FULL],
    ..ONE
};

/// The same over a store of three slots.
const HELD: Run = Run {
    store: THREE,
    first: &[SAVED_IN_HELD_ENTRIES],
    ..ONE
};

#[test]
fn a_checkpoint_has_its_entries(rt: HostRuntime) -> Result<(), AllocError> {
    assert!(rt; is_run(rt.alloc(), &HELD)?);
    Ok(())
}

#[test]
fn a_full_journal_is_trimmed(rt: HostRuntime) -> Result<(), AllocError> {
    assert!(rt; is_run(rt.alloc(), &FILLED)?);
    Ok(())
}
