//! A thread that waits for thaws: until when it waits, how much of a processor it uses meanwhile, and that a cancel
//! wakes it.
use crate::cancelling::{Cancel, cancel_beside};
use crate::cases::Store;
use crate::holds::{Flags, Gate, TURNS, await_flag};
use crate::mutator::{Mutator, Way, load};
use crate::replies::is_acked;
use crate::thaws::Thaws;
use sd_command::Reply;
use sd_shared::{Shared, Thaw};
use std::rt::Files;
use std::sync::Wait;
use std::sync::atomic::Ordering;
use std::thread::Threads;
use std::time::{Clock, Duration};
use std::{fs, thread};

/// How many milliseconds a freeze is held.
const HELD_MILLIS: u64 = 200;

/// How many milliseconds it is held where the device then fails, so that the other thread has time to wait.
const SHORT_MILLIS: u64 = 20;

/// How many nanoseconds of a processor's time a thread may use that waits meanwhile.
const MOST_NANOS: u64 = 20_000_000;

/// How many checkpoints are cancelled.
const ROUNDS: u64 = 10;

/// How often a cancel is tried, a tenth of a millisecond apart.
const TRIES: u64 = 10_000_000;

/// How many nanoseconds of a processor's time this thread has used, as Linux counts them.
fn nanos_used<R: Files + Alloc>(rt: &R) -> Option<u64> {
    let Ok(text) = fs::read_to_string(rt, "/proc/thread-self/schedstat") else {
        return None;
    };
    match text.split(' ').next() {
        Some(word) => word.parse::<u64>().ok(),
        None => None,
    }
}

/// Waits for the thaw, until which all was kept frozen. Returns whether it took next to none of a processor's time: not
/// where the wait ended early, or the thread's time can't be read.
fn wait_kept<R: Wait + Clock + Files + Alloc>(
    rt: &R,
    shared: &Shared<Store>,
    flags: &Flags,
) -> bool {
    let before = nanos_used(rt);
    let is_thawed = shared.wait_thaw(rt) == Thaw::Thawed;
    let is_kept = is_thawed && flags.ended.load(Ordering::SeqCst) != 0;
    match (before, nanos_used(rt)) {
        (Some(before), Some(now)) => is_kept && now.saturating_sub(before) < MOST_NANOS,
        _ => false,
    }
}

/// Loads once nothing is frozen. Returns whether that was answered, and after the end of the freeze.
fn load_kept(
    rt: &impl Wait,
    shared: &Shared<Store>,
    mutator: &mut Mutator<'_>,
    flags: &Flags,
) -> bool {
    mutator.make_by(rt, shared, Way::Thawed, load(0)).is_none()
        && flags.ended.load(Ordering::SeqCst) != 0
}

/// Ends the waits while all is frozen, and then waits. Returns whether the wait was ended.
fn end_and_wait(rt: &impl Wait, shared: &Shared<Store>, flags: &Flags) -> bool {
    drop(shared.end_waits(rt));
    let thaw = shared.wait_thaw(rt);
    flags.ended.store(1, Ordering::SeqCst);
    thaw == Thaw::Ended
}

/// What a thread does while all is frozen.
#[derive(Clone, Copy)]
pub(crate) enum Wake {
    /// It waits for the thaw, and learns that the store is down.
    Down,
    /// It ends the waits, and its wait ends as ended.
    Ends,
    /// It waits for the thaw, and sleeps meanwhile.
    Sleeps,
    /// It loads after the thaw.
    Loads,
}

impl Wake {
    /// How many milliseconds the first page's write is held, and 0 until the other thread is through.
    fn millis(self) -> u64 {
        match self {
            Wake::Ends => 0,
            Wake::Down => SHORT_MILLIS,
            Wake::Sleeps | Wake::Loads => HELD_MILLIS,
        }
    }
}

/// Waits until all is frozen, and does what is done then. Returns whether it ended so.
fn wakes<R: Wait + Clock + Files + Alloc>(
    rt: &R,
    shared: &Shared<Store>,
    mutator: &mut Mutator<'_>,
    flags: &Flags,
    wake: Wake,
) -> bool {
    if !await_flag(rt, &flags.begun) {
        return false;
    }
    match wake {
        Wake::Down => shared.wait_thaw(rt) == Thaw::Down,
        Wake::Ends => end_and_wait(rt, shared, flags),
        Wake::Sleeps => wait_kept(rt, shared, flags),
        Wake::Loads => load_kept(rt, shared, mutator, flags),
    }
}

/// A checkpoint without pre-dumps, all of which is frozen while another thread does this. Returns the dumper's reply,
/// and whether the other thread ended as it should.
pub(crate) fn dump_beside<R: Threads + Wait + Clock + Files + Alloc + Sync>(
    rt: &R,
    shared: &Shared<Store>,
    mutator: &mut Mutator<'_>,
    wake: Wake,
) -> (Reply, bool) {
    let flags = Flags::new();
    let hold = Gate {
        rt,
        flags: &flags,
        millis: wake.millis(),
    };
    thread::join(
        rt,
        || shared.run_dumper(rt, 0, &hold),
        || wakes(rt, shared, mutator, &flags, wake),
    )
}

/// Whether the checkpoint of this number is made, and the other thread ended as it should.
fn saves_beside<R: Threads + Wait + Clock + Files + Alloc + Sync>(
    rt: &R,
    shared: &Shared<Store>,
    mutator: &mut Mutator<'_>,
    wake: Wake,
    number: u64,
) -> bool {
    let (reply, is_woken) = dump_beside(rt, shared, mutator, wake);
    is_woken && is_acked(reply, number)
}

/// Whether waits that are ended while all is frozen end so, a thread sleeps as long as all is frozen by the next
/// checkpoint, and not longer, and a command that waits for the thaw is made after that of the third one.
pub(crate) fn awaits_each<R: Threads + Wait + Clock + Files + Alloc + Sync>(
    rt: &R,
    shared: &Shared<Store>,
    mutator: &mut Mutator<'_>,
) -> bool {
    saves_beside(rt, shared, mutator, Wake::Ends, 1)
        && saves_beside(rt, shared, mutator, Wake::Sleeps, 2)
        && saves_beside(rt, shared, mutator, Wake::Loads, 3)
}

/// Waits until the other thread doesn't wait any more. Returns whether it was woken.
fn await_woken<R: Clock>(rt: &R, thaws: &Thaws) -> bool {
    for _ in 0..TURNS {
        if thaws.waits.load(Ordering::SeqCst) == 0 {
            return true;
        }
        thread::sleep(rt, Duration::from_millis(1));
    }
    false
}

/// Cancels a checkpoint, if the other thread waits. Returns whether one was cancelled.
fn cancel_once<R: Wait>(rt: &R, shared: &Shared<Store>, thaws: &Thaws) -> bool {
    thaws.waits.load(Ordering::SeqCst) != 0 && matches!(shared.cancel(rt), Reply::Cancelled(_))
}

/// Tries to cancel a checkpoint while the other thread waits, until one was cancelled.
fn cancel_one<R: Wait + Clock>(rt: &R, shared: &Shared<Store>, thaws: &Thaws) -> bool {
    for _ in 0..TRIES {
        if cancel_once(rt, shared, thaws) {
            return true;
        }
        thread::sleep(rt, Duration::from_micros(100));
    }
    false
}

/// Cancels a checkpoint while the other thread waits. Returns whether that woke it; if not, its wait is ended.
pub(crate) fn cancel_and_look<R: Wait + Clock>(
    rt: &R,
    shared: &Shared<Store>,
    thaws: &Thaws,
) -> bool {
    let woken = cancel_one(rt, shared, thaws) && await_woken(rt, thaws);
    thaws.end();
    if !woken {
        drop(shared.end_waits(rt));
    }
    woken
}

/// Whether in each round a checkpoint is cancelled while a thread waits for its thaw, that thread goes on, and the
/// dumper is idle.
pub(crate) fn wakes_by_a_cancel<R: Threads + Wait + Clock + Sync>(
    rt: &R,
    shared: &Shared<Store>,
    mutator: &mut Mutator<'_>,
    acks: &mut Vec<u64>,
) -> bool {
    for _ in 0..ROUNDS {
        if cancel_beside(rt, shared, Cancel::Looks, mutator, acks) != Some(0) {
            return false;
        }
    }
    true
}
