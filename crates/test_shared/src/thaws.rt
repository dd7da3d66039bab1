//! A thread that waits for each thaw while others make checkpoints.
use crate::cases::Store;
use crate::mutator::{Mutator, load};
use sd_command::Refusal;
use sd_shared::{Shared, Thaw};
use std::sync::Wait;
use std::sync::atomic::{AtomicU64, Ordering};
use std::thread;
use std::time::{Clock, Duration};

/// How often it makes a command, at most.
const LOADS: u64 = 100_000;

/// What a thread that waits, and others, say to each other.
#[derive(Drop)]
pub(crate) struct Thaws {
    /// Whether it waits for a thaw.
    pub(crate) waits: AtomicU64,
    /// Whether it is to end.
    over: AtomicU64,
}

impl Thaws {
    pub(crate) fn new() -> Thaws {
        Thaws {
            waits: AtomicU64::new(0),
            over: AtomicU64::new(0),
        }
    }

    /// Lets the thread end.
    pub(crate) fn end(&self) {
        self.over.store(1, Ordering::SeqCst);
    }
}

/// Waits for the thaw. Returns whether it came.
fn is_thawed<R: Wait>(rt: &R, shared: &Shared<Store>, thaws: &Thaws) -> bool {
    thaws.waits.store(1, Ordering::SeqCst);
    let thaw = shared.wait_thaw(rt);
    thaws.waits.store(0, Ordering::SeqCst);
    thaw == Thaw::Thawed
}

/// Loads once, and waits for the thaw where all is frozen. Returns whether it was answered so.
fn load_once<R: Wait + Clock>(
    rt: &R,
    shared: &Shared<Store>,
    mutator: &mut Mutator<'_>,
    thaws: &Thaws,
) -> bool {
    match mutator.make(rt, shared, load(0)) {
        None => {
            thread::sleep(rt, Duration::from_millis(2));
            true
        }
        Some(why) => why == Refusal::Frozen && is_thawed(rt, shared, thaws),
    }
}

/// Loads until it is to end, and waits for each thaw. Nobody but a worker or a cancel wakes it. Returns whether
/// each came.
pub(crate) fn wait_for_thaws<R: Wait + Clock>(
    rt: &R,
    shared: &Shared<Store>,
    mutator: &mut Mutator<'_>,
    thaws: &Thaws,
) -> bool {
    for _ in 0..LOADS {
        if thaws.over.load(Ordering::SeqCst) != 0 {
            return true;
        }
        if !load_once(rt, shared, mutator, thaws) {
            return false;
        }
    }
    false
}
