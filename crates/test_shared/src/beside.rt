//! Mutators that store while a dumper's device call is held.
use crate::cases::Store;
use crate::holds::{Flags, Gate, await_flag};
use crate::jobs::Job;
use crate::mutator::{Mutator, Way, load, store};
use crate::replies::{is_acked, is_for};
use sd_command::{Command, Refusal, Reply};
use sd_shared::{Shared, Thaw};
use std::alloc::Global;
use std::process::Abort;
use std::sync::Wait;
use std::sync::atomic::Ordering;
use std::thread;
use std::thread::Threads;
use std::time::{Clock, Duration};

/// How many numbers each mutator stores beside a checkpoint.
const STORES: u64 = 1_000;

/// How often a command is tried.
const TRIES: u64 = 100_000;

/// What a mutator works with, and how many numbers it stores.
#[derive(Drop)]
pub(crate) struct Place<'a, R> {
    rt: &'a R,
    shared: &'a Shared<Store>,
    way: Way,
    alloc: Global,
    page: u64,
    stores: u64,
}

impl<'a, R> Place<'a, R> {
    /// A page of a core, a way, and how many numbers are stored in it.
    pub(crate) fn new(
        rt: &'a R,
        alloc: Global,
        shared: &'a Shared<Store>,
        work: (Way, u64),
        page: u64,
    ) -> Place<'a, R> {
        let (way, stores) = work;
        Place {
            rt,
            shared,
            way,
            alloc,
            page,
            stores,
        }
    }
}

impl<R: Wait + Clock> Place<'_, R> {
    /// The number's store, or the load of it.
    fn command(&self, number: Option<u64>) -> Result<Command, Refusal> {
        match number {
            Some(number) => store(self.alloc, self.page, number),
            None => Ok(load(self.page)),
        }
    }

    /// Tries a command once. Returns why it was refused, or wasn't journaled, if so.
    fn try_once(&self, mutator: &mut Mutator<'_>, number: Option<u64>) -> Option<Refusal> {
        match self.command(number) {
            Ok(command) => mutator.make_by(self.rt, self.shared, self.way, command),
            Err(why) => Some(why),
        }
    }

    /// Whether a command that was refused so is tried again. Where all was frozen, it first waits for the thaw.
    fn goes_on(&self, why: Refusal) -> bool {
        if why == Refusal::Frozen {
            return self.shared.wait_thaw(self.rt) == Thaw::Thawed;
        }
        if why == Refusal::LockBusy {
            thread::sleep(self.rt, Duration::from_micros(10));
            return true;
        }
        why == Refusal::OutOfMemory
    }

    /// Makes a command, again after each thaw, and where memory was refused. Returns why it wasn't done, if so.
    fn make(&self, mutator: &mut Mutator<'_>, number: Option<u64>) -> Option<Refusal> {
        for _ in 0..TRIES {
            let Some(why) = self.try_once(mutator, number) else {
                return None;
            };
            if !self.goes_on(why) {
                return Some(why);
            }
        }
        Some(Refusal::Busy)
    }

    /// Stores a number into the page, and loads it back: `Damaged` where other bytes are loaded.
    fn turn(&self, mutator: &mut Mutator<'_>, flags: &Flags, number: u64) -> Option<Refusal> {
        if let Some(why) = self.make(mutator, Some(number)) {
            return Some(why);
        }
        flags.ended.store(1, Ordering::SeqCst);
        if let Some(why) = self.make(mutator, None) {
            return Some(why);
        }
        if mutator.has_loaded(number) {
            None
        } else {
            Some(Refusal::Damaged)
        }
    }

    /// Waits for the beginning, and then stores each number into the page, and loads it back. Returns why it ended
    /// early, if so: `Idle` where nothing begins.
    pub(crate) fn mutate(&self, mutator: &mut Mutator<'_>, flags: &Flags) -> Option<Refusal> {
        if !await_flag(self.rt, &flags.begun) {
            return Some(Refusal::Idle);
        }
        for number in 1..=self.stores {
            if let Some(why) = self.turn(mutator, flags, number) {
                return Some(why);
            }
        }
        None
    }
}

/// Makes a checkpoint of one round to its end. The mutators begin at the latest when the dumper was first answered.
fn save<R: Wait + Clock>(rt: &R, shared: &Shared<Store>, flags: &Flags) -> Reply {
    let job = Job::Saving(1);
    let gate = Gate {
        rt,
        flags,
        millis: 0,
    };
    let reply = job.run(rt, shared, &gate);
    flags.begun.store(1, Ordering::SeqCst);
    job.end(rt, shared, &gate, reply)
}

/// Why each of two mutators ended early, if it did.
pub(crate) type Ended = (Option<Refusal>, Option<Refusal>);

/// A checkpoint of one round beside two mutators. Returns the dumper's reply.
fn run_beside<R: Threads + Wait + Clock + Sync>(
    rt: &R,
    shared: &Shared<Store>,
    places: (&Place<'_, R>, &Place<'_, R>),
    mutators: (&mut Mutator<'_>, &mut Mutator<'_>),
    flags: &Flags,
) -> (Reply, Ended) {
    let (first, last) = mutators;
    thread::join(
        rt,
        || save(rt, shared, flags),
        || {
            thread::join(
                rt,
                || places.0.mutate(first, flags),
                || places.1.mutate(last, flags),
            )
        },
    )
}

/// Whether two mutators store a thousand numbers each, and load each back, beside a checkpoint whose first page write
/// is held until one of their stores is answered.
pub(crate) fn saves_beside<R: Threads + Wait + Clock + Abort + Sync>(
    rt: &R,
    alloc: Global,
    shared: &Shared<Store>,
    mutators: (&mut Mutator<'_>, &mut Mutator<'_>),
    way: Way,
) -> bool {
    let flags = Flags::new();
    let low = Place::new(rt, alloc, shared, (way, STORES), 0);
    let high = Place::new(rt, alloc, shared, (way, STORES), 1);
    let (reply, (first, last)) = run_beside(rt, shared, (&low, &high), mutators, &flags);
    let are_idle = is_for(first, Refusal::Idle) && is_for(last, Refusal::Idle);
    assert!(rt; !are_idle, "no thread could be made");
    is_acked(reply, 1)
        && first.is_none()
        && last.is_none()
        && flags.missed.load(Ordering::SeqCst) == 0
}
