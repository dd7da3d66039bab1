//! A checkpoint that another thread cancels, which then makes one of its own, while a third thread waits for thaws.
use crate::cases::Store;
use crate::holds::{FIRST_PAGE, Free, await_flag};
use crate::mutator::Mutator;
use crate::replies::{is_for, is_refused};
use crate::thaws::{Thaws, wait_for_thaws};
use crate::waiting::cancel_and_look;
use sd_command::{Refusal, Reply};
use sd_shared::{Hold, Shared, Thaw};
use std::sync::Wait;
use std::thread;
use std::thread::Threads;
use std::time::{Clock, Duration};

/// How many checkpoints are cancelled.
const ROUNDS: u64 = 300;

/// How many checkpoints are made at most until one is cancelled.
const CHECKPOINTS: u64 = 100_000;

/// How many where each is frozen for 20 milliseconds or more.
const DELAYED: u64 = 100_000;

/// How often a cancel is tried.
const TRIES: u64 = 100_000_000;

/// Makes a checkpoint, whose number is kept. Returns why it was refused, not for lack of a slot alone, after which the
/// chain that fills the store is merged.
fn save_once<R: Wait>(
    rt: &R,
    shared: &Shared<Store>,
    pre_dumps: u64,
    hold: &impl Hold,
    acks: &mut Vec<u64>,
) -> Option<Refusal> {
    match shared.run_dumper(rt, pre_dumps, hold) {
        Reply::Acked(number) => {
            let _ = acks.push(number);
            None
        }
        Reply::Refused(why) if why != Refusal::NoSlot => Some(why),
        _ => {
            drop(shared.run_merger(rt, &Free));
            None
        }
    }
}

/// Makes so many checkpoints at most, of so many pre-dumps each, until one is refused. Returns the refusal, and keeps
/// the numbers that were acknowledged.
fn save_until_refused<R: Wait>(
    rt: &R,
    shared: &Shared<Store>,
    most: u64,
    pre_dumps: u64,
    hold: &impl Hold,
    acks: &mut Vec<u64>,
) -> Option<Refusal> {
    for _ in 0..most {
        if let Some(why) = save_once(rt, shared, pre_dumps, hold, acks) {
            return Some(why);
        }
    }
    None
}

/// Makes a checkpoint without pre-dumps, after a merge where it finds no slot.
fn save_with_room<R: Wait>(rt: &R, shared: &Shared<Store>) -> Reply {
    let reply = shared.run_dumper(rt, 0, &Free);
    if !is_refused(&reply, Refusal::NoSlot) {
        return reply;
    }
    drop(shared.run_merger(rt, &Free));
    shared.run_dumper(rt, 0, &Free)
}

/// Tries to cancel until a checkpoint was cancelled. Returns whether one was.
fn cancel_one<R: Wait>(rt: &R, shared: &Shared<Store>) -> bool {
    for _ in 0..TRIES {
        if let Reply::Cancelled(_) = shared.cancel(rt) {
            return true;
        }
        thread::yield_now();
    }
    false
}

/// Cancels a checkpoint, and then makes one without pre-dumps at once. Returns its number, or 0, and says that it is
/// over.
fn cancel_and_save<R: Wait>(rt: &R, shared: &Shared<Store>, thaws: &Thaws) -> u64 {
    let number = if cancel_one(rt, shared) {
        number_in(save_with_room(rt, shared))
    } else {
        0
    };
    thaws.end();
    number
}

/// The number that was acknowledged, or 0.
fn number_in(reply: Reply) -> u64 {
    match reply {
        Reply::Acked(number) => number,
        _ => 0,
    }
}

/// What a thread does that cancels a checkpoint while a third thread waits for thaws.
#[derive(Clone, Copy)]
pub(crate) enum Cancel {
    /// It makes one of its own at once. The one that is cancelled has so many pre-dumps.
    Saves(u64),
    /// It cancels while the third thread waits, and looks whether that is woken.
    Looks,
}

/// A hold that lets the first page's write begin once the third thread waits, and delays each call from there on, where
/// it does so at all.
#[derive(Drop)]
struct Awaiting<'a, R> {
    rt: &'a R,
    thaws: &'a Thaws,
    delays: bool,
}

impl<R: Clock> Hold for Awaiting<'_, R> {
    fn before(&self, call: u64) {
        if self.delays && call == FIRST_PAGE {
            let _ = await_flag(self.rt, &self.thaws.waits);
        }
        if self.delays && call >= FIRST_PAGE {
            thread::sleep(self.rt, Duration::from_millis(1));
        }
    }
}

impl Cancel {
    /// Makes checkpoints until one is cancelled. Returns why that one was refused, if so.
    fn save<R: Wait + Clock>(
        self,
        rt: &R,
        shared: &Shared<Store>,
        thaws: &Thaws,
        acks: &mut Vec<u64>,
    ) -> Option<Refusal> {
        let (delays, pre_dumps, most) = match self {
            Cancel::Saves(pre_dumps) => (false, pre_dumps, CHECKPOINTS),
            Cancel::Looks => (true, 0, DELAYED),
        };
        let hold = Awaiting { rt, thaws, delays };
        save_until_refused(rt, shared, most, pre_dumps, &hold, acks)
    }

    /// Cancels a checkpoint. Returns the number of the one that it makes then, 0 where it makes none, and nothing where
    /// something went wrong.
    fn cancel<R: Wait + Clock>(self, rt: &R, shared: &Shared<Store>, thaws: &Thaws) -> Option<u64> {
        match self {
            Cancel::Saves(_) => match cancel_and_save(rt, shared, thaws) {
                0 => None,
                number => Some(number),
            },
            Cancel::Looks if cancel_and_look(rt, shared, thaws) => Some(0),
            Cancel::Looks => None,
        }
    }
}

/// Cancels a checkpoint while it is made, beside a third thread that waits for each thaw. Returns the number of the one
/// that was made then, or 0; nothing where the first dumper wasn't idle, the third thread not woken each time, or
/// something else went wrong.
pub(crate) fn cancel_beside<R: Threads + Wait + Clock + Sync>(
    rt: &R,
    shared: &Shared<Store>,
    cancel: Cancel,
    mutator: &mut Mutator<'_>,
    acks: &mut Vec<u64>,
) -> Option<u64> {
    let thaws = Thaws::new();
    let (ended, (number, woken)) = thread::join(
        rt,
        || cancel.save(rt, shared, &thaws, acks),
        || {
            thread::join(
                rt,
                || cancel.cancel(rt, shared, &thaws),
                || wait_for_thaws(rt, shared, mutator, &thaws),
            )
        },
    );
    if woken && is_for(ended, Refusal::Idle) {
        number
    } else {
        None
    }
}

/// Cancels one, and keeps the number of the one that was made then, after the others. Returns whether it is kept.
fn is_cancelled<R: Threads + Wait + Clock + Sync>(
    rt: &R,
    shared: &Shared<Store>,
    pre_dumps: u64,
    mutator: &mut Mutator<'_>,
    acks: &mut Vec<u64>,
) -> bool {
    match cancel_beside(rt, shared, Cancel::Saves(pre_dumps), mutator, acks) {
        Some(number) => acks.push(number).is_ok(),
        None => false,
    }
}

/// Whether in each round a checkpoint is cancelled by another thread, which makes one of its own at once: the first
/// dumper is answered that none of its own runs, and the other one is acknowledged.
pub(crate) fn cancels_beside<R: Threads + Wait + Clock + Sync>(
    rt: &R,
    shared: &Shared<Store>,
    mutator: &mut Mutator<'_>,
    acks: &mut Vec<u64>,
) -> bool {
    for round in 0..ROUNDS {
        if !is_cancelled(rt, shared, round % 3, mutator, acks) {
            return false;
        }
    }
    shared.wait_thaw(rt) == Thaw::Thawed
}
