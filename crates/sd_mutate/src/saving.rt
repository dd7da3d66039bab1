//! The checkpoints that are made beside the mutators.
ghost use Rattle.std.specs.Prelude.{◌≡◌, true};
ghost use Rattle.sd_mutate.specs.Ending.{lets_all_go, lets_go, may_stand};

use sd_command::{Refusal, Reply};
use sd_disk::Disk;
use sd_shared::{Hold, Shared, WaitsEnded};
use std::alloc::Global;
use std::sync::Wait;
use std::thread;
use std::thread::Threads;

/// How many pre-dumps a checkpoint beside the mutators has.
const ROUNDS: u64 = 2;

/// How many threads write the pages of a checkpoint.
const WRITERS: usize = 2;

/// How often a job is gone on with where memory was refused.
const TRIES: u64 = 100;

/// A hold that lets each call go on.
pub(crate) struct Free;

impl Hold for Free {
    fn before(&self, _call: u64) {}
}

/// How a checkpoint ended.
#[derive(Drop)]
enum Ended {
    /// So it was answered, and nothing is frozen for it, or the store is down.
    LetGo(Reply),
    /// Memory stayed refused where it was too late to cancel: nobody waits for its thaw.
    LeftStanding(WaitsEnded),
}

/// Whether a job may stand after this reply, and all be frozen for it: memory was refused.
fn may_stand(reply: &Reply) -> bool
    ensures { result ≡ may_stand reply.now }
{
    matches!(reply, Reply::Refused(Refusal::OutOfMemory))
}

/// Whether nothing is frozen for a checkpoint of this thread's after this reply, or the store is down.
fn lets_go(reply: &Reply) -> bool
    ensures { result ≡ lets_go reply.now }
{
    matches!(
        reply,
        Reply::Acked(_)
            | Reply::Cancelled(_)
            | Reply::Refused(Refusal::Idle)
            | Reply::Refused(Refusal::StoreDown)
    )
}

/// Goes on with the checkpoint that stands, or begins it again where none does.
fn go_on<R: Threads + Wait + Sync, D: Disk + Drop + Send>(
    rt: &R,
    shared: &Shared<D>,
    rounds: u64,
) -> Reply {
    match shared.go_on_dumper(rt, &Free) {
        Reply::Refused(Refusal::Idle) => shared.run_relay(rt, rounds, WRITERS, &Free),
        reply => reply,
    }
}

/// Cancels the checkpoint that stands. Where it is too late for that it is gone on with, a number of times, and then
/// left, and nobody waits for its thaw any more.
fn let_go<R: Wait, D: Disk + Drop>(rt: &R, shared: &Shared<D>) -> Ended
    ensures { lets_all_go result ≡ true }
{
    for _ in 0..TRIES {
        let cancelled = shared.cancel(rt);
        if lets_go(&cancelled) {
            return Ended::LetGo(cancelled);
        }
        let reply = shared.go_on_dumper(rt, &Free);
        if lets_go(&reply) {
            return Ended::LetGo(reply);
        }
    }
    Ended::LeftStanding(shared.end_waits(rt))
}

/// Makes a checkpoint of so many pre-dumps. Where memory is refused it is gone on with, a number of times, and then
/// cancelled, so that nobody waits for a thaw that doesn't come.
fn checkpoint<R: Threads + Wait + Sync, D: Disk + Drop + Send>(
    rt: &R,
    shared: &Shared<D>,
    rounds: u64,
) -> Ended
    ensures { lets_all_go result ≡ true }
{
    let mut reply = shared.run_relay(rt, rounds, WRITERS, &Free);
    for _ in 0..TRIES {
        if !may_stand(&reply) {
            return Ended::LetGo(reply);
        }
        reply = go_on(rt, shared, rounds);
    }
    let_go(rt, shared)
}

/// Goes on with the merge that stands, or begins it again where none does.
fn go_on_merging<R: Wait, D: Disk + Drop>(rt: &R, shared: &Shared<D>) -> Reply {
    match shared.go_on_merger(rt, &Free) {
        Reply::Refused(Refusal::Idle) => shared.run_merger(rt, &Free),
        reply => reply,
    }
}

/// Makes a merge. Where memory is refused it is gone on with, a number of times, and then left, for which nobody waits.
/// Returns why it wasn't made, if it wasn't.
fn merge<R: Wait, D: Disk + Drop>(rt: &R, shared: &Shared<D>) -> Option<Refusal> {
    let mut reply = shared.run_merger(rt, &Free);
    for _ in 0..TRIES {
        if !may_stand(&reply) {
            break;
        }
        reply = go_on_merging(rt, shared);
    }
    match reply {
        Reply::Refused(why) => Some(why),
        _ => None,
    }
}

/// The checkpoints that were made, one after the other.
#[derive(Drop)]
pub(crate) struct Saved {
    /// The numbers of those that were acknowledged.
    pub(crate) acks: Vec<u64>,
    /// Why one wasn't, which ended it.
    pub(crate) refused: Option<Refusal>,
}

impl Saved {
    /// No checkpoint was made yet.
    pub(crate) fn new(alloc: Global) -> Saved {
        Saved {
            acks: Vec::new(alloc),
            refused: None,
        }
    }

    /// Makes a checkpoint of so many pre-dumps, unless one before it was refused.
    pub(crate) fn save<R: Threads + Wait + Sync, D: Disk + Drop + Send>(
        &mut self,
        rt: &R,
        shared: &Shared<D>,
        rounds: u64,
    ) {
        if self.refused.is_some() {
            return;
        }
        let Ok(()) = self.acks.try_reserve(1) else {
            self.refused = Some(Refusal::OutOfMemory);
            return;
        };
        match checkpoint(rt, shared, rounds) {
            Ended::LetGo(Reply::Acked(number)) => self.acks.push_reserved(number),
            Ended::LetGo(Reply::Refused(why)) if why != Refusal::Idle => self.refused = Some(why),
            // Memory was refused again and again: to a step of the checkpoint, or to its order, after which there is
            // none to be cancelled.
            Ended::LetGo(_) | Ended::LeftStanding(_) => self.refused = Some(Refusal::OutOfMemory),
        }
    }

    /// Makes two checkpoints, the second beside a merge.
    pub(crate) fn save_twice<R: Threads + Wait + Sync, D: Disk + Drop + Send>(
        &mut self,
        rt: &R,
        shared: &Shared<D>,
    ) {
        self.save(rt, shared, ROUNDS);
        let ((), unmerged) = thread::join(
            rt,
            || self.save(rt, shared, ROUNDS),
            || merge(rt, shared),
        );
        self.refused = self.refused.or(unmerged);
    }
}
