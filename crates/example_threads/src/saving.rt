//! The checkpoints that are made while the threads store.
use sd_command::{Refusal, Reply};
use sd_disk::Disk;
use sd_shared::{Hold, Shared};
use std::alloc::Global;
use std::sync::Wait;
use std::thread;
use std::thread::Threads;

/// How many rounds copy the memory beside the threads, before each checkpoint freezes it for what changed since.
const ROUNDS: u64 = 2;

/// How often a checkpoint is gone on with where memory is refused, before it is given up.
const TRIES: u64 = 100;

/// A hold sees each device call before it is made. This one does nothing.
struct Free;

impl Hold for Free {
    fn before(&self, _call: u64) {}
}

/// Whether a checkpoint may stand after this reply, with all frozen for it: memory was refused.
fn may_stand(reply: &Reply) -> bool {
    matches!(reply, Reply::Refused(Refusal::OutOfMemory))
}

/// Goes on with the checkpoint that stands, or begins it again where none does.
fn go_on<D: Disk + Drop>(rt: &impl Wait, shared: &Shared<D>, rounds: u64) -> Reply {
    match shared.go_on_dumper(rt, &Free) {
        Reply::Refused(Refusal::Idle) => shared.run_dumper(rt, rounds, &Free),
        reply => reply,
    }
}

/// Cancels the checkpoint that stands, or ends all waits for its thaw where it is too late for that.
fn give_up<D: Disk + Drop>(rt: &impl Wait, shared: &Shared<D>) {
    match shared.cancel(rt) {
        Reply::Cancelled(_) | Reply::Refused(Refusal::Idle) => {}
        _ => {
            let _ = shared.end_waits(rt);
        }
    }
}

/// Makes a checkpoint. Returns its number, from where on no crash takes it away. Where memory is refused again and
/// again it is given up, so that nobody waits for a thaw that doesn't come.
pub fn save<D: Disk + Drop>(
    rt: &impl Wait,
    shared: &Shared<D>,
    rounds: u64,
) -> Result<u64, Refusal> {
    let mut reply = shared.run_dumper(rt, rounds, &Free);
    for _ in 0..TRIES {
        if !may_stand(&reply) {
            break;
        }
        reply = go_on(rt, shared, rounds);
    }
    if may_stand(&reply) {
        give_up(rt, shared);
    }
    match reply {
        Reply::Acked(number) => Ok(number),
        Reply::Refused(why) => Err(why),
        _ => Err(Refusal::Idle),
    }
}

/// Merges the images that make the newest checkpoint into one, and gives the room of the others back. Where memory is
/// refused it is left: nobody waits for a merge.
fn merge<D: Disk + Drop>(rt: &impl Wait, shared: &Shared<D>) -> Result<(), Refusal> {
    match shared.run_merger(rt, &Free) {
        Reply::Refused(why) => Err(why),
        _ => Ok(()),
    }
}

/// Makes three checkpoints, one after the other, the second beside a merge. Returns their numbers.
pub fn save_beside<R: Threads + Wait + Sync, D: Disk + Drop + Send>(
    rt: &R,
    alloc: Global,
    shared: &Shared<D>,
) -> Result<Vec<u64>, Refusal> {
    let first = save(rt, shared, ROUNDS)?;
    let (second, merged) = thread::join(rt, || save(rt, shared, ROUNDS), || merge(rt, shared));
    merged?;
    let third = save(rt, shared, ROUNDS)?;
    match Vec::from_array(alloc, [first, second?, third]) {
        Ok(acks) => Ok(acks),
        Err(_) => Err(Refusal::OutOfMemory),
    }
}
