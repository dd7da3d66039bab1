//! A store that goes down while a thread waits for the thaw.
use crate::cases::Store;
use crate::holds::Free;
use crate::jobs::Job;
use crate::mutator::{Mutator, Way, load};
use crate::replies::{is_for, is_opened, is_refused};
use crate::waiting::{Wake, dump_beside};
use sd_command::Refusal;
use sd_shared::{Shared, Thaw};
use std::rt::Files;
use std::sync::Wait;
use std::thread::Threads;
use std::time::Clock;

/// Whether a load is answered as frozen.
fn is_frozen(rt: &impl Wait, shared: &Shared<Store>, mutator: &mut Mutator<'_>) -> bool {
    is_for(
        mutator.make_by(rt, shared, Way::Thawed, load(0)),
        Refusal::Frozen,
    )
}

/// Whether the store is opened again, after which nothing is frozen.
fn is_mended(rt: &impl Wait, shared: &Shared<Store>, mutator: &mut Mutator<'_>) -> bool {
    is_opened(Job::Opening.make(rt, shared, &Free))
        && shared.wait_thaw(rt) == Thaw::Thawed
        && mutator.make(rt, shared, load(0)).is_none()
}

/// The device fails at the first page's write, in a checkpoint without pre-dumps. Returns whether who waits for the
/// thaw is answered that the store is down, and commands are refused as frozen until it was opened again.
pub(crate) fn falls<R: Threads + Wait + Clock + Files + Alloc + Sync>(
    rt: &R,
    shared: &Shared<Store>,
    mutator: &mut Mutator<'_>,
) -> bool {
    let (reply, fell) = dump_beside(rt, shared, mutator, Wake::Down);
    fell && is_refused(&reply, Refusal::StoreDown)
        && is_frozen(rt, shared, mutator)
        && is_mended(rt, shared, mutator)
}
