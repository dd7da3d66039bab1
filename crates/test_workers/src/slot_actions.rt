//! What is done to a store, and what is shown then. Only this file owns one. It isn't dropped: the process of a test
//! ends with it.
use crate::stop::Stop;
use crate::store::{SLOTS, Store};
use sd_free_slots::{ListRoom, free_in};
use sd_gate::{Call, RequestId, Worker};
use sd_merge::{MergeProgress, Retired};
use std::alloc::{AllocError, Global};
use std::mem::forget;

/// What is done, and what is so.
#[derive(Clone, Copy)]
pub(crate) enum TestAction {
    /// A checkpoint begins: its number, the slots of its pre-dumps and of its dump, and its parent.
    BeginDump(u64, &'static [usize], usize, u64),
    /// It is given up.
    CancelDump,
    /// A merge of the tip begins, into a slot that was never written.
    BeginMerge(usize),
    /// It goes on until its image of this serial is open and its list is awaited, or it has ended with that.
    Merge(u64),
    /// It gets its list, in a room for all slots.
    Retire,
    /// These slots are free, where a request of the opener is out on a slot, or none is.
    Free(Option<usize>, &'static [usize]),
    /// The merge closes these images, in room for so many slots, or in none, beside such a request.
    Lists(Option<usize>, Option<usize>, &'static [Retired]),
}

type Outs = [Option<RequestId>; 3];

/// A request of the opener is out on this slot, or none is.
fn outs_of(slot: Option<usize>) -> Outs {
    let Some(slot) = slot else {
        return [None, None, None];
    };
    let id = RequestId {
        worker: Worker::Opener,
        ticket: 1,
        slot,
        call: Call::Sync,
    };
    [None, None, Some(id)]
}

/// Room for so many slots, or none.
fn room_of(alloc: Global, slots: Option<usize>) -> Result<ListRoom, AllocError> {
    match slots {
        Some(count) => ListRoom::for_slots(alloc, count),
        None => Ok(ListRoom::none(alloc)),
    }
}

/// The list that the merge closes, in this room, beside such a request.
fn list(
    alloc: Global,
    store: &Store,
    room: Option<usize>,
    out: Option<usize>,
) -> Result<Vec<Retired>, AllocError> {
    let room = room_of(alloc, room)?;
    Ok(room.into_list(&store.catalog, &store.dumper, &store.merger, &outs_of(out)))
}

/// Whether these slots are free.
fn are_free(
    alloc: Global,
    store: &Store,
    out: Option<usize>,
    slots: &[usize],
) -> Result<bool, AllocError> {
    let free = free_in(
        alloc,
        SLOTS,
        &store.catalog,
        &store.dumper,
        &store.merger,
        &outs_of(out),
    )?;
    Ok(free.as_slice() == slots)
}

/// Gives the merge its list. Returns whether the merge goes on with that.
fn retires(alloc: Global, store: &mut Store) -> Result<bool, AllocError> {
    let list = list(alloc, store, Some(SLOTS), None)?;
    Ok(matches!(store.merger.retire(list), MergeProgress::More))
}

/// Does an action. Returns whether it came to what it says.
fn does(alloc: Global, store: &mut Store, action: TestAction) -> Result<bool, Stop> {
    match action {
        TestAction::BeginDump(number, pre_dumps, dump, parent) => {
            store.begin_dump(alloc, number, pre_dumps, dump, parent)?;
            Ok(true)
        }
        TestAction::CancelDump => {
            store.dumper.cancel();
            Ok(true)
        }
        TestAction::BeginMerge(slot) => {
            store.begin_merge(alloc, slot)?;
            Ok(true)
        }
        TestAction::Merge(serial) => Ok(store.merge()? == serial),
        TestAction::Retire => Ok(retires(alloc, store)?),
        TestAction::Free(out, slots) => Ok(are_free(alloc, store, out, slots)?),
        TestAction::Lists(room, out, images) => {
            Ok(list(alloc, store, room, out)?.as_slice() == images)
        }
    }
}

/// Does one action after the other over a chain of three images. Returns the place of the first that doesn't come to
/// what it says, if there is one.
fn first_wrong(
    alloc: Global,
    store: &mut Store,
    actions: &[TestAction],
) -> Result<Option<usize>, Stop> {
    store.add_chain(alloc)?;
    for place in 0..actions.len() {
        if !does(alloc, store, actions[place])? {
            return Ok(Some(place));
        }
    }
    Ok(None)
}

/// The same over a new store.
pub(crate) fn run(alloc: Global, actions: &[TestAction]) -> Result<Option<usize>, Stop> {
    let mut store = Store::new(alloc)?;
    let wrong = first_wrong(alloc, &mut store, actions);
    forget(store);
    wrong
}
