//! Commands that are answered while a device call is under way.
ghost use Rattle.std.specs.Prelude.{◌≡◌};

use crate::holds::{Flags, Free, await_flag, await_in};
use crate::mutator::{mmap, store};
use crate::replies::is_acked;
use sd_command::{Command, Reply};
use sd_disk::{Disk, MemDisk, Observed, Observer};
use sd_shared::{Seat, Shared};
use std::alloc::Global;
use std::sync::Wait;
use std::sync::atomic::Ordering;
use std::test::Fail;
use std::thread;
use std::thread::Threads;
use std::time::Clock;

/// How many bytes a page has.
const PAGE_BYTES: usize = 4096;

/// Slots for the images of eight rounds, of a checkpoint before them, and of a merge.
const SLOTS: usize = 16;

/// Room in each slot for the one page, after 4,096 bytes of front and before a table.
const ROOM: usize = 4_096 + PAGE_BYTES + 512;

/// How many turns of a millisecond the device waits for the answer, which takes a thread two of them.
const TURNS: u64 = 600;

/// Waits before the first write of a page until a command was answered.
#[derive(Drop)]
struct Answering<'a, R> {
    rt: &'a R,
    flags: &'a Flags,
}

impl<R: Clock> Observer for Answering<'_, R> {
    fn before_write(&mut self, bytes: &[u8]) {
        if bytes.len() == PAGE_BYTES && self.flags.begun.swap(1, Ordering::SeqCst) == 0 {
            if !await_in(self.rt, &self.flags.ended, TURNS) {
                self.flags.missed.store(1, Ordering::SeqCst);
            }
        }
    }
}

/// Makes a command that is done. Returns whether it was.
fn is_done<D: Disk + Drop>(
    rt: &impl Wait,
    shared: &Shared<D>,
    seat: &mut Seat,
    command: Command,
) -> bool {
    match shared.call(rt, seat, command) {
        Ok(receipt) => matches!(receipt.reply, Reply::Done),
        Err(_) => false,
    }
}

/// Stores a number into the page. Returns whether that was done.
fn has_stored<D: Disk + Drop>(
    rt: &impl Wait,
    alloc: Global,
    shared: &Shared<D>,
    seat: &mut Seat,
    number: u64,
) -> bool {
    match store(alloc, 0, number) {
        Ok(command) => is_done(rt, shared, seat, command),
        Err(_) => false,
    }
}

/// Stores into the page once its write is under way. Returns whether it was answered.
fn store_beside<R: Wait + Clock, D: Disk + Drop>(
    rt: &R,
    alloc: Global,
    shared: &Shared<D>,
    seat: &mut Seat,
    flags: &Flags,
) -> bool {
    if !await_flag(rt, &flags.begun) {
        return false;
    }
    let stored = has_stored(rt, alloc, shared, seat, 8);
    flags.ended.store(1, Ordering::SeqCst);
    stored
}

/// Makes a checkpoint of so many rounds and writers, with a merge after it. Returns whether it was acknowledged.
fn relays<R: Threads + Wait + Sync, D: Disk + Drop + Send>(
    rt: &R,
    shared: &Shared<D>,
    rounds: u64,
    writers: usize,
) -> bool {
    let reply = shared.run_relay(rt, rounds, writers, &Free);
    drop(shared.run_merger(rt, &Free));
    matches!(reply, Reply::Acked(_))
}

/// Makes checkpoints of 0 to 8 rounds, of 1 to 8 writers, each with a merge after it. Returns whether all were
/// acknowledged.
fn relays_all<R: Threads + Wait + Sync, D: Disk + Drop + Send>(rt: &R, shared: &Shared<D>) -> bool {
    for rounds in 0..9 {
        if !relays(rt, shared, rounds, 1 + (rounds % 8) as usize) {
            return false;
        }
    }
    true
}

/// Makes a checkpoint of one round, while another thread stores. Returns whether that was answered
/// while the page's write was under way.
fn save_and_store<R: Threads + Wait + Clock + Sync, D: Disk + Drop + Send>(
    rt: &R,
    alloc: Global,
    shared: &Shared<D>,
    seat: &mut Seat,
    flags: &Flags,
) -> bool {
    if !is_done(rt, shared, seat, mmap(1)) || !has_stored(rt, alloc, shared, seat, 7) {
        return false;
    }
    let (reply, stored) = thread::join(
        rt,
        || shared.run_relay(rt, 1, 1, &Free),
        || store_beside(rt, alloc, shared, seat, flags),
    );
    stored && is_acked(reply, 1) && flags.missed.load(Ordering::SeqCst) == 0
}

/// Does all that, by the first seat.
fn answers<R: Threads + Wait + Clock + Sync, D: Disk + Drop + Send>(
    rt: &R,
    alloc: Global,
    shared: &Shared<D>,
    seats: &mut [Seat],
    flags: &Flags,
) -> bool {
    match seats.first_mut() {
        Some(seat) => save_and_store(rt, alloc, shared, seat, flags) && relays_all(rt, shared),
        None => false,
    }
}

/// While the device writes a page, a store into that page is answered within a second: no device call is made with the
/// core's lock held, and no command with the disk's. Then any number of rounds and of writers is taken.
#[test]
fn a_device_call_holds_no_command_up(rt: HostRuntime) -> Result<(), Fail> {
    let alloc = rt.alloc();
    let flags = Flags::new();
    let answering = Answering {
        rt: &rt,
        flags: &flags,
    };
    let disk = Observed::new(answering, MemDisk::new(alloc, SLOTS, ROOM, 10_000)?);
    let Ok((shared, mut seats)) = Shared::start(alloc, disk, 64, 1) else {
        return Err(Fail::from("not started"));
    };
    let answered = answers(&rt, alloc, &shared, &mut seats, &flags);
    shared.discard();
    assert!(rt; answered);
    Ok(())
}
