//! Eight seats that make commands, orders and jobs at random over one core, whose device fails once.
use crate::cases::Store;
use crate::holds::Free;
use crate::mutator::{load, mmap, store};
use crate::told::Told;
use sd_areas::SpaceId;
use sd_command::{Command, Refusal, Reply};
use sd_journal::Receipt;
use sd_shared::{Seat, Shared};
use std::alloc::Global;
use std::sync::atomic::{AtomicU64, Ordering};
use std::sync::{Mutex, Wait};
use std::thread;
use std::thread::Threads;

/// How many acts each seat makes.
const ACTS: u64 = 40;

/// How many seats play, each with a page of its own.
pub(crate) const SEATS: usize = 8;

/// How often a seat goes on with a checkpoint that others drive too.
const TRIES: u64 = 1_000_000;

/// The next random number below a bound, which isn't 0.
fn pick(random: &mut u64, bound: u64) -> u64 {
    *random = random
        .wrapping_mul(6_364_136_223_846_793_005)
        .wrapping_add(1_442_695_040_888_963_407);
    (*random >> 33).checked_rem(bound).unwrap_or(0)
}

/// A command on a page, or a fork that ends at once where no frame or space is left.
fn command(alloc: Global, page: u64, random: &mut u64) -> Result<Command, Refusal> {
    let number = pick(random, 16);
    if number == 0 {
        return Ok(Command::Fork {
            space: SpaceId::new(1),
        });
    }
    if number < 6 {
        return Ok(load(page));
    }
    store(alloc, page, number)
}

/// What the seats play with, and what all of them were answered.
#[derive(Drop)]
struct Board<'a, R> {
    rt: &'a R,
    alloc: Global,
    shared: &'a Shared<Store>,
    told: &'a Mutex<Told>,
}

impl<R: Threads + Wait + Sync> Board<'_, R> {
    /// Makes a command in one of three ways.
    fn make(&self, seat: &mut Seat, command: Command, way: u64) -> Result<Receipt, Refusal> {
        if way == 0 {
            return self.shared.call(self.rt, seat, command);
        }
        if way == 1 {
            return self.shared.call_thawed(self.rt, seat, command);
        }
        self.shared.try_call(seat, command)
    }

    /// Keeps a receipt. Returns whether there was one, or the lock was busy.
    fn note_made(&self, made: Result<Receipt, Refusal>) -> bool {
        match made {
            Ok(receipt) => self.told.lock(self.rt).keep(receipt),
            Err(why) => why == Refusal::LockBusy,
        }
    }

    /// Makes a command of a seat on its page. Returns whether all went well, as each of what follows.
    fn call(&self, seat: &mut Seat, random: &mut u64) -> bool {
        let way = pick(random, 3);
        match command(self.alloc, seat.number() as u64, random) {
            Ok(command) => self.note_made(self.make(seat, command, way)),
            Err(_) => false,
        }
    }

    /// Begins a job, goes on with one, or cancels.
    fn begin(&self, job: u64, rounds: u64) -> Reply {
        if job < 2 {
            return self.shared.run_dumper(self.rt, rounds, &Free);
        }
        if job < 4 {
            let writers = (rounds as usize).saturating_add(1);
            return self.shared.run_relay(self.rt, rounds, writers, &Free);
        }
        if job < 5 {
            return self.shared.run_merger(self.rt, &Free);
        }
        if job < 6 {
            return self.shared.go_on_dumper(self.rt, &Free);
        }
        if job < 7 {
            return self.shared.go_on_merger(self.rt, &Free);
        }
        self.shared.cancel(self.rt)
    }

    /// Opens the store again where a device call failed, and merges where no slot is left.
    fn mend(&self, why: Refusal) {
        if why == Refusal::StoreDown || why == Refusal::NotOpen {
            drop(self.shared.run_opener(self.rt, &Free));
        }
        if why == Refusal::NoSlot {
            drop(self.shared.run_merger(self.rt, &Free));
        }
    }

    /// Keeps an acknowledgement, or mends what was refused.
    fn note(&self, reply: Reply) -> bool {
        match reply {
            Reply::Acked(number) => self.told.lock(self.rt).keep_ack(number),
            Reply::Refused(why) => {
                self.mend(why);
                true
            }
            _ => true,
        }
    }

    /// Goes on with the checkpoint that stands. Returns nothing while one does, also after a device call that failed.
    fn settle_once(&self) -> Option<bool> {
        match self.shared.go_on_dumper(self.rt, &Free) {
            Reply::Acked(number) => Some(self.told.lock(self.rt).keep_ack(number)),
            Reply::Refused(why) if why == Refusal::Idle => Some(true),
            reply => {
                let _ = self.note(reply);
                None
            }
        }
    }

    /// Goes on with the checkpoint that stands until none does.
    fn settle(&self) -> bool {
        for _ in 0..TRIES {
            if let Some(went_well) = self.settle_once() {
                return went_well;
            }
            thread::yield_now();
        }
        false
    }

    /// Begins a job, goes on with one, or cancels, so that no checkpoint stands then.
    fn order(&self, random: &mut u64) -> bool {
        let rounds = pick(random, 3);
        let job = pick(random, 8);
        self.note(self.begin(job, rounds)) && self.settle()
    }

    /// Trims the journal, and keeps what is folded.
    fn trim(&self) -> bool {
        match self.shared.trim(self.rt) {
            Ok(folded) => self.told.lock(self.rt).keep_folded(folded),
            Err(why) => why == Refusal::Idle,
        }
    }

    /// One act of a seat.
    fn act(&self, seat: &mut Seat, random: &mut u64) -> bool {
        let act = pick(random, 24);
        if act < 2 {
            return self.order(random);
        }
        if act < 3 {
            return self.trim();
        }
        self.call(seat, random)
    }

    /// All acts of a seat.
    fn play(&self, seat: &mut Seat, seed: u64) -> bool {
        let mut random = seed.wrapping_mul(31).wrapping_add(seat.number() as u64);
        for _ in 0..ACTS {
            if !self.act(seat, &mut random) {
                return false;
            }
        }
        true
    }

    /// Maps a page for each seat.
    fn map_all(&self, seats: &mut [Seat]) -> bool {
        match seats.first_mut() {
            Some(first) => self.note_made(self.make(first, mmap(SEATS as u64), 0)),
            None => false,
        }
    }

    /// Maps the pages, and lets the seats play, each in a thread of its own. No checkpoint stands then.
    fn play_all(&self, seats: &mut [Seat], seed: u64) -> bool {
        let mapped = self.map_all(seats);
        let failed = AtomicU64::new(0);
        thread::for_each_mut(
            self.rt,
            seats,
            SEATS,
            &|_index, seat| {
                if !self.play(seat, seed) {
                    failed.store(1, Ordering::SeqCst);
                }
            },
        );
        mapped && failed.load(Ordering::SeqCst) == 0
    }
}

/// Lets the seats play. Returns what they were answered that the journal still has: what was folded accounts for the
/// rest; and whether all went well.
pub(crate) fn plays<R: Threads + Wait + Sync>(
    rt: &R,
    alloc: Global,
    shared: &Shared<Store>,
    seats: &mut [Seat],
    seed: u64,
    told: Told,
) -> (Told, bool) {
    let told = Mutex::new(told);
    let board = Board {
        rt,
        alloc,
        shared,
        told: &told,
    };
    let played = board.play_all(seats, seed);
    let mut told = told.into_inner();
    told.acks.sort_unstable();
    let folded = told.are_folded(alloc);
    (told, played && folded)
}
