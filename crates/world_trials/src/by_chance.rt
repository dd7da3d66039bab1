//! Random runs.
use crate::chance::Chance;
use crate::course::{Course, Job};
use crate::figures::Figures;
use crate::lab::Failing;
use crate::record::Record;
use crate::rule::Rule;
use crate::trouble::Trouble;
use sd_areas::{PAGE_BYTES, Prot, SpaceId};
use sd_command::{Bytes, Command};
use sd_disk::MemDisk;
use sd_gate::Worker;
use sd_world::Event;
use std::alloc::{AllocError, Global};

/// The first address.
const FIRST: u64 = 0x10000;

/// How many pages a space may have.
const PAGES: u64 = 3;

/// How many spaces a run forks at most.
const SPACES: usize = 3;

/// The most events of a run.
const EVENTS: u64 = 240;

/// More device calls than a run makes.
const CALLS: usize = 1_000_000;

const READ_WRITE: Prot = Prot {
    read: true,
    write: true,
    execute: false,
};

/// Random permissions: in most cases those to read and to write.
fn prot(chance: &mut Chance) -> Prot {
    Prot::from_bits(chance.below(24) as u8).unwrap_or(READ_WRITE)
}

/// A command on a range of pages.
fn on_range(space: SpaceId, chance: &mut Chance) -> Command {
    let first = chance.below(PAGES);
    let address = FIRST + first * PAGE_BYTES;
    let length = (1 + chance.below(PAGES - first)) * PAGE_BYTES;
    match chance.below(4) {
        0 => Command::Munmap {
            space,
            address,
            length,
        },
        1 => Command::Mprotect {
            space,
            address,
            length,
            prot: prot(chance),
        },
        _ => Command::Mmap {
            space,
            address,
            length,
            prot: prot(chance),
        },
    }
}

/// A command on an address.
fn on_address(alloc: Global, space: SpaceId, chance: &mut Chance) -> Result<Command, AllocError> {
    let address = FIRST + chance.below(PAGES) * PAGE_BYTES + chance.below(8) * 512;
    let bytes = Bytes::new(vec![in alloc; chance.below(256) as u8; 1 + chance.below(3) as usize]?);
    Ok(with_bytes(space, address, bytes, chance))
}

/// A command on an address, with bytes where it has some.
fn with_bytes(space: SpaceId, address: u64, bytes: Bytes, chance: &mut Chance) -> Command {
    match chance.below(8) {
        0 => Command::Fault { space, address },
        1 => Command::TryStore {
            space,
            address,
            bytes,
        },
        2 => Command::Load {
            space,
            address,
            count: 1 + chance.below(8),
        },
        _ => Command::Store {
            space,
            address,
            bytes,
        },
    }
}

/// A random command.
fn command(alloc: Global, course: &Course, chance: &mut Chance) -> Result<Command, AllocError> {
    let space = SpaceId::new(1 + chance.below(3));
    Ok(match chance.below(16) {
        0 if course.memory().living() < SPACES => Command::Fork { space },
        1 => Command::Exit { space },
        2..=4 => on_range(space, chance),
        _ => on_address(alloc, space, chance)?,
    })
}

/// A random worker.
fn worker(chance: &mut Chance) -> Worker {
    match chance.below(6) {
        0 => Worker::Merger,
        1 => Worker::Opener,
        _ => Worker::Dumper,
    }
}

/// What a run does next for its job.
fn for_job(course: &Course, chance: &mut Chance) -> Event {
    match course.job() {
        Job::Closed => Event::Reopen,
        Job::Opening => course.next_of(Worker::Opener),
        Job::Dumping | Job::Falling => course.next_of(Worker::Dumper),
        Job::Resting | Job::Full => Event::Begin(chance.below(4)),
    }
}

/// A random event.
fn event(alloc: Global, course: &Course, chance: &mut Chance) -> Result<Event, AllocError> {
    Ok(match chance.below(240) {
        0..=49 => Event::Command {
            seat: chance.below(4) as usize,
            command: command(alloc, course, chance)?,
        },
        50..=56 => Event::Work(worker(chance)),
        57..=63 => Event::Perform(worker(chance)),
        64..=65 => Event::Begin(chance.below(10)),
        66 => Event::Merge,
        67 => Event::Cancel,
        68 => Event::Reopen,
        69..=98 => Event::TakeUp(worker(chance)),
        99..=106 => Event::PerformAt(worker(chance), chance.below(4)),
        107..=112 => Event::HandInAt(worker(chance), chance.below(4)),
        113..=115 => Event::Trim,
        _ => for_job(course, chance),
    })
}

/// Whether a call fails, and which.
fn failing(chance: &mut Chance) -> Failing {
    let calls = chance.below(150);
    match chance.below(4) {
        0 => Failing::Made(calls),
        1 => Failing::Dropped(calls),
        _ => Failing::Nothing,
    }
}

/// Makes random events, up to the end of a run.
fn go_on(
    alloc: Global,
    course: &mut Course,
    chance: &mut Chance,
    figures: &mut Figures,
) -> Result<(), Trouble> {
    let most = chance.below(EVENTS);
    for _ in 0..most {
        if course.job() == Job::Full {
            break;
        }
        let event = event(alloc, course, chance)?;
        course.step(event, figures)?;
    }
    Ok(())
}

/// Makes a run over a store.
fn run(
    alloc: Global,
    start: MemDisk,
    chance: &mut Chance,
    figures: &mut Figures,
) -> Result<Record, Trouble> {
    figures.run();
    match Course::start(alloc, start, failing(chance))? {
        Ok(mut course) => {
            let gone_on = go_on(alloc, &mut course, chance, figures);
            let record = course.into_record();
            match gone_on {
                Ok(()) => Ok(record),
                Err(trouble) => Err(trouble),
            }
        }
        Err(record) => Ok(record),
    }
}

/// Crashes a run everywhere. Returns what a random crash leaves after some of its steps.
fn crash(
    alloc: Global,
    record: &Record,
    chance: &mut Chance,
    figures: &mut Figures,
) -> Result<MemDisk, Trouble> {
    let rules = [
        Rule::Now,
        Rule::Synced,
        Rule::Least(0),
        Rule::Greatest(0xA5),
        Rule::ByChance(*chance),
    ];
    record.crash_everywhere(&rules, figures)?;
    let count = chance.below((record.count() as u64).max(1)) as usize;
    let left = record.disk_after(count)?;
    Ok(left.crash(alloc, &mut Rule::ByChance(*chance))?)
}

/// Makes a run over a store and crashes it. Returns what a random crash leaves.
fn run_and_crash(
    alloc: Global,
    start: MemDisk,
    chance: &mut Chance,
    figures: &mut Figures,
) -> Result<MemDisk, Trouble> {
    let record = run(alloc, start, chance, figures)?;
    crash(alloc, &record, chance, figures)
}

/// An empty store of a random size.
fn store(alloc: Global, chance: &mut Chance) -> Result<MemDisk, Trouble> {
    let slots = 2 + chance.below(7) as usize;
    let bytes = 16_384 + 4_096 * chance.below(5) as usize;
    Ok(MemDisk::new(alloc, slots, bytes, CALLS)?)
}

/// A random list of events over a random store, then another one over what a crash of it left at random, and so
/// on. After each device call the disk is crashed, and what is restored is compared with what the replies allow.
///
/// # Errors
///
/// Out of memory; and where a run that is made again is answered in another way.
pub fn try_by_chance(alloc: Global, seed: u64, figures: &mut Figures) -> Result<(), Trouble> {
    let mut chance = Chance::new(seed);
    figures.lists = figures.lists.saturating_add(1);
    let mut disk = store(alloc, &mut chance)?;
    for _ in 0..1 + chance.below(3) {
        disk = run_and_crash(alloc, disk, &mut chance, figures)?;
    }
    Ok(())
}
