//! Runs of lines.
use crate::course::{Course, Job};
use crate::figures::Figures;
use crate::lab::Failing;
use crate::record::Record;
use crate::rule::Rule;
use crate::trouble::Trouble;
use sd_areas::{PAGE_BYTES, Prot, SpaceId};
use sd_command::{Bytes, Command};
use sd_disk::MemDisk;
use sd_gate::Worker;
use sd_world::Event;
use std::alloc::{AllocError, Global};

/// More steps than a job has.
const MOST: usize = 1_000;

/// The rules of a crash.
const RULES: [Rule; 8] = [
    Rule::Now,
    Rule::Synced,
    Rule::Least(0),
    Rule::Least(0xA5),
    Rule::Least(0xFF),
    Rule::Greatest(0),
    Rule::Greatest(0xA5),
    Rule::Greatest(0xFF),
];

/// The bytes of an image's front.
const FRONT_BYTES: u64 = 4_096;

/// More bytes than the table of an image of these runs takes.
const TABLE_BYTES: u64 = 512;

/// As many slots as any of these runs fills, and one more.
const SLOTS: u64 = 6;

/// More device calls than any of these runs makes.
const CALLS: usize = 100_000;

/// The first address of the pages.
const FIRST: u64 = 0x10000;

/// One line of a run.
#[derive(Clone, Copy)]
pub enum Line {
    /// So many pages are mapped, to be read and written.
    Map(u64),
    /// A byte is stored at an address after the first.
    Store(u64, u8),
    /// A checkpoint of so many pre-dumps begins, in a store that is opened again before, where it isn't open.
    Begin(u64),
    /// So many steps of the job that runs.
    Steps(usize),
    /// So many times the dumper takes up what is next, whatever outcomes are kept.
    TakeUps(usize),
    /// The device call at this place is made of those that the dumper asked for.
    PerformAt(u64),
    /// The outcome at this place is handed in of those of the dumper's calls.
    HandInAt(u64),
    /// The job that runs comes to its end.
    Finish,
    /// The checkpoint that runs is cancelled.
    Cancel,
}

fn map(pages: u64) -> Command {
    Command::Mmap {
        space: SpaceId::new(1),
        address: FIRST,
        length: pages.saturating_mul(PAGE_BYTES),
        prot: Prot {
            read: true,
            write: true,
            execute: false,
        },
    }
}

fn store(alloc: Global, behind: u64, byte: u8) -> Result<Command, AllocError> {
    Ok(Command::Store {
        space: SpaceId::new(1),
        address: FIRST.saturating_add(behind),
        bytes: Bytes::new(vec![in alloc; byte; 1]?),
    })
}

/// Opens the store again where it isn't open. A call may fail once.
fn ready(course: &mut Course, figures: &mut Figures) -> Result<(), Trouble> {
    for _ in 0..3 {
        if course.job() == Job::Closed {
            course.step(Event::Reopen, figures)?;
            course.finish(MOST, figures)?;
        }
    }
    Ok(())
}

/// Takes up so many times what is next of the dumper.
fn take_up(course: &mut Course, count: usize, figures: &mut Figures) -> Result<(), Trouble> {
    for _ in 0..count {
        course.step(Event::TakeUp(Worker::Dumper), figures)?;
    }
    Ok(())
}

/// Makes a line.
fn make(
    alloc: Global,
    course: &mut Course,
    line: Line,
    figures: &mut Figures,
) -> Result<(), Trouble> {
    let seat = 0;
    match line {
        Line::Map(pages) => course.step(
            Event::Command {
                seat,
                command: map(pages),
            },
            figures,
        ),
        Line::Store(behind, byte) => {
            let command = store(alloc, behind, byte)?;
            course.step(Event::Command { seat, command }, figures)
        }
        Line::Begin(rounds) => {
            ready(course, figures)?;
            course.step(Event::Begin(rounds), figures)
        }
        Line::Steps(count) => course.finish(count, figures),
        Line::TakeUps(count) => take_up(course, count, figures),
        Line::PerformAt(place) => course.step(Event::PerformAt(Worker::Dumper, place), figures),
        Line::HandInAt(place) => course.step(Event::HandInAt(Worker::Dumper, place), figures),
        Line::Finish => course.finish(MOST, figures),
        Line::Cancel => course.step(Event::Cancel, figures),
    }
}

/// Makes lines one after the other.
fn make_all(
    alloc: Global,
    course: &mut Course,
    lines: &[Line],
    figures: &mut Figures,
) -> Result<(), Trouble> {
    for line in lines {
        make(alloc, course, *line, figures)?;
    }
    Ok(())
}

/// Plays lines over a store that is synced, of which this call fails.
fn play(
    alloc: Global,
    start: MemDisk,
    lines: &[Line],
    failing: Failing,
    figures: &mut Figures,
) -> Result<Record, Trouble> {
    match Course::start(alloc, start, failing)? {
        Ok(mut course) => {
            let made = make_all(alloc, &mut course, lines, figures);
            let record = course.into_record();
            match made {
                Ok(()) => Ok(record),
                Err(trouble) => Err(trouble),
            }
        }
        Err(record) => Ok(record),
    }
}

/// How many pages lines map at once, at most.
fn pages_of(lines: &[Line]) -> u64 {
    let mut most: u64 = 0;
    for line in lines {
        if let Line::Map(pages) = line {
            most = most.max(*pages);
        }
    }
    most
}

/// How many images lines make, where each checkpoint comes to its end.
fn images_of(lines: &[Line]) -> u64 {
    let mut images: u64 = 0;
    for line in lines {
        if let Line::Begin(rounds) = line {
            images = images.saturating_add(rounds.saturating_add(1));
        }
    }
    images
}

/// An empty store with no more room than lines need that are played over the store that others leave: each crash takes
/// all of it once more.
fn empty(alloc: Global, before: &[Line], lines: &[Line]) -> Result<MemDisk, AllocError> {
    let pages = pages_of(before).max(pages_of(lines));
    let data = PAGE_BYTES.saturating_mul(pages);
    let room = data.saturating_add(FRONT_BYTES + TABLE_BYTES);
    let images = images_of(before).saturating_add(images_of(lines));
    let slots = images.saturating_add(1).min(SLOTS);
    MemDisk::new(alloc, slots as usize, room as usize, CALLS)
}

/// The store that lines leave, synced, with room for others that are played over it.
///
/// # Errors
///
/// Out of memory; and where a run that is made again is answered in another way.
pub fn store_of(alloc: Global, before: &[Line], lines: &[Line]) -> Result<MemDisk, Trouble> {
    let record = play(
        alloc,
        empty(alloc, before, lines)?,
        before,
        Failing::Nothing,
        &mut Figures::default(),
    )?;
    end_of(alloc, &record)
}

/// The store at the end of a run, synced.
fn end_of(alloc: Global, record: &Record) -> Result<MemDisk, Trouble> {
    let disk = record.disk_after(record.count())?;
    Ok(disk.crash(alloc, &mut Rule::Now)?)
}

/// Plays lines over a copy of a store, which is synced, and crashes it after each call; or, where a call is to fail,
/// after that one and at the end. Returns what was found.
///
/// # Errors
///
/// Out of memory; and where a run that is made again is answered in another way.
pub fn try_lines(
    alloc: Global,
    store: &MemDisk,
    lines: &[Line],
    failing: Failing,
) -> Result<Figures, Trouble> {
    let mut figures = Figures::default();
    let start = store.crash(alloc, &mut Rule::Now)?;
    let record = play(alloc, start, lines, failing, &mut figures)?;
    crash(&record, failing, &mut figures)?;
    Ok(figures)
}

/// Crashes a run after each call; or, where a call is to fail, after that one and at the end.
fn crash(record: &Record, failing: Failing, figures: &mut Figures) -> Result<(), Trouble> {
    match failing {
        Failing::Nothing => record.crash_everywhere(&RULES, figures),
        _ => record.crash_where_it_fails(&RULES, figures),
    }
}
