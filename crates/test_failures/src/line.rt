//! The scripts of these tests.
use sd_areas::{Prot, SpaceId};
use sd_command::{Bytes, Command};
use sd_gate::Worker;
use sd_world::Event;
use std::alloc::{AllocError, Global};

/// The address of the page.
const ADDRESS: u64 = 0x10000;

/// What the first checkpoint saves.
pub(crate) const HELLO: &[u8] = b"hello";

/// A line of a script.
#[derive(Clone, Copy)]
pub(crate) enum Line {
    /// The store is opened again, by all steps of the opener.
    Open,
    /// A page is mapped, to be read and written.
    Map,
    /// Bytes are stored at the start of the page.
    Store(&'static [u8]),
    /// A checkpoint of so many pre-dumps is begun.
    Begin(u64),
    /// So many events of a worker.
    Steps(Worker, u64),
    /// All events of a worker's job that are left.
    Finish(Worker),
    /// A merge is begun.
    Merge,
    /// The checkpoint that runs is cancelled.
    Cancel,
    /// The journal is trimmed.
    Trim,
}

/// Two checkpoints.
pub(crate) const TWO: &[Line] = &[
    Line::Open,
    Line::Map,
    Line::Store(HELLO),
    Line::Begin(0),
    Line::Finish(Worker::Dumper),
    Line::Begin(0),
    Line::Finish(Worker::Dumper),
];

/// A store is opened, and takes a checkpoint.
pub(crate) const REOPENED: &[Line] = &[Line::Open, Line::Begin(0), Line::Finish(Worker::Dumper)];

/// A checkpoint, and a merge of it.
pub(crate) const MERGED: &[Line] = &[
    Line::Open,
    Line::Map,
    Line::Store(HELLO),
    Line::Begin(0),
    Line::Finish(Worker::Dumper),
    Line::Merge,
    Line::Finish(Worker::Merger),
];

/// A checkpoint that is cancelled after another one, and one more, which takes every page.
pub(crate) const STALE_BITS: &[Line] = &[
    Line::Open,
    Line::Map,
    Line::Store(HELLO),
    Line::Begin(0),
    Line::Finish(Worker::Dumper),
    Line::Store(b"b"),
    Line::Begin(1),
    Line::Steps(Worker::Dumper, 10),
    Line::Cancel,
    Line::Begin(0),
    Line::Finish(Worker::Dumper),
];

/// A merge between the pre-dump and the dump of a checkpoint.
pub(crate) const MERGE_BESIDE_ROUND: &[Line] = &[
    Line::Open,
    Line::Map,
    Line::Store(HELLO),
    Line::Begin(0),
    Line::Finish(Worker::Dumper),
    Line::Store(b"b"),
    Line::Begin(1),
    Line::Steps(Worker::Dumper, 36),
    Line::Merge,
    Line::Finish(Worker::Merger),
    Line::Finish(Worker::Dumper),
];

/// Two checkpoints, with a trim after each.
pub(crate) const TRIMMED: &[Line] = &[
    Line::Open,
    Line::Map,
    Line::Store(HELLO),
    Line::Begin(0),
    Line::Finish(Worker::Dumper),
    Line::Trim,
    Line::Store(b"b"),
    Line::Begin(0),
    Line::Store(b"c"),
    Line::Finish(Worker::Dumper),
    Line::Map,
    Line::Trim,
];

/// The event of a command of seat 0.
fn command(command: Command) -> Event {
    Event::Command { seat: 0, command }
}

fn map() -> Command {
    Command::Mmap {
        space: SpaceId::new(1),
        address: ADDRESS,
        length: 4096,
        prot: Prot {
            read: true,
            write: true,
            execute: false,
        },
    }
}

fn store(alloc: Global, bytes: &[u8]) -> Result<Command, AllocError> {
    let mut room = match Vec::with_capacity(alloc, bytes.len()) {
        Ok(room) => room,
        Err(_) => Vec::with_capacity(alloc, bytes.len())?,
    };
    for byte in bytes {
        room.push(*byte)?;
    }
    Ok(Command::Store {
        space: SpaceId::new(1),
        address: ADDRESS,
        bytes: Bytes::new(room),
    })
}

impl Line {
    /// The first event of the line, if it isn't one of a worker. Its memory is refused once at most.
    pub(crate) fn event(self, alloc: Global) -> Result<Option<Event>, AllocError> {
        match self {
            Line::Open => Ok(Some(Event::Reopen)),
            Line::Map => Ok(Some(command(map()))),
            Line::Store(bytes) => Ok(Some(command(store(alloc, bytes)?))),
            Line::Begin(rounds) => Ok(Some(Event::Begin(rounds))),
            Line::Steps(_, _) | Line::Finish(_) => Ok(None),
            Line::Merge => Ok(Some(Event::Merge)),
            Line::Cancel => Ok(Some(Event::Cancel)),
            Line::Trim => Ok(Some(Event::Trim)),
        }
    }

    /// The worker that goes on after that, and for how many events at most.
    pub(crate) fn work(self) -> Option<(Worker, u64)> {
        match self {
            Line::Open => Some((Worker::Opener, u64::MAX)),
            Line::Steps(worker, count) => Some((worker, count)),
            Line::Finish(worker) => Some((worker, u64::MAX)),
            _ => None,
        }
    }
}
