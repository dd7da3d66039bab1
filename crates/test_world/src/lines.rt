//! Scripts of a test: each line is what a world is asked, and what it has to answer.
use sd_areas::{Prot, SpaceId};
use sd_command::{Bytes, Command, Reply};
use sd_gate::Worker;
use std::alloc::{AllocError, Global};

/// What is asked.
#[derive(Clone, Copy)]
pub(crate) enum Word {
    /// A page is mapped.
    Map,
    /// A byte is stored at its front.
    Store,
    /// It is loaded.
    Load,
    /// It is loaded so many times.
    Loads,
    /// A checkpoint of so many rounds begins.
    Begin,
    Merge,
    Cancel,
    Trim,
    /// The opener begins.
    Reopen,
    /// A worker makes its next step.
    Work(Worker),
    /// A worker's device call is made.
    Perform(Worker),
    /// A worker's job comes to its end.
    Finish(Worker),
    /// So many events of the dumper.
    Steps,
    /// So many steps of the dumper's pass in one call: `worked` where all are made, else `done`.
    Pass,
    /// The opener begins, and comes to its end.
    Open,
    /// A checkpoint without rounds begins, and comes to its end.
    Save,
    /// Whether a worker's job has so many events left at most, `worked` where it is so, else `done`.
    Left(Worker),
    /// Whether a worker has no job, answered so.
    Idle(Worker),
    /// Whether a call of a worker is out, answered so.
    Out(Worker),
}

const WORDS: &[(&str, Word)] = &[
    ("map", Word::Map),
    ("store", Word::Store),
    ("load", Word::Load),
    ("loads", Word::Loads),
    ("begin", Word::Begin),
    ("merge", Word::Merge),
    ("cancel", Word::Cancel),
    ("trim", Word::Trim),
    ("reopen", Word::Reopen),
    ("work-merger", Word::Work(Worker::Merger)),
    ("work-opener", Word::Work(Worker::Opener)),
    ("perform-dumper", Word::Perform(Worker::Dumper)),
    ("perform-merger", Word::Perform(Worker::Merger)),
    ("perform-opener", Word::Perform(Worker::Opener)),
    ("finish-dumper", Word::Finish(Worker::Dumper)),
    ("finish-opener", Word::Finish(Worker::Opener)),
    ("steps", Word::Steps),
    ("pass", Word::Pass),
    ("open", Word::Open),
    ("save", Word::Save),
    ("left-dumper", Word::Left(Worker::Dumper)),
    ("left-opener", Word::Left(Worker::Opener)),
    ("idle-dumper", Word::Idle(Worker::Dumper)),
    ("out-dumper", Word::Out(Worker::Dumper)),
];

/// What a text names, if anything.
fn word_of(text: &str) -> Option<Word> {
    for (name, word) in WORDS {
        if *name == text {
            return Some(*word);
        }
    }
    None
}

/// A line: what is asked, its number, or 0 where it has none, and the answer.
#[derive(Clone, Copy)]
pub(crate) struct Line<'a> {
    pub(crate) word: Word,
    pub(crate) number: u64,
    pub(crate) answer: &'a str,
}

/// What a line says, if it is one.
pub(crate) fn read(line: &str) -> Option<Line<'_>> {
    let (request, answer) = line.split_once(" = ")?;
    let (text, number) = request.split_once(' ').unwrap_or((request, "0"));
    Some(Line {
        word: word_of(text)?,
        number: number.parse::<u64>().ok()?,
        answer,
    })
}

/// Whether a reply is printed so.
pub(crate) fn is_printed(alloc: Global, reply: &Reply, text: &str) -> Result<bool, AllocError> {
    Ok(format!(in alloc; "{reply}")?.as_str() == text)
}

/// `Worked` where it is so, and else `Done`.
pub(crate) fn reply_of(is: bool) -> Reply {
    if is { Reply::Worked } else { Reply::Done }
}

/// The page that the tests store to.
const ADDRESS: u64 = 0x10000;

/// The first space.
fn first() -> SpaceId {
    SpaceId::new(1)
}

/// The command that maps the page.
pub(crate) fn map() -> Command {
    Command::Mmap {
        space: first(),
        address: ADDRESS,
        length: 4096,
        prot: Prot {
            read: true,
            write: true,
            execute: false,
        },
    }
}

/// The command that loads its first byte.
pub(crate) fn load() -> Command {
    Command::Load {
        space: first(),
        address: ADDRESS,
        count: 1,
    }
}

/// The command that stores its first byte.
pub(crate) fn store(alloc: Global, number: u64) -> Result<Command, AllocError> {
    let byte = u8::try_from(number).unwrap_or(0);
    Ok(Command::Store {
        space: first(),
        address: ADDRESS,
        bytes: Bytes::new(Vec::from_array(alloc, [byte])?),
    })
}
