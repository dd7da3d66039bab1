//! `benches`: makes many calls of one part, to be timed from outside. The exit status is 0 where they came
//! to their end and all went right, 1 where they didn't, and 2 where the words name no case.
#![tactic(auto)]

mod ended;
mod journal;
mod memory;
mod named;
mod rounds;
mod shared;
mod world;

use ended::Ended;
use named::named;
use std::alloc::Global;
use std::io;
use std::process::ExitCode;
use std::sync::Wait;

const USAGE: &str =
    "usage: benches journal | memory CASE | rounds CASE | shared calls|steps N | world SEED LISTS [figures] | all
CASE of memory: stores random loads words pages fork child ranges anew protects walk sparse sparse_walk
CASE of rounds: made touched plain dumps digests walks emptied rounds";

/// The exit status of a case that failed.
const FAILED: u8 = 1;

/// The exit status of words that don't fit the usage.
const UNNAMED: u8 = 2;

/// The word that asks for one case of each part.
const ALL: &str = "all";

/// A part of which calls are made.
#[derive(Clone, Copy)]
enum Part {
    Journal,
    Memory,
    Rounds,
    Shared,
    World,
}

const PARTS: &[(&str, Part)] = &[
    ("journal", Part::Journal),
    ("memory", Part::Memory),
    ("rounds", Part::Rounds),
    ("shared", Part::Shared),
    ("world", Part::World),
];

/// A word of the command line.
fn word(words: &[String], place: usize) -> &str {
    match words.get(place) {
        Some(word) => word.as_str(),
        None => "",
    }
}

/// The number that a word spells, if it spells one.
fn number(words: &[String], place: usize) -> Option<u64> {
    word(words, place).parse::<u64>().ok()
}

/// Prints how a case ended, on the standard error where it wasn't made. Returns the exit status.
fn tell(rt: &(impl Print + Eprint), ended: Ended) -> io::Result<u8> {
    match ended {
        Ended::Done => {
            println!(rt; "done")?;
            Ok(0)
        }
        Ended::Counted(count, things) => {
            println!(rt; "{count} {things}")?;
            Ok(0)
        }
        Ended::Failed(why) => {
            eprintln!(rt; "{why}")?;
            Ok(FAILED)
        }
        Ended::Unnamed => {
            eprintln!(rt; "{USAGE}")?;
            Ok(UNNAMED)
        }
    }
}

/// One case of each part: the gate runs these. Returns the greatest exit status.
fn each(rt: &(impl Wait + Print + Eprint), alloc: Global) -> io::Result<u8> {
    let mut status = tell(rt, journal::timed(alloc))?;
    status = status.max(tell(rt, memory::timed(alloc, "child"))?);
    status = status.max(tell(rt, rounds::timed(alloc, "dumps"))?);
    status = status.max(tell(rt, shared::counted(rt, alloc, "calls", Some(10)))?);
    status = status.max(world::tell(rt, alloc, 1, 10, false)?);
    Ok(status)
}

/// Tries lists of events, where both numbers are there.
fn tried(rt: &(impl Print + Eprint), alloc: Global, words: &[String]) -> io::Result<u8> {
    match (number(words, 2), number(words, 3)) {
        (Some(seed), Some(lists)) => {
            world::tell(rt, alloc, seed, lists, word(words, 4) == "figures")
        }
        _ => tell(rt, Ended::Unnamed),
    }
}

/// Makes the calls that the words name.
fn timed(rt: &(impl Wait + Print + Eprint), alloc: Global, words: &[String]) -> io::Result<u8> {
    let Some(part) = named(PARTS, word(words, 1)) else {
        return tell(rt, Ended::Unnamed);
    };
    let case = word(words, 2);
    match part {
        Part::Journal => tell(rt, journal::timed(alloc)),
        Part::Memory => tell(rt, memory::timed(alloc, case)),
        Part::Rounds => tell(rt, rounds::timed(alloc, case)),
        Part::Shared => tell(rt, shared::counted(rt, alloc, case, number(words, 3))),
        Part::World => tried(rt, alloc, words),
    }
}

fn main(rt: HostRuntime) -> io::Result<ExitCode> {
    let alloc = rt.alloc();
    let words: Vec<String> = std::env::args(&rt)?.collect(alloc)?;
    let status = if word(&words, 1) == ALL {
        each(&rt, alloc)?
    } else {
        timed(&rt, alloc, &words)?
    };
    Ok(ExitCode::from(status))
}
