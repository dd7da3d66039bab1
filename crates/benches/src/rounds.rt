//! Dumps of a memory, step by step.
mod bench;
mod digest;

use crate::ended::{Ended, made};
use crate::named::named;
use bench::{Bench, copy_touched, empty_slot, look_up, touch, write};
use digest::digest;
use std::alloc::Global;

/// How often a case is repeated.
const TURNS: u64 = 20;

/// What is done with a bench that was made.
#[derive(Clone, Copy)]
enum Case {
    Made,
    Touched,
    Plain,
    Dumps,
    Digests,
    Walks,
    Emptied,
    Rounds,
}

const CASES: &[(&str, Case)] = &[
    ("made", Case::Made),
    ("touched", Case::Touched),
    ("plain", Case::Plain),
    ("dumps", Case::Dumps),
    ("digests", Case::Digests),
    ("walks", Case::Walks),
    ("emptied", Case::Emptied),
    ("rounds", Case::Rounds),
];

/// Does once what a case does some times. Returns whether it is done.
fn turn(bench: &mut Bench, case: Case) -> bool {
    match case {
        Case::Touched => touch(&mut bench.memory),
        Case::Plain => {
            touch(&mut bench.memory)
                && copy_touched(&bench.memory, &mut bench.disk, &mut bench.buffer)
        }
        Case::Dumps => touch(&mut bench.memory) && bench.dump(0),
        Case::Digests => write(&mut bench.disk, 0, &digest()),
        Case::Emptied => empty_slot(&mut bench.disk),
        _ => look_up(&mut bench.memory),
    }
}

/// Does it so often.
fn turns(bench: &mut Bench, case: Case, count: u64) -> bool {
    for _ in 0..count {
        if !turn(bench, case) {
            return false;
        }
    }
    true
}

/// Does what a case says. A slot is emptied, and all pages are looked up, as often as pre-dumps and a dump do.
fn act(bench: &mut Bench, case: Case) -> bool {
    match case {
        Case::Made => true,
        Case::Rounds => bench.dump(TURNS as usize),
        Case::Walks | Case::Emptied => turns(bench, case, TURNS + 1),
        _ => turns(bench, case, TURNS),
    }
}

/// Does what a word names, and says how it ended.
pub(crate) fn timed(alloc: Global, word: &str) -> Ended {
    let Some(case) = named(CASES, word) else {
        return Ended::Unnamed;
    };
    match Bench::new(alloc) {
        Ok(mut bench) => made(bench.begin() && act(&mut bench, case)),
        Err(_) => made(false),
    }
}
