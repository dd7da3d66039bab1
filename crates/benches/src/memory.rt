//! Many calls on a memory.
use crate::ended::{Ended, made};
use crate::named::named;
use sd_areas::{PageNo, Prot, SpaceId};
use sd_pagetable::Memory;
use std::alloc::Global;

/// How many stores, loads or words are asked for.
const CALLS: u64 = 1_000_000;

/// How many pages those are.
const FEW_PAGES: u64 = 1_000;

/// How many pages a space has that is forked.
const MANY_PAGES: u64 = 20_000;

/// How many pages can be mapped.
const ALL_PAGES: u64 = 65_536;

/// How many pages a space of lone pages has, and how many such spaces there are.
const LONE_PAGES: u64 = 1_024;

const LONE_SPACES: u64 = 4;

/// How many bytes there are from a lone page to the next: 2^20 pages.
const LONE_STEP: u64 = 1 << 32;

/// How often a range is mapped and unmapped, or walked over.
const TURNS: u64 = 10;

/// How many frames there are.
const FRAMES: usize = 65_536;

const READ_WRITE: Prot = Prot {
    read: true,
    write: true,
    execute: false,
};

/// What is done, over a memory with one space, or over what was done before.
#[derive(Clone, Copy)]
enum Step {
    /// Maps so many pages, from address 0 on.
    Map(u64),
    /// Stores so many times into the pages of a space, over so many pages in turn.
    Store(u64, u64, u64),
    /// Stores to pages in random order.
    RandomStores,
    /// Loads from pages in random order.
    RandomLoads,
    /// The words of pages in random order.
    RandomWords,
    Fork,
    /// Maps all pages at once and unmaps them, some times.
    Ranges,
    /// Maps all pages at once, and anew, some times.
    Anew,
    /// Protects all pages at once, some times.
    Protects,
    /// Walks over as many pages as can be mapped, some times.
    Walk,
    /// Makes spaces, each of lone pages.
    Sparse,
}

/// What the cases do.
const CASES: &[(&str, &[Step])] = &[
    (
        "stores",
        &[Step::Map(FEW_PAGES), Step::Store(1, CALLS, FEW_PAGES)],
    ),
    ("random", &[Step::Map(ALL_PAGES), Step::RandomStores]),
    ("loads", &[Step::Map(ALL_PAGES), Step::RandomLoads]),
    ("words", &[Step::Map(ALL_PAGES), Step::RandomWords]),
    ("pages", &[Step::Map(MANY_PAGES), STORE_EACH]),
    ("fork", &[Step::Map(MANY_PAGES), STORE_EACH, Step::Fork]),
    (
        "child",
        &[
            Step::Map(MANY_PAGES),
            STORE_EACH,
            Step::Fork,
            Step::Store(2, MANY_PAGES, MANY_PAGES),
        ],
    ),
    ("ranges", &[Step::Ranges]),
    ("anew", &[Step::Anew]),
    ("protects", &[Step::Map(ALL_PAGES), Step::Protects]),
    ("walk", &[Step::Map(ALL_PAGES), Step::Walk]),
    ("sparse", &[Step::Sparse]),
    ("sparse_walk", &[Step::Sparse, Step::Walk]),
];

/// A store to each of many pages.
const STORE_EACH: Step = Step::Store(1, MANY_PAGES, MANY_PAGES);

/// The one space that a memory begins with.
fn first_space() -> SpaceId {
    SpaceId::new(1)
}

/// Maps so many pages, from address 0 on.
fn map(memory: &mut Memory, pages: u64) -> bool {
    memory
        .mmap(first_space(), 0, pages.saturating_mul(4096), READ_WRITE)
        .is_ok()
}

/// Stores a few bytes at an address.
fn store_at(memory: &mut Memory, space: SpaceId, address: u64) -> bool {
    memory
        .store_now(space, address, &[1, 2, 3, 4, 5, 6, 7, 8])
        .is_ok()
}

/// Stores so many times, over so many pages in turn.
fn store(memory: &mut Memory, space: u64, count: u64, pages: u64) -> bool {
    for turn in 0..count {
        let page = turn.checked_rem(pages).unwrap_or(0);
        if !store_at(memory, SpaceId::new(space), page.saturating_mul(4096)) {
            return false;
        }
    }
    true
}

/// The first address of one of all the pages, at random.
fn by_chance(seed: &mut u64) -> u64 {
    *seed = seed
        .wrapping_mul(6_364_136_223_846_793_005)
        .wrapping_add(1_442_695_040_888_963_407);
    (*seed >> 48).saturating_mul(4096)
}

/// Stores to pages in random order.
fn random_stores(memory: &mut Memory) -> bool {
    let mut seed = 1;
    for _ in 0..CALLS {
        if !store_at(memory, first_space(), by_chance(&mut seed)) {
            return false;
        }
    }
    true
}

/// Loads from pages in random order, none of which has a frame.
fn random_loads(memory: &Memory) -> bool {
    let mut seed = 1;
    let mut buffer = [0; 8];
    for _ in 0..CALLS {
        if memory
            .load(first_space(), by_chance(&mut seed), &mut buffer)
            .is_err()
        {
            return false;
        }
    }
    true
}

/// The words of pages in random order.
fn random_words(memory: &Memory) -> bool {
    let mut seed = 1;
    for _ in 0..CALLS {
        if let Some(page) = PageNo::new(by_chance(&mut seed) / 4096) {
            let _word = memory.word(first_space(), page);
        }
    }
    true
}

/// Maps all pages at once and unmaps them.
fn map_and_unmap(memory: &mut Memory) -> bool {
    map(memory, ALL_PAGES)
        && memory
            .munmap(first_space(), 0, ALL_PAGES.saturating_mul(4096))
            .is_ok()
}

/// Protects all pages at once.
fn protect(memory: &mut Memory) -> bool {
    memory
        .mprotect(first_space(), 0, ALL_PAGES.saturating_mul(4096), READ_WRITE)
        .is_ok()
}

/// Walks over all pages once.
fn walk(memory: &Memory) -> bool {
    let mut after = None;
    for _ in 0..ALL_PAGES {
        after = memory.next_page(after);
    }
    true
}

/// Makes a call over all pages, as a step says.
fn turn(memory: &mut Memory, step: Step) -> bool {
    match step {
        Step::Ranges => map_and_unmap(memory),
        Step::Anew => map(memory, ALL_PAGES),
        Step::Protects => protect(memory),
        _ => walk(memory),
    }
}

/// Makes it some times.
fn turns(memory: &mut Memory, step: Step) -> bool {
    for _ in 0..TURNS {
        if !turn(memory, step) {
            return false;
        }
    }
    true
}

/// Maps the lone pages of a space.
fn map_lone(memory: &mut Memory, space: SpaceId) -> bool {
    for page in 0..LONE_PAGES {
        if memory
            .mmap(space, page.saturating_mul(LONE_STEP), 4096, READ_WRITE)
            .is_err()
        {
            return false;
        }
    }
    true
}

/// Makes spaces of lone pages.
fn sparse(memory: &mut Memory) -> bool {
    for _ in 1..LONE_SPACES {
        let _child = memory.fork(first_space());
    }
    for number in 1..LONE_SPACES + 1 {
        if !map_lone(memory, SpaceId::new(number)) {
            return false;
        }
    }
    true
}

/// Does what a step says.
fn act(memory: &mut Memory, step: Step) -> bool {
    match step {
        Step::Map(pages) => map(memory, pages),
        Step::Store(space, count, pages) => store(memory, space, count, pages),
        Step::RandomStores => random_stores(memory),
        Step::RandomLoads => random_loads(memory),
        Step::RandomWords => random_words(memory),
        Step::Fork => memory.fork(first_space()).is_ok(),
        Step::Sparse => sparse(memory),
        _ => turns(memory, step),
    }
}

/// Does what the steps say, up to the first that fails.
fn act_all(memory: &mut Memory, steps: &[Step]) -> bool {
    for step in steps {
        if !act(memory, *step) {
            return false;
        }
    }
    true
}

/// Makes the calls that a word names, and says how they ended.
pub(crate) fn timed(alloc: Global, word: &str) -> Ended {
    let Some(steps) = named(CASES, word) else {
        return Ended::Unnamed;
    };
    match Memory::new(alloc, FRAMES) {
        Ok(mut memory) => made(act_all(&mut memory, steps)),
        Err(_) => made(false),
    }
}
