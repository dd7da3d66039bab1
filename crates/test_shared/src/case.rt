//! What is done with a shared core, and the disk that it needs.
ghost use Rattle.std.specs.Prelude.{◌≤◌};

use crate::eight::SEATS;
use crate::mutator::Way;

/// How many device calls come before the first page's write of a dump, in a store that was empty.
const CALLS_BEFORE_A_PAGE: u64 = 43;

/// What is done with a shared core.
#[derive(Clone, Copy)]
pub(crate) enum Case {
    /// A checkpoint, of which all is reported.
    Saved,
    /// A receipt is missing.
    LacksReceipt,
    /// An acknowledgement too many is reported.
    TellsMore,
    /// A merge after a checkpoint.
    Merged,
    /// A checkpoint beside two mutators.
    Beside(Way),
    /// A checkpoint that is cancelled.
    Cancelled,
    /// The device fails while all is frozen.
    Falls,
    /// A checkpoint whose pages two threads write, and one without threads after it.
    Relayed,
    /// One of which the first page's write fails, and another one.
    RelayFalls,
    /// A checkpoint of twenty pages, which eight threads write.
    TwentyPages,
    /// A trim after a checkpoint.
    Trimmed,
    /// A checkpoint beside a thread that waits for the thaw, and others that are cancelled beside one.
    Awaited,
    /// What eight seats do at random, from a seed on.
    Random(u64),
}

impl Case {
    /// After how many device calls one fails.
    pub(crate) fn fuse(self) -> u64 {
        match self {
            Case::Falls | Case::RelayFalls => CALLS_BEFORE_A_PAGE,
            Case::Random(seed) => 200 + seed % 3_000,
            _ => u64::MAX,
        }
    }

    /// How many pages are mapped. The disk has room for as many in each slot.
    pub(crate) fn pages(self) -> u64 {
        match self {
            Case::Merged | Case::Falls => 1,
            Case::TwentyPages | Case::Awaited => 20,
            Case::Random(_) => SEATS as u64,
            _ => 2,
        }
    }

    /// How many seats there are.
    pub(crate) fn seats(self) -> usize {
        match self {
            Case::Random(_) => SEATS,
            _ => 2,
        }
    }

    /// How many slots the disk has.
    pub(crate) fn slots(self) -> usize
        ensures some { 1 ≤ result }
        ensures few { result ≤ 1000 }
    {
        match self {
            Case::Random(_) => 12,
            _ => 8,
        }
    }
}
