//! Calls on disks in memory, and what is there afterwards.
use crate::picks::{Byte, Length};
use crate::steps::{Call, Step};

/// What a crash leaves of the first slot: the lengths and bytes that are picked, and the file.
pub(crate) type Left = (Length, Byte, &'static [u8]);

/// Calls on a new disk in memory of which one call may fail.
#[derive(Clone, Copy)]
pub(crate) struct Case {
    /// The slots, the bytes of each, and the writes, cuts and syncs that there is room for.
    pub(crate) room: (usize, usize, usize),
    /// The calls that pass before one fails.
    pub(crate) passes: u64,
    /// Whether the one that fails is dropped. A write or cut is else made.
    pub(crate) drops: bool,
    pub(crate) steps: &'static [Step],
    /// The reads and the failures of the disk within.
    pub(crate) counts: (u64, u64),
    /// The file of the first slot.
    pub(crate) file: &'static [u8],
    pub(crate) left: &'static [Left],
}

/// A step succeeds.
pub(crate) const DONE: bool = true;

/// A step fails.
pub(crate) const FAILS: bool = false;

const NONE: u64 = u64::MAX;

const ONE_SLOT: (usize, usize, usize) = (1, 16, 16);

const LEAST: Length = Length::Least;

const GREATEST: Length = Length::Greatest;

const ZERO: Byte = Byte::All(0);

const A5: Byte = Byte::All(0xA5);

const FF: Byte = Byte::All(0xFF);

/// Each call, with a write past the end, a read and a cut past the end, and a write over the end.
pub(crate) const EXERCISE: &[Step] = &[
    (3, Call::Holds(b""), DONE),
    (3, Call::Write(2, b"abcd"), DONE),
    (3, Call::Holds(b"\0\0abcd"), DONE),
    (3, Call::Write(1, b"xy"), DONE),
    (3, Call::Cut(4), DONE),
    (3, Call::Holds(b"\0xyb"), DONE),
    (0, Call::Write(0, b"head"), DONE),
    (0, Call::Holds(b"head"), DONE),
    (1, Call::Holds(b""), DONE),
    (0, Call::Failures(0), DONE),
    (0, Call::Read(3, 2), FAILS),
    (0, Call::Read(9, 2), FAILS),
    (0, Call::Cut(5), FAILS),
    (0, Call::Holds(b"head"), DONE),
    (0, Call::Failures(3), DONE),
];

/// A device without room for a call, by bytes, and by calls.
const WITHOUT_ROOM: &[Step] = &[
    (0, Call::Write(0, b"abcd"), DONE),
    (0, Call::Write(3, b"xy"), FAILS),
    (0, Call::Write(usize::MAX, b"x"), FAILS),
    (0, Call::Sync, DONE),
    (0, Call::Cut(0), FAILS),
    (0, Call::Failures(3), DONE),
];

/// The third call fails, and the others pass.
const ONE_FAILS: &[Step] = &[
    (0, Call::Write(0, b"abcd"), DONE),
    (0, Call::Sync, DONE),
    (0, Call::Holds(b"abcd"), DONE),
    (0, Call::Len, FAILS),
    (0, Call::Failures(1), DONE),
    (0, Call::Holds(b"abcd"), DONE),
    (0, Call::Write(0, b"X"), DONE),
    (0, Call::Sync, DONE),
    (0, Call::Failures(1), DONE),
];

const SIX: Step = (0, Call::Write(0, b"abcdef"), DONE);

const FOUR: Step = (0, Call::Write(0, b"abcd"), DONE);

const SYNC: Step = (0, Call::Sync, DONE);

const FAILED_ONCE: Step = (0, Call::Failures(1), DONE);

/// The calls of each kind of disk in memory.
pub(crate) const CALLS: &[Case] = &[
    Case {
        room: (4, 6, 5),
        passes: NONE,
        drops: false,
        steps: &[(0, Call::Slots(4), DONE)],
        counts: (0, 0),
        file: b"",
        left: &[],
    },
    Case {
        room: (4, 6, 5),
        passes: NONE,
        drops: false,
        steps: EXERCISE,
        counts: (8, 3),
        file: b"head",
        left: &[],
    },
    Case {
        room: (1, 4, 2),
        passes: NONE,
        drops: false,
        steps: WITHOUT_ROOM,
        counts: (0, 3),
        file: b"abcd",
        left: &[],
    },
    Case {
        room: ONE_SLOT,
        passes: 4,
        drops: false,
        steps: ONE_FAILS,
        counts: (2, 0),
        file: b"Xbcd",
        left: &[],
    },
    Case {
        room: ONE_SLOT,
        passes: 2,
        drops: true,
        steps: &[FOUR, SYNC, (0, Call::Read(0, 4), FAILS), FAILED_ONCE],
        counts: (0, 0),
        file: b"abcd",
        left: &[],
    },
];

/// Calls that are done, and what a crash leaves.
pub(crate) const DONE_CALLS: &[Case] = &[
    Case {
        room: ONE_SLOT,
        passes: NONE,
        drops: false,
        steps: &[(0, Call::Write(0, b"abc"), DONE)],
        counts: (0, 0),
        file: b"abc",
        left: &[
            (Length::Now, Byte::Now, b"abc"),
            (Length::Synced, Byte::Synced, b""),
            (LEAST, A5, b""),
            (GREATEST, ZERO, b"\0\0\0"),
            (GREATEST, A5, b"\xA5\xA5\xA5"),
            (Length::Exactly(2), FF, b"\xFF\xFF"),
        ],
    },
    Case {
        room: ONE_SLOT,
        passes: NONE,
        drops: false,
        steps: &[SIX, SYNC],
        counts: (0, 0),
        file: b"abcdef",
        left: &[(GREATEST, A5, b"abcdef")],
    },
    Case {
        room: ONE_SLOT,
        passes: NONE,
        drops: false,
        steps: &[SIX, SYNC, (0, Call::Write(1, b"XY"), DONE)],
        counts: (0, 0),
        file: b"aXYdef",
        left: &[
            (Length::Now, Byte::Now, b"aXYdef"),
            (Length::Synced, Byte::Synced, b"abcdef"),
            (LEAST, ZERO, b"a\0\0def"),
            (GREATEST, A5, b"a\xA5\xA5def"),
            (Length::Now, FF, b"a\xFF\xFFdef"),
        ],
    },
    Case {
        room: ONE_SLOT,
        passes: NONE,
        drops: false,
        steps: &[SIX, SYNC, (0, Call::Write(1, b"XY"), DONE), SYNC],
        counts: (0, 0),
        file: b"aXYdef",
        left: &[
            (Length::Synced, Byte::Synced, b"aXYdef"),
            (GREATEST, A5, b"aXYdef"),
        ],
    },
    Case {
        room: ONE_SLOT,
        passes: NONE,
        drops: false,
        steps: &[SIX, SYNC, (0, Call::Cut(2), DONE)],
        counts: (0, 0),
        file: b"ab",
        left: &[
            (Length::Now, Byte::Now, b"ab"),
            (Length::Synced, Byte::Synced, b"abcdef"),
        ],
    },
    Case {
        room: ONE_SLOT,
        passes: NONE,
        drops: false,
        steps: &[
            SIX,
            SYNC,
            (0, Call::Cut(2), DONE),
            (0, Call::Write(4, b"Z"), DONE),
        ],
        counts: (0, 0),
        file: b"ab\0\0Z",
        left: &[
            (Length::Now, Byte::Now, b"ab\0\0Z"),
            (Length::Synced, Byte::Synced, b"abcdef"),
            (LEAST, A5, b"ab"),
            (GREATEST, A5, b"ab\xA5\xA5\xA5\xA5"),
            (Length::Now, ZERO, b"ab\0\0\0"),
            (Length::Exactly(3), FF, b"ab\xFF"),
        ],
    },
    Case {
        room: ONE_SLOT,
        passes: NONE,
        drops: false,
        steps: &[
            (0, Call::Write(0, b"ab"), DONE),
            SYNC,
            (0, Call::Write(4, b"z"), DONE),
        ],
        counts: (0, 0),
        file: b"ab\0\0z",
        left: &[
            (Length::Now, Byte::Now, b"ab\0\0z"),
            (Length::Synced, Byte::Synced, b"ab"),
            (LEAST, FF, b"ab"),
            (GREATEST, FF, b"ab\xFF\xFF\xFF"),
            (GREATEST, ZERO, b"ab\0\0\0"),
            (Length::Exactly(3), A5, b"ab\xA5"),
        ],
    },
];

/// Calls that fail, and what a crash leaves.
pub(crate) const FAILED_CALLS: &[Case] = &[
    Case {
        room: ONE_SLOT,
        passes: 2,
        drops: false,
        steps: &[FOUR, SYNC, (0, Call::Write(1, b"XY"), FAILS), FAILED_ONCE],
        counts: (0, 0),
        file: b"aXYd",
        left: &[
            (Length::Now, Byte::Now, b"aXYd"),
            (Length::Synced, Byte::Synced, b"abcd"),
            (LEAST, ZERO, b"a\0\0d"),
            (GREATEST, A5, b"a\xA5\xA5d"),
            (Length::Now, FF, b"a\xFF\xFFd"),
        ],
    },
    Case {
        room: ONE_SLOT,
        passes: 2,
        drops: true,
        steps: &[FOUR, SYNC, (0, Call::Write(1, b"XY"), FAILS)],
        counts: (0, 0),
        file: b"abcd",
        left: &[(GREATEST, A5, b"abcd")],
    },
    Case {
        room: ONE_SLOT,
        passes: 2,
        drops: false,
        steps: &[FOUR, SYNC, (0, Call::Cut(1), FAILS)],
        counts: (0, 0),
        file: b"a",
        left: &[
            (Length::Now, Byte::Now, b"a"),
            (Length::Synced, Byte::Synced, b"abcd"),
            (Length::Exactly(3), FF, b"a\xFF\xFF"),
            (GREATEST, ZERO, b"a\0\0\0"),
            (LEAST, A5, b"a"),
        ],
    },
    Case {
        room: ONE_SLOT,
        passes: 2,
        drops: true,
        steps: &[FOUR, SYNC, (0, Call::Cut(1), FAILS)],
        counts: (0, 0),
        file: b"abcd",
        left: &[(LEAST, A5, b"abcd")],
    },
    Case {
        room: ONE_SLOT,
        passes: NONE,
        drops: false,
        steps: &[
            FOUR,
            SYNC,
            (0, Call::Write(15, b"XY"), FAILS),
            (0, Call::Cut(5), FAILS),
        ],
        counts: (0, 2),
        file: b"abcd",
        left: &[(GREATEST, A5, b"abcd")],
    },
    Case {
        room: ONE_SLOT,
        passes: 3,
        drops: false,
        steps: &[
            FOUR,
            SYNC,
            (0, Call::Write(0, b"X"), DONE),
            (0, Call::Sync, FAILS),
        ],
        counts: (0, 0),
        file: b"Xbcd",
        left: &[
            (Length::Now, Byte::Now, b"Xbcd"),
            (Length::Synced, Byte::Synced, b"abcd"),
            (LEAST, A5, b"\xA5bcd"),
            (GREATEST, ZERO, b"\0bcd"),
            (Length::Synced, FF, b"\xFFbcd"),
        ],
    },
    Case {
        room: ONE_SLOT,
        passes: 3,
        drops: false,
        steps: &[
            FOUR,
            SYNC,
            (0, Call::Write(0, b"X"), DONE),
            (0, Call::Sync, FAILS),
            SYNC,
        ],
        counts: (0, 0),
        file: b"Xbcd",
        left: &[(LEAST, A5, b"Xbcd")],
    },
];
