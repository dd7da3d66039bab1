ghost use Rattle.std.specs.Prelude.{◌≡◌};

use sd_pagetable::MemoryRefusal;
use std::fmt;

/// Why a command, an order or a step was refused. It is printed as its number and its name.
#[derive(Clone, Copy, Debug, PartialEq, Eq, Hash)]
pub enum Refusal {
    /// A length of 0, an address that is no page multiple, a range to unmap outside the addresses, a load or store
    /// of 0 or over 64 bytes or across a page's end, or over 8 rounds.
    Einval,
    /// A range outside the addresses, a hole to protect, over 1,024 areas, or over 65,536 pages.
    Enomem,
    /// The space isn't alive.
    NoSuchSpace,
    /// A fork with 16 spaces alive.
    TooManySpaces,
    /// A frame is needed, and every frame of the pool is used.
    NoFrame,
    /// A command between a freeze and its end.
    Frozen,
    /// The journal has no free entry beside those held.
    JournalFull,
    /// A growth was refused.
    OutOfMemory,
    /// A text other than `4` and `4` with a newline.
    UnsupportedValue,
    /// The store wasn't opened yet.
    NotOpen,
    /// Something else runs.
    Busy,
    /// Too few free slots: a checkpoint of R rounds needs R + 2, a merge one.
    NoSlot,
    /// A device call failed, and the store wasn't opened again since.
    StoreDown,
    /// There is nothing to do.
    Idle,
    /// An exit of the only space.
    LastSpace,
    /// Another thread has the lock.
    LockBusy,
    /// The numbers of checkpoints or serials are used up.
    NumbersUsed,
    /// The store can't be read, or isn't the one that this run wrote.
    Damaged,
    /// The device failed.
    Device,
}

impl Refusal {
    ghost use Rattle.sd_command.specs.Refusals.{refusal_row};

    /// The number under which the refusal is printed and documented.
    pub fn number(self) -> u8
        ensures { result ≡ (refusal_row self).0 }
    {
        match self {
            Refusal::Einval => 1,
            Refusal::Enomem => 2,
            Refusal::NoSuchSpace => 3,
            Refusal::TooManySpaces => 4,
            Refusal::NoFrame => 5,
            Refusal::Frozen => 6,
            Refusal::JournalFull => 7,
            Refusal::OutOfMemory => 8,
            Refusal::UnsupportedValue => 9,
            Refusal::NotOpen => 10,
            Refusal::Busy => 11,
            Refusal::NoSlot => 12,
            Refusal::StoreDown => 13,
            Refusal::Idle => 14,
            Refusal::LastSpace => 15,
            Refusal::LockBusy => 16,
            Refusal::NumbersUsed => 17,
            Refusal::Damaged => 21,
            Refusal::Device => 22,
        }
    }

    /// The name under which the refusal is printed and documented.
    pub fn name(self) -> &'static str
        ensures { result.now ≡ (refusal_row self).1 }
    {
        match self {
            Refusal::Einval => "EINVAL",
            Refusal::Enomem => "ENOMEM",
            Refusal::NoSuchSpace => "no-such-space",
            Refusal::TooManySpaces => "too-many-spaces",
            Refusal::NoFrame => "no-frame",
            Refusal::Frozen => "frozen",
            Refusal::JournalFull => "journal-full",
            Refusal::OutOfMemory => "out-of-memory",
            Refusal::UnsupportedValue => "unsupported-value",
            Refusal::NotOpen => "not-open",
            Refusal::Busy => "busy",
            Refusal::NoSlot => "no-slot",
            Refusal::StoreDown => "store-down",
            Refusal::Idle => "idle",
            Refusal::LastSpace => "last-space",
            Refusal::LockBusy => "lock-busy",
            Refusal::NumbersUsed => "numbers-used",
            Refusal::Damaged => "damaged",
            Refusal::Device => "device",
        }
    }
}

/// Prints its number and its name, separated by a space.
impl fmt::Display for Refusal {
    ghost use Rattle.std.specs.Prelude.{Some};
    ghost use Rattle.sd_command.specs.Refusals.{refusal_text};

    ghost output = { λ refusal. Some (refusal_text refusal) };

    fn fmt<W: fmt::Write>(&self, f: &mut fmt::Formatter<W>) -> fmt::Result {
        write!(f, "{} {}", self.number(), self.name())
    }
}

impl From<MemoryRefusal> for Refusal {
    ghost use Rattle.std.specs.Prelude.{◌≡◌};
    ghost use Rattle.sd_command.specs.Replies.{refusal_of};

    ghost from_gives = { λ due refusal. refusal ≡ refusal_of due };

    fn from(due: MemoryRefusal) -> Refusal {
        match due {
            MemoryRefusal::Einval => Refusal::Einval,
            MemoryRefusal::Enomem => Refusal::Enomem,
            MemoryRefusal::NoSuchSpace => Refusal::NoSuchSpace,
            MemoryRefusal::TooManySpaces => Refusal::TooManySpaces,
            MemoryRefusal::NoFrame => Refusal::NoFrame,
            MemoryRefusal::LastSpace => Refusal::LastSpace,
        }
    }
}
