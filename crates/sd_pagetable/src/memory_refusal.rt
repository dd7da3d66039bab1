ghost use Rattle.std.specs.Prelude.{◌≡◌, Some};
ghost use Rattle.sd_pagetable.specs.Refusals.{memory_refusal_number, memory_refusal_name, memory_refusal_text};

use std::error::Error;
use std::fmt;

/// Why a call on memory is refused.
#[derive(Clone, Copy, Debug, PartialEq, Eq, Hash)]
pub enum MemoryRefusal {
    /// The length is 0, the address is no multiple of 4,096, a range to unmap ends past 2^47, or a
    /// load or store has 0 or over 64 bytes or crosses a page's end.
    Einval,
    /// A range ends past 2^47, a page to protect isn't mapped, or there would be over 1,024 areas
    /// in the space or over 65,536 pages.
    Enomem,
    /// The space isn't alive.
    NoSuchSpace,
    /// 16 spaces are alive.
    TooManySpaces,
    /// A frame is needed, and every frame of the pool is used.
    NoFrame,
    /// It is the only space.
    LastSpace,
}

impl MemoryRefusal {
    /// Its number: EINVAL 1, ENOMEM 2, no-such-space 3, too-many-spaces 4, no-frame 5 and
    /// last-space 15.
    pub fn number(self) -> u8
        ensures { result ≡ memory_refusal_number self }
    {
        match self {
            MemoryRefusal::Einval => 1,
            MemoryRefusal::Enomem => 2,
            MemoryRefusal::NoSuchSpace => 3,
            MemoryRefusal::TooManySpaces => 4,
            MemoryRefusal::NoFrame => 5,
            MemoryRefusal::LastSpace => 15,
        }
    }

    /// Its name, in POSIX.1-2017 where that has one.
    pub fn name(self) -> &'static str
        ensures { result.now ≡ memory_refusal_name self }
    {
        match self {
            MemoryRefusal::Einval => "EINVAL",
            MemoryRefusal::Enomem => "ENOMEM",
            MemoryRefusal::NoSuchSpace => "no-such-space",
            MemoryRefusal::TooManySpaces => "too-many-spaces",
            MemoryRefusal::NoFrame => "no-frame",
            MemoryRefusal::LastSpace => "last-space",
        }
    }
}

/// Prints its number and its name, separated by a space.
impl fmt::Display for MemoryRefusal {
    ghost output = { λ refusal. Some (memory_refusal_text refusal) };

    fn fmt<W: fmt::Write>(&self, f: &mut fmt::Formatter<W>) -> fmt::Result {
        write!(f, "{} {}", self.number(), self.name())
    }
}

impl Error for MemoryRefusal {}
