ghost use Rattle.std.specs.Prelude.{◌≡◌, Some};
ghost use Rattle.sd_areas.specs.Refusals.{errno_number, errno_name, errno_text, area_error_text};

use std::alloc::AllocError;
use std::error::Error;
use std::fmt;

/// Why POSIX.1-2017 refuses a call on an address space.
#[derive(Clone, Copy, Debug, PartialEq, Eq, Hash)]
pub enum Errno {
    /// The length is 0, the address is no multiple of 4,096, or a range to unmap ends past 2^47.
    Einval,
    /// The range ends past 2^47, a page to protect isn't mapped, or the areas would be over 1,024.
    Enomem,
}

impl Errno {
    /// Its number among the refusals of calls on memory: EINVAL 1, ENOMEM 2.
    pub fn number(self) -> u8
        ensures { result ≡ errno_number self }
    {
        match self {
            Errno::Einval => 1,
            Errno::Enomem => 2,
        }
    }

    /// Its name in POSIX.1-2017.
    pub fn name(self) -> &'static str
        ensures { result.now ≡ errno_name self }
    {
        match self {
            Errno::Einval => "EINVAL",
            Errno::Enomem => "ENOMEM",
        }
    }
}

/// Prints its number and its name, separated by a space.
impl fmt::Display for Errno {
    ghost output = { λ errno. Some (errno_text errno) };

    fn fmt<W: fmt::Write>(&self, f: &mut fmt::Formatter<W>) -> fmt::Result {
        write!(f, "{} {}", self.number(), self.name())
    }
}

impl Error for Errno {}

/// Why a call on an address space changed nothing.
#[derive(Clone, Copy, Debug, PartialEq, Eq, Hash)]
pub enum AreaError {
    /// The call broke a rule of POSIX.1-2017.
    Refused(Errno),
    /// The list of areas couldn't grow.
    OutOfMemory,
}

/// Prints the refusal, or `out-of-memory`.
impl fmt::Display for AreaError {
    ghost output = { λ error. Some (area_error_text error) };

    fn fmt<W: fmt::Write>(&self, f: &mut fmt::Formatter<W>) -> fmt::Result {
        match self {
            AreaError::Refused(errno) => write!(f, "{errno}"),
            AreaError::OutOfMemory => f.write_str("out-of-memory"),
        }
    }
}

impl Error for AreaError {}

impl From<AllocError> for AreaError {
    ghost use Rattle.sd_areas.specs.declared.errno.AreaError.TheVariants.{OutOfMemory};

    ghost from_gives = { λ _ e. e ≡ OutOfMemory };

    fn from(_error: AllocError) -> AreaError {
        AreaError::OutOfMemory
    }
}

impl From<Errno> for AreaError {
    ghost use Rattle.sd_areas.specs.declared.errno.AreaError.TheVariants.{Refused};

    ghost from_gives = { λ errno e. e ≡ Refused errno };

    fn from(errno: Errno) -> AreaError {
        AreaError::Refused(errno)
    }
}
