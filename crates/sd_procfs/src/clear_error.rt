ghost use Rattle.std.specs.Prelude.{◌≡◌, Some};
ghost use Rattle.sd_procfs.specs.Refusals.{clear_error_number, clear_error_name, clear_error_text};

use sd_pagetable::MemoryRefusal;
use std::error::Error;
use std::fmt;

/// Why a write to `clear_refs` was refused.
#[derive(Clone, Copy, Debug, PartialEq, Eq, Hash)]
pub enum ClearError {
    /// The space isn't alive.
    NoSuchSpace,
    /// The text is neither `4` nor `4` with a newline.
    UnsupportedValue,
}

impl ClearError {
    /// Its number among the refusals of calls on memory: no-such-space 3, unsupported-value 9.
    pub fn number(self) -> u8
        ensures { result ≡ clear_error_number self }
    {
        match self {
            ClearError::NoSuchSpace => MemoryRefusal::NoSuchSpace.number(),
            ClearError::UnsupportedValue => 9,
        }
    }

    /// Its name.
    pub fn name(self) -> &'static str
        ensures { result.now ≡ clear_error_name self }
    {
        match self {
            ClearError::NoSuchSpace => MemoryRefusal::NoSuchSpace.name(),
            ClearError::UnsupportedValue => "unsupported-value",
        }
    }
}

/// Prints its number and its name, separated by a space.
impl fmt::Display for ClearError {
    ghost output = { λ error. Some (clear_error_text error) };

    fn fmt<W: fmt::Write>(&self, f: &mut fmt::Formatter<W>) -> fmt::Result {
        write!(f, "{} {}", self.number(), self.name())
    }
}

impl Error for ClearError {}
