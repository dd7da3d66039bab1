ghost use Rattle.std.specs.Prelude.{Some};
ghost use Rattle.sd_pagetable.specs.Refusals.{access_error_text};

use crate::memory_refusal::MemoryRefusal;
use crate::segv::Segv;
use std::error::Error;
use std::fmt;

/// Why a call changed nothing, where it wasn't out of memory.
#[derive(Clone, Copy, Debug, PartialEq, Eq, Hash)]
pub enum AccessError {
    /// The call is refused.
    Refused(MemoryRefusal),
    /// The access to the page is stopped.
    Segv(Segv),
}

/// Prints a refusal's number and name, or `segv` and the name of what stopped the access.
impl fmt::Display for AccessError {
    ghost output = { λ error. Some (access_error_text error) };

    fn fmt<W: fmt::Write>(&self, f: &mut fmt::Formatter<W>) -> fmt::Result {
        match self {
            AccessError::Refused(refusal) => write!(f, "{refusal}"),
            AccessError::Segv(segv) => write!(f, "segv {segv}"),
        }
    }
}

impl Error for AccessError {}
