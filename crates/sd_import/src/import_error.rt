//! Why an import ends early.

use sd_command::Reply;
use sd_elf::ReadError;
use std::alloc::{AllocError, AllocFailed};
use std::io;

/// Why an import ends early. What it did to the space stands in the memory; nothing of it is saved.
#[derive(Debug, Drop)]
pub enum ImportError {
    /// The core can't be read.
    Core(ReadError),
    /// A command was answered so: refused, or as an access that a page doesn't allow.
    Answer(Reply),
    /// The space hasn't what the file has: another program changed the file meanwhile.
    Changed,
    /// A growth was refused.
    OutOfMemory,
}

impl From<io::Error> for ImportError {
    fn from(error: io::Error) -> ImportError {
        ImportError::Core(ReadError::File(error))
    }
}

impl From<AllocError> for ImportError {
    fn from(_error: AllocError) -> ImportError {
        ImportError::OutOfMemory
    }
}

impl<T: Drop> From<AllocFailed<T>> for ImportError {
    fn from(_error: AllocFailed<T>) -> ImportError {
        ImportError::OutOfMemory
    }
}
