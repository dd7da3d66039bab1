ghost use Rattle.std.specs.Prelude.{◌≡◌, IfOk, IsErr, IsSome};
ghost use Rattle.sd_command.specs.Copies.{stored_bytes};

use crate::bytes::Bytes;
use sd_areas::{Prot, SpaceId};
use std::alloc::AllocError;

/// What is asked of a memory. Addresses, lengths and counts are in bytes.
#[derive(Clone, Debug, PartialEq, Eq, Drop)]
pub enum Command {
    /// Maps whole pages of zeros over the range, whatever was there (POSIX.1-2017 `mmap` with `MAP_FIXED`).
    Mmap {
        space: SpaceId,
        address: u64,
        length: u64,
        prot: Prot,
    },
    /// Unmaps each whole page that has a part of the range.
    Munmap {
        space: SpaceId,
        address: u64,
        length: u64,
    },
    /// Gives the whole pages of the range other permissions.
    Mprotect {
        space: SpaceId,
        address: u64,
        length: u64,
        prot: Prot,
    },
    /// Makes a child space with a copy of the memory.
    Fork {
        space: SpaceId,
    },
    /// Ends a space.
    Exit {
        space: SpaceId,
    },
    /// Reads 1 to 64 bytes within a page.
    Load {
        space: SpaceId,
        address: u64,
        count: u64,
    },
    /// Stores 1 to 64 bytes within a page, and takes no fault.
    TryStore {
        space: SpaceId,
        address: u64,
        bytes: Bytes,
    },
    /// Takes a write fault at an address.
    Fault {
        space: SpaceId,
        address: u64,
    },
    /// Stores 1 to 64 bytes within a page, with the fault that it may need.
    Store {
        space: SpaceId,
        address: u64,
        bytes: Bytes,
    },
}

impl Command {
    /// A copy. Only that of the bytes that it stores takes memory.
    ///
    /// # Errors
    ///
    /// Out of memory where its bytes find no room; the command stands as it was.
    pub fn try_clone(&self) -> Result<Command, AllocError>
        ensures copy { IfOk result (λ copy. copy ≡ self.now) }
        ensures bytes { IsErr result → IsSome (stored_bytes self.now) }
    {
        self.clone()
    }
}
