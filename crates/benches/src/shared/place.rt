//! The commands of a bench: pages of space 1, and one byte of each.
use sd_areas::{PAGE_BYTES, Prot, SpaceId};
use sd_command::{Bytes, Command, Refusal, Reply};
use sd_disk::MemDisk;
use sd_shared::{Seat, Shared};
use std::alloc::Global;
use std::sync::Wait;

const FIRST: u64 = 0x10_0000;

/// Maps so many pages, readable and writable.
pub(crate) fn mmap(pages: u64) -> Command {
    Command::Mmap {
        space: SpaceId::new(1),
        address: FIRST,
        length: pages.saturating_mul(PAGE_BYTES),
        prot: Prot {
            read: true,
            write: true,
            execute: false,
        },
    }
}

/// Stores a byte at the start of a page.
pub(crate) fn store(alloc: Global, page: u64, byte: u8) -> Result<Command, Refusal> {
    match Vec::from_array(alloc, [byte]) {
        Ok(bytes) => Ok(Command::Store {
            space: SpaceId::new(1),
            address: FIRST.saturating_add(page.saturating_mul(PAGE_BYTES)),
            bytes: Bytes::new(bytes),
        }),
        Err(_) => Err(Refusal::OutOfMemory),
    }
}

/// Whether a command was carried out. What wasn't ends a bench.
pub(crate) fn done(reply: Reply) -> Result<(), Refusal> {
    match reply {
        Reply::Done => Ok(()),
        Reply::Refused(why) => Err(why),
        _ => Err(Refusal::Einval),
    }
}

/// Makes a call of a seat that is carried out.
pub(crate) fn call(
    rt: &impl Wait,
    shared: &Shared<MemDisk>,
    seat: &mut Seat,
    command: Command,
) -> Result<(), Refusal> {
    done(shared.call(rt, seat, command)?.reply)
}
