//! Scripts of calls on a memory, each with what it returns.
use crate::support::told;
use sd_areas::{PageNo, Prot, SpaceId};
use sd_pagetable::{AccessError, Memory, MemoryError, MemoryRefusal, StoreOutcome};
use sd_procfs::clear_refs;
use std::alloc::AllocError;

/// A line of a script, with what it returns. First comes the number of the space, and then the
/// address.
#[derive(Clone, Copy)]
pub(crate) enum Line {
    /// Maps so many bytes with these permissions.
    Mmap(u64, u64, u64, Prot),
    /// Unmaps so many bytes.
    Munmap(u64, u64, u64),
    /// Makes a child with this number.
    Fork(u64, u64),
    Exit(u64),
    /// Clears the soft-dirty bits of the space's pages.
    Clear(u64),
    /// Stores bytes, with a fault that is needed.
    Store(u64, u64, &'static [u8]),
    /// Stores bytes, with a fault where one is needed.
    StoreNow(u64, u64, &'static [u8]),
    StoreNowRefused(u64, u64, &'static [u8], MemoryRefusal),
    /// Takes a fault.
    Fault(u64, u64),
    FaultRefused(u64, u64, MemoryRefusal),
    /// Loads bytes.
    Load(u64, u64, &'static [u8]),
    /// Would load so many bytes.
    LoadFails(u64, u64, usize, AccessError),
    /// The words of the pages from an address on.
    Words(u64, u64, &'static [u64]),
}

fn refused<T>(refusal: MemoryRefusal) -> Result<T, MemoryError> {
    Err(MemoryError::Denied(AccessError::Refused(refusal)))
}

/// Whether a store needs a fault, and is done after it.
fn stores(
    memory: &mut Memory,
    space: SpaceId,
    address: u64,
    bytes: &[u8],
) -> Result<bool, AllocError> {
    if memory.try_store(space, address, bytes) != Ok(StoreOutcome::NeedsFault) {
        return Ok(false);
    }
    let faulted = told(memory.fault(space, address))?;
    let stored = memory.try_store(space, address, bytes);
    Ok(faulted == Ok(()) && stored == Ok(StoreOutcome::Done))
}

/// Whether a load gives these bytes.
fn loads(memory: &Memory, space: SpaceId, address: u64, bytes: &[u8]) -> bool {
    let mut buffer = [0; 64];
    let count = bytes.len().min(64);
    memory.load(space, address, &mut buffer[..count]) == Ok(()) && &buffer[..count] == bytes
}

/// Whether a load of so many bytes is an error, and loads none.
fn load_fails(memory: &Memory, space: SpaceId, address: u64, count: usize, e: AccessError) -> bool {
    let mut buffer = [7; 64];
    let count = count.min(64);
    memory.load(space, address, &mut buffer[..count]) == Err(e) && buffer == [7; 64]
}

/// Whether the pages from an address on have these words.
fn shows(memory: &Memory, space: SpaceId, address: u64, words: &[u64]) -> bool {
    (address / 4096..).zip(words).all(|(number, word)| {
        PageNo::new(number).is_some_and(|page| memory.word(space, page) == *word)
    })
}

/// What a call returned, and what its line says that it returns.
type Returned = (Result<(), MemoryError>, Result<(), MemoryError>);

/// What a call returned that may take memory. None of another line.
fn call_returned(memory: &mut Memory, line: Line) -> Option<Returned> {
    Some(match line {
        Line::Mmap(space, address, bytes, prot) => {
            (
                memory.mmap(SpaceId::new(space), address, bytes, prot),
                Ok(()),
            )
        }
        Line::Munmap(space, address, bytes) => {
            (memory.munmap(SpaceId::new(space), address, bytes), Ok(()))
        }
        Line::StoreNow(space, address, bytes) => (
            memory.store_now(SpaceId::new(space), address, bytes),
            Ok(()),
        ),
        Line::StoreNowRefused(space, address, bytes, refusal) => (
            memory.store_now(SpaceId::new(space), address, bytes),
            refused(refusal),
        ),
        Line::Fault(space, address) => (memory.fault(SpaceId::new(space), address), Ok(())),
        Line::FaultRefused(space, address, refusal) => (
            memory.fault(SpaceId::new(space), address),
            refused(refusal),
        ),
        _ => return None,
    })
}

/// Whether a fork, an exit, a clear or a store returns what its line says. None of another line.
fn space_returns(memory: &mut Memory, line: Line) -> Result<Option<bool>, AllocError> {
    Ok(Some(match line {
        Line::Fork(space, child) => told(memory.fork(SpaceId::new(space)))?
            == Ok(SpaceId::new(child)),
        Line::Exit(space) => memory.exit(SpaceId::new(space)) == Ok(()),
        Line::Clear(space) => clear_refs(memory, SpaceId::new(space), b"4") == Ok(()),
        Line::Store(space, address, bytes) => {
            stores(memory, SpaceId::new(space), address, bytes)?
        }
        _ => return Ok(None),
    }))
}

/// Whether a memory that is only read shows what a line says. It doesn't of any other line.
fn page_returns(memory: &Memory, line: Line) -> bool {
    match line {
        Line::Load(space, address, bytes) => loads(memory, SpaceId::new(space), address, bytes),
        Line::LoadFails(space, address, count, error) => {
            load_fails(memory, SpaceId::new(space), address, count, error)
        }
        Line::Words(space, address, words) => shows(memory, SpaceId::new(space), address, words),
        _ => false,
    }
}

/// Whether a call returns what its line says.
fn returns(memory: &mut Memory, line: Line) -> Result<bool, AllocError> {
    if let Some((returned, wanted)) = call_returned(memory, line) {
        return Ok(told(returned)? == wanted);
    }
    match space_returns(memory, line)? {
        Some(returns) => Ok(returns),
        None => Ok(page_returns(memory, line)),
    }
}

/// Whether each line of a script returns what it says.
pub(crate) fn returns_each(memory: &mut Memory, script: &[Line]) -> Result<bool, AllocError> {
    for line in script {
        if !returns(memory, *line)? {
            return Ok(false);
        }
    }
    Ok(true)
}
