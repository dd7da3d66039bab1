//! What several tests use: permissions, words, errors and a page of bytes.
use sd_areas::{PageNo, Prot, Snapshot, SnapshotPage, SpaceId};
use sd_command::Bytes;
use sd_journal::{Pages, zero_page};
use sd_pagetable::{AccessError, MemoryError, MemoryRefusal, Segv};
use std::alloc::{AllocError, Global};

pub(crate) const READ: Prot = Prot {
    read: true,
    write: false,
    execute: false,
};

pub(crate) const READ_WRITE: Prot = Prot {
    read: true,
    write: true,
    execute: false,
};

pub(crate) const READ_EXECUTE: Prot = Prot {
    read: true,
    write: false,
    execute: true,
};

/// The word of a page that was mapped, and not stored to.
pub(crate) const FRESH: u64 = 0x0080_0000_0000_0000;

/// The words of a page with a frame, by its soft-dirty bit and by whether others have the frame.
pub(crate) const CLEAN_SHARED: u64 = 0x8000_0000_0000_0000;

pub(crate) const DIRTY_SHARED: u64 = 0x8080_0000_0000_0000;

pub(crate) const CLEAN_ALONE: u64 = 0x8100_0000_0000_0000;

pub(crate) const DIRTY_ALONE: u64 = 0x8180_0000_0000_0000;

pub(crate) const ENOMEM: MemoryError = MemoryError::Denied(AccessError::Refused(
    MemoryRefusal::Enomem,
));

pub(crate) const NO_FRAME: MemoryError = MemoryError::Denied(AccessError::Refused(
    MemoryRefusal::NoFrame,
));

pub(crate) const EINVAL: MemoryError = MemoryError::Denied(AccessError::Refused(
    MemoryRefusal::Einval,
));

pub(crate) const NO_SUCH_SPACE: MemoryError = MemoryError::Denied(AccessError::Refused(
    MemoryRefusal::NoSuchSpace,
));

pub(crate) const TOO_MANY_SPACES: MemoryError = MemoryError::Denied(AccessError::Refused(
    MemoryRefusal::TooManySpaces,
));

pub(crate) const LAST_SPACE: MemoryError = MemoryError::Denied(AccessError::Refused(
    MemoryRefusal::LastSpace,
));

/// What a store returns to a page that isn't mapped.
pub(crate) const NOT_MAPPED: MemoryError = MemoryError::Denied(AccessError::Segv(Segv::Maperr));

/// What a call on a memory returned. Out of memory alone is an error: it ends a test that is refused memory.
pub(crate) fn told<T: Drop>(
    returned: Result<T, MemoryError>,
) -> Result<Result<T, MemoryError>, AllocError> {
    match returned {
        Ok(value) => Ok(Ok(value)),
        Err(MemoryError::OutOfMemory) => Err(AllocError),
        Err(error) => Ok(Err(error)),
    }
}

/// A copy of bytes.
pub(crate) fn bytes_of(alloc: Global, values: &[u8]) -> Result<Bytes, AllocError> {
    let mut bytes = Vec::new(alloc);
    bytes.extend_from_slice(values)?;
    Ok(Bytes::new(bytes))
}

/// A page of a snapshot, by its space, its number, its permissions and its first byte.
pub(crate) type FirstByte = (u64, u64, Prot, u8);

/// A page with this first byte, whose other bytes are 0.
fn page_of(alloc: Global, prot: Prot, byte: u8) -> Result<SnapshotPage, AllocError> {
    let mut page = zero_page(alloc, prot)?;
    page.bytes[0] = byte;
    Ok(page)
}

/// Puts a page into a space.
pub(crate) fn put(alloc: Global, pages: &mut Pages, row: &FirstByte) -> Result<(), AllocError> {
    let (_, number, prot, byte) = *row;
    if let Some(page) = PageNo::new(number) {
        let found = page_of(alloc, prot, byte)?;
        pages.insert(page, found)?;
    }
    Ok(())
}

/// Puts a page into its space, where that is there.
fn add(alloc: Global, snapshot: &mut Snapshot, row: &FirstByte) -> Result<(), AllocError> {
    match snapshot.spaces.get_mut(&SpaceId::new(row.0)) {
        Some(pages) => put(alloc, pages, row),
        None => Ok(()),
    }
}

/// Adds spaces with pages.
fn fill(
    alloc: Global,
    snapshot: &mut Snapshot,
    spaces: &[u64],
    pages: &[FirstByte],
) -> Result<(), AllocError> {
    for space in spaces {
        snapshot.add_space(alloc, SpaceId::new(*space))?;
    }
    for page in pages {
        add(alloc, snapshot, page)?;
    }
    Ok(())
}

/// A snapshot of these spaces with these pages, whose other bytes are 0.
pub(crate) fn snapshot_of(
    alloc: Global,
    spaces: &[u64],
    pages: &[FirstByte],
) -> Result<Snapshot, AllocError> {
    let mut snapshot = Snapshot::new(alloc, 7);
    fill(alloc, &mut snapshot, spaces, pages)?;
    Ok(snapshot)
}
