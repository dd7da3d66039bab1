//! Stores in memory of which a call may fail.
use sd_disk::{Fused, MemDisk};
use std::alloc::{AllocError, Global};

/// The bytes of each slot: an image of one page has 4,096 bytes of front and a table.
const BYTES: usize = 4_096 + 4_096 + 512;

/// The disk of a world.
pub(crate) type Device = Fused<MemDisk>;

/// An empty store.
#[derive(Clone, Copy)]
pub(crate) struct Store {
    /// How many slots it has.
    pub(crate) slots: usize,
    /// After how many calls one fails.
    pub(crate) calls: u64,
    /// Whether that one isn't made. Else a write or a cut is made all the same.
    pub(crate) drops: bool,
}

/// A store of eight slots of which no call fails.
pub(crate) const EIGHT: Store = Store {
    slots: 8,
    calls: u64::MAX,
    drops: false,
};

/// Such a store of four slots.
pub(crate) const FOUR: Store = Store { slots: 4, ..EIGHT };

/// Such a store of three slots.
pub(crate) const THREE: Store = Store { slots: 3, ..EIGHT };

/// Such a store of two slots.
pub(crate) const TWO: Store = Store { slots: 2, ..EIGHT };

/// A disk of a store's slots, of which there are at most sixteen.
pub(crate) fn empty(alloc: Global, store: Store) -> Result<Device, AllocError> {
    let slots = store.slots.clamp(1, 16);
    let disk = MemDisk::new(alloc, slots, BYTES, 1_000)?;
    if store.drops {
        Ok(Fused::dropping(disk, store.calls))
    } else {
        Ok(Fused::new(disk, store.calls))
    }
}
