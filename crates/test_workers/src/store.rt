//! A catalog, a dumper and a merger over a disk, without a memory: the images have no page.
use crate::stop::Stop;
use sd_chain::{Catalog, PlacedTable};
use sd_disk::{Disk, MemDisk};
use sd_gate::{Request, SlotState, perform};
use sd_image::{Header, Kind, Table, Version};
use sd_merge::{MergeProgress, MergeStep, Merger, Source};
use sd_rounds::{Dumper, PageBuffers};
use sd_writing::{NewImage, NextImage};
use std::alloc::{AllocError, Global};

/// How many slots there are.
pub(crate) const SLOTS: usize = 8;

/// The serial of the merged image.
const MERGED: u64 = 4;

/// The serials of the images that are there as a merge begins.
const BEFORE: [u64; 3] = [1, 2, 3];

/// More steps than a merge has.
const MOST: usize = 100;

/// The images of a store, and who works on it.
#[derive(Drop)]
pub(crate) struct Store {
    pub(crate) catalog: Catalog,
    disk: MemDisk,
    pub(crate) dumper: Dumper,
    pub(crate) merger: Merger,
    tickets: u64,
}

/// A dump without a page.
const FIRST: Header = Header {
    version: Version::Two,
    kind: Kind::Dump,
    serial: 1,
    stands_for: 1,
    parent: 0,
    checkpoint: 1,
    pages: 0,
    table_len: 8,
    digest: [0; 32],
};

/// It, and two above it.
const CHAIN: [Header; 3] = [
    FIRST,
    Header {
        serial: 2,
        stands_for: 2,
        parent: 1,
        checkpoint: 2,
        ..FIRST
    },
    Header {
        serial: 3,
        stands_for: 3,
        parent: 2,
        checkpoint: 3,
        ..FIRST
    },
];

/// Adds a dump of no space.
fn add(alloc: Global, catalog: &mut Catalog, slot: usize, header: Header) -> Result<(), Stop> {
    let table = Table {
        spaces: Vec::new(alloc),
    };
    catalog.add(slot, header, PlacedTable::new(alloc, table)?)?;
    Ok(())
}

impl Store {
    /// An empty store of eight slots.
    pub(crate) fn new(alloc: Global) -> Result<Store, AllocError> {
        let disk = MemDisk::new(alloc, SLOTS, 5_000, 1_000)?;
        Ok(Store {
            catalog: Catalog::new(alloc),
            disk,
            dumper: Dumper::new(alloc),
            merger: Merger::new(alloc),
            tickets: 0,
        })
    }

    /// Adds the chain in the slots 0 to 2.
    pub(crate) fn add_chain(&mut self, alloc: Global) -> Result<(), Stop> {
        for slot in 0..CHAIN.len() {
            add(alloc, &mut self.catalog, slot, CHAIN[slot])?;
        }
        Ok(())
    }

    /// Begins a checkpoint: its number, the slots of its pre-dumps and of its dump, and its parent.
    pub(crate) fn begin_dump(
        &mut self,
        alloc: Global,
        number: u64,
        pre_dumps: &[usize],
        dump: usize,
        parent: u64,
    ) -> Result<(), Stop> {
        let pre_dumps = pre_dumps.to_vec(alloc)?;
        let buffers = PageBuffers::reserve(alloc)?;
        self.dumper.begin(number, pre_dumps, dump, parent, buffers)?;
        Ok(())
    }

    /// Begins a merge of the tip into a slot that was never written.
    pub(crate) fn begin_merge(&mut self, alloc: Global, slot: usize) -> Result<(), Stop> {
        let source = match self.catalog.tip() {
            Some(tip) => Source::of(tip),
            None => return Err(Stop::Strange),
        };
        let before = BEFORE.to_vec(alloc)?;
        self.merger.begin(source, slot, before)?;
        Ok(())
    }

    /// The call that the merger asks for.
    fn asked(&mut self) -> Result<Request, Stop> {
        self.tickets = self.tickets.wrapping_add(1);
        let image = NextImage {
            serial: MERGED,
            state: SlotState::Raw,
        };
        match self.merger.work(&self.catalog, image, self.tickets)? {
            MergeStep::Call(request)
            | MergeStep::ReadCall(request)
            | MergeStep::PageCall(request)
            | MergeStep::TableCall(request) => Ok(request),
            MergeStep::Zero => Err(Stop::Strange),
        }
    }

    /// Makes the call that the merger asks for, and hands its outcome in.
    fn call(&mut self) -> Result<MergeProgress, Stop> {
        let request = self.asked()?;
        if self.disk.slots() <= request.id().slot {
            return Err(Stop::Strange);
        }
        let outcome = perform(&mut self.disk, request);
        Ok(self.merger.hand_in(outcome))
    }

    /// Puts the merged image into the catalog. Returns its serial.
    fn take_in(&mut self, image: NewImage) -> Result<u64, Stop> {
        let serial = image.header.serial;
        self.catalog.add(image.slot, image.header, image.table)?;
        Ok(serial)
    }

    /// Makes one step of the merge. Returns the merged image's serial where that is open, or the merge has ended.
    fn merge_on(&mut self) -> Result<Option<u64>, Stop> {
        match self.call()? {
            MergeProgress::More => Ok(None),
            MergeProgress::Opened(image) => Ok(Some(self.take_in(image)?)),
            MergeProgress::Closed(image) => {
                self.catalog.remove(image.slot);
                Ok(None)
            }
            MergeProgress::Merged(serial) => Ok(Some(serial)),
            MergeProgress::Strange | MergeProgress::Failed => Err(Stop::Strange),
        }
    }

    /// Makes the steps of the merge until its image is open and its list is awaited, or it has ended. Returns the
    /// image's serial.
    pub(crate) fn merge(&mut self) -> Result<u64, Stop> {
        for _ in 0..MOST {
            if let Some(serial) = self.merge_on()? {
                return Ok(serial);
            }
        }
        Err(Stop::NoEnd)
    }
}
