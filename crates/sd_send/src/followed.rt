//! The images of a store that grows, read again where they changed.
ghost use Rattle.std.specs.Prelude.{◌<◌, length};
ghost use Rattle.sd_disk.specs.Reads.{OnlyReads};

use sd_chain::{Catalog, CatalogError, PlacedTable};
use sd_disk::Disk;
use sd_readers::{Front, fronts};
use sd_restore::{Decoded, Fault, read_slot};
use std::alloc::{AllocError, Global};

/// The images of a store, and the fronts of the slots in which they were read.
#[derive(Drop)]
pub(crate) struct Followed {
    fronts: Vec<Front>,
    catalog: Catalog,
}

/// Adds what a slot says of its image. A serial that stands in two slots was read at two moments.
fn add(alloc: Global, catalog: &mut Catalog, slot: usize, decoded: Decoded) -> Result<(), Fault> {
    let Decoded { header, table } = decoded;
    let placed = PlacedTable::new(alloc, table)?;
    match catalog.add(slot, header, placed) {
        Ok(()) => Ok(()),
        Err(CatalogError::DoubleSerial) => Err(Fault::Device),
        Err(CatalogError::OutOfMemory) => Err(Fault::OutOfMemory),
    }
}

impl Followed {
    /// A store of which nothing was read.
    pub(crate) fn new(alloc: Global) -> Followed {
        Followed {
            fronts: Vec::new(alloc),
            catalog: Catalog::new(alloc),
        }
    }

    /// The images that were read.
    pub(crate) fn catalog(&self) -> &Catalog {
        &self.catalog
    }

    /// Has room for the fronts of so many slots.
    fn make_room(&mut self, slots: usize) -> Result<(), AllocError> {
        for _ in self.fronts.len()..slots {
            self.fronts.push(None)?;
        }
        Ok(())
    }

    /// Keeps the front of a slot.
    fn keep(&mut self, slot: usize, front: Front) {
        if let Some(kept) = self.fronts.get_mut(slot) {
            *kept = front;
        }
    }

    /// Whether a slot has this front still.
    fn has(&self, slot: usize, front: &Front) -> bool {
        match self.fronts.get(slot) {
            Some(kept) => kept == front,
            None => false,
        }
    }

    /// Reads a slot whose front is another than it was.
    fn look_at<D: Disk>(
        &mut self,
        alloc: Global,
        disk: &mut D,
        slot: usize,
        front: Front,
    ) -> Result<(), Fault>
        requires { slot < length (D.contents disk.old) }
        ensures reads { OnlyReads D.Disk disk.old disk.new }
    {
        if self.has(slot, &front) {
            return Ok(());
        }
        self.catalog.remove(slot);
        self.keep(slot, None);
        if let Some(decoded) = read_slot(alloc, disk, slot)? {
            add(alloc, &mut self.catalog, slot, decoded)?;
        }
        self.keep(slot, front);
        Ok(())
    }

    /// Reads the slots whose fronts are others than they were.
    fn look_at_all<D: Disk>(
        &mut self,
        alloc: Global,
        disk: &mut D,
        fronts: &[Front],
    ) -> Result<(), Fault>
        ensures reads { OnlyReads D.Disk disk.old disk.new }
    {
        for slot in 0..disk.slots() {
            let front = match fronts.get(slot) {
                Some(front) => *front,
                None => None,
            };
            self.look_at(alloc, disk, slot, front)?;
        }
        Ok(())
    }

    /// Reads what changed of a store since it was read, as one moment of it, and says whether anything did.
    ///
    /// # Errors
    ///
    /// Those of a scan; `Device` also where images changed meanwhile. The next look reads them again.
    pub(crate) fn look<D: Disk>(&mut self, alloc: Global, disk: &mut D) -> Result<bool, Fault>
        ensures reads { OnlyReads D.Disk disk.old disk.new }
    {
        let now = fronts(alloc, disk)?;
        if self.fronts == now {
            return Ok(false);
        }
        self.make_room(now.len())?;
        self.look_at_all(alloc, disk, &now)?;
        if fronts(alloc, disk)? == now {
            Ok(true)
        } else {
            Err(Fault::Device)
        }
    }
}
