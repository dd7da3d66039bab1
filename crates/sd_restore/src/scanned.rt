//! What was found in the slots so far.
ghost use Rattle.std.specs.Prelude.{◌≡◌, ◌≢◌, ◌<◌, ◌≤◌, ◌+◌, ◌-◌, ◌^◌, ℕ, List, true, false, map, filter, length};
ghost use Rattle.std.specs.Prelude.{IfErr, IfOk, IfSome, IsSome, OnErr, OnOk};
ghost use Rattle.sd_disk.specs.Contents.{file_at};
ghost use Rattle.sd_image.specs.Image.{Image, IsImage, is_open};
ghost use Rattle.sd_image.specs.Table.{listing_of};
ghost use Rattle.sd_image.specs.Shows.{IsStore};
ghost use Rattle.sd_chain.specs.Store.{IsCatalogOf};
ghost use Rattle.sd_restore.specs.Faulty.{FaultNames, IsDamage};
ghost use Rattle.sd_restore.specs.Reading.{IsReading, IsSoundTable};
ghost use Rattle.sd_restore.specs.Scanned.{IsScanned, AreRead};

use crate::decoded::Decoded;
use crate::fault::Fault;
use sd_chain::{Catalog, CatalogError, PlacedTable, closed_slot, empty_catalog, open_slot};
use sd_image::{Reason, good_store_has_no_reason, one_image};
use std::alloc::{AllocError, Global};

/// The images of the slots so far, how many of these are open, and the first of them whose serial an earlier one has.
#[derive(Drop)]
pub struct Scanned {
    pub catalog: Catalog,
    pub images: usize,
    pub double: Option<usize>,
}

impl Scanned {
    /// Nothing was read.
    pub fn new(alloc: Global) -> Self
        ensures scanned { (contents : List (List ℕ)) → IsScanned contents 0 result }
        ensures read { (count : ℕ) → AreRead count result.catalog }
        ensures none { result.images ≡ 0 }
    {
        empty_catalog();
        Scanned {
            catalog: Catalog::new(alloc),
            images: 0,
            double: None,
        }
    }

    /// A law: a closed slot is passed. One slot more was scanned.
    pub fn skip(&self, slot: usize)
        ensures { (contents : List (List ℕ)) → slot < length contents
            → is_open (file_at contents slot) ≡ false
            → IsScanned contents slot self.now → IsScanned contents (slot + 1) self.now }
    {
        closed_slot();
    }

    /// Takes in the image of the next slot.
    fn add(&mut self, alloc: Global, slot: usize, decoded: Decoded) -> Result<(), AllocError>
        requires { self.old.images < 2 ^ 64 - 1 }
        ensures scanned { OnOk result
            ((contents : List (List ℕ)) (image : Image) → slot < length contents
            → is_open (file_at contents slot) ≡ true → IsImage (file_at contents slot) image
            → image.header ≡ decoded.header
            → image.spaces ≡ map listing_of decoded.table.spaces.items
            → IsScanned contents slot self.old → IsScanned contents (slot + 1) self.new) }
        ensures read { (count : ℕ) → slot < count → IsSoundTable decoded → AreRead count self.old.catalog
            → OnOk result (AreRead count self.new.catalog) }
        ensures counted { OnOk result (self.new.images ≡ self.old.images + 1) }
        ensures err { OnErr result (self.new ≡ self.old) }
    {
        open_slot();
        let Decoded { header, table } = decoded;
        let placed = PlacedTable::new(alloc, table)?;
        match self.catalog.add(slot, header, placed) {
            Ok(()) => {
                self.images += 1;
                Ok(())
            }
            Err(CatalogError::DoubleSerial) => {
                self.images += 1;
                if self.double.is_none() {
                    self.double = Some(slot);
                }
                Ok(())
            }
            Err(CatalogError::OutOfMemory) => Err(AllocError),
        }
    }

    /// Takes in the next slot: what it says of its image, or none where it is closed.
    ///
    /// # Errors
    ///
    /// Out of memory where the image finds no room: nothing changes.
    pub fn take_in(
        &mut self,
        alloc: Global,
        slot: usize,
        opened: Option<Decoded>,
    ) -> Result<(), AllocError>
        requires { self.old.images < 2 ^ 64 - 1 }
        // One slot more was scanned.
        ensures scanned { OnOk result ((contents : List (List ℕ)) → slot < length contents
            → IsReading (file_at contents slot) opened
            → IsScanned contents slot self.old → IsScanned contents (slot + 1) self.new) }
        // Also of a device that lied.
        ensures read { (count : ℕ) → slot < count → IfSome opened IsSoundTable
            → AreRead count self.old.catalog
            → OnOk result (AreRead count self.new.catalog) }
        ensures counted { OnOk result (self.new.images ≤ self.old.images + 1) }
        // A closed slot takes no memory.
        ensures some { OnErr result (IsSome opened) }
        ensures err { OnErr result (self.new ≡ self.old) }
    {
        match opened {
            Some(decoded) => self.add(alloc, slot, decoded)?,
            None => self.skip(slot),
        }
        Ok(())
    }

    /// Checks that no serial stands twice.
    ///
    /// # Errors
    ///
    /// `Damaged` names the least slot whose serial stands in an earlier open one.
    pub fn check(&self) -> Result<(), Fault>
        // Once all slots were scanned, these are the images of the contents, which are a store; or a serial stands
        // twice.
        ensures catalog { (contents : List (List ℕ)) → IsScanned contents (length contents) self.now
            → OnOk result (IsCatalogOf contents self.now.catalog) }
        ensures store { (contents : List (List ℕ)) → IsScanned contents (length contents) self.now
            → IfOk result (λ _. (images : List Image) × IsStore contents images) }
        ensures damaged { (contents : List (List ℕ)) → IsScanned contents (length contents) self.now
            → IfErr result (FaultNames (IsDamage contents)) }
        ensures good { (contents : List (List ℕ)) (images : List Image)
            → IsScanned contents (length contents) self.now
            → IsStore contents images → IfErr result (FaultNames (λ _ _. ⊥)) }
        ensures empty { result ≢ Err Fault.EmptyChain }
        ensures device { result ≢ Err Fault.Device }
        ensures memory { result ≢ Err Fault.OutOfMemory }
    {
        good_store_has_no_reason();
        one_image();
        match self.double {
            Some(slot) => Err(Fault::Damaged {
                slot,
                reason: Reason::DoubleSerial,
            }),
            None => Ok(()),
        }
    }

    /// A law: how many slots are open, once all were scanned.
    pub fn counts(&self)
        ensures { (contents : List (List ℕ)) → IsScanned contents (length contents) self.now
            → self.now.images ≡ length (filter is_open contents) }
    {}
}
