//! The catalog of a store's open images.
ghost use Rattle.std.specs.Prelude.{◌≡◌, ◌≢◌, ◌⊎◌, ◌==◌, ◌<◌, ◌↔◌, ℕ, not, List, [], None, Some, IsTrue, IsSome, IfOk};
ghost use Rattle.std.specs.Prelude.{OnOk, OnErr, IsErrOf, IsOk, IsNone, IfSome, MatchOption, All, Contains, map};
ghost use Rattle.sd_image.specs.Image.{Image, OpenImages};
ghost use Rattle.sd_chain.specs.declared.error.CatalogError.TheVariants.{DoubleSerial};
ghost use Rattle.sd_chain.specs.Store.{IsCatalogOf, FindsNamed, FindsTip, HasTheImages};
ghost use Rattle.sd_chain.specs.Catalog.{Opened, place_of, images, IsHeld, Changes, is_elsewhere, without_slot, Names};
ghost use Rattle.sd_chain.specs.Catalog.{IsTip, IsDumpOrMerged, IsGreatest, IsSoundCatalog, serial_of};
ghost use Rattle.sd_chain.specs.Catalog.{checkpoint_number};
ghost use Rattle.sd_chain.specs.Recorded.{Agrees, CatalogLists};

use crate::choice::{Places, greatest_checkpoint, greatest_serial, images_of, named_of, newest_of};
use crate::error::CatalogError;
use crate::image::OpenImage;
use crate::placed::PlacedTable;
use crate::putting::{put_image, put_place};
use indexmap::IndexMap;
use sd_image::{Header, one_image};
use std::alloc::{AllocError, Global};
use std::marker::Model;

mod checkpoints;
mod tracing;

/// The open images of a store, in order of serial, and the places that are held for serials to come.
#[derive(Drop)]
pub struct Catalog {
    alloc: Global,
    places: Places,
}

impl Model for Catalog {
    ghost use Rattle.sd_chain.specs.Catalog.{Places, AreInOrder};

    ghost Value = { Places };

    ghost view = { λ c. c.places.entries };

    ghost invariant = { λ c. AreInOrder c.places.entries };
}

/// Whether a place is held, or its image is in another slot.
fn stays(place: &Option<OpenImage>, slot: usize) -> bool
    ensures { result ≡ is_elsewhere slot place.now }
{
    match place {
        Some(image) => image.slot() != slot,
        None => true,
    }
}

impl Catalog {
    /// A catalog without images.
    pub fn new(alloc: Global) -> Self
        ensures { result ≡ [] }
    {
        Catalog {
            alloc,
            places: IndexMap::new(alloc),
        }
    }

    /// Makes a place for a serial, which no other function shows, so that `add` takes no memory for it later.
    ///
    /// # Errors
    ///
    /// `DoubleSerial` where the serial is there or held. `OutOfMemory` where the place finds no room. An error changes
    /// nothing.
    pub fn hold(&mut self, serial: u64) -> Result<(), CatalogError>
        ensures held { OnOk result (Changes self.old self.new serial (Some None)) }
        ensures double { IsErrOf result DoubleSerial ↔ IsSome (place_of self.old serial) }
        ensures err { OnErr result (self.new ≡ self.old) }
    {
        if self.places.contains_key(&serial) {
            return Err(CatalogError::DoubleSerial);
        }
        put_place(&mut self.places, serial, None)?;
        Ok(())
    }

    /// Takes a held place away. It changes nothing where none is held, and takes no memory.
    pub fn release(&mut self, serial: u64)
        ensures released { IsHeld self.old serial → Changes self.old self.new serial None }
        ensures nothing { (IsHeld self.old serial → ⊥) → self.new ≡ self.old }
    {
        if self.is_held(serial) {
            self.places.retain(
                |other: &u64, place: &mut Option<OpenImage>| -> bool
                    ensures { (result ≡ not (other.now == serial)) × (place.new ≡ place.old) }
                { *other != serial },
            );
        }
    }

    /// Adds the image of a slot. At a held serial it takes no memory.
    ///
    /// # Errors
    ///
    /// `DoubleSerial` where an image with that serial is there. `OutOfMemory` where the serial isn't held and its place
    /// finds no room. An error changes nothing.
    pub fn add(
        &mut self,
        slot: usize,
        header: Header,
        table: PlacedTable,
    ) -> Result<(), CatalogError>
        ensures added { OnOk result (Changes self.old self.new header.serial
            (Some (Some (record { slot = slot; header = header; spaces = table })))) }
        ensures no_others { OnOk result ((i : Opened) → Contains (images self.new) i
            → Contains (images self.old) i
            ⊎ (i ≡ record { slot = slot; header = header; spaces = table })) }
        ensures double { IsErrOf result DoubleSerial
            ↔ ((i : Opened) × (place_of self.old header.serial ≡ Some (Some i))) }
        ensures at_held { IsHeld self.old header.serial → IsOk result }
        ensures err { OnErr result (self.new ≡ self.old) }
    {
        let serial = header.serial;
        let image = OpenImage::new(slot, header, table);
        put_image(&mut self.places, serial, image)?;
        Ok(())
    }

    /// Removes the image of a slot. It changes nothing where there is none, and takes no memory.
    pub fn remove(&mut self, slot: usize)
        ensures { (serial : ℕ)
            → place_of self.new serial ≡ without_slot slot (place_of self.old serial) }
    {
        self.places.retain(
            |_serial: &u64, place: &mut Option<OpenImage>| -> bool
                ensures { (result ≡ is_elsewhere slot place.old) × (place.new ≡ place.old) }
            { stays(place, slot) },
        );
    }

    /// The open image with a serial.
    pub fn image(&self, serial: u64) -> Option<&OpenImage>
        ensures { MatchOption result
            ((i : Opened) → place_of self.now serial ≡ Some (Some i) → ⊥)
            (λ i. (place_of self.now serial ≡ Some (Some i.now)) × (i.now.header.serial ≡ serial)) }
    {
        self.places.get(&serial)?.as_ref()
    }

    /// Whether a place is held for a serial.
    pub fn is_held(&self, serial: u64) -> bool
        ensures { IsTrue result ↔ IsHeld self.now serial }
    {
        match self.places.get(&serial) {
            Some(place) => place.is_none(),
            None => false,
        }
    }

    /// The image that a number names: of those that stand for it, the one with the greatest serial.
    /// It makes one pass over the images.
    pub fn find(&self, stands_for: u64) -> Option<&OpenImage>
        ensures found { MatchOption result
            (All (λ i. i.header.stands_for ≢ stands_for) (images self.now))
            (λ i. Names self.now stands_for i.now) }
        ensures named { (contents : List (List ℕ)) (images : List Image)
            → IsCatalogOf contents self.now
            → OpenImages contents images → FindsNamed contents images stands_for result }
    {
        one_image();
        named_of(&self.places, stands_for)
    }

    /// The newest dump or merged image: that with the greatest checkpoint, and of these the greatest serial. None
    /// where there are only pre-dumps. It makes one pass over the images.
    pub fn tip(&self) -> Option<&OpenImage>
        ensures newest { MatchOption result
            (All (λ i. IsDumpOrMerged i → ⊥) (images self.now))
            (λ i. IsTip self.now i.now) }
        ensures store { (contents : List (List ℕ)) → IsCatalogOf contents self.now
            → FindsTip contents result }
        ensures own { IfSome result
            (λ i. place_of self.now i.now.header.serial ≡ Some (Some i.now)) }
    {
        one_image();
        newest_of(&self.places)
    }

    /// The images, rising by serial.
    ///
    /// # Errors
    ///
    /// Out of memory where the list finds no room.
    pub fn list(&self) -> Result<Vec<&OpenImage>, AllocError>
        ensures { IfOk result (λ list. map (λ i. i.now) list.items ≡ images self.now) }
    {
        images_of(self.alloc, &self.places)
    }

    /// A law: the catalog of contents has the images of the contents, and a number names alike in both.
    pub fn has_the_images(&self)
        ensures { (contents : List (List ℕ)) (images : List Image) → IsCatalogOf contents self.now
            → OpenImages contents images → HasTheImages contents self.now images }
    {
        one_image();
        let _places = &self.places;
    }

    /// The greatest serial of the images, or 0 where there are none. It takes no memory.
    pub fn greatest_serial(&self) -> u64
        ensures { IsGreatest serial_of result (images self.now) }
    {
        greatest_serial(&self.places)
    }

    /// The greatest checkpoint of the images, or 0 where there are none. It takes no memory.
    pub fn greatest_checkpoint(&self) -> u64
        ensures { IsGreatest checkpoint_number result (images self.now) }
    {
        greatest_checkpoint(&self.places)
    }

    /// A law: what is so of every catalog.
    pub fn sound(&self)
        ensures { IsSoundCatalog self.now }
    {
        let _places = &self.places;
    }

    /// A law: where each image of the catalog is one of some images, with its header and its table, and the other way
    /// round, the tip, what a number names and where pages lie agree in both.
    pub fn agrees(&self)
        ensures { (all : List Image) → CatalogLists self.now all → Agrees self.now all }
    {
        let _places = &self.places;
    }

    /// The image that an image's parent number names, if it stands for a lower number. It takes no memory, and makes
    /// one pass over the images.
    pub fn parent(&self, image: &OpenImage) -> Option<&OpenImage>
        ensures falls { IfSome result (λ p. p.now.header.stands_for < image.now.header.stands_for) }
        ensures named { IfSome result (λ p. Names self.now image.now.header.parent p.now) }
        ensures all { image.now.header.parent < image.now.header.stands_for → IsNone result
            → (p : Opened) → Names self.now image.now.header.parent p → ⊥ }
    {
        let parent = self.find(image.header().parent)?;
        if parent.header().stands_for < image.header().stands_for {
            Some(parent)
        } else {
            None
        }
    }
}
