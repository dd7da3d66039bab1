//! Where a chain has a page, and the images that it passes.
ghost use Rattle.std.specs.Prelude.{◌≡◌, ◌↔◌, ℕ, List, Some, IfOk, IfSome, Contains, nat_eq};
ghost use Rattle.std.specs.List.{IsDistinct};
ghost use Rattle.sd_image.specs.Image.{Image, OpenImages};
ghost use Rattle.sd_chain.specs.declared.found.Found.{Found};
ghost use Rattle.sd_chain.specs.declared.trace.Trace.{Trace};
ghost use Rattle.sd_chain.specs.Chains.{IsChainOf, IsTraced};
ghost use Rattle.sd_chain.specs.Reaches.{IsChain, ReachesSerial, ParentsFall};
ghost use Rattle.sd_chain.specs.Store.{IsCatalogOf, IsInFile, FindsHeld};
ghost use Rattle.sd_chain.specs.Ways.{AreImages, LiesBySerial, BreaksBySerial, IsAbsent, IsTraceOf, found_in};
ghost use Rattle.sd_chain.specs.Catalog.{images};
ghost use Rattle.sd_chain.specs.Passes.{IsNextPageOfImage};

use super::Catalog;
use crate::chain::Chain;
use crate::found::Found;
use crate::image::OpenImage;
use crate::trace::Trace;
use crate::way::Way;
use sd_areas::{PageNo, SpaceId};
use sd_image::{few_pages, one_image, page_in_file};
use std::alloc::AllocError;

impl Catalog {
    /// What following a page from an image comes to.
    pub(super) fn follow(&self, image: &OpenImage, space: SpaceId, page: PageNo) -> Trace
        ensures { AreImages self.now → Contains (images self.now) image.now
            → IsTraceOf self.now (space, page) image.now result }
    {
        few_pages();
        self.sound();
        let mut image = image;
        let mut unlisted = Trace::Absent;
        loop {
            let Some(way) = image.way(space, page) else {
                return unlisted;
            };
            match way {
                Way::Data { place } => {
                    let offset = place.saturating_mul(4096).saturating_add(4096);
                    return Trace::Found(Found::Data {
                        slot: image.slot(),
                        offset,
                    });
                }
                Way::Zero => return Trace::Found(Found::Zero),
                Way::Parent => {}
            }
            unlisted = Trace::Broken { slot: image.slot() };
            let Some(parent) = self.parent(image) else {
                return unlisted;
            };
            image = parent;
        }
    }

    /// Where the chain of an image has a page, or at which image it breaks.
    ///
    /// It goes from an image to its parent at most as often as there are images. At each it looks for the page in a
    /// time that grows with the logarithm of the runs, and for the parent among the images.
    pub fn trace(&self, serial: u64, space: SpaceId, page: PageNo) -> Trace
        ensures found { AreImages self.now → (there : Found)
            → (result ≡ Trace.Found there) ↔ LiesBySerial self.now serial (space, page) there }
        ensures broken { AreImages self.now → (slot : ℕ)
            → (result ≡ Trace.Broken slot) ↔ BreaksBySerial self.now serial (space, page) slot }
        ensures absent { AreImages self.now
            → (result ≡ Trace.Absent) ↔ IsAbsent self.now serial (space, page) }
        // Where it is the catalog of files, the page's bytes are those that the image holds.
        ensures held { (contents : List (List ℕ)) (images : List Image)
            → IsCatalogOf contents self.now
            → OpenImages contents images
            → FindsHeld contents images serial (space, page) (found_in result) }
        ensures inside { (contents : List (List ℕ)) → IsCatalogOf contents self.now
            → IfSome (found_in result) (IsInFile contents) }
    {
        one_image();
        page_in_file();
        let Some(place) = self.places.get(&serial) else {
            return Trace::Absent;
        };
        match place {
            Some(image) => self.follow(image, space, page),
            None => Trace::Absent,
        }
    }

    /// Where the chain of an image has a page, or none where no image of it has it. It takes as long as
    /// [`Catalog::trace`].
    pub fn resolve(&self, serial: u64, space: SpaceId, page: PageNo) -> Option<Found>
        ensures exact { AreImages self.now
            → (there : Found)
            → (result ≡ Some there) ↔ LiesBySerial self.now serial (space, page) there }
        ensures held { (contents : List (List ℕ)) (images : List Image)
            → IsCatalogOf contents self.now
            → OpenImages contents images → FindsHeld contents images serial (space, page) result }
        ensures inside { (contents : List (List ℕ)) → IsCatalogOf contents self.now
            → IfSome result (IsInFile contents) }
    {
        self.trace(serial, space, page).found()
    }

    /// The chain of the image of a serial: the image, the one that its parent number names, and so on. It has no images
    /// where no image has the serial. It makes one pass over the images of the catalog for each image of the chain.
    ///
    /// # Errors
    ///
    /// Out of memory where its lists find no room.
    pub fn chain(&self, serial: u64) -> Result<Chain<'_>, AllocError>
        ensures { ParentsFall self.now → IfOk result (IsChainOf self.now serial) }
    {
        self.sound();
        let mut images = Vec::new(self.alloc);
        let mut at = self.image(serial);
        while let Some(image) = at {
            images.push(image)?;
            at = self.parent(image);
        }
        Chain::new(self.alloc, images)
    }

    /// A law: where it is the catalog of files, and it is known what following a page comes to, the page's bytes are
    /// those that the image holds, within their file.
    pub fn traced_is_held(&self)
        ensures held { (contents : List (List ℕ)) (images : List Image) (serial : ℕ) (page : ℕ × ℕ)
            (answer : Trace) → IsCatalogOf contents self.now → OpenImages contents images
            → IsTraced self.now serial page answer
            → FindsHeld contents images serial page (found_in answer) }
        ensures inside { (contents : List (List ℕ)) (serial : ℕ) (page : ℕ × ℕ) (answer : Trace)
            → IsCatalogOf contents self.now → IsTraced self.now serial page answer
            → IfSome (found_in answer) (IsInFile contents) }
    {
        one_image();
        page_in_file();
        let _places = &self.places;
    }

    /// The first page that the image of a serial lists after a place, rising by space and page, or its first page
    /// where no place is given. None where the image lists no more, or no image has the serial. It takes no memory, and
    /// no walk over all runs.
    pub fn next_page(
        &self,
        serial: u64,
        after: Option<(SpaceId, PageNo)>,
    ) -> Option<(SpaceId, PageNo)>
        ensures { AreImages self.now → IsNextPageOfImage self.now serial after result }
    {
        self.sound();
        self.image(serial)?.next_page(after)
    }

    /// The serials of the images that an image reaches, each once, from the image on: its own, that of the image that
    /// its parent number names, also where it has no page there, and what that one reaches. The list is empty where no
    /// image has the serial.
    ///
    /// # Errors
    ///
    /// Out of memory where the list finds no room.
    pub fn reachable(&self, serial: u64) -> Result<Vec<u64>, AllocError>
        ensures reached { ParentsFall self.now → IfOk result (λ list. (reached : ℕ)
            → Contains list.items reached ↔ ReachesSerial self.now serial reached) }
        // Each image is named by the parent number of the one before.
        ensures chain { ParentsFall self.now
            → IfOk result (λ list. IsChain self.now serial list.items) }
        ensures once { ParentsFall self.now → IfOk result (λ list. IsDistinct nat_eq list.items) }
    {
        let mut reached = Vec::new(self.alloc);
        let mut next = self.image(serial);
        while let Some(image) = next {
            reached.push(image.header().serial)?;
            next = self.parent(image);
        }
        Ok(reached)
    }
}
