//! The images of a catalog by their checkpoints.
ghost use Rattle.std.specs.Prelude.{◌≡◌, ℕ, List, Some, All, IfOk, IfSome, MatchOption};
ghost use Rattle.sd_chain.specs.Catalog.{images, place_of};
ghost use Rattle.sd_chain.specs.Checkpoints.{AreCheckpointsOf, FindsCheckpoint, HasCheckpoint, IsOfCheckpointAmong};
ghost use Rattle.sd_chain.specs.Store.{IsCatalogOf};

use super::Catalog;
use crate::checkpoints::{checkpoints_of, of_checkpoint};
use crate::image::OpenImage;
use sd_image::one_image;
use std::alloc::AllocError;

impl Catalog {
    /// The image of a checkpoint: of the dumps and merged images with that number the one with the greatest serial.
    /// It takes no memory, and makes one pass over the images.
    pub fn of_checkpoint(&self, number: u64) -> Option<&OpenImage>
        ensures found { MatchOption result
            (All (λ i. HasCheckpoint number i → ⊥) (images self.now))
            (λ i. IsOfCheckpointAmong (images self.now) number i.now) }
        ensures store { (contents : List (List ℕ)) → IsCatalogOf contents self.now
            → FindsCheckpoint contents number result }
        ensures own { IfSome result
            (λ i. place_of self.now i.now.header.serial ≡ Some (Some i.now)) }
    {
        one_image();
        of_checkpoint(&self.places, number)
    }

    /// The checkpoints of the dumps and merged images, each once, newest first. It makes one pass over the images for
    /// each.
    ///
    /// # Errors
    ///
    /// Out of memory where the list finds no room.
    pub fn checkpoints(&self) -> Result<Vec<u64>, AllocError>
        ensures { IfOk result (λ numbers. AreCheckpointsOf (images self.now) numbers.items) }
    {
        checkpoints_of(self.alloc, &self.places)
    }
}
