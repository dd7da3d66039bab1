ghost use Rattle.std.specs.Prelude.{◌≡◌};
ghost use Rattle.sd_rounds.specs.Making.{image_numbers};

use sd_gate::SlotState;
use sd_image::Kind;
use sd_writing::ImageNumbers;

/// What is fixed of an image before it is made.
#[derive(Clone, Copy, PartialEq, Eq)]
pub struct ImageOrder {
    /// The slot that it is written to.
    pub slot: usize,
    /// What is known of that slot.
    pub state: SlotState,
    /// A pre-dump or a dump.
    pub kind: Kind,
    pub serial: u64,
    /// The number of the image that has what this one leaves out, or 0: it takes every page then.
    pub parent: u64,
    pub checkpoint: u64,
}

impl ImageOrder {
    /// The numbers of the image: it stands for itself.
    pub(crate) fn numbers(self) -> ImageNumbers
        ensures { result ≡ image_numbers self }
    {
        ImageNumbers {
            kind: self.kind,
            serial: self.serial,
            stands_for: self.serial,
            parent: self.parent,
            checkpoint: self.checkpoint,
        }
    }
}
