ghost use Rattle.std.specs.Prelude.{◌≡◌};
ghost use Rattle.sd_merge.specs.Copying.{copy_numbers};

use crate::source::Source;
use sd_gate::SlotState;
use sd_image::Kind;
use sd_writing::ImageNumbers;

/// What is fixed of a merged image before it is made.
#[derive(Clone, Copy, PartialEq, Eq)]
pub struct CopyOrder {
    pub source: Source,
    /// The slot that it is written to.
    pub slot: usize,
    /// What is known of that slot.
    pub state: SlotState,
    pub serial: u64,
}

impl CopyOrder {
    /// The numbers of the image: it stands for what its source stands for, and has no parent.
    pub(crate) fn numbers(self) -> ImageNumbers
        ensures { result ≡ copy_numbers self }
    {
        ImageNumbers {
            kind: Kind::Merged,
            serial: self.serial,
            stands_for: self.source.stands_for,
            parent: 0,
            checkpoint: self.source.checkpoint,
        }
    }
}
