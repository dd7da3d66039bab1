ghost use Rattle.std.specs.Prelude.{◌≡◌, ◌≤◌, ℕ};
ghost use Rattle.sd_chain.specs.Chains.{found_on};
ghost use Rattle.sd_restore.specs.Placed.{IsInSlots, IsWithin};

use sd_areas::{PAGE_BYTES, PageNo, Prot, SpaceId};
use sd_chain::Found;

/// Mapped pages of an image, one after the other, and where their bytes are.
#[derive(Clone, Copy)]
pub struct PlacedRun {
    pub space: SpaceId,
    /// The first page.
    pub first: PageNo,
    /// How many pages.
    pub count: u64,
    pub prot: Prot,
    /// Where the bytes of the first page are. Where they are in a file, those of the other pages stand after them;
    /// else all are zeros.
    pub there: Found,
}

impl PlacedRun {
    /// Where the bytes of the page are that is so many after the first.
    pub fn place(&self, behind: u64) -> Found
        requires run { IsWithin self.now }
        requires within { behind ≤ self.now.count }
        ensures place { result ≡ found_on self.now.there behind }
        // It is in the slot of the first.
        ensures slot { (count : ℕ) → IsInSlots count self.now.there → IsInSlots count result }
    {
        match self.there {
            Found::Zero => Found::Zero,
            Found::Data { slot, offset } => {
                let offset = offset + PAGE_BYTES * behind;
                Found::Data { slot, offset }
            }
        }
    }
}
