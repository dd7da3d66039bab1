ghost use Rattle.std.specs.Prelude.{◌≡◌};
ghost use Rattle.sd_chain.specs.Ways.{found_in};

use crate::found::Found;

/// What following a page from an image to its parents comes to.
#[derive(Clone, Copy, PartialEq, Eq)]
pub enum Trace {
    /// An image of the chain has the page there.
    Found(Found),
    /// The image of this slot has the page in its parent, and no image that its parent number names lists the page.
    Broken { slot: usize },
    /// The image doesn't list the page, or no image has the serial.
    Absent,
}

impl Trace {
    /// Where the page is, if the chain has it.
    pub fn found(self) -> Option<Found>
        ensures { result ≡ found_in self }
    {
        match self {
            Trace::Found(there) => Some(there),
            Trace::Broken { .. } | Trace::Absent => None,
        }
    }
}
