ghost use Rattle.std.specs.Prelude.{◌≡◌, true, false, None, Some};

use sd_areas::Prot;

/// What the page table has for a mapped page: its permissions, its frame (none before one was
/// needed), whether a store may go on without a fault, and whether it was touched since its clear.
#[derive(Clone, Copy, Debug, PartialEq, Eq)]
pub struct Entry {
    pub prot: Prot,
    pub frame: Option<u32>,
    pub writable: bool,
    pub soft_dirty: bool,
}

impl Entry {
    /// The entry of a page just mapped: without a frame, and soft-dirty.
    pub fn fresh(prot: Prot) -> Self
        ensures { result ≡ record { prot = prot; frame = None; writable = false; soft_dirty = true } }
    {
        Entry {
            prot,
            frame: None,
            writable: false,
            soft_dirty: true,
        }
    }

    /// The entry where the next store needs a fault.
    pub fn write_protected(self, soft_dirty: bool) -> Self
        ensures { result ≡ record self { writable = false; soft_dirty = soft_dirty } }
    {
        Entry {
            prot: self.prot,
            frame: self.frame,
            writable: false,
            soft_dirty,
        }
    }

    /// The entry with these permissions, where the next store needs a fault.
    pub fn protected(self, prot: Prot) -> Self
        ensures { result ≡ record self { prot = prot; writable = false } }
    {
        Entry {
            prot,
            frame: self.frame,
            writable: false,
            soft_dirty: self.soft_dirty,
        }
    }

    /// The entry with a frame, and all else as before.
    pub fn with_frame(self, frame: u32) -> Self
        ensures { result ≡ record self { frame = Some frame } }
    {
        Entry {
            prot: self.prot,
            frame: Some(frame),
            writable: self.writable,
            soft_dirty: self.soft_dirty,
        }
    }

    /// The entry after a fault: writable and soft-dirty, with a frame of its own.
    pub fn made_writable(self, frame: u32) -> Self
        ensures { result ≡ record { prot = self.prot; frame = Some frame; writable = true; soft_dirty = true } }
    {
        Entry {
            prot: self.prot,
            frame: Some(frame),
            writable: true,
            soft_dirty: true,
        }
    }
}
