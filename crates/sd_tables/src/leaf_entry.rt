ghost use Rattle.std.specs.Prelude.{◌≡◌};
ghost use Rattle.sd_tables.specs.Radix.{entry_in};

use crate::entry::Entry;
use sd_areas::Prot;

/// An entry as a leaf has it, in 12 bytes. Where it isn't framed, its frame means nothing.
#[derive(Clone, Copy)]
pub(crate) struct LeafEntry {
    frame: u32,
    framed: bool,
    prot: Prot,
    writable: bool,
    soft_dirty: bool,
}

impl LeafEntry {
    /// What an unused place has.
    pub(crate) const UNUSED: Self = LeafEntry {
        frame: 0,
        framed: false,
        prot: Prot {
            read: false,
            write: false,
            execute: false,
        },
        writable: false,
        soft_dirty: false,
    };

    /// The entry as a leaf has it.
    #[inline]
    pub(crate) fn of(entry: Entry) -> Self
        ensures { entry_in result ≡ entry }
    {
        LeafEntry {
            frame: entry.frame.unwrap_or(0),
            framed: entry.frame.is_some(),
            prot: entry.prot,
            writable: entry.writable,
            soft_dirty: entry.soft_dirty,
        }
    }

    /// The entry.
    #[inline]
    pub(crate) fn entry(self) -> Entry
        ensures { result ≡ entry_in self }
    {
        Entry {
            prot: self.prot,
            frame: self.framed.then_some(self.frame),
            writable: self.writable,
            soft_dirty: self.soft_dirty,
        }
    }
}
