//! Why bytes are no core that a space can have.
ghost use Rattle.std.specs.Prelude.{◌≡◌};
ghost use Rattle.sd_elf.specs.Faults.{has_too_much};

use thiserror::Error;

/// What is wrong with the file header of a core, in the order in which it is tested.
#[derive(Clone, Copy, Debug, PartialEq, Eq, Error)]
pub enum HeaderFault {
    /// The file is shorter than a file header.
    #[error("the file is shorter than an ELF header")]
    Short,
    /// It doesn't begin with the identification of an ELF file of 64 bits, little endian, of version 1.
    #[error("e_ident isn't that of a little-endian ELF64 file")]
    Ident,
    #[error("e_type isn't ET_CORE")]
    Type,
    #[error("e_machine isn't EM_X86_64")]
    Machine,
    #[error("e_version isn't 1")]
    Version,
    /// A program header has another size than 56 bytes.
    #[error("e_phentsize isn't 56")]
    EntrySize,
    /// There are 65,535 program headers or more.
    #[error("e_phnum is over 65534")]
    Count,
    /// The program headers end after the file.
    #[error("the program headers end behind the file")]
    Table,
}

/// What is wrong with a segment, in the order in which it is tested.
#[derive(Clone, Copy, Debug, PartialEq, Eq, Error)]
pub enum SegmentFault {
    /// Its address or its size in memory is no multiple of 4,096, or it has no page.
    #[error("isn't made of pages")]
    Pages,
    /// It begins below the end of the one before.
    #[error("begins below the end of the one before")]
    Order,
    /// It has more bytes in the file than in memory.
    #[error("has more bytes in the file than in memory")]
    Larger,
    /// Its bytes end after the file.
    #[error("ends behind the file")]
    PastEnd,
    /// It ends above the address 2^47.
    #[error("ends above the address 2^47")]
    Above,
    /// With it there are over 65,536 pages.
    #[error("is past the limit of 65536 pages")]
    TooManyPages,
    /// With it there are over 1,024 areas.
    #[error("is past the limit of 1024 areas")]
    TooManyAreas,
}

/// Why bytes are no core that a space can have: the first thing that shows it.
#[derive(Clone, Copy, Debug, PartialEq, Eq, Error)]
pub enum CoreFault {
    #[error("{0}")]
    Header(HeaderFault),
    /// The segment of the program header with this number, counted from 0.
    #[error("segment {number} {fault}")]
    Segment { number: usize, fault: SegmentFault },
}

impl CoreFault {
    /// Whether the file is a core, but has more than a space can have.
    pub fn is_too_large(&self) -> bool
        ensures { result ≡ has_too_much self.now }
    {
        matches!(
            self,
            CoreFault::Segment {
                fault: SegmentFault::Above
                    | SegmentFault::TooManyPages
                    | SegmentFault::TooManyAreas,
                ..
            }
        )
    }
}
