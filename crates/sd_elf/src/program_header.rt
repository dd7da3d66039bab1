//! A program header of an ELF file: a segment.
ghost use Rattle.std.specs.Prelude.{◌≡◌, length};
ghost use Rattle.sd_elf.specs.Headers.{program_header_in};

use sd_areas::Prot;
use sd_image::{u32_at, u64_at};

/// How many bytes a program header has.
pub const PROGRAM_HEADER_SIZE: usize = 56;

/// The type of a segment of memory.
pub const PT_LOAD: u32 = 1;

/// The type of a segment of notes.
pub const PT_NOTE: u32 = 4;

/// The flags of a segment that may be executed, written and read. They are added up.
pub(crate) const PF_X: u32 = 1;

pub(crate) const PF_W: u32 = 2;

pub(crate) const PF_R: u32 = 4;

/// A program header, `Elf64_Phdr`. Offsets, addresses and sizes are in bytes.
#[derive(Clone, Copy, PartialEq, Eq)]
pub struct ProgramHeader {
    pub p_type: u32,
    pub p_flags: u32,
    pub p_offset: u64,
    pub p_vaddr: u64,
    pub p_paddr: u64,
    pub p_filesz: u64,
    pub p_memsz: u64,
    pub p_align: u64,
}

impl ProgramHeader {
    ghost use Rattle.sd_elf.specs.Segments.{prot_of_flags};

    /// The permissions that its flags give.
    pub fn prot(&self) -> Prot
        ensures { result ≡ prot_of_flags self.now.p_flags }
    {
        Prot {
            read: self.p_flags / PF_R % 2 == 1,
            write: self.p_flags / PF_W % 2 == 1,
            execute: self.p_flags / PF_X % 2 == 1,
        }
    }
}

/// The program header in these bytes.
#[tactic(auto, unfolding(crate::specs::Headers::program_header_in))]
pub fn decode_program_header(bytes: &[u8]) -> ProgramHeader
    requires { length bytes.now ≡ 56 }
    ensures { result ≡ program_header_in bytes.now }
{
    ProgramHeader {
        p_type: u32_at(bytes, 0),
        p_flags: u32_at(bytes, 4),
        p_offset: u64_at(bytes, 8),
        p_vaddr: u64_at(bytes, 16),
        p_paddr: u64_at(bytes, 24),
        p_filesz: u64_at(bytes, 32),
        p_memsz: u64_at(bytes, 40),
        p_align: u64_at(bytes, 48),
    }
}
