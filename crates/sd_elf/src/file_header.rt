//! The file header of an ELF file, and whether it is that of a core.
ghost use Rattle.std.specs.Prelude.{◌≡◌, length, Ok, IfOk, IfErr};
ghost use Rattle.sd_elf.specs.declared.file_header.FileHeader.{FileHeader};
ghost use Rattle.sd_elf.specs.Headers.{BreaksHeader, IsCoreHeader, file_header_in, table_end};

use crate::fault::HeaderFault;
use crate::program_header::PROGRAM_HEADER_SIZE;
use sd_image::{u16_at, u32_at, u64_at};

/// How many bytes a file header has.
pub const FILE_HEADER_SIZE: usize = 64;

/// The identification of an ELF file of 64 bits, little endian, of version 1: the first bytes of `e_ident`.
pub(crate) const IDENT: [u8; 7] = [0x7f, b'E', b'L', b'F', 2, 1, 1];

/// The type of a core file.
pub(crate) const ET_CORE: u16 = 4;

/// The machine x86-64.
pub(crate) const EM_X86_64: u16 = 62;

/// The version of a file.
pub(crate) const EV_CURRENT: u32 = 1;

/// The count that says that there are more program headers than a file header can count.
const PN_XNUM: u16 = 0xffff;

/// The file header, `Elf64_Ehdr`, after its identification.
#[derive(Clone, Copy, PartialEq, Eq)]
pub struct FileHeader {
    pub e_type: u16,
    pub e_machine: u16,
    pub e_version: u32,
    pub e_entry: u64,
    pub e_phoff: u64,
    pub e_shoff: u64,
    pub e_flags: u32,
    pub e_ehsize: u16,
    pub e_phentsize: u16,
    pub e_phnum: u16,
    pub e_shentsize: u16,
    pub e_shnum: u16,
    pub e_shstrndx: u16,
}

/// The fields of a file header.
#[tactic(auto, unfolding(crate::specs::Headers::file_header_in))]
fn fields_of(bytes: &[u8]) -> FileHeader
    requires { length bytes.now ≡ 64 }
    ensures { result ≡ file_header_in bytes.now }
{
    FileHeader {
        e_type: u16_at(bytes, 16),
        e_machine: u16_at(bytes, 18),
        e_version: u32_at(bytes, 20),
        e_entry: u64_at(bytes, 24),
        e_phoff: u64_at(bytes, 32),
        e_shoff: u64_at(bytes, 40),
        e_flags: u32_at(bytes, 48),
        e_ehsize: u16_at(bytes, 52),
        e_phentsize: u16_at(bytes, 54),
        e_phnum: u16_at(bytes, 56),
        e_shentsize: u16_at(bytes, 58),
        e_shnum: u16_at(bytes, 60),
        e_shstrndx: u16_at(bytes, 62),
    }
}

/// Where the program headers end in the file.
fn table_end(header: &FileHeader) -> u128
    ensures { result ≡ table_end header.now }
{
    u128::from(header.e_phoff) + PROGRAM_HEADER_SIZE as u128 * u128::from(header.e_phnum)
}

/// The file header in the first 64 bytes of a file of this size, where it is that of a core.
///
/// # Errors
///
/// The first of the faults that it has.
pub fn decode_file_header(bytes: &[u8], size: u64) -> Result<FileHeader, HeaderFault>
    requires { length bytes.now ≡ 64 }
    // What is read is the header of a core.
    ensures found { IfOk result (IsCoreHeader bytes.now size) }
    // A header of a core is read.
    ensures only { (h : FileHeader) → IsCoreHeader bytes.now size h → result ≡ Ok h }
    // What the fault says is so.
    ensures fault { IfErr result (BreaksHeader bytes.now size) }
{
    if bytes[0..7] != IDENT[..] {
        return Err(HeaderFault::Ident);
    }
    let header = fields_of(bytes);
    if header.e_type != ET_CORE {
        return Err(HeaderFault::Type);
    }
    if header.e_machine != EM_X86_64 {
        return Err(HeaderFault::Machine);
    }
    if header.e_version != EV_CURRENT {
        return Err(HeaderFault::Version);
    }
    if header.e_phentsize as usize != PROGRAM_HEADER_SIZE {
        return Err(HeaderFault::EntrySize);
    }
    if header.e_phnum == PN_XNUM {
        return Err(HeaderFault::Count);
    }
    if table_end(&header) > u128::from(size) {
        return Err(HeaderFault::Table);
    }
    Ok(header)
}
