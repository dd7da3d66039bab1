//! A core file, read: its headers, and then the pages of its segments.
ghost use Rattle.std.specs.Prelude.{◌≡◌, ◌+◌, ◌^◌, ◌<◌, ◌/◌, ℕ, List, slice_index, filter, length, map, IfErr, IfOk};
ghost use Rattle.std.specs.Prelude.{IfSome, OnOk};
ghost use Rattle.sd_elf.specs.Cores.{IsCoreFile, IsErrorOf, IsHeaderTable, IsOutside, program_headers_in, segment_byte};
ghost use Rattle.sd_elf.specs.Segments.{extent_of, is_memory, no_extent};
ghost use Rattle.sd_elf.specs.declared.program_header.ProgramHeader.{ProgramHeader};

use crate::fault::{CoreFault, HeaderFault};
use crate::file_header::{FILE_HEADER_SIZE, decode_file_header};
use crate::program_header::{PROGRAM_HEADER_SIZE, ProgramHeader, decode_program_header};
use crate::segments::{Extent, check_segments, is_memory};
use std::alloc::{AllocError, AllocFailed, Global};
use std::fs::File;
use std::io;
use std::os::unix::fs::FileExt;

/// A file that is read at any place.
pub trait CoreFile {
    ghost use Rattle.std.specs.Prelude.{Option};
    ghost use Rattle.sd_elf.specs.Cores.{IsRead};

    /// The bytes that it holds, where that is known.
    ghost bytes: { Self → Option (List ℕ) };

    /// How many bytes it has.
    fn size(&self) -> io::Result<u64>
        ensures { IfSome (bytes self.now) (λ held. IfOk result (λ size. size ≡ length held)) };

    /// Fills the buffer from a place on.
    ///
    /// # Errors
    ///
    /// Where the file ends before, or isn't read.
    fn read_at(&self, place: u64, buffer: &mut [u8]) -> io::Result<()>
        ensures { IfSome (bytes self.now) (λ held. OnOk result (IsRead held place buffer.new)) };
}

/// A file of the system. No contract says what it holds.
impl CoreFile for File {
    ghost use Rattle.std.specs.Prelude.{None};

    ghost bytes = { λ _. None };

    fn size(&self) -> io::Result<u64> {
        Ok(self.metadata()?.len())
    }

    fn read_at(&self, place: u64, buffer: &mut [u8]) -> io::Result<()> {
        self.read_exact_at(buffer, place)
    }
}

/// A file in memory.
impl CoreFile for Vec<u8> {
    ghost use Rattle.std.specs.Prelude.{Some};

    ghost bytes = { λ file. Some file.items };

    fn size(&self) -> io::Result<u64> {
        Ok(self.len() as u64)
    }

    fn read_at(&self, place: u64, buffer: &mut [u8]) -> io::Result<()> {
        let size = self.len() as u64;
        if place > size || buffer.len() as u64 > size - place {
            return Err(io::ErrorKind::UnexpectedEof.into());
        }
        let start = place as usize;
        buffer.copy_from_slice(&self[start..start + buffer.len()]);
        Ok(())
    }
}

/// Why a core isn't read.
#[derive(Debug, Drop)]
pub enum ReadError {
    /// The bytes are no core that a space can have.
    Fault(CoreFault),
    /// The file can't be read.
    File(io::Error),
    OutOfMemory,
}

/// The memory that a core file says.
#[derive(Drop)]
pub struct Core {
    /// Its segments of memory, rising.
    pub segments: Vec<ProgramHeader>,
    /// What they take of a space.
    pub extent: Extent,
}

/// The program headers that stand one after the other in these bytes.
pub(crate) fn program_headers(alloc: Global, bytes: &[u8]) -> Result<Vec<ProgramHeader>, AllocError>
    ensures { IfOk result (λ headers.
        headers.items ≡ program_headers_in (length bytes.now / 56) bytes.now) }
{
    let mut segments = Vec::new(alloc);
    for k in 0..bytes.len() / PROGRAM_HEADER_SIZE {
        let place = PROGRAM_HEADER_SIZE * k;
        segments.push(decode_program_header(&bytes[place..place + PROGRAM_HEADER_SIZE]))?;
    }
    Ok(segments)
}

/// The segments of memory among these.
fn memory_segments(
    alloc: Global,
    segments: &[ProgramHeader],
) -> Result<Vec<ProgramHeader>, AllocError>
    ensures { IfOk result (λ kept. kept.items ≡ filter is_memory segments.now) }
{
    let mut kept = Vec::new(alloc);
    for segment in segments {
        if is_memory(segment) {
            kept.push(*segment)?;
        }
    }
    Ok(kept)
}

/// Reads the bytes of the program headers of a core.
pub(crate) fn read_table<F: CoreFile>(
    alloc: Global,
    file: &F,
    size: u64,
) -> Result<Vec<u8>, ReadError>
    ensures found { IfSome (F.bytes file.now) (λ held. size ≡ length held
        → IfOk result (λ table. IsHeaderTable held table.items)) }
    ensures fault { IfSome (F.bytes file.now) (λ held. size ≡ length held
        → IfErr result (IsErrorOf held)) }
{
    if size < FILE_HEADER_SIZE as u64 {
        return Err(ReadError::Fault(CoreFault::Header(HeaderFault::Short)));
    }
    let mut front = [0; FILE_HEADER_SIZE];
    file.read_at(0, &mut front)?;
    let header = decode_file_header(&front, size)?;
    let mut table = vec![in alloc; 0u8; PROGRAM_HEADER_SIZE * header.e_phnum as usize]?;
    file.read_at(header.e_phoff, &mut table)?;
    Ok(table)
}

/// Reads the headers of a core file, and no page. It takes memory for its program headers alone, which are in the file.
///
/// # Errors
///
/// `Fault` where the bytes are no core that a space can have; `File` where they can't be read.
pub fn read_core<F: CoreFile>(alloc: Global, file: &F) -> Result<Core, ReadError>
    // What is read is a core that a space can have: its segments, and what they take.
    ensures found { IfSome (F.bytes file.now) (λ held. IfOk result (λ core. IsCoreFile held core.segments.items
        × (core.extent ≡ extent_of no_extent core.segments.items))) }
    // A core that a space can have is read, unless the file can't be read or memory runs out.
    ensures only { IfSome (F.bytes file.now) (λ held. (segments : List ProgramHeader)
        → IsCoreFile held segments → IfErr result IsOutside) }
    // What the fault says of the bytes is so.
    ensures fault { IfSome (F.bytes file.now) (λ held. IfErr result (IsErrorOf held)) }
{
    let size = file.size()?;
    let table = read_table(alloc, file, size)?;
    let headers = program_headers(alloc, &table)?;
    let extent = check_segments(&headers, size)?;
    let segments = memory_segments(alloc, &headers)?;
    Ok(Core { segments, extent })
}

/// Reads a page of a segment of a core, or any part of it: from so many bytes after its start on. What isn't in the
/// file is zeros.
///
/// # Errors
///
/// Where the file can't be read.
pub fn read_page<F: CoreFile>(
    file: &F,
    segment: &ProgramHeader,
    behind: u64,
    page: &mut [u8],
) -> io::Result<()>
    ensures { IfSome (F.bytes file.now) (λ held.
        segment.now.p_offset + segment.now.p_filesz < 2 ^ 64
        → OnOk result ((k : ℕ) → k < length page.new
        → slice_index page.new k ≡ segment_byte held segment.now (behind + k))) }
{
    page.fill(0);
    if segment.p_filesz <= behind {
        return Ok(());
    }
    let in_file = (segment.p_filesz - behind).min(page.len() as u64);
    file.read_at(
        segment.p_offset.saturating_add(behind),
        &mut page[..in_file as usize],
    )
}

impl From<HeaderFault> for ReadError {
    ghost use Rattle.std.specs.Prelude.{◌≡◌};
    ghost use Rattle.sd_elf.specs.declared.core_file.ReadError.TheVariants as read;
    ghost use Rattle.sd_elf.specs.declared.fault.CoreFault.TheVariants as core;

    ghost from_gives = { λ fault error. error ≡ read.Fault (core.Header fault) };

    fn from(fault: HeaderFault) -> ReadError {
        ReadError::Fault(CoreFault::Header(fault))
    }
}

impl From<CoreFault> for ReadError {
    ghost use Rattle.std.specs.Prelude.{◌≡◌};
    ghost use Rattle.sd_elf.specs.declared.core_file.ReadError.TheVariants as read;
    ghost use Rattle.sd_elf.specs.declared.fault.CoreFault.TheVariants as core;

    ghost from_gives = { λ fault error. error ≡ read.Fault fault };

    fn from(fault: CoreFault) -> ReadError {
        ReadError::Fault(fault)
    }
}

impl From<io::Error> for ReadError {
    ghost use Rattle.std.specs.Prelude.{◌≡◌};
    ghost use Rattle.sd_elf.specs.declared.core_file.ReadError.TheVariants as read;
    ghost use Rattle.sd_elf.specs.declared.fault.CoreFault.TheVariants as core;

    ghost from_gives = { λ why error. error ≡ read.File why };

    fn from(error: io::Error) -> ReadError {
        ReadError::File(error)
    }
}

impl From<AllocError> for ReadError {
    ghost use Rattle.std.specs.Prelude.{◌≡◌};
    ghost use Rattle.sd_elf.specs.declared.core_file.ReadError.TheVariants as read;

    ghost from_gives = { λ _ error. error ≡ read.OutOfMemory };

    fn from(_error: AllocError) -> ReadError {
        ReadError::OutOfMemory
    }
}

impl<T: Drop> From<AllocFailed<T>> for ReadError {
    ghost use Rattle.std.specs.Prelude.{◌≡◌};
    ghost use Rattle.sd_elf.specs.declared.core_file.ReadError.TheVariants as read;

    ghost from_gives = { λ _ error. error ≡ read.OutOfMemory };

    fn from(_error: AllocFailed<T>) -> ReadError {
        ReadError::OutOfMemory
    }
}
