//! The notes of a core file: what it says of its threads and of the process, beside the memory.
ghost use Rattle.std.specs.Prelude.{◌≡◌, ◌≤◌, ◌^◌, ◌++◌, filter, length, None, IfOk, IfSome, OnOk};
ghost use Rattle.sd_elf.specs.Notes.{has_notes, segment_notes};

use crate::core_file::{CoreFile, ReadError, program_headers, read_table};
use crate::header_text::pad_to;
use crate::program_header::{PT_NOTE, ProgramHeader};
use crate::write_core::THREAD_NOTES_LIMIT;
use std::alloc::{AllocError, AllocFailed, Global};
use std::io;
use thiserror::Error;

/// What is wrong with the notes of a core.
#[derive(Clone, Copy, Debug, PartialEq, Eq, Error)]
pub enum NotesFault {
    /// No program header is of the type `PT_NOTE`, or none of these segments has a byte.
    #[error("it has no notes")]
    None,
    /// A segment of notes ends after the file.
    #[error("its notes end behind the file")]
    PastEnd,
    /// They have over 16 MiB.
    #[error("it has over 16 MiB of notes")]
    TooLong,
}

/// Why the notes of a core aren't read.
#[derive(Debug, Drop)]
pub enum NotesError {
    /// The bytes are no core, or can't be read.
    Read(ReadError),
    /// It is one, but there is something wrong with its notes.
    Fault(NotesFault),
}

/// The segments of notes among these.
fn note_segments(alloc: Global, headers: &[ProgramHeader]) -> Result<Vec<ProgramHeader>, AllocError>
    ensures { IfOk result (λ kept. kept.items ≡ filter has_notes headers.now) }
{
    let mut kept = Vec::new(alloc);
    for header in headers {
        if header.p_type == PT_NOTE {
            kept.push(*header)?;
        }
    }
    Ok(kept)
}

/// What is wrong with a segment of notes in a file of this size.
fn notes_fault(segment: &ProgramHeader, size: u64) -> Option<NotesFault>
    ensures { result ≡ None → segment.now.p_filesz ≤ 2 ^ 24 }
{
    if u128::from(segment.p_offset) + u128::from(segment.p_filesz) > u128::from(size) {
        return Some(NotesFault::PastEnd);
    }
    (segment.p_filesz > THREAD_NOTES_LIMIT as u64).then_some(NotesFault::TooLong)
}

/// Reads the bytes of a segment of notes, with zeros after them up to a word of 4 bytes.
fn read_segment<F: CoreFile>(
    alloc: Global,
    file: &F,
    size: u64,
    segment: &ProgramHeader,
) -> Result<Vec<u8>, NotesError>
    ensures { IfSome (F.bytes file.now) (λ held. IfOk result (λ notes.
        notes.items ≡ segment_notes held segment.now)) }
{
    if let Some(fault) = notes_fault(segment, size) {
        return Err(NotesError::Fault(fault));
    }
    let count = segment.p_filesz as usize;
    let mut notes = vec![in alloc; 0u8; count]?;
    file.read_at(segment.p_offset, &mut notes)?;
    pad_to(&mut notes, (count + 3) / 4 * 4)?;
    Ok(notes)
}

/// Puts notes after others, unless they are too long together.
fn push_notes(all: &mut Vec<u8>, notes: &[u8]) -> Result<(), NotesError>
    requires { length all.old.items ≤ 2 ^ 24 }
    ensures pushed { OnOk result (all.new.items ≡ all.old.items ++ notes.now) }
    ensures few { OnOk result (length all.new.items ≤ 2 ^ 24) }
{
    if notes.len() > THREAD_NOTES_LIMIT - all.len() {
        return Err(NotesError::Fault(NotesFault::TooLong));
    }
    all.extend_from_slice(notes)?;
    Ok(())
}

/// Reads the notes of segments, one after the other.
fn read_segments<F: CoreFile>(
    alloc: Global,
    file: &F,
    size: u64,
    segments: &[ProgramHeader],
) -> Result<Vec<u8>, NotesError>
    ensures { IfOk result (λ all. length all.items ≤ 2 ^ 24) }
{
    let mut all = Vec::new(alloc);
    for segment in segments {
        let notes = read_segment(alloc, file, size, segment)?;
        push_notes(&mut all, &notes)?;
    }
    Ok(all)
}

/// Reads the notes of a core file: its registers, its mapped files and what else they say. Its segments of memory may
/// be more than a space can have.
///
/// # Errors
///
/// `Read` where the bytes aren't the headers of a core, or can't be read, or memory runs out. `Fault` where there are
/// no notes, or they end after the file, or have over [`THREAD_NOTES_LIMIT`] bytes.
pub fn read_notes<F: CoreFile>(alloc: Global, file: &F) -> Result<Vec<u8>, NotesError>
    ensures { IfOk result (λ notes. length notes.items ≤ 2 ^ 24) }
{
    let size = file.size()?;
    let table = read_table(alloc, file, size)?;
    let headers = program_headers(alloc, &table)?;
    let segments = note_segments(alloc, &headers)?;
    let notes = read_segments(alloc, file, size, &segments)?;
    if notes.is_empty() {
        return Err(NotesError::Fault(NotesFault::None));
    }
    Ok(notes)
}

impl From<ReadError> for NotesError {
    fn from(error: ReadError) -> NotesError {
        NotesError::Read(error)
    }
}

impl From<io::Error> for NotesError {
    fn from(error: io::Error) -> NotesError {
        NotesError::Read(ReadError::File(error))
    }
}

impl From<AllocError> for NotesError {
    fn from(_error: AllocError) -> NotesError {
        NotesError::Read(ReadError::OutOfMemory)
    }
}

impl<T: Drop> From<AllocFailed<T>> for NotesError {
    fn from(_error: AllocFailed<T>) -> NotesError {
        NotesError::Read(ReadError::OutOfMemory)
    }
}
