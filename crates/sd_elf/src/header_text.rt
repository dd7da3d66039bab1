//! What stands before the pages of a core file: its file header, its program headers, its notes, and zeros up to a
//! page.
ghost use Rattle.std.specs.Prelude.{◌≡◌, ◌+◌, ◌*◌, ◌^◌, ◌≤◌, ◌++◌, length, IfOk, None, OnOk};
ghost use Rattle.std.specs.List.{flat_map};
ghost use Rattle.sd_areas.specs.Areas.{AreMaximal};
ghost use Rattle.sd_image.specs.Words.{zero_bytes};
ghost use Rattle.sd_elf.specs.Texts.{area_header, area_headers, core_header, counts_text, file_header_text, front_text};
ghost use Rattle.sd_elf.specs.Texts.{file_kind_text, note_header, notes_place, notes_size, own_note, padded};
ghost use Rattle.sd_elf.specs.Texts.{pages_place};
ghost use Rattle.sd_elf.specs.Texts.{place_text};
ghost use Rattle.sd_elf.specs.Texts.{places_text, program_header_text, prot_flags, size_text, state_note};

use crate::fields::{put_u16, put_u32, put_u64};
use crate::file_header::{EM_X86_64, ET_CORE, EV_CURRENT, FILE_HEADER_SIZE, FileHeader, IDENT};
use crate::program_header::{
    PF_R, PF_W, PF_X, PROGRAM_HEADER_SIZE, PT_LOAD, PT_NOTE, ProgramHeader,
};
use sd_areas::{Area, PAGE_BYTES, Prot, SpaceId};
use std::alloc::{AllocError, Global};

/// How many bytes a note has before its name.
const NOTE_HEAD: usize = 12;

/// The name of the note of a thread's state, and zeros up to a multiple of 4 bytes.
const CORE_NAME: [u8; 8] = *b"CORE\0\0\0\0";

/// The type of that note.
const NT_PRSTATUS: u32 = 1;

/// How many bytes a thread's state has. There is no thread here: all are zeros.
const PRSTATUS_SIZE: usize = 336;

/// The name of the note of a checkpoint, and a zero up to a multiple of 4 bytes.
const OWN_NAME: [u8; 12] = *b"DEVONTSIRA\0\0";

/// How many bytes a checkpoint's note has: its number, and the space's.
const OWN_SIZE: usize = 16;

/// How many bytes that note has with its name.
const OWN_NOTE_SIZE: usize = NOTE_HEAD + 12 + OWN_SIZE;

/// Where the notes of a file with so many areas stand.
fn notes_place(areas: usize) -> u64
    requires { areas ≤ 1024 }
    ensures { result ≡ notes_place areas }
{
    FILE_HEADER_SIZE as u64 + PROGRAM_HEADER_SIZE as u64 * (areas as u64 + 1)
}

/// How many bytes the notes of a file have, with these of threads.
fn notes_size(threads: &[u8]) -> u64
    requires { length threads.now ≤ 2 ^ 24 }
    ensures exact { result ≡ notes_size threads.now }
    ensures few { result ≤ 2 ^ 24 + 40 }
{
    (threads.len() + OWN_NOTE_SIZE) as u64
}

/// Where its pages stand: at the first multiple of a page's size after so many bytes of notes.
fn pages_place(size: u64, areas: usize) -> u64
    requires size { size ≤ 2 ^ 24 + 40 }
    requires areas { areas ≤ 1024 }
    ensures { result ≡ pages_place size areas }
{
    let end = notes_place(areas) + size;
    (end + PAGE_BYTES - 1) / PAGE_BYTES * PAGE_BYTES
}

/// The flags of a segment with these permissions.
fn flags_of(prot: Prot) -> u32
    ensures { result ≡ prot_flags prot }
{
    let read = if prot.read { PF_R } else { 0 };
    let write = if prot.write { PF_W } else { 0 };
    let execute = if prot.execute { PF_X } else { 0 };
    read + write + execute
}

/// The file header of a core with so many areas.
fn file_header(areas: usize) -> FileHeader
    requires { areas ≤ 1024 }
    ensures { result ≡ core_header areas }
{
    FileHeader {
        e_type: ET_CORE,
        e_machine: EM_X86_64,
        e_version: EV_CURRENT,
        e_entry: 0,
        e_phoff: FILE_HEADER_SIZE as u64,
        e_shoff: 0,
        e_flags: 0,
        e_ehsize: FILE_HEADER_SIZE as u16,
        e_phentsize: PROGRAM_HEADER_SIZE as u16,
        e_phnum: (areas + 1) as u16,
        e_shentsize: 0,
        e_shnum: 0,
        e_shstrndx: 0,
    }
}

/// The program header of so many bytes of notes.
fn note_header(size: u64, areas: usize) -> ProgramHeader
    requires { areas ≤ 1024 }
    ensures { result ≡ note_header size areas }
{
    ProgramHeader {
        p_type: PT_NOTE,
        p_flags: PF_R,
        p_offset: notes_place(areas),
        p_vaddr: 0,
        p_paddr: 0,
        p_filesz: size,
        p_memsz: 0,
        p_align: 4,
    }
}

/// The program header of an area whose pages stand there.
fn area_header(area: &Area, place: u64) -> ProgramHeader
    requires { area.now.first + area.now.count ≤ 2 ^ 35 }
    ensures { result ≡ area_header area.now place }
{
    let size = PAGE_BYTES * area.count;
    ProgramHeader {
        p_type: PT_LOAD,
        p_flags: flags_of(area.prot),
        p_offset: place,
        p_vaddr: PAGE_BYTES * area.first.number(),
        p_paddr: 0,
        p_filesz: size,
        p_memsz: size,
        p_align: PAGE_BYTES,
    }
}

/// Writes what a file header begins with, up to its entry.
fn put_kind(out: &mut Vec<u8>, header: &FileHeader) -> Result<(), AllocError>
    ensures { OnOk result (out.new.items ≡ out.old.items ++ file_kind_text header.now) }
{
    out.extend_from_slice(&IDENT)?;
    push_zeros(out, 9)?;
    put_u16(out, header.e_type)?;
    put_u16(out, header.e_machine)?;
    put_u32(out, header.e_version)
}

/// Writes the places of a file header.
fn put_places(out: &mut Vec<u8>, header: &FileHeader) -> Result<(), AllocError>
    ensures { OnOk result (out.new.items ≡ out.old.items ++ places_text header.now) }
{
    put_u64(out, header.e_entry)?;
    put_u64(out, header.e_phoff)?;
    put_u64(out, header.e_shoff)?;
    put_u32(out, header.e_flags)
}

/// Writes the sizes and counts of a file header.
fn put_counts(out: &mut Vec<u8>, header: &FileHeader) -> Result<(), AllocError>
    ensures { OnOk result (out.new.items ≡ out.old.items ++ counts_text header.now) }
{
    put_u16(out, header.e_ehsize)?;
    put_u16(out, header.e_phentsize)?;
    put_u16(out, header.e_phnum)?;
    put_u16(out, header.e_shentsize)?;
    put_u16(out, header.e_shnum)?;
    put_u16(out, header.e_shstrndx)
}

/// Writes a file header.
#[tactic(auto, unfolding(crate::specs::Texts::file_header_text))]
fn put_file_header(out: &mut Vec<u8>, header: &FileHeader) -> Result<(), AllocError>
    ensures { OnOk result (out.new.items ≡ out.old.items ++ file_header_text header.now) }
{
    put_kind(out, header)?;
    put_places(out, header)?;
    put_counts(out, header)
}

/// Writes where a segment stands.
fn put_segment_place(out: &mut Vec<u8>, header: &ProgramHeader) -> Result<(), AllocError>
    ensures { OnOk result (out.new.items ≡ out.old.items ++ place_text header.now) }
{
    put_u32(out, header.p_type)?;
    put_u32(out, header.p_flags)?;
    put_u64(out, header.p_offset)?;
    put_u64(out, header.p_vaddr)
}

/// Writes how large a segment is.
fn put_segment_size(out: &mut Vec<u8>, header: &ProgramHeader) -> Result<(), AllocError>
    ensures { OnOk result (out.new.items ≡ out.old.items ++ size_text header.now) }
{
    put_u64(out, header.p_paddr)?;
    put_u64(out, header.p_filesz)?;
    put_u64(out, header.p_memsz)?;
    put_u64(out, header.p_align)
}

/// Writes a program header.
#[tactic(auto, unfolding(crate::specs::Texts::program_header_text))]
fn put_program_header(out: &mut Vec<u8>, header: &ProgramHeader) -> Result<(), AllocError>
    ensures { OnOk result (out.new.items ≡ out.old.items ++ program_header_text header.now) }
{
    put_segment_place(out, header)?;
    put_segment_size(out, header)
}

/// Writes the program headers of areas whose pages stand one after the other, from a place on.
fn put_area_headers(out: &mut Vec<u8>, areas: &[Area], place: u64) -> Result<(), AllocError>
    requires areas { AreMaximal None areas.now }
    requires place { place ≤ 2 ^ 25 }
    ensures { OnOk result
        (out.new.items ≡ out.old.items ++ flat_map program_header_text (area_headers place areas.now)) }
{
    let mut at = place;
    for area in areas {
        put_program_header(out, &area_header(area, at))?;
        at += PAGE_BYTES * area.count;
    }
    Ok(())
}

/// Writes the note of a thread's state, of zeros.
#[tactic(auto, unfolding(crate::specs::Texts::state_note))]
fn put_state_note(out: &mut Vec<u8>) -> Result<(), AllocError>
    ensures { OnOk result (out.new.items ≡ out.old.items ++ state_note) }
{
    put_u32(out, 5)?;
    put_u32(out, PRSTATUS_SIZE as u32)?;
    put_u32(out, NT_PRSTATUS)?;
    out.extend_from_slice(&CORE_NAME)?;
    push_zeros(out, PRSTATUS_SIZE)
}

/// The note of a thread whose state is zeros, for the core of a memory of which no thread is known.
pub fn idle_thread(alloc: Global) -> Result<Vec<u8>, AllocError>
    ensures { IfOk result (λ threads. threads.items ≡ state_note) }
{
    let mut threads = Vec::new(alloc);
    put_state_note(&mut threads)?;
    Ok(threads)
}

/// Writes the notes of threads.
fn put_threads(out: &mut Vec<u8>, threads: &[u8]) -> Result<(), AllocError>
    ensures { OnOk result (out.new.items ≡ out.old.items ++ threads.now) }
{
    out.extend_from_slice(threads)?;
    Ok(())
}

/// Writes the note of a checkpoint and a space.
#[tactic(auto, unfolding(crate::specs::Texts::own_note))]
fn put_own_note(out: &mut Vec<u8>, checkpoint: u64, space: SpaceId) -> Result<(), AllocError>
    ensures { OnOk result (out.new.items ≡ out.old.items ++ own_note checkpoint space) }
{
    put_u32(out, 11)?;
    put_u32(out, OWN_SIZE as u32)?;
    put_u32(out, 1)?;
    out.extend_from_slice(&OWN_NAME)?;
    put_u64(out, checkpoint)?;
    put_u64(out, space.number())
}

/// Writes so many zeros.
#[tactic(auto, unfolding(sd_image::specs::Words::zero_bytes))]
pub(crate) fn push_zeros(out: &mut Vec<u8>, count: usize) -> Result<(), AllocError>
    ensures { OnOk result (out.new.items ≡ out.old.items ++ zero_bytes count) }
{
    for _ in 0..count {
        out.push(0)?;
    }
    Ok(())
}

/// Writes zeros up to a length.
pub(crate) fn pad_to(out: &mut Vec<u8>, length: usize) -> Result<(), AllocError>
    ensures { OnOk result (out.new.items ≡ padded length out.old.items) }
{
    push_zeros(out, length.saturating_sub(out.len()))
}

/// What stands before the pages of the core of a space with these areas, and these notes of threads.
pub(crate) fn front_of(
    alloc: Global,
    checkpoint: u64,
    space: SpaceId,
    areas: &[Area],
    threads: &[u8],
) -> Result<Vec<u8>, AllocError>
    requires areas { AreMaximal None areas.now }
    requires few { length areas.now ≤ 1024 }
    requires short { length threads.now ≤ 2 ^ 24 }
    ensures { IfOk result (λ front. front.items ≡ front_text threads.now checkpoint space areas.now) }
{
    let size = notes_size(threads);
    let place = pages_place(size, areas.len());
    let mut out = Vec::new(alloc);
    put_file_header(&mut out, &file_header(areas.len()))?;
    put_program_header(&mut out, &note_header(size, areas.len()))?;
    put_area_headers(&mut out, areas, place)?;
    put_threads(&mut out, threads)?;
    put_own_note(&mut out, checkpoint, space)?;
    pad_to(&mut out, place as usize)?;
    Ok(out)
}
