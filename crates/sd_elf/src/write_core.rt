//! The core files of the memory that a store shows, written.
ghost use Rattle.std.specs.Prelude.{◌<◌, ◌≤◌, All, length, map, IfOk, None, OnOk, ◌≡◌, ◌∷◌, []};
ghost use Rattle.std.specs.Io.KnownBytes.{Appends};
ghost use Rattle.sd_areas.specs.Areas.{AreMaximal};
ghost use Rattle.sd_disk.specs.Reads.{OnlyReads};
ghost use Rattle.sd_image.specs.declared.table.SpaceTable.{SpaceTable};
ghost use Rattle.sd_image.specs.Table.{listing_of};
ghost use Rattle.sd_restore.specs.Placed.{IsInSlots, IsWithin, placed_pages};
ghost use Rattle.sd_elf.specs.At.{TakesCoresAt};
ghost use Rattle.sd_elf.specs.Files.{TakesCores, TakesFiles, placed_cores};
ghost use Rattle.sd_elf.specs.Texts.{placed_core};

use crate::header_text::front_of;
use crate::output::{CoreFiles, CoreOutput};
use crate::page_writing::put_pages;
use crate::write_error::WriteError;
use sd_areas::AREA_LIMIT;
use sd_disk::Disk;
use sd_image::SpaceTable;
use sd_restore::{PlacedMemory, page_buffer, place_at, place_newest, scan};
use std::alloc::Global;
use std::io;

/// How many bytes the notes of threads may have, at most.
pub const THREAD_NOTES_LIMIT: usize = 1 << 24;

/// How many pages are read at once.
const BUFFER_PAGES: usize = 16;

/// Writes the core file of a space of a memory whose pages stand in the slots of a store.
///
/// # Errors
///
/// `Fault` where the device failed or memory was refused, and `File` where the output was, the notes are too long, or
/// the space has over 1,024 areas, as none has that a store shows.
pub(crate) fn write_core<D: Disk, O: CoreOutput>(
    alloc: Global,
    disk: &mut D,
    placed: &PlacedMemory<'_>,
    space: &SpaceTable,
    threads: &[u8],
    out: &mut O,
) -> Result<(), WriteError>
    requires slots { All
        (λ r. IsInSlots (length (D.contents disk.old)) r.there) placed.now.runs.items }
    requires within { All IsWithin placed.now.runs.items }
    requires areas { AreMaximal None space.now.areas.items }
    ensures text { D.is_honest disk.new → OnOk result
        (Appends (O.contents out.old) (O.contents out.new)
        (placed_core threads.now (D.contents disk.old) placed.now.checkpoint
        (placed_pages placed.now.runs.items) (listing_of space.now))) }
    ensures reads { OnlyReads D.Disk disk.old disk.new }
{
    if space.areas.len() > AREA_LIMIT || threads.len() > THREAD_NOTES_LIMIT {
        return Err(WriteError::File(io::ErrorKind::InvalidInput.into()));
    }
    let front = front_of(alloc, placed.checkpoint, space.space, &space.areas, threads)?;
    out.put(&front)?;
    let mut buffer = page_buffer(alloc, BUFFER_PAGES)?;
    put_pages(disk, space.space, &placed.runs, &mut buffer, out)
}

/// Writes the core file of a space, where it is asked for.
fn write_wanted<D: Disk, S: CoreFiles>(
    alloc: Global,
    disk: &mut D,
    placed: &PlacedMemory<'_>,
    space: &SpaceTable,
    threads: &[u8],
    files: &mut S,
) -> Result<(), WriteError>
    requires slots { All
        (λ r. IsInSlots (length (D.contents disk.old)) r.there) placed.now.runs.items }
    requires within { All IsWithin placed.now.runs.items }
    requires areas { AreMaximal None space.now.areas.items }
    ensures taken { D.is_honest disk.new → OnOk result (TakesFiles (S.taken files.old) (S.taken files.new)
        (placed_cores threads.now (S.wanted files.old) (D.contents disk.old) placed.now.checkpoint
        (placed_pages placed.now.runs.items) (listing_of space.now ∷ []))) }
    ensures same { OnOk result (S.wanted files.new ≡ S.wanted files.old) }
    ensures reads { OnlyReads D.Disk disk.old disk.new }
{
    let Some(mut file) = files.begin(space.space)? else {
        return Ok(());
    };
    write_core(alloc, disk, placed, space, threads, &mut file)?;
    files.finish(space.space, file)?;
    Ok(())
}

/// Writes the core file of each space of a memory, where it is asked for.
fn write_placed<D: Disk, S: CoreFiles>(
    alloc: Global,
    disk: &mut D,
    placed: &PlacedMemory<'_>,
    threads: &[u8],
    files: &mut S,
) -> Result<(), WriteError>
    requires slots { All
        (λ r. IsInSlots (length (D.contents disk.old)) r.there) placed.now.runs.items }
    requires within { All IsWithin placed.now.runs.items }
    requires areas { All
        (λ (s : SpaceTable). AreMaximal None s.areas.items) placed.now.spaces.now }
    ensures taken { D.is_honest disk.new → OnOk result (TakesFiles (S.taken files.old) (S.taken files.new)
        (placed_cores threads.now (S.wanted files.old) (D.contents disk.old) placed.now.checkpoint
        (placed_pages placed.now.runs.items) (map listing_of placed.now.spaces.now))) }
    ensures reads { OnlyReads D.Disk disk.old disk.new }
{
    files.check(placed.spaces)?;
    for space in placed.spaces {
        write_wanted(alloc, disk, placed, space, threads, files)?;
    }
    Ok(())
}

/// Writes the core files of the memory that a store shows, after all checks of a restore, and returns the number of
/// its checkpoint. It holds a few pages at a time. Each file has these notes of threads, at most
/// [`THREAD_NOTES_LIMIT`] bytes: those of another core ([`read_notes`](crate::read_notes)), or those of a thread whose
/// state is zeros ([`idle_thread`](crate::idle_thread)).
///
/// # Errors
///
/// `Fault` where a restore of the store ends with it, and `File` where a file can't be written, or the notes are too
/// long.
pub fn write_shown<D: Disk, S: CoreFiles>(
    alloc: Global,
    disk: &mut D,
    threads: &[u8],
    files: &mut S,
) -> Result<u64, WriteError>
    // The store shows a memory, of the checkpoint with this number, and the files that were taken are the core files of
    // its spaces, of those that are asked for.
    ensures cores { D.is_honest disk.new → IfOk result
        (TakesCores (D.contents disk.old) threads.now (S.wanted files.old) (S.taken files.old) (S.taken files.new)) }
    ensures reads { OnlyReads D.Disk disk.old disk.new }
{
    let catalog = scan(alloc, disk)?;
    let placed = place_newest(alloc, &catalog)?;
    write_placed(alloc, disk, &placed, threads, files)?;
    Ok(placed.checkpoint)
}

/// Writes the core files of the memory of a store at a checkpoint, whether it is the newest or not, after all checks
/// of a restore. It holds a few pages at a time.
///
/// # Errors
///
/// `Fault` where a restore of the store at the checkpoint ends with it: `EmptyChain` where the store has no image of
/// the checkpoint. `File` where a file can't be written, or the notes are too long.
pub fn write_shown_at<D: Disk, S: CoreFiles>(
    alloc: Global,
    disk: &mut D,
    number: u64,
    threads: &[u8],
    files: &mut S,
) -> Result<(), WriteError>
    // The store has a memory at the checkpoint, and the files that were taken are the core files of its spaces, of
    // those that are asked for.
    ensures cores { D.is_honest disk.new → OnOk result
        (TakesCoresAt (D.contents disk.old) number threads.now (S.wanted files.old) (S.taken files.old)
        (S.taken files.new)) }
    ensures reads { OnlyReads D.Disk disk.old disk.new }
{
    let catalog = scan(alloc, disk)?;
    let placed = place_at(alloc, &catalog, number)?;
    write_placed(alloc, disk, &placed, threads, files)
}
