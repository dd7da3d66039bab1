//! The pages of a space, written one after the other.
ghost use Rattle.std.specs.Prelude.{◌≡◌, ◌+◌, ◌*◌, ◌/◌, ◌≤◌, All, length, OnOk};
ghost use Rattle.std.specs.List.{flat_map};
ghost use Rattle.std.specs.Io.KnownBytes.{Appends};
ghost use Rattle.sd_disk.specs.Reads.{OnlyReads};
ghost use Rattle.sd_image.specs.Reading.{are_zero};
ghost use Rattle.sd_restore.specs.Placed.{IsInSlots, IsWithin, pages_in, placed_pages};
ghost use Rattle.sd_elf.specs.Texts.{pages_bytes, placed_bytes, run_part_bytes, space_bytes};

use crate::output::CoreOutput;
use crate::write_error::WriteError;
use sd_areas::{PAGE_SIZE, SpaceId};
use sd_disk::Disk;
use sd_restore::{PlacedRun, read_placed_pages};
use std::io;

/// Whether all bytes are zeros.
#[tactic(auto, unfolding(sd_image::specs::Reading::are_zero))]
fn are_zeros(bytes: &[u8]) -> bool
    ensures { result ≡ are_zero bytes.now }
{
    bytes.iter().all(|byte| *byte == 0)
}

/// Writes a page. One of zeros is left out.
fn put_page<O: CoreOutput>(bytes: &[u8], out: &mut O) -> io::Result<()>
    ensures { OnOk result (Appends (O.contents out.old) (O.contents out.new) bytes.now) }
{
    if are_zeros(bytes) {
        out.put_zeros(bytes.len())
    } else {
        out.put(bytes)
    }
}

/// Writes pages that were read.
fn put_read<O: CoreOutput>(bytes: &[u8], out: &mut O) -> io::Result<()>
    ensures { OnOk result (Appends (O.contents out.old) (O.contents out.new)
        (pages_bytes bytes.now (length bytes.now / 4096))) }
{
    for k in 0..bytes.len() / PAGE_SIZE {
        let place = PAGE_SIZE * k;
        put_page(&bytes[place..place + PAGE_SIZE], out)?;
    }
    Ok(())
}

/// Writes so many pages of a run from one on, for which the buffer has room.
fn put_some<D: Disk, O: CoreOutput>(
    disk: &mut D,
    run: &PlacedRun,
    behind: u64,
    count: u64,
    buffer: &mut [u8],
    out: &mut O,
) -> Result<(), WriteError>
    requires slots { IsInSlots (length (D.contents disk.old)) run.now.there }
    requires within { IsWithin run.now }
    requires part { behind + count ≤ run.now.count }
    requires room { length buffer.old ≡ 4096 * count }
    ensures text { D.is_honest disk.new → OnOk result
        (Appends (O.contents out.old) (O.contents out.new)
        (run_part_bytes (D.contents disk.old) run.now behind count)) }
    ensures reads { OnlyReads D.Disk disk.old disk.new }
{
    read_placed_pages(disk, run.place(behind), buffer)?;
    put_read(buffer, out)?;
    Ok(())
}

/// Writes the pages of a run, as many at a time as the buffer has room for.
fn put_run<D: Disk, O: CoreOutput>(
    disk: &mut D,
    run: &PlacedRun,
    buffer: &mut [u8],
    out: &mut O,
) -> Result<(), WriteError>
    requires slots { IsInSlots (length (D.contents disk.old)) run.now.there }
    requires within { IsWithin run.now }
    requires room { 4096 ≤ length buffer.old }
    ensures text { D.is_honest disk.new → OnOk result
        (Appends (O.contents out.old) (O.contents out.new)
        (flat_map (placed_bytes (D.contents disk.old)) (pages_in run.now))) }
    ensures reads { OnlyReads D.Disk disk.old disk.new }
{
    let room = (buffer.len() / PAGE_SIZE) as u64;
    let mut done = 0;
    while done < run.count {
        let count = room.min(run.count - done);
        put_some(
            disk,
            run,
            done,
            count,
            &mut buffer[..count as usize * PAGE_SIZE],
            out,
        )?;
        done += count;
    }
    Ok(())
}

/// Writes the pages of a run, if they are in a space.
fn put_in_space<D: Disk, O: CoreOutput>(
    disk: &mut D,
    space: SpaceId,
    run: &PlacedRun,
    buffer: &mut [u8],
    out: &mut O,
) -> Result<(), WriteError>
    requires slots { IsInSlots (length (D.contents disk.old)) run.now.there }
    requires within { IsWithin run.now }
    requires room { 4096 ≤ length buffer.old }
    ensures text { D.is_honest disk.new → OnOk result
        (Appends (O.contents out.old) (O.contents out.new)
        (space_bytes (D.contents disk.old) space (pages_in run.now))) }
    ensures reads { OnlyReads D.Disk disk.old disk.new }
{
    if run.space != space {
        return Ok(());
    }
    put_run(disk, run, buffer, out)
}

/// Writes the pages of a space, of those of all spaces.
pub(crate) fn put_pages<D: Disk, O: CoreOutput>(
    disk: &mut D,
    space: SpaceId,
    runs: &[PlacedRun],
    buffer: &mut [u8],
    out: &mut O,
) -> Result<(), WriteError>
    requires slots { All (λ r. IsInSlots (length (D.contents disk.old)) r.there) runs.now }
    requires within { All IsWithin runs.now }
    requires room { 4096 ≤ length buffer.old }
    ensures text { D.is_honest disk.new → OnOk result
        (Appends (O.contents out.old) (O.contents out.new)
        (space_bytes (D.contents disk.old) space (placed_pages runs.now))) }
    ensures reads { OnlyReads D.Disk disk.old disk.new }
{
    for run in runs {
        put_in_space(disk, space, run, buffer, out)?;
    }
    Ok(())
}
