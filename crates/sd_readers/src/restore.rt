//! `ckpt restore`: printing the memory that a store shows.
ghost use Rattle.std.specs.Prelude.{◌≡◌, ◌≢◌, ◌<◌, ◌≤◌, ◌^◌, ◌+◌, ◌*◌, ◌/◌, ℕ, true, false, None, Some, Err, All};
ghost use Rattle.std.specs.Prelude.{length, map, flat_map, Option, IfErr, IfOk, OnErr, OnOk};
ghost use Rattle.std.specs.Io.KnownBytes.{Appends};
ghost use Rattle.sd_areas.specs.Areas.{AreMaximal};
ghost use Rattle.sd_disk.specs.Reads.{OnlyReads};
ghost use Rattle.sd_image.specs.declared.table.SpaceTable.{SpaceTable};
ghost use Rattle.sd_image.specs.Shows.{Shows};
ghost use Rattle.sd_restore.specs.declared.fault.Fault.TheVariants as fault;
ghost use Rattle.sd_restore.specs.Placed.{IsInSlots, IsWithin, pages_in, placed_pages};
ghost use Rattle.sd_image.specs.Table.{listing_of};
ghost use Rattle.sd_exit.specs.declared.stop.Stop.TheVariants as stop;
ghost use Rattle.sd_exit.specs.Ending.{OnFault, OnWriter};
ghost use Rattle.sd_exit.specs.Texts.{PrintsBeginning, fault_line};
ghost use Rattle.sd_readers.specs.declared.steady.Reader.TheVariants as reader;
ghost use Rattle.sd_readers.specs.Ending.{IsBreak, NamesNoSlot, ShowsMemory, StandsAlone};
ghost use Rattle.sd_readers.specs.Printed.{BeginsToPrint, PrintsMemory};
ghost use Rattle.sd_readers.specs.Reading.{IsWhy, ReaderEnds};
ghost use Rattle.sd_readers.specs.Restored.{IsRestored};
ghost use Rattle.sd_areas.specs.PlainMemory.{PlainMemory};
ghost use Rattle.sd_readers.specs.Texts.{memory_text, pages_text, part_of_run, placed_lines, placed_memory_text};
ghost use Rattle.sd_readers.specs.Texts.{placed_space_text, placed_text};

use crate::page_text::print_page;
use crate::steady::{Reader, print_steady};
use sd_areas::{PAGE_BYTES, PAGE_SIZE, SpaceId};
use sd_chain::Found;
use sd_disk::Disk;
use sd_exit::{Output, Stop, exit};
use sd_image::{SpaceTable, shown_once};
use sd_procfs::areas_text;
use sd_restore::{PlacedMemory, PlacedRun, page_buffer, place_newest, read_placed_pages, scan};
use std::alloc::Global;
use std::io;
use std::io::Write;

/// How many pages are read at once.
const BUFFER_PAGES: usize = 16;

/// Prints the memory that a store shows, or why it shows none, flushes, and returns the exit status: 0, 3 where nothing
/// was saved, and else 1. What is printed is of one moment of the store, also where a run writes it meanwhile.
pub fn restore_to<D: Disk, W: Write>(alloc: Global, disk: &mut D, out: &mut Output<W>) -> u8
    // Status 0 only where the store shows a memory, and 3 only where it shows that nothing was saved.
    ensures shown { D.is_honest disk.new → result ≡ 0 → ShowsMemory (D.contents disk.old) }
    // The whole text of that memory is then written.
    ensures text { D.is_honest disk.new → result ≡ 0
        → PrintsMemory (D.contents disk.old) (W.contents out.old.writer) (W.contents out.new.writer) }
    // So whatever checkpoint and memory the store shows, its text is what is written.
    ensures exact { D.is_honest disk.new → result ≡ 0 → (moment : ℕ × PlainMemory)
        → Shows (D.contents disk.old) (Some moment)
        → Appends (W.contents out.old.writer) (W.contents out.new.writer) (memory_text moment) }
    ensures empty { D.is_honest disk.new → result ≡ 3 → Shows (D.contents disk.old) None }
    // Status 3 comes with its line, and with nothing else.
    ensures told { result ≡ 3
        → Appends (W.contents out.old.writer) (W.contents out.new.writer) (fault_line fault.EmptyChain) }
    // Nothing was refused, but where the status is 1.
    ensures whole { result ≢ 1 → out.new.refused ≡ false }
    // What the store shows is what is restored.
    ensures restored { (shown : Option (ℕ × PlainMemory)) → D.is_honest disk.new → Shows (D.contents disk.old) shown
        → IsRestored shown (D.failed disk.old) (D.failed disk.new) (W.contents out.old.writer)
        (W.contents out.new.writer) out.new.refused result }
    // However it ends: the text or a beginning of it, the last line, and the status that comes with it.
    ensures answers { ReaderEnds reader.Restore (D.is_honest disk.new) (D.contents disk.old)
        (D.failed disk.old) (D.failed disk.new) (W.contents out.old.writer)
        (W.contents out.new.writer) out.new.refused result }
    ensures reads { OnlyReads D.Disk disk.old disk.new }
{
    shown_once();
    let ended = print_steady(alloc, Reader::Restore, disk, out);
    exit(&ended, out)
}

/// Prints the memory that a store shows, after all checks of a restore. It holds a few pages at a time.
#[tactic(auto, using(crate::proofs::EndingLemmas::stands_alone, crate::proofs::EndingLemmas::none_alone))]
pub(crate) fn print_restored<D: Disk, W: Write>(
    alloc: Global,
    disk: &mut D,
    out: &mut Output<W>,
) -> Result<(), Stop>
    ensures shown { D.is_honest disk.new → OnOk result (ShowsMemory (D.contents disk.old)) }
    ensures text { D.is_honest disk.new → OnOk result
        (PrintsMemory (D.contents disk.old) (W.contents out.old.writer) (W.contents out.new.writer)) }
    // Where the device failed or memory was refused half way, a beginning of that text is written.
    ensures begins { D.is_honest disk.new → OnFault result
        (BeginsToPrint reader.Restore (D.contents disk.old) (W.contents out.old.writer) (W.contents out.new.writer)) }
    // Nothing is written where nothing was saved, or the store is damaged.
    ensures alone { IfErr result (StandsAlone (W.contents out.old.writer) (W.contents out.new.writer)) }
    // What stopped it is what it names.
    ensures why { D.is_honest disk.new → IfErr result
        (IsWhy reader.Restore (D.contents disk.old) (D.failed disk.old) (D.failed disk.new)) }
    // A store that shows something is never called damaged.
    ensures good { D.is_honest disk.new → (shown : Option (ℕ × PlainMemory)) → Shows (D.contents disk.old) shown
        → IfErr result NamesNoSlot }
    ensures writer { OnWriter result (out.new.refused ≡ true) }
    ensures reads { OnlyReads D.Disk disk.old disk.new }
{
    let catalog = scan(alloc, disk)?;
    let placed = place_newest(alloc, &catalog)?;
    print_placed(alloc, disk, &placed, out)
}

pub(crate) fn print_placed<D: Disk, W: Write>(
    alloc: Global,
    disk: &mut D,
    placed: &PlacedMemory<'_>,
    out: &mut Output<W>,
) -> Result<(), Stop>
    requires slots { All
        (λ r. IsInSlots (length (D.contents disk.old)) r.there) placed.now.runs.items }
    requires within { All IsWithin placed.now.runs.items }
    requires areas { All
        (λ (s : SpaceTable). AreMaximal None s.areas.items) placed.now.spaces.now }
    ensures text { D.is_honest disk.new → OnOk result
        (Appends (W.contents out.old.writer) (W.contents out.new.writer)
        (placed_memory_text (D.contents disk.old) placed.now.checkpoint
        (map listing_of placed.now.spaces.now) (placed_pages placed.now.runs.items))) }
    ensures begins { D.is_honest disk.new → OnFault result
        (PrintsBeginning (W.contents out.old.writer) (W.contents out.new.writer)
        (placed_memory_text (D.contents disk.old) placed.now.checkpoint
        (map listing_of placed.now.spaces.now) (placed_pages placed.now.runs.items))) }
    ensures reads { OnlyReads D.Disk disk.old disk.new }
    ensures breaks { IfErr result (IsBreak (D.failed disk.old) (D.failed disk.new)) }
    ensures writer { OnWriter result (out.new.refused ≡ true) }
{
    writeln!(out, "checkpoint {}", placed.checkpoint)?;
    let mut buffer = page_buffer(alloc, BUFFER_PAGES)?;
    for space in placed.spaces {
        print_space(alloc, disk, space, &placed.runs, &mut buffer, out)?;
    }
    Ok(())
}

/// Prints a space: its number, its areas, and its pages, of those of all spaces.
fn print_space<D: Disk, W: Write>(
    alloc: Global,
    disk: &mut D,
    space: &SpaceTable,
    runs: &[PlacedRun],
    buffer: &mut [u8],
    out: &mut Output<W>,
) -> Result<(), Stop>
    requires slots { All (λ r. IsInSlots (length (D.contents disk.old)) r.there) runs.now }
    requires within { All IsWithin runs.now }
    requires areas { AreMaximal None space.now.areas.items }
    requires room { 4096 ≤ length buffer.old }
    ensures text { D.is_honest disk.new → OnOk result
        (Appends (W.contents out.old.writer) (W.contents out.new.writer)
        (placed_space_text (D.contents disk.old) (placed_pages runs.now) (listing_of space.now))) }
    ensures begins { D.is_honest disk.new → OnFault result
        (PrintsBeginning (W.contents out.old.writer) (W.contents out.new.writer)
        (placed_space_text (D.contents disk.old) (placed_pages runs.now) (listing_of space.now))) }
    ensures reads { OnlyReads D.Disk disk.old disk.new }
    ensures breaks { IfErr result (IsBreak (D.failed disk.old) (D.failed disk.new)) }
    ensures writer { OnWriter result (out.new.refused ≡ true) }
{
    writeln!(out, "space {}", space.space.number())?;
    out.write_all(areas_text(alloc, &space.areas)?.as_bytes())?;
    print_pages(disk, space.space, runs, buffer, out)
}

/// Prints the pages of a space, of those of all spaces.
fn print_pages<D: Disk, W: Write>(
    disk: &mut D,
    space: SpaceId,
    runs: &[PlacedRun],
    buffer: &mut [u8],
    out: &mut Output<W>,
) -> Result<(), Stop>
    requires slots { All (λ r. IsInSlots (length (D.contents disk.old)) r.there) runs.now }
    requires within { All IsWithin runs.now }
    requires room { 4096 ≤ length buffer.old }
    ensures text { D.is_honest disk.new → OnOk result
        (Appends (W.contents out.old.writer) (W.contents out.new.writer)
        (placed_lines (D.contents disk.old) space (placed_pages runs.now))) }
    ensures begins { D.is_honest disk.new → OnFault result
        (PrintsBeginning (W.contents out.old.writer) (W.contents out.new.writer)
        (placed_lines (D.contents disk.old) space (placed_pages runs.now))) }
    ensures reads { OnlyReads D.Disk disk.old disk.new }
    ensures breaks { IfErr result (IsBreak (D.failed disk.old) (D.failed disk.new)) }
    ensures writer { OnWriter result (out.new.refused ≡ true) }
{
    for run in runs {
        print_in_space(disk, space, run, buffer, out)?;
    }
    Ok(())
}

/// Prints the pages of a run, if they are in a space. Pages of zeros have no line.
fn print_in_space<D: Disk, W: Write>(
    disk: &mut D,
    space: SpaceId,
    run: &PlacedRun,
    buffer: &mut [u8],
    out: &mut Output<W>,
) -> Result<(), Stop>
    requires slots { IsInSlots (length (D.contents disk.old)) run.now.there }
    requires within { IsWithin run.now }
    requires room { 4096 ≤ length buffer.old }
    ensures text { D.is_honest disk.new → OnOk result
        (Appends (W.contents out.old.writer) (W.contents out.new.writer)
        (placed_lines (D.contents disk.old) space (pages_in run.now))) }
    ensures begins { D.is_honest disk.new → OnFault result
        (PrintsBeginning (W.contents out.old.writer) (W.contents out.new.writer)
        (placed_lines (D.contents disk.old) space (pages_in run.now))) }
    ensures reads { OnlyReads D.Disk disk.old disk.new }
    ensures breaks { IfErr result (IsBreak (D.failed disk.old) (D.failed disk.new)) }
    ensures writer { OnWriter result (out.new.refused ≡ true) }
{
    if run.space != space {
        return Ok(());
    }
    match run.there {
        Found::Zero => Ok(()),
        Found::Data { .. } => print_run(disk, run, buffer, out),
    }
}

/// Prints the pages of a run, as many at a time as the buffer has room for.
fn print_run<D: Disk, W: Write>(
    disk: &mut D,
    run: &PlacedRun,
    buffer: &mut [u8],
    out: &mut Output<W>,
) -> Result<(), Stop>
    requires slots { IsInSlots (length (D.contents disk.old)) run.now.there }
    requires within { IsWithin run.now }
    requires room { 4096 ≤ length buffer.old }
    ensures text { D.is_honest disk.new → OnOk result
        (Appends (W.contents out.old.writer) (W.contents out.new.writer)
        (flat_map (placed_text (D.contents disk.old)) (pages_in run.now))) }
    ensures begins { D.is_honest disk.new → OnFault result
        (PrintsBeginning (W.contents out.old.writer) (W.contents out.new.writer)
        (flat_map (placed_text (D.contents disk.old)) (pages_in run.now))) }
    ensures reads { OnlyReads D.Disk disk.old disk.new }
    ensures breaks { IfErr result (IsBreak (D.failed disk.old) (D.failed disk.new)) }
    ensures writer { OnWriter result (out.new.refused ≡ true) }
{
    let room = (buffer.len() / PAGE_SIZE) as u64;
    let mut done = 0;
    while done < run.count {
        let count = room.min(run.count - done);
        print_some(
            disk,
            run,
            done,
            count,
            &mut buffer[..count as usize * PAGE_SIZE],
            out,
        )?;
        done += count;
    }
    Ok(())
}

/// Prints so many pages of a run from one on, for which the buffer has room.
#[tactic(auto, using(crate::proofs::EndingLemmas::outside))]
fn print_some<D: Disk, W: Write>(
    disk: &mut D,
    run: &PlacedRun,
    behind: u64,
    count: u64,
    buffer: &mut [u8],
    out: &mut Output<W>,
) -> Result<(), Stop>
    requires slots { IsInSlots (length (D.contents disk.old)) run.now.there }
    requires within { IsWithin run.now }
    requires part { behind + count ≤ run.now.count }
    requires room { length buffer.old ≡ 4096 * count }
    ensures text { D.is_honest disk.new → OnOk result
        (Appends (W.contents out.old.writer) (W.contents out.new.writer)
        (part_of_run (D.contents disk.old) run.now behind count)) }
    ensures begins { D.is_honest disk.new → OnFault result
        (PrintsBeginning (W.contents out.old.writer) (W.contents out.new.writer)
        (part_of_run (D.contents disk.old) run.now behind count)) }
    ensures reads { OnlyReads D.Disk disk.old disk.new }
    ensures breaks { IfErr result (IsBreak (D.failed disk.old) (D.failed disk.new)) }
    ensures writer { OnWriter result (out.new.refused ≡ true) }
{
    read_placed_pages(disk, run.place(behind), buffer)?;
    print_read(run.first.number() + behind, buffer, out)?;
    Ok(())
}

/// Prints pages that were read, from the one with this number on.
fn print_read<W: Write>(first: u64, bytes: &[u8], out: &mut Output<W>) -> io::Result<()>
    requires { first + length bytes.now / 4096 ≤ 2 ^ 35 }
    ensures text { OnOk result (Appends (W.contents out.old.writer) (W.contents out.new.writer)
        (pages_text first bytes.now (length bytes.now / 4096))) }
    ensures refused { OnErr result (out.new.refused ≡ true) }
{
    for k in 0..bytes.len() / PAGE_SIZE {
        let place = PAGE_SIZE * k;
        print_page(
            PAGE_BYTES * (first + k as u64),
            &bytes[place..place + PAGE_SIZE],
            out,
        )?;
    }
    Ok(())
}
