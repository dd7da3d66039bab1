//! Showing one slot, or all of them, as text.
ghost use Rattle.std.specs.Prelude.{◌≡◌, ◌<◌, length, IfOk, OnOk, IsErrOf};
ghost use Rattle.std.specs.List.{list_any};
ghost use Rattle.std.specs.Io.KnownBytes.{Appends};
ghost use Rattle.sd_disk.specs.Contents.{file_at};
ghost use Rattle.sd_disk.specs.Reads.{OnlyReads};
ghost use Rattle.sd_show.specs.Slots.{is_damaged};
ghost use Rattle.sd_show.specs.Texts.{slot_lines, slots_text};
ghost use Rattle.sd_show.specs.declared.stop.Stop.TheVariants as stop;

use crate::seen::read_slot;
use crate::stop::Stop;
use crate::text::print_slot;
use sd_disk::Disk;
use std::alloc::Global;
use std::io::Write;

/// Shows a slot as text, and returns whether it is damaged. It only reads, and holds no more of the file than its
/// header, its table, and 16 pages at a time.
///
/// # Errors
///
/// Where a call of the device fails, memory runs out, or nothing more can be printed.
pub fn show_slot<D: Disk, W: Write>(
    alloc: Global,
    disk: &mut D,
    slot: usize,
    out: &mut W,
) -> Result<bool, Stop>
    requires { slot < length (D.contents disk.old) }
    // What is printed is the text of the slot's file, whatever is in it.
    ensures text { D.is_honest disk.new → OnOk result
        (Appends (W.contents out.old) (W.contents out.new)
        (slot_lines slot (file_at (D.contents disk.old) slot))) }
    // It is damaged exactly where it is open, and its file no image.
    ensures damaged { D.is_honest disk.new → IfOk result
        (λ damaged. damaged ≡ is_damaged (file_at (D.contents disk.old) slot)) }
    ensures reads { OnlyReads D.Disk disk.old disk.new }
    ensures device { IsErrOf result stop.Device → D.failed disk.old < D.failed disk.new }
    ensures stops { D.failed disk.old < D.failed disk.new → IsErrOf result stop.Device }
{
    let seen = read_slot(alloc, disk, slot)?;
    print_slot(slot, &seen, out)?;
    Ok(seen.is_damaged())
}

/// Shows each slot as text, rising, and returns whether any is damaged. It only reads.
///
/// # Errors
///
/// Where a call of the device fails, memory runs out, or nothing more can be printed.
pub fn show_slots<D: Disk, W: Write>(alloc: Global, disk: &mut D, out: &mut W) -> Result<bool, Stop>
    // What is printed is the text of each slot's file, one after the other.
    ensures text { D.is_honest disk.new → OnOk result
        (Appends (W.contents out.old) (W.contents out.new) (slots_text (D.contents disk.old))) }
    ensures damaged { D.is_honest disk.new → IfOk result
        (λ damaged. damaged ≡ list_any is_damaged (D.contents disk.old)) }
    ensures reads { OnlyReads D.Disk disk.old disk.new }
    ensures device { IsErrOf result stop.Device → D.failed disk.old < D.failed disk.new }
    ensures stops { D.failed disk.old < D.failed disk.new → IsErrOf result stop.Device }
{
    let mut damaged = false;
    for slot in 0..disk.slots() {
        damaged |= show_slot(alloc, disk, slot, out)?;
    }
    Ok(damaged)
}
