//! What a program that reads a store prints, by the program's name; and answers that are of one moment of the store.
ghost use Rattle.std.specs.Prelude.{◌≡◌, ◌≢◌, ◌<◌, ℕ, true, length, map, slice_range, Option, IfErr, IfOk, IsErrOf};
ghost use Rattle.std.specs.Prelude.{OnOk};
ghost use Rattle.sd_areas.specs.PlainMemory.{PlainMemory};
ghost use Rattle.sd_disk.specs.Contents.{file_at};
ghost use Rattle.sd_disk.specs.Failures.{HasCause};
ghost use Rattle.sd_disk.specs.Reads.{OnlyReads};
ghost use Rattle.sd_image.specs.Shows.{Shows};
ghost use Rattle.sd_restore.specs.declared.fault.Fault.TheVariants as fault;
ghost use Rattle.sd_restore.specs.Faulty.{FaultNames};
ghost use Rattle.sd_exit.specs.Ending.{OnWriter};
ghost use Rattle.sd_readers.specs.declared.steady.Reader.TheVariants.{Restore, List};
ghost use Rattle.sd_readers.specs.Ending.{EndsWithOne, IsReadable, NamesNoSlot, writer_failed};
ghost use Rattle.sd_readers.specs.Fronts.{front};
ghost use Rattle.sd_readers.specs.Reading.{ReadsStore};

use crate::list::print_list;
use crate::restore::print_restored;
use crate::verify::print_report;
use sd_disk::{DeviceError, Disk, file_len, read_file};
use sd_exit::{Output, Stop};
use sd_image::{GATE, HEADER_SIZE};
use sd_restore::Fault;
use std::alloc::Global;
use std::io::Write;

/// A program that reads a store.
#[derive(Clone, Copy, PartialEq, Eq)]
pub enum Reader {
    Restore,
    List,
    Verify,
}

/// How much of a slot's file distinguishes its image: with its serial and its digest.
const FRONT: usize = 96;

/// The front of an open image's file. None of a slot that is closed, or in which an image is being made.
pub type Front = Option<[u8; FRONT]>;

/// Prints what a program prints of a store.
fn print_by<D: Disk, W: Write>(
    alloc: Global,
    reader: Reader,
    disk: &mut D,
    out: &mut Output<W>,
) -> Result<(), Stop>
    ensures store { ReadsStore reader (D.is_honest disk.new) (D.contents disk.old)
        (D.failed disk.old) (D.failed disk.new) result (W.contents out.old.writer) (W.contents out.new.writer) }
    ensures readable { D.is_honest disk.new → reader ≡ List → OnOk result (IsReadable (D.contents disk.old)) }
    ensures good { D.is_honest disk.new → reader ≡ Restore → (shown : Option (ℕ × PlainMemory))
        → Shows (D.contents disk.old) shown → IfErr result NamesNoSlot }
    ensures stopped { reader ≢ Restore → EndsWithOne result }
    ensures writer { OnWriter result (out.new.refused ≡ true) }
    ensures reads { OnlyReads D.Disk disk.old disk.new }
{
    match reader {
        Reader::Restore => print_restored(alloc, disk, out),
        Reader::List => print_list(alloc, disk, out),
        Reader::Verify => print_report(alloc, disk, out),
    }
}

/// The front of a slot's file.
fn front_of<D: Disk>(disk: &mut D, slot: usize) -> Result<Front, DeviceError>
    requires { slot < length (D.contents disk.old) }
    ensures exact { D.is_honest disk.new
        → IfOk result (λ found. found ≡ front (file_at (D.contents disk.old) slot)) }
    ensures reads { OnlyReads D.Disk disk.old disk.new }
    ensures cause { HasCause (D.failed disk.old) (D.failed disk.new) result }
{
    if file_len(disk, slot)? < HEADER_SIZE {
        return Ok(None);
    }
    let mut bytes = [0; FRONT];
    read_file(disk, slot, 0, &mut bytes)?;
    Ok(if bytes[0] == GATE { Some(bytes) } else { None })
}

/// The fronts of all slots' files. As long as they stay the same, so do the open images, since a serial is never given
/// twice: who reads a store beside a run asks before and after what it reads, and gives up where they differ.
///
/// # Errors
///
/// Where a call of the device failed or memory was refused.
pub fn fronts<D: Disk>(alloc: Global, disk: &mut D) -> Result<Vec<Front>, Fault>
    ensures exact { D.is_honest disk.new
        → IfOk result (λ fronts. fronts.items ≡ map front (D.contents disk.old)) }
    ensures unnamed { IfErr result (FaultNames (λ _ _. ⊥)) }
    ensures empty { result ≢ Err fault.EmptyChain }
    ensures reads { OnlyReads D.Disk disk.old disk.new }
    ensures device { IsErrOf result fault.Device → D.failed disk.old < D.failed disk.new }
    ensures stops { D.failed disk.old < D.failed disk.new → IsErrOf result fault.Device }
{
    let mut fronts = Vec::new(alloc);
    for slot in 0..disk.slots() {
        fronts.push(front_of(disk, slot)?)?;
    }
    Ok(fronts)
}

/// Prints what a program prints of a store. Where its images changed meanwhile, the device failed: no answer mixes two
/// moments.
///
/// # Errors
///
/// Those of the program; `Device` and `OutOfMemory` also after all that it prints.
pub(crate) fn print_steady<D: Disk, W: Write>(
    alloc: Global,
    reader: Reader,
    disk: &mut D,
    out: &mut Output<W>,
) -> Result<(), Stop>
    // At its end the whole text of what the store shows is written, and before it a beginning.
    ensures store { ReadsStore reader (D.is_honest disk.new) (D.contents disk.old)
        (D.failed disk.old) (D.failed disk.new) result (W.contents out.old.writer) (W.contents out.new.writer) }
    ensures readable { D.is_honest disk.new → reader ≡ List → OnOk result (IsReadable (D.contents disk.old)) }
    ensures good { D.is_honest disk.new → reader ≡ Restore → (shown : Option (ℕ × PlainMemory))
        → Shows (D.contents disk.old) shown → IfErr result NamesNoSlot }
    ensures stopped { reader ≢ Restore → EndsWithOne result }
    ensures writer { OnWriter result (out.new.refused ≡ true) }
    ensures reads { OnlyReads D.Disk disk.old disk.new }
{
    let before = fronts(alloc, disk)?;
    let ended = print_by(alloc, reader, disk, out);
    if writer_failed(&ended) {
        return ended;
    }
    if fronts(alloc, disk)? == before {
        ended
    } else {
        Err(Stop::Fault(Fault::Device))
    }
}

/// Whether nothing more can be printed.
pub(crate) fn writer_failed(ended: &Result<(), Stop>) -> bool
    ensures { result ≡ writer_failed ended.now }
{
    matches!(ended, Err(Stop::Writer(_)))
}
