//! `ckpt list`: the images of a store.
ghost use Rattle.std.specs.Prelude.{◌≡◌, ◌≢◌, true, false, ◌≤◌, IfErr, OnOk};
ghost use Rattle.std.specs.Io.KnownBytes.{Keeps};
ghost use Rattle.sd_disk.specs.Reads.{OnlyReads};
ghost use Rattle.sd_exit.specs.Ending.{OnFault, OnWriter};
ghost use Rattle.sd_readers.specs.declared.steady.Reader.TheVariants as reader;
ghost use Rattle.sd_readers.specs.Ending.{EndsWithOne, IsReadable, StandsAlone};
ghost use Rattle.sd_readers.specs.Printed.{PrintsImages};
ghost use Rattle.sd_readers.specs.Reading.{IsWhy, ReaderEnds};

use crate::listing::list_text;
use crate::steady::{Reader, print_steady};
use sd_disk::Disk;
use sd_exit::{Output, Stop, exit};
use sd_restore::scan;
use std::alloc::Global;
use std::io::Write;

/// Prints a line for each open image, rising by serial, and one for the tip, and returns the exit status.
pub fn list_to<D: Disk, W: Write>(alloc: Global, disk: &mut D, out: &mut Output<W>) -> u8
    // Status 0 only where every open slot is an image, with a serial of its own.
    ensures readable { D.is_honest disk.new → result ≡ 0 → IsReadable (D.contents disk.old) }
    // Every line is then written.
    ensures text { D.is_honest disk.new → result ≡ 0
        → PrintsImages (D.contents disk.old) (W.contents out.old.writer) (W.contents out.new.writer) }
    // A store without a checkpoint is no fault here.
    ensures status { result ≤ 1 }
    // Nothing was refused, but where the status is 1.
    ensures whole { result ≢ 1 → out.new.refused ≡ false }
    // However it ends: the text or a beginning of it, the last line, and the status that comes with it.
    ensures answers { ReaderEnds reader.List (D.is_honest disk.new) (D.contents disk.old)
        (D.failed disk.old) (D.failed disk.new) (W.contents out.old.writer)
        (W.contents out.new.writer) out.new.refused result }
    ensures reads { OnlyReads D.Disk disk.old disk.new }
{
    let ended = print_steady(alloc, Reader::List, disk, out);
    exit(&ended, out)
}

/// Prints the images of a store.
#[tactic(auto, using(crate::proofs::EndingLemmas::stands_alone))]
pub(crate) fn print_list<D: Disk, W: Write>(
    alloc: Global,
    disk: &mut D,
    out: &mut Output<W>,
) -> Result<(), Stop>
    ensures readable { D.is_honest disk.new → OnOk result (IsReadable (D.contents disk.old)) }
    ensures text { D.is_honest disk.new → OnOk result
        (PrintsImages (D.contents disk.old) (W.contents out.old.writer) (W.contents out.new.writer)) }
    // Where a fault stopped it, nothing is written yet.
    ensures none { OnFault result (Keeps (W.contents out.old.writer) (W.contents out.new.writer)) }
    // What is wrong with the store is reported alone.
    ensures alone { IfErr result (StandsAlone (W.contents out.old.writer) (W.contents out.new.writer)) }
    ensures stopped { EndsWithOne result }
    // What stopped it is what it names.
    ensures why { D.is_honest disk.new → IfErr result
        (IsWhy reader.List (D.contents disk.old) (D.failed disk.old) (D.failed disk.new)) }
    ensures writer { OnWriter result (out.new.refused ≡ true) }
    ensures reads { OnlyReads D.Disk disk.old disk.new }
{
    let catalog = scan(alloc, disk)?;
    catalog.sound();
    let text = list_text(alloc, &catalog)?;
    out.write_all(text.as_bytes())?;
    Ok(())
}
