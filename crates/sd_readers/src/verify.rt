//! `ckpt verify`: checking that a store can be restored.
ghost use Rattle.std.specs.Prelude.{◌≡◌, ◌≢◌, true, false, ◌≤◌, IfErr, OnOk};
ghost use Rattle.std.specs.Io.KnownBytes.{Keeps};
ghost use Rattle.sd_disk.specs.Reads.{OnlyReads};
ghost use Rattle.sd_exit.specs.Ending.{OnFault, OnWriter};
ghost use Rattle.sd_readers.specs.declared.steady.Reader.TheVariants as reader;
ghost use Rattle.sd_readers.specs.Ending.{EndsWithOne, IsShowing, StandsAlone};
ghost use Rattle.sd_readers.specs.Printed.{PrintsVerdict};
ghost use Rattle.sd_readers.specs.Reading.{IsWhy, ReaderEnds};

use crate::steady::{Reader, print_steady};
use sd_disk::Disk;
use sd_exit::{Output, Stop, exit};
use sd_restore::verify;
use std::alloc::Global;
use std::io::Write;

/// Prints whether a store shows a checkpoint or that nothing was saved, and returns the exit status.
pub fn verify_to<D: Disk, W: Write>(alloc: Global, disk: &mut D, out: &mut Output<W>) -> u8
    // Status 0 only where the store shows one of the two.
    ensures showing { D.is_honest disk.new → result ≡ 0 → IsShowing (D.contents disk.old) }
    // The whole line is then written.
    ensures text { D.is_honest disk.new → result ≡ 0
        → PrintsVerdict (D.contents disk.old) (W.contents out.old.writer) (W.contents out.new.writer) }
    // A store without a checkpoint is no fault here.
    ensures status { result ≤ 1 }
    // Nothing was refused, but where the status is 1.
    ensures whole { result ≢ 1 → out.new.refused ≡ false }
    // However it ends: the text or a beginning of it, the last line, and the status that comes with it.
    ensures answers { ReaderEnds reader.Verify (D.is_honest disk.new) (D.contents disk.old)
        (D.failed disk.old) (D.failed disk.new) (W.contents out.old.writer)
        (W.contents out.new.writer) out.new.refused result }
    ensures reads { OnlyReads D.Disk disk.old disk.new }
{
    let ended = print_steady(alloc, Reader::Verify, disk, out);
    exit(&ended, out)
}

/// Prints what a store shows.
#[tactic(auto, using(crate::proofs::EndingLemmas::stands_alone))]
pub(crate) fn print_report<D: Disk, W: Write>(
    alloc: Global,
    disk: &mut D,
    out: &mut Output<W>,
) -> Result<(), Stop>
    ensures showing { D.is_honest disk.new → OnOk result (IsShowing (D.contents disk.old)) }
    ensures text { D.is_honest disk.new → OnOk result
        (PrintsVerdict (D.contents disk.old) (W.contents out.old.writer) (W.contents out.new.writer)) }
    // Where a fault stopped it, nothing is written yet.
    ensures none { OnFault result (Keeps (W.contents out.old.writer) (W.contents out.new.writer)) }
    // What is wrong with the store is reported alone.
    ensures alone { IfErr result (StandsAlone (W.contents out.old.writer) (W.contents out.new.writer)) }
    ensures stopped { EndsWithOne result }
    // What stopped it is what it names.
    ensures why { D.is_honest disk.new → IfErr result
        (IsWhy reader.Verify (D.contents disk.old) (D.failed disk.old) (D.failed disk.new)) }
    ensures writer { OnWriter result (out.new.refused ≡ true) }
    ensures reads { OnlyReads D.Disk disk.old disk.new }
{
    let report = verify(alloc, disk)?;
    match report.checkpoint {
        Some(checkpoint) => writeln!(out, "ok checkpoint {checkpoint} images {}", report.images)?,
        None => writeln!(out, "ok empty")?,
    }
    Ok(())
}
