//! `ckpt restore` and `ckpt verify` of one checkpoint, whether it is the newest or not.
ghost use Rattle.std.specs.Prelude.{◌≡◌, true, Err, IfErr, OnErr, OnOk};
ghost use Rattle.sd_disk.specs.Reads.{OnlyReads};
ghost use Rattle.sd_restore.specs.declared.fault.Fault.TheVariants as fault;
ghost use Rattle.sd_restore.specs.At.{LacksAt};
ghost use Rattle.sd_exit.specs.declared.stop.Stop.TheVariants as stop;
ghost use Rattle.sd_exit.specs.Ending.{OnWriter};
ghost use Rattle.sd_readers.specs.At.{HasMemoryAt, PrintsAt, PrintsMemoryAt};
ghost use Rattle.sd_readers.specs.Ending.{StandsAlone};

use crate::restore::print_placed;
use crate::steady::{fronts, writer_failed};
use sd_disk::Disk;
use sd_exit::{Output, Stop};
use sd_restore::{Fault, Report, place_at, scan};
use std::alloc::Global;
use std::io;
use std::io::Write;

/// A program that reads one checkpoint of a store.
#[derive(Clone, Copy, PartialEq, Eq)]
pub enum ReaderAt {
    Restore,
    Verify,
}

/// Prints the memory of a store at a checkpoint, after all checks of a restore. It holds a few pages at a time.
#[tactic(auto, using(crate::proofs::EndingLemmas::stands_alone, crate::proofs::EndingLemmas::none_alone))]
fn print_restored_at<D: Disk, W: Write>(
    alloc: Global,
    disk: &mut D,
    number: u64,
    out: &mut Output<W>,
) -> Result<(), Stop>
    ensures text { D.is_honest disk.new → OnOk result
        (PrintsMemoryAt (D.contents disk.old) number (W.contents out.old.writer) (W.contents out.new.writer)) }
    // Nothing is written where the checkpoint isn't there, or the store is damaged.
    ensures alone { IfErr result (StandsAlone (W.contents out.old.writer) (W.contents out.new.writer)) }
    ensures empty { D.is_honest disk.new → result ≡ Err (stop.Fault fault.EmptyChain)
        → LacksAt (D.contents disk.old) number }
    ensures writer { OnWriter result (out.new.refused ≡ true) }
    ensures reads { OnlyReads D.Disk disk.old disk.new }
{
    let catalog = scan(alloc, disk)?;
    let placed = place_at(alloc, &catalog, number)?;
    print_placed(alloc, disk, &placed, out)
}

/// Prints that a checkpoint can be restored, and how many slots are open.
#[tactic(auto, using(crate::proofs::EndingLemmas::stands_alone))]
fn print_report_at<D: Disk, W: Write>(
    alloc: Global,
    disk: &mut D,
    number: u64,
    out: &mut Output<W>,
) -> Result<(), Stop>
    ensures shown { D.is_honest disk.new → OnOk result (HasMemoryAt (D.contents disk.old) number) }
    ensures alone { IfErr result (StandsAlone (W.contents out.old.writer) (W.contents out.new.writer)) }
    ensures empty { D.is_honest disk.new → result ≡ Err (stop.Fault fault.EmptyChain)
        → LacksAt (D.contents disk.old) number }
    ensures writer { OnWriter result (out.new.refused ≡ true) }
    ensures reads { OnlyReads D.Disk disk.old disk.new }
{
    let catalog = scan(alloc, disk)?;
    place_at(alloc, &catalog, number)?;
    let report = Report {
        checkpoint: Some(number),
        images: catalog.list()?.len(),
    };
    print_verdict(report, out)?;
    Ok(())
}

/// Prints what a program prints of a checkpoint.
fn print_by<D: Disk, W: Write>(
    alloc: Global,
    reader: ReaderAt,
    disk: &mut D,
    number: u64,
    out: &mut Output<W>,
) -> Result<(), Stop>
    ensures text { D.is_honest disk.new → OnOk result
        (PrintsAt reader (D.contents disk.old) number (W.contents out.old.writer) (W.contents out.new.writer)) }
    ensures alone { IfErr result (StandsAlone (W.contents out.old.writer) (W.contents out.new.writer)) }
    ensures empty { D.is_honest disk.new → result ≡ Err (stop.Fault fault.EmptyChain)
        → LacksAt (D.contents disk.old) number }
    ensures writer { OnWriter result (out.new.refused ≡ true) }
    ensures reads { OnlyReads D.Disk disk.old disk.new }
{
    match reader {
        ReaderAt::Restore => print_restored_at(alloc, disk, number, out),
        ReaderAt::Verify => print_report_at(alloc, disk, number, out),
    }
}

/// Prints what a program prints of a checkpoint of a store. Where the images changed meanwhile, the device failed: no
/// answer mixes two moments.
///
/// # Errors
///
/// `EmptyChain` where the store has no image of the checkpoint. Else those of a restore; `Device` and `OutOfMemory`
/// also after all that is printed.
pub fn print_at<D: Disk, W: Write>(
    alloc: Global,
    reader: ReaderAt,
    disk: &mut D,
    number: u64,
    out: &mut Output<W>,
) -> Result<(), Stop>
    // At its end the text of the memory that the store has at the checkpoint is written.
    ensures text { D.is_honest disk.new → OnOk result
        (PrintsAt reader (D.contents disk.old) number (W.contents out.old.writer) (W.contents out.new.writer)) }
    // What is wrong with the store is reported alone: nothing is written before.
    ensures alone { IfErr result (StandsAlone (W.contents out.old.writer) (W.contents out.new.writer)) }
    ensures empty { D.is_honest disk.new → result ≡ Err (stop.Fault fault.EmptyChain)
        → LacksAt (D.contents disk.old) number }
    ensures writer { OnWriter result (out.new.refused ≡ true) }
    ensures reads { OnlyReads D.Disk disk.old disk.new }
{
    let before = fronts(alloc, disk)?;
    let ended = print_by(alloc, reader, disk, number, out);
    if writer_failed(&ended) {
        return ended;
    }
    if fronts(alloc, disk)? == before {
        ended
    } else {
        Err(Stop::Fault(Fault::Device))
    }
}

/// Prints the line of `verify` for a store in order.
///
/// # Errors
///
/// What the writer refuses.
pub fn print_verdict<W: Write>(report: Report, out: &mut Output<W>) -> io::Result<()>
    ensures refused { OnErr result (out.new.refused ≡ true) }
{
    match report.checkpoint {
        Some(checkpoint) => writeln!(out, "ok checkpoint {checkpoint} images {}", report.images),
        None => writeln!(out, "ok empty"),
    }
}
