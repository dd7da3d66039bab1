//! `ckpt diff`: what differs between the memories of a store at two checkpoints.
ghost use Rattle.std.specs.Prelude.{◌≡◌, ◌≢◌, ◌⊎◌, IfErr, OnOk};
ghost use Rattle.sd_diff.specs.Difference.{HasBoth};
ghost use Rattle.sd_disk.specs.Reads.{OnlyReads};
ghost use Rattle.sd_exit.specs.Ending.{status_of};
ghost use Rattle.sd_restore.specs.declared.fault.Fault.TheVariants as restore;

use crate::queries::{lacks_printed, print_fault, status_or};
use sd_diff::{DiffFault, Difference, diff, difference_json, difference_text};
use sd_disk::Disk;
use sd_exit::{Output, Stop, exit};
use sd_program::print_not_there;
use sd_readers::fronts;
use sd_restore::Fault;
use std::alloc::Global;
use std::io::Write;

/// Which checkpoints are compared.
#[derive(Clone, Copy)]
pub struct Compared {
    pub old: u64,
    pub new: u64,
    /// Whether one JSON document is printed.
    pub is_document: bool,
}

/// Why a difference isn't shown that a reading may have disturbed.
fn unread(fault: Fault) -> DiffFault
    ensures { (result ≡ DiffFault.Device) ⊎ (result ≡ DiffFault.OutOfMemory) }
{
    match fault {
        Fault::OutOfMemory => DiffFault::OutOfMemory,
        _ => DiffFault::Device,
    }
}

/// Compares two checkpoints of a store, of one moment.
fn diff_steady<D: Disk>(
    alloc: Global,
    compared: Compared,
    disk: &mut D,
) -> Result<Difference, DiffFault>
    ensures both { D.is_honest disk.new → OnOk result (HasBoth (D.contents disk.old) compared.old compared.new) }
    ensures reads { OnlyReads D.Disk disk.old disk.new }
{
    let before = fronts(alloc, disk).map_err(unread)?;
    let difference = diff(alloc, disk, compared.old, compared.new)?;
    if fronts(alloc, disk).map_err(unread)? != before {
        return Err(DiffFault::Device);
    }
    Ok(difference)
}

/// Prints what differs.
fn print_difference<W: Write>(
    alloc: Global,
    is_document: bool,
    difference: &Difference,
    out: &mut Output<W>,
) -> Result<(), Stop>
    ensures stopped { IfErr result (λ why. status_of why ≡ 1) }
{
    let text = if is_document {
        difference_json(alloc, difference)?
    } else {
        difference_text(alloc, difference)?
    };
    out.write_all(text.as_bytes())?;
    Ok(())
}

/// Prints a fault of the store, and returns the exit status.
fn end_with<W: Write>(alloc: Global, is_document: bool, fault: Fault, out: &mut Output<W>) -> u8
    ensures failed { fault ≢ restore.EmptyChain → result ≡ 1 }
{
    if is_document {
        status_or(print_fault(alloc, fault, out), out)
    } else {
        exit(&Err(Stop::Fault(fault)), out)
    }
}

/// Prints that a store has no image of a checkpoint, and returns the exit status.
fn end_without<W: Write>(alloc: Global, is_document: bool, number: u64, out: &mut Output<W>) -> u8
    ensures { (result ≡ 3) ⊎ (result ≡ 1) }
{
    if is_document {
        status_or(lacks_printed(alloc, number, out), out)
    } else {
        print_not_there(number, out)
    }
}

/// Prints what differs between two checkpoints, or why there is nothing, and returns the exit status.
pub(crate) fn print_compared<D: Disk, W: Write>(
    alloc: Global,
    compared: Compared,
    disk: &mut D,
    out: &mut Output<W>,
) -> u8
    ensures both { D.is_honest disk.new → result ≡ 0 → HasBoth (D.contents disk.old) compared.old compared.new }
    ensures reads { OnlyReads D.Disk disk.old disk.new }
{
    let is_document = compared.is_document;
    match diff_steady(alloc, compared, disk) {
        Ok(difference) => exit(&print_difference(alloc, is_document, &difference, out), out),
        Err(DiffFault::NoCheckpoint(number)) => end_without(alloc, is_document, number, out),
        Err(DiffFault::Damaged { slot, reason }) => {
            end_with(alloc, is_document, Fault::Damaged { slot, reason }, out)
        }
        Err(DiffFault::Device) => end_with(alloc, is_document, Fault::Device, out),
        Err(DiffFault::OutOfMemory) => end_with(alloc, is_document, Fault::OutOfMemory, out),
    }
}
