//! What a program prints and reports where a store has no image of the checkpoint that is asked for.
ghost use Rattle.sd_exit.specs.Ending.{Exits};
ghost use Rattle.sd_program.specs.Texts.{not_there_text};

use crate::called::Called;
use sd_disk::DirDisk;
use sd_exit::Output;
use sd_history::restorable;
use sd_restore::{Fault, scan};
use std::alloc::{AllocError, Global};
use std::fmt::Write as _;
use std::io::Write;

/// The exit status where a store has no image of the checkpoint that is asked for.
pub const NOT_THERE: u8 = 3;

/// What is reported of a store without a checkpoint that can be restored.
const NONE_THERE: &str = "it has no checkpoint that can be restored";

/// Prints that a store has no image of a checkpoint, and returns the exit status.
pub fn print_not_there<W: Write>(number: u64, out: &mut Output<W>) -> u8
    ensures { Exits (W.contents out.old.writer) (W.contents out.new.writer) out.new.refused
        (not_there_text number) 3 result }
{
    let _ = writeln!(out, "no checkpoint {number}");
    out.finish(NOT_THERE)
}

/// Which numbers the checkpoints have that can be restored, in words.
fn numbers_text(alloc: Global, numbers: &[u64]) -> Result<String, AllocError> {
    let mut text = String::new(alloc);
    for number in numbers {
        text.push_str(if text.is_empty() { "" } else { ", " })?;
        write!(text, "{number}")?;
    }
    Ok(text)
}

/// Which numbers the checkpoints of a store have that can be restored.
fn numbers_of(alloc: Global, disk: &mut DirDisk) -> Result<Vec<u64>, Fault> {
    let catalog = scan(alloc, disk)?;
    Ok(restorable(alloc, &catalog)?)
}

/// The same in words.
fn numbers_in(alloc: Global, disk: &mut DirDisk) -> Result<String, Fault> {
    let numbers = numbers_of(alloc, disk)?;
    Ok(numbers_text(alloc, &numbers)?)
}

/// Reports which checkpoints can be restored.
pub(crate) fn report_numbers(called: Called<'_>, disk: DirDisk) {
    let mut disk = disk;
    match numbers_in(called.rt.alloc(), &mut disk) {
        Ok(text) if text.is_empty() => called.tell(&NONE_THERE),
        Ok(text) => called.tell(&format_args!("it has the checkpoints {text}")),
        Err(_) => {}
    }
}
