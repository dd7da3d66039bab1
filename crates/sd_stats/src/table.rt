//! Records as a table for a reader.

use crate::record::{CheckpointRecord, ImageRecord, MergeRecord, Record};
use std::io;
use std::io::Write;

/// The names of the columns.
const HEAD: &str =
    "  serial slot kind      pages    data   zeros  parent       bytes   calls   seconds";

fn print_image<W: Write>(record: &ImageRecord, out: &mut W) -> io::Result<()> {
    writeln!(
        out,
        "{:>8}  {:03} {:<8} {:>6} {:>7} {:>7} {:>7} {:>11} {:>7} {:>9.6}",
        record.serial,
        record.slot,
        record.kind.name(),
        record.pages.all(),
        record.pages.data,
        record.pages.zeros,
        record.pages.parent,
        record.bytes,
        record.calls,
        record.took.as_secs_f64()
    )
}

fn print_checkpoint<W: Write>(record: &CheckpointRecord, out: &mut W) -> io::Result<()> {
    writeln!(
        out,
        "checkpoint {}: {} rounds, {} device calls, {:.6} s; frozen {} device calls, {:.6} s",
        record.number,
        record.rounds,
        record.calls,
        record.took.as_secs_f64(),
        record.frozen_calls,
        record.frozen.as_secs_f64()
    )
}

fn print_merge<W: Write>(record: &MergeRecord, out: &mut W) -> io::Result<()> {
    writeln!(
        out,
        "merge {}: {} images read, {} closed, {:.6} s",
        record.serial,
        record.read,
        record.closed,
        record.took.as_secs_f64()
    )
}

/// Prints records as a table: a row for each image, and a line after those of each checkpoint and each merge.
///
/// # Errors
///
/// Those of the writer.
pub fn print_table<W: Write>(records: &[Record], out: &mut W) -> io::Result<()> {
    writeln!(out, "{HEAD}")?;
    for record in records {
        match record {
            Record::Image(record) => print_image(record, out)?,
            Record::Checkpoint(record) => print_checkpoint(record, out)?,
            Record::Merge(record) => print_merge(record, out)?,
        }
    }
    Ok(())
}
