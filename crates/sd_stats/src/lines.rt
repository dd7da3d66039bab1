//! Records as lines of JSON.

use crate::record::{CheckpointRecord, ImageRecord, MergeRecord, Record};
use sd_show::numbers_object;
use serde_json::{Map, Value, put};
use std::alloc::{AllocError, Global};
use std::io;
use std::io::Write;
use std::time::Duration;

/// An object of what was done, with these numbers and how long it took.
fn line_object(
    alloc: Global,
    of: &str,
    took: Duration,
    numbers: &[(&str, u64)],
) -> Result<Map<String, Value>, AllocError> {
    let mut line = numbers_object(alloc, numbers)?;
    put(&mut line, alloc, "of", Value::try_from_str(alloc, of)?)?;
    put(&mut line, alloc, "seconds", Value::from(took.as_secs_f64()))?;
    Ok(line)
}

fn image_json(alloc: Global, record: &ImageRecord) -> Result<Value, AllocError> {
    let numbers = [
        ("serial", record.serial),
        ("slot", record.slot as u64),
        ("checkpoint", record.checkpoint),
        ("pages", record.pages.all()),
        ("data", record.pages.data),
        ("zeros", record.pages.zeros),
        ("in_parent", record.pages.parent),
        ("bytes", record.bytes),
        ("calls", record.calls),
    ];
    let mut line = line_object(alloc, "image", record.took, &numbers)?;
    let kind = Value::try_from_str(alloc, record.kind.name())?;
    put(&mut line, alloc, "kind", kind)?;
    Ok(Value::Object(line))
}

fn checkpoint_json(alloc: Global, record: &CheckpointRecord) -> Result<Value, AllocError> {
    let numbers = [
        ("checkpoint", record.number),
        ("serial", record.serial),
        ("slot", record.slot as u64),
        ("rounds", record.rounds),
        ("pages", record.pages.all()),
        ("data", record.pages.data),
        ("zeros", record.pages.zeros),
        ("in_parent", record.pages.parent),
        ("bytes", record.bytes),
        ("calls", record.calls),
        ("frozen_calls", record.frozen_calls),
    ];
    let mut line = line_object(alloc, "checkpoint", record.took, &numbers)?;
    let frozen = Value::from(record.frozen.as_secs_f64());
    put(&mut line, alloc, "frozen_seconds", frozen)?;
    Ok(Value::Object(line))
}

fn merge_json(alloc: Global, record: &MergeRecord) -> Result<Value, AllocError> {
    let numbers = [
        ("serial", record.serial),
        ("slot", record.slot as u64),
        ("read", record.read),
        ("closed", record.closed),
        ("calls", record.calls),
    ];
    let line = line_object(alloc, "merge", record.took, &numbers)?;
    Ok(Value::Object(line))
}

/// Prints a record as a line of JSON.
///
/// # Errors
///
/// Those of the writer, and out of memory.
pub fn print_record<W: Write>(alloc: Global, record: &Record, out: &mut W) -> io::Result<()> {
    let document = match record {
        Record::Image(record) => image_json(alloc, record)?,
        Record::Checkpoint(record) => checkpoint_json(alloc, record)?,
        Record::Merge(record) => merge_json(alloc, record)?,
    };
    let text = document.to_string(alloc)?;
    writeln!(out, "{text}")
}
