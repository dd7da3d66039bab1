//! Showing one slot, or all of them, as a JSON document: the numbers of the files, under the names that the format has
//! for them.
ghost use Rattle.std.specs.Prelude.{◌≡◌, ◌≢◌, Err, ◌<◌, ◌≤◌, length, IfOk, IsErrOf};
ghost use Rattle.std.specs.List.{list_any};
ghost use Rattle.sd_disk.specs.Contents.{file_at};
ghost use Rattle.sd_disk.specs.Reads.{OnlyReads};
ghost use Rattle.sd_show.specs.Slots.{is_damaged};
ghost use Rattle.sd_show.specs.declared.stop.Stop.TheVariants as stop;

use crate::header_text::digest_word;
use crate::items::{
    ITEM_SIZE, SPACE_HEAD_SIZE, TABLE_HEAD_SIZE, areas_in, place_after_run, place_after_space,
    runs_in,
};
use crate::numbers::numbers_object;
use crate::opened::Opened;
use crate::phrases::reason_phrase;
use crate::seen::{Seen, read_slot};
use crate::state::state_word;
use crate::stop::Stop;
use sd_disk::Disk;
use sd_image::{HEADER_SIZE, Reason, u16_at, u32_at, u64_at};
use serde_json::{Map, Value, json, put};
use std::alloc::{AllocError, Global};
use std::io::Write;

/// Why a slot is damaged, or null.
fn fault_json(alloc: Global, fault: Option<Reason>) -> Result<Value, AllocError> {
    let Some(reason) = fault else {
        return Ok(Value::Null);
    };
    json!(in alloc; {"reason": reason.number(), "why": reason_phrase(reason)})
}

/// The fields of a header.
fn header_json(alloc: Global, front: &[u8; HEADER_SIZE]) -> Result<Value, AllocError> {
    let digest = hex::encode(alloc, &front[64..96])?;
    let mut header = numbers_object(
        alloc,
        &[
            ("version", u64::from(u16_at(front, 8))),
            ("kind", u64::from(u16_at(front, 10))),
            ("serial", u64_at(front, 16)),
            ("stands_for", u64_at(front, 24)),
            ("parent", u64_at(front, 32)),
            ("checkpoint", u64_at(front, 40)),
            ("pages", u64_at(front, 48)),
            ("table_len", u64_at(front, 56)),
        ],
    )?;
    put(&mut header, alloc, "digest", Value::String(digest))?;
    Ok(Value::Object(header))
}

/// An area.
fn area_json(alloc: Global, area: &[u8; ITEM_SIZE]) -> Result<Value, AllocError> {
    let area = numbers_object(
        alloc,
        &[
            ("first", u64_at(area, 0)),
            ("count", u64_at(area, 8)),
            ("permissions", u64::from(u32_at(area, 16))),
        ],
    )?;
    Ok(Value::Object(area))
}

/// Areas, in their order.
fn areas_json(alloc: Global, areas: &[[u8; ITEM_SIZE]]) -> Result<Value, AllocError> {
    let mut shown = Vec::new(alloc);
    for area in areas {
        shown.push(area_json(alloc, area)?)?;
    }
    Ok(Value::from(shown))
}

/// A run, whose bytes begin at a place in the file if it is of data.
fn run_json(alloc: Global, at: Option<u64>, run: &[u8; ITEM_SIZE]) -> Result<Value, AllocError> {
    let kind = u32_at(run, 16);
    let offset = if kind == 1 { at } else { None };
    let mut shown = numbers_object(
        alloc,
        &[
            ("first", u64_at(run, 0)),
            ("count", u64_at(run, 8)),
            ("kind", u64::from(kind)),
        ],
    )?;
    put(&mut shown, alloc, "offset", Value::from(offset))?;
    Ok(Value::Object(shown))
}

/// Runs, in their order, and where the next data page stands after them.
fn runs_json(
    alloc: Global,
    at: Option<u64>,
    runs: &[[u8; ITEM_SIZE]],
) -> Result<(Value, Option<u64>), AllocError> {
    let mut shown = Vec::new(alloc);
    let mut next = at;
    for run in runs {
        shown.push(run_json(alloc, next, run)?)?;
        next = place_after_run(next, run);
    }
    Ok((Value::from(shown), next))
}

/// The space that bytes begin with, and where the next data page stands after it.
fn space_json(
    alloc: Global,
    at: Option<u64>,
    bytes: &[u8],
) -> Result<(Value, Option<u64>), AllocError>
    requires { 16 ≤ length bytes.now }
{
    let number = u64::from(u32_at(bytes, 0));
    let mut space = numbers_object(alloc, &[("space", number)])?;
    let areas = areas_json(alloc, areas_in(bytes))?;
    put(&mut space, alloc, "areas", areas)?;
    let (runs, next) = runs_json(alloc, at, runs_in(bytes))?;
    put(&mut space, alloc, "runs", runs)?;
    Ok((Value::Object(space), next))
}

/// So many spaces, as far as the bytes go.
fn spaces_json(alloc: Global, count: u32, bytes: &[u8]) -> Result<Value, AllocError> {
    let mut shown = Vec::new(alloc);
    let mut left = count;
    let mut rest = bytes;
    let mut at = Some(HEADER_SIZE as u64);
    while left > 0 && rest.len() >= SPACE_HEAD_SIZE {
        let (space, next) = space_json(alloc, at, rest)?;
        shown.push(space)?;
        at = next;
        rest = place_after_space(rest);
        left -= 1;
    }
    Ok(Value::from(shown))
}

/// A table, as far as its bytes go.
fn table_json(alloc: Global, table: &[u8]) -> Result<Value, AllocError> {
    if table.len() < TABLE_HEAD_SIZE {
        return Ok(Value::from(Vec::new(alloc)));
    }
    spaces_json(alloc, u32_at(table, 0), &table[TABLE_HEAD_SIZE..])
}

/// Puts that a slot is open, and what its digest is.
fn put_words(
    alloc: Global,
    shown: &mut Map<String, Value>,
    digest: &str,
) -> Result<(), AllocError> {
    let open = Value::try_from_str(alloc, "open")?;
    put(shown, alloc, "state", open)?;
    let digest = Value::try_from_str(alloc, digest)?;
    put(shown, alloc, "digest", digest)
}

/// An open slot.
fn opened_json(alloc: Global, slot: usize, opened: &Opened) -> Result<Value, AllocError> {
    let mut shown = numbers_object(alloc, &[("slot", slot as u64)])?;
    put(
        &mut shown,
        alloc,
        "damaged",
        fault_json(alloc, opened.fault)?,
    )?;
    put(
        &mut shown,
        alloc,
        "header",
        header_json(alloc, &opened.front)?,
    )?;
    put(
        &mut shown,
        alloc,
        "spaces",
        table_json(alloc, &opened.table)?,
    )?;
    put_words(
        alloc,
        &mut shown,
        digest_word(&opened.front, &opened.digest),
    )?;
    Ok(Value::Object(shown))
}

/// A slot.
fn slot_json(alloc: Global, slot: usize, seen: &Seen) -> Result<Value, AllocError> {
    match &seen.opened {
        Some(opened) => opened_json(alloc, slot, opened),
        None => json!(in alloc; {"slot": slot, "state": state_word(seen.state)}),
    }
}

/// Reads a slot, and takes it into the slots of a document. Returns whether it is damaged.
fn take_slot<D: Disk>(
    alloc: Global,
    disk: &mut D,
    slot: usize,
    slots: &mut Vec<Value>,
) -> Result<bool, Stop>
    requires { slot < length (D.contents disk.old) }
    ensures damaged { D.is_honest disk.new → IfOk result
        (λ damaged. damaged ≡ is_damaged (file_at (D.contents disk.old) slot)) }
    ensures reads { OnlyReads D.Disk disk.old disk.new }
    ensures device { IsErrOf result stop.Device → D.failed disk.old < D.failed disk.new }
    ensures stops { D.failed disk.old < D.failed disk.new → IsErrOf result stop.Device }
{
    let seen = read_slot(alloc, disk, slot)?;
    slots.push(slot_json(alloc, slot, &seen)?)?;
    Ok(seen.is_damaged())
}

/// Prints a document of these slots.
fn print_document<W: Write>(alloc: Global, slots: Vec<Value>, out: &mut W) -> Result<(), Stop>
    ensures { result ≢ Err stop.Device }
{
    let document = json!(in alloc; {"slots": slots})?;
    writeln!(out, "{}", document.to_string(alloc)?)?;
    Ok(())
}

/// Shows a slot as a JSON document, and returns whether it is damaged. It only reads. Nothing is printed before all
/// was read.
///
/// # Errors
///
/// Where a call of the device fails, memory runs out, or nothing more can be printed.
pub fn show_slot_json<D: Disk, W: Write>(
    alloc: Global,
    disk: &mut D,
    slot: usize,
    out: &mut W,
) -> Result<bool, Stop>
    requires { slot < length (D.contents disk.old) }
    // It is damaged exactly where it is open, and its file no image.
    ensures damaged { D.is_honest disk.new → IfOk result
        (λ damaged. damaged ≡ is_damaged (file_at (D.contents disk.old) slot)) }
    ensures reads { OnlyReads D.Disk disk.old disk.new }
    ensures device { IsErrOf result stop.Device → D.failed disk.old < D.failed disk.new }
    ensures stops { D.failed disk.old < D.failed disk.new → IsErrOf result stop.Device }
{
    let mut slots = Vec::new(alloc);
    let damaged = take_slot(alloc, disk, slot, &mut slots)?;
    print_document(alloc, slots, out)?;
    Ok(damaged)
}

/// Reads each slot, rising, and takes it into the slots of a document. Returns whether any is damaged.
fn take_slots<D: Disk>(alloc: Global, disk: &mut D, slots: &mut Vec<Value>) -> Result<bool, Stop>
    ensures damaged { D.is_honest disk.new → IfOk result
        (λ damaged. damaged ≡ list_any is_damaged (D.contents disk.old)) }
    ensures reads { OnlyReads D.Disk disk.old disk.new }
    ensures device { IsErrOf result stop.Device → D.failed disk.old < D.failed disk.new }
    ensures stops { D.failed disk.old < D.failed disk.new → IsErrOf result stop.Device }
{
    let mut damaged = false;
    for slot in 0..disk.slots() {
        damaged |= take_slot(alloc, disk, slot, slots)?;
    }
    Ok(damaged)
}

/// Shows all slots as one JSON document, and returns whether any is damaged. It only reads. Nothing is printed before
/// all was read.
///
/// # Errors
///
/// Where a call of the device fails, memory runs out, or nothing more can be printed.
pub fn show_slots_json<D: Disk, W: Write>(
    alloc: Global,
    disk: &mut D,
    out: &mut W,
) -> Result<bool, Stop>
    ensures damaged { D.is_honest disk.new → IfOk result
        (λ damaged. damaged ≡ list_any is_damaged (D.contents disk.old)) }
    ensures reads { OnlyReads D.Disk disk.old disk.new }
    ensures device { IsErrOf result stop.Device → D.failed disk.old < D.failed disk.new }
    ensures stops { D.failed disk.old < D.failed disk.new → IsErrOf result stop.Device }
{
    let mut slots = Vec::new(alloc);
    let damaged = take_slots(alloc, disk, &mut slots)?;
    print_document(alloc, slots, out)?;
    Ok(damaged)
}
