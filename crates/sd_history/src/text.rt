//! The history of a store as text.

use crate::history::{History, Past, Spare};
use std::alloc::{AllocError, Global};
use std::fmt::Write;

/// A line of a checkpoint to which a store goes back.
fn push_past(text: &mut String, past: &Past, is_newest: bool) -> Result<(), AllocError> {
    write!(
        text,
        "checkpoint {} slot {:03} serial {} images {} pages {} own {}",
        past.number, past.slot, past.serial, past.images, past.pages, past.own_bytes,
    )?;
    text.push_str(if is_newest { " newest\n" } else { "\n" })
}

/// A line for each checkpoint to which a store goes back, newest first, and one for each image that none of these
/// needs, rising by serial.
///
/// # Errors
///
/// Out of memory where the text can't grow.
pub fn history_text(alloc: Global, history: &History) -> Result<String, AllocError> {
    let mut text = String::new(alloc);
    for past in &history.past {
        push_past(&mut text, past, history.newest == Some(past.number))?;
    }
    for spare in &history.spare {
        writeln!(
            text,
            "unneeded slot {:03} {} serial {} checkpoint {}",
            spare.slot,
            spare.kind.name(),
            spare.serial,
            spare.checkpoint,
        )?;
    }
    Ok(text)
}

/// A checkpoint as a JSON object.
fn push_past_json(text: &mut String, past: &Past, is_newest: bool) -> Result<(), AllocError> {
    write!(
        text,
        "{{\"checkpoint\":{},\"slot\":{},\"serial\":{},\"images\":{},\"pages\":{},\"own_bytes\":{},",
        past.number, past.slot, past.serial, past.images, past.pages, past.own_bytes,
    )?;
    write!(text, "\"newest\":{is_newest}}}")
}

/// An image as a JSON object.
fn push_spare_json(text: &mut String, spare: &Spare) -> Result<(), AllocError> {
    write!(
        text,
        "{{\"slot\":{},\"kind\":\"{}\",\"serial\":{},\"checkpoint\":{}}}",
        spare.slot,
        spare.kind.name(),
        spare.serial,
        spare.checkpoint,
    )
}

/// What divides an item of a list from the one before it.
fn comma(place: usize) -> &'static str {
    if place == 0 { "" } else { "," }
}

/// The history of a store as one JSON document on a line: its checkpoints, and the images that none of them needs.
///
/// # Errors
///
/// Out of memory where the text can't grow.
pub fn history_json(alloc: Global, history: &History) -> Result<String, AllocError> {
    let mut text = String::new(alloc);
    text.push_str("{\"checkpoints\":[")?;
    for (place, past) in history.past.iter().enumerate() {
        text.push_str(comma(place))?;
        push_past_json(&mut text, past, history.newest == Some(past.number))?;
    }
    text.push_str("],\"unneeded\":[")?;
    for (place, spare) in history.spare.iter().enumerate() {
        text.push_str(comma(place))?;
        push_spare_json(&mut text, spare)?;
    }
    text.push_str("]}\n")?;
    Ok(text)
}
