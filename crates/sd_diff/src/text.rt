//! What differs, as text.

use crate::difference::{AreaChange, Difference, PageRun};
use sd_areas::{PAGE_BYTES, Prot};
use std::alloc::{AllocError, Global};
use std::fmt::Write;

/// How many pages of each kind differ.
#[derive(Clone, Copy)]
struct Counts {
    came: u64,
    went: u64,
    protected: u64,
    written: u64,
}

/// How many pages came, went and were protected otherwise.
fn count_areas(areas: &[AreaChange]) -> Counts {
    let mut came: u64 = 0;
    let mut went: u64 = 0;
    let mut protected: u64 = 0;
    for change in areas {
        let count = change.pages.count;
        match (change.old, change.new) {
            (None, _) => came = came.saturating_add(count),
            (_, None) => went = went.saturating_add(count),
            _ => protected = protected.saturating_add(count),
        }
    }
    Counts {
        came,
        went,
        protected,
        written: 0,
    }
}

/// How many pages some runs have.
fn count_pages(runs: &[PageRun]) -> u64 {
    let mut pages: u64 = 0;
    for run in runs {
        pages = pages.saturating_add(run.count);
    }
    pages
}

/// How many pages of each kind differ.
fn counts_of(difference: &Difference) -> Counts {
    let areas = count_areas(&difference.areas);
    Counts {
        written: count_pages(&difference.written),
        ..areas
    }
}

/// What divides the permissions of a change from those before it.
fn push_prot(text: &mut String, prot: Option<Prot>) -> Result<(), AllocError> {
    match prot {
        Some(prot) => write!(text, " {prot}"),
        None => Ok(()),
    }
}

/// The space of pages, their first address, and the one after their last.
fn push_range(text: &mut String, sign: char, pages: &PageRun) -> Result<(), AllocError> {
    let first = pages.first.number();
    let end = first.saturating_add(pages.count);
    let space = pages.space.number();
    write!(
        text,
        "{sign} {space} {:#x}-{:#x}",
        first.saturating_mul(PAGE_BYTES),
        end.saturating_mul(PAGE_BYTES),
    )
}

/// The line of pages whose permissions differ.
fn push_area(text: &mut String, change: &AreaChange) -> Result<(), AllocError> {
    let sign = match (change.old, change.new) {
        (None, _) => '+',
        (_, None) => '-',
        _ => '~',
    };
    push_range(text, sign, &change.pages)?;
    push_prot(text, change.old)?;
    push_prot(text, change.new)?;
    text.push('\n')
}

/// The line of pages whose bytes differ.
fn push_written(text: &mut String, pages: &PageRun) -> Result<(), AllocError> {
    push_range(text, '*', pages)?;
    writeln!(text, " {}", pages.count)
}

/// Whether pages begin before others.
fn is_before(run: &PageRun, other: &PageRun) -> bool {
    let space = run.space.number();
    let page = run.first.number();
    space < other.space.number() || space == other.space.number() && page < other.first.number()
}

/// The lines of the written pages from one run on that begin before others. Returns which run is the next.
fn push_written_before(
    text: &mut String,
    written: &[PageRun],
    from: usize,
    pages: &PageRun,
) -> Result<usize, AllocError> {
    for place in from..written.len() {
        if !is_before(&written[place], pages) {
            return Ok(place);
        }
        push_written(text, &written[place])?;
    }
    Ok(written.len())
}

/// The lines of the written pages from one run on.
fn push_rest(text: &mut String, written: &[PageRun], from: usize) -> Result<(), AllocError> {
    for place in from..written.len() {
        push_written(text, &written[place])?;
    }
    Ok(())
}

/// The line of how many pages of each kind differ.
fn push_counts(text: &mut String, counts: Counts) -> Result<(), AllocError> {
    writeln!(
        text,
        "came {} went {} protected {} written {}",
        counts.came, counts.went, counts.protected, counts.written,
    )
}

/// A line for each run of pages that differ alike, rising by space and first page, and then how many pages differ: `+`
/// pages that came, `-` those that went, `~` those with other permissions, `*` those with other bytes.
///
/// # Errors
///
/// Out of memory where the text can't grow.
pub fn difference_text(alloc: Global, difference: &Difference) -> Result<String, AllocError> {
    let mut text = String::new(alloc);
    let mut next = 0;
    for change in &difference.areas {
        next = push_written_before(&mut text, &difference.written, next, &change.pages)?;
        push_area(&mut text, change)?;
    }
    push_rest(&mut text, &difference.written, next)?;
    push_counts(&mut text, counts_of(difference))?;
    Ok(text)
}

/// Permissions as a number, or `null` where a page isn't mapped.
fn push_prot_json(text: &mut String, name: &str, prot: Option<Prot>) -> Result<(), AllocError> {
    match prot {
        Some(prot) => write!(text, ",\"{name}\":{}", prot.bits()),
        None => write!(text, ",\"{name}\":null"),
    }
}

/// The members of pages, without the end of their object.
fn push_pages_json(text: &mut String, pages: &PageRun) -> Result<(), AllocError> {
    let space = pages.space.number();
    let first = pages.first.number();
    let count = pages.count;
    write!(
        text,
        "{{\"space\":{space},\"first\":{first},\"count\":{count}"
    )
}

/// What divides an item of a list from the one before it.
fn comma(place: usize) -> &'static str {
    if place == 0 { "" } else { "," }
}

/// The pages whose permissions differ, as the items of a list.
fn push_areas_json(text: &mut String, areas: &[AreaChange]) -> Result<(), AllocError> {
    for (place, change) in areas.iter().enumerate() {
        text.push_str(comma(place))?;
        push_pages_json(text, &change.pages)?;
        push_prot_json(text, "old", change.old)?;
        push_prot_json(text, "new", change.new)?;
        text.push('}')?;
    }
    Ok(())
}

/// The pages whose bytes differ, as the items of a list.
fn push_written_json(text: &mut String, written: &[PageRun]) -> Result<(), AllocError> {
    for (place, pages) in written.iter().enumerate() {
        text.push_str(comma(place))?;
        push_pages_json(text, pages)?;
        text.push('}')?;
    }
    Ok(())
}

/// What differs as one JSON document on a line: the pages whose permissions differ, those whose bytes do, and how many
/// pages of each kind there are.
///
/// # Errors
///
/// Out of memory where the text can't grow.
pub fn difference_json(alloc: Global, difference: &Difference) -> Result<String, AllocError> {
    let mut text = String::new(alloc);
    text.push_str("{\"areas\":[")?;
    push_areas_json(&mut text, &difference.areas)?;
    text.push_str("],\"written\":[")?;
    push_written_json(&mut text, &difference.written)?;
    let counts = counts_of(difference);
    writeln!(
        text,
        "],\"pages\":{{\"came\":{},\"went\":{},\"protected\":{},\"written\":{}}}}}",
        counts.came, counts.went, counts.protected, counts.written,
    )?;
    Ok(text)
}
